//! Protocols whose processes wait for all but some number of them.
ghost use Rattle.std.specs.Prelude.{◌≡◌, ◌↔◌, ◌∷◌, [], ℕ, IsTrue, Some};
ghost use Rattle.protocol_lang.specs.Comparisons.{comparison_by};
ghost use Rattle.protocol_lang.specs.Trees.{Named};
ghost use Rattle.protocol_lang.specs.Thresholds.{decides_least, sees_all_but, waits_for_all_but, writes_own};

use crate::comparison::Test;
use crate::formula::Formula;
use crate::outline::Outline;
use crate::protocol::Protocol;
use crate::rules::{ActionRule, Rule};
use crate::tree::{Comparator, Kind, Name};

/// The number f, where the protocol is `first input; when count >= n - f decide min; else write mine;` but for parentheses and
/// spaces: by it a process waits until it sees all processes but f, and then decides the least value (Chaudhuri 1993). It takes no
/// memory.
pub fn threshold(protocol: &Protocol) -> Option<u32>
    ensures { (f : ℕ) → (result ≡ Some f) ↔ (protocol.now ≡ waits_for_all_but f) }
{
    let tree = &protocol.tree;
    if !is_input(&tree.first) || !is_write_of_own(&tree.last) {
        return None;
    }
    let [rule] = tree.rules.as_slice() else {
        return None;
    };
    missed_by(rule)
}

/// The number f, where the rule is `when count >= n - f decide min`.
fn missed_by(rule: &Rule) -> Option<u32>
    ensures { (f : ℕ) → (result ≡ Some f) ↔ (rule.now ≡ record { conditions = sees_all_but f ∷ []; action_rule = decides_least }) }
{
    if !is_decide_of_least(&rule.action_rule) {
        return None;
    }
    let [comparison] = rule.conditions.as_slice() else {
        return None;
    };
    missed_in(comparison.test())
}

/// The number f, where the comparison is `count >= n - f`.
fn missed_in(test: &Test) -> Option<u32>
    ensures { (f : ℕ) → (result ≡ Some f) ↔ (comparison_by test.now ≡ sees_all_but f) }
{
    let Test::Formulas(left, Comparator::GreaterOrEqual, right) = test else {
        return None;
    };
    if !is_count(left) {
        return None;
    }
    right.outline().number()
}

fn is_input(formula: &Formula) -> bool
    ensures { IsTrue result ↔ (formula.now ≡ Named Name.Input) }
{
    matches!(formula.outline(), Outline::Named(Name::Input))
}

fn is_count(formula: &Formula) -> bool
    ensures { IsTrue result ↔ (formula.now ≡ Named Name.Count) }
{
    matches!(formula.outline(), Outline::Named(Name::Count))
}

fn is_decide_of_least(action_rule: &ActionRule) -> bool
    ensures { IsTrue result ↔ (action_rule.now ≡ decides_least) }
{
    let is_min = matches!(action_rule.value.outline(), Outline::Named(Name::Min));
    matches!(action_rule.kind, Kind::Decide) && is_min
}

fn is_write_of_own(action_rule: &ActionRule) -> bool
    ensures { IsTrue result ↔ (action_rule.now ≡ writes_own) }
{
    let is_mine = matches!(action_rule.value.outline(), Outline::Named(Name::Mine));
    matches!(action_rule.kind, Kind::Write) && is_mine
}

//! What a protocol writes and decides.
ghost use Rattle.std.specs.Prelude.{◌≡◌, length};
ghost use Rattle.std.specs.List.{find, list_all};
ghost use Rattle.std.specs.Option.{option_map};
ghost use Rattle.protocol_lang.specs.Meaning.{holds, applies, action, action_of, action_in, first_value, next_action};

use crate::comparison::Comparison;
use crate::environment::Environment;
use crate::formula::{FEW_WAITING, MOST_WAITING};
use crate::protocol::Protocol;
use crate::rules::{ActionRule, Rule, Tree};
use crate::tree::Kind;
use arrayvec::ArrayVec;

/// The most processes of a room.
pub const MAX_PROCESSES: usize = 16;

/// A snapshot: for each process its last write, or nothing. It has an entry for each process.
pub type View = ArrayVec<Option<u32>, MAX_PROCESSES>;

/// What a process does after a snapshot.
#[derive(Clone, Copy, Debug, PartialEq, Eq)]
pub enum Action {
    Write(u32),
    Decide(u32),
}

/// The first value that the process number `id` of `n` processes writes.
pub fn first(protocol: &Protocol, input: u32, id: u32, n: u32) -> u32
    ensures { result ≡ first_value protocol.now input id n }
{
    let environment = Environment::new(input, id, n, 0, &[]);
    protocol.tree.first.value_alone(&environment)
}

/// What the process number `id` does after its snapshot `view`, before which it made `round`
/// writes. There are as many processes as the view has entries.
pub fn next(protocol: &Protocol, input: u32, id: u32, round: u32, view: &View) -> Action
    ensures { result ≡ next_action protocol.now input id round view.now.items }
{
    let environment = Environment::new(input, id, view.len() as u32, round, view.as_slice());
    if protocol.is_long {
        return next_by_long(&protocol.tree, &environment);
    }
    action_in(&protocol.tree, &environment, &mut [0; FEW_WAITING])
}

/// The same by a protocol whose expressions may be long. Only how long it takes rests on which of the two is called.
#[inline(never)]
fn next_by_long(tree: &Tree, environment: &Environment<'_>) -> Action
    ensures { result ≡ action_in tree.now environment.now }
{
    action_in(tree, environment, &mut [0; MOST_WAITING])
}

#[inline(always)]
fn action_in(tree: &Tree, environment: &Environment<'_>, below: &mut [u32]) -> Action
    ensures { result ≡ action_in tree.now environment.now }
{
    match action_by(tree.rules.as_slice(), environment, below) {
        Some(action) => action,
        None => action_of(&tree.last, environment, below),
    }
}

/// What the first rule that applies asks for.
#[inline(always)]
fn action_by(rules: &[Rule], environment: &Environment<'_>, below: &mut [u32]) -> Option<Action>
    ensures { result ≡ option_map (λ rule. action_of environment.now rule.action_rule) (find (applies environment.now) rules.now) }
{
    for rule in rules {
        if all_hold(rule.conditions.as_slice(), environment, below) {
            return Some(action_of(&rule.action_rule, environment, below));
        }
    }
    None
}

#[inline(always)]
fn all_hold(comparisons: &[Comparison], environment: &Environment<'_>, below: &mut [u32]) -> bool
    ensures { result ≡ list_all (holds environment.now) comparisons.now }
{
    for comparison in comparisons {
        if !comparison.holds(environment, below) {
            return false;
        }
    }
    true
}

fn action_of(action_rule: &ActionRule, environment: &Environment<'_>, below: &mut [u32]) -> Action
    ensures { result ≡ action_of environment.now action_rule.now }
{
    let value = action_rule.value.value(environment, below);
    match action_rule.kind {
        Kind::Write => Action::Write(value),
        Kind::Decide => Action::Decide(value),
    }
}

//! A protocol's shortest text.
ghost use Rattle.std.specs.Prelude.{◌≡◌, ◌≤◌, ◌++◌, ℕ, List, IfOk, OnOk, Ok, length, map, string_bytes};
ghost use Rattle.std.specs.List.{flat_map};
ghost use Rattle.protocol_lang.specs.Comparisons.{comparison_by};
ghost use Rattle.protocol_lang.specs.Grammar.{expression_tokens, comparison_tokens, conditions_tokens, action_rule_tokens, rule_tokens, tree_tokens, IsText};
ghost use Rattle.protocol_lang.specs.Reading.{reading};
ghost use Rattle.protocol_lang.specs.Printing.{shortest, shortest_comparison, shortest_action_rule, shortest_rule, shortest_tree, printed};

use crate::comparison::{Comparison, Test};
use crate::formula::Leaf;
use crate::piece::{Tokens, expression, leaf};
use crate::protocol::Protocol;
use crate::rules::{ActionRule, Rule, Tree};
use crate::spelling::spell;
use crate::token::{Symbol, Token, Word};
use crate::tree::Name;
use std::alloc::{AllocError, Global};

/// The shortest text of a protocol.
pub fn print(alloc: Global, protocol: &Protocol) -> Result<String, AllocError>
    // The tokens of the protocol with the parentheses that its grouping needs, one space between two words and nothing
    // between other tokens.
    ensures exact { IfOk result (λ text. string_bytes text ≡ printed protocol.now) }
    // The text is one of the protocol,
    ensures again { IfOk result (λ text. IsText (string_bytes text) protocol.now) }
    // and reading it, as `parse` does, gives the protocol again.
    ensures round { IfOk result (λ text. reading (string_bytes text) ≡ Ok protocol.now) }
    // No text of the protocol is shorter.
    ensures shortest { IfOk result (λ text. (other : List ℕ) → IsText other protocol.now → length (string_bytes text) ≤ length other) }
{
    let mut tokens = Tokens::new(alloc);
    write_tree(alloc, &protocol.tree, &mut tokens)?;
    spell(alloc, tokens.as_slice())
}

fn write_comparison(
    alloc: Global,
    comparison: &Comparison,
    tokens: &mut Tokens,
) -> Result<(), AllocError>
    ensures { OnOk result (tokens.new ≡ tokens.old ++ comparison_tokens (shortest_comparison comparison.now)) }
{
    let left = left_side(alloc, comparison.test())?;
    let right = right_side(alloc, comparison.test())?;
    tokens.append(&left)?;
    tokens.push(Token::Symbol(comparison.comparator().symbol()))?;
    tokens.append(&right)
}

fn left_side(alloc: Global, test: &Test) -> Result<Tokens, AllocError>
    ensures { IfOk result (λ tokens. tokens ≡ expression_tokens (shortest (comparison_by test.now).left)) }
{
    match test {
        Test::FormulaNumber(left, _, _) | Test::Formulas(left, _, _) => expression(alloc, left),
        Test::NumberName(left, _, _) => leaf(alloc, Leaf::Number(*left)),
        Test::EqualNames(left, _)
        | Test::EqualNumber(left, _)
        | Test::NotEqualNames(left, _)
        | Test::NotEqualNumber(left, _)
        | Test::LessNames(left, _)
        | Test::LessNumber(left, _)
        | Test::LessOrEqualNames(left, _)
        | Test::LessOrEqualNumber(left, _)
        | Test::GreaterNames(left, _)
        | Test::GreaterNumber(left, _)
        | Test::GreaterOrEqualNames(left, _)
        | Test::GreaterOrEqualNumber(left, _) => leaf(alloc, Leaf::Name(*left)),
    }
}

fn right_side(alloc: Global, test: &Test) -> Result<Tokens, AllocError>
    ensures { IfOk result (λ tokens. tokens ≡ expression_tokens (shortest (comparison_by test.now).right)) }
{
    match test {
        Test::Formulas(_, _, right) => expression(alloc, right),
        Test::FormulaNumber(_, _, right)
        | Test::EqualNumber(_, right)
        | Test::NotEqualNumber(_, right)
        | Test::LessNumber(_, right)
        | Test::LessOrEqualNumber(_, right)
        | Test::GreaterNumber(_, right)
        | Test::GreaterOrEqualNumber(_, right) => leaf(alloc, Leaf::Number(*right)),
        Test::NumberName(_, _, right)
        | Test::EqualNames(_, right)
        | Test::NotEqualNames(_, right)
        | Test::LessNames(_, right)
        | Test::LessOrEqualNames(_, right)
        | Test::GreaterNames(_, right)
        | Test::GreaterOrEqualNames(_, right) => leaf(alloc, Leaf::Name(*right)),
    }
}

fn write_conditions(
    alloc: Global,
    comparisons: &[Comparison],
    tokens: &mut Tokens,
) -> Result<(), AllocError>
    ensures { OnOk result (tokens.new ≡ tokens.old ++ conditions_tokens Word.When (map shortest_comparison comparisons.now)) }
{
    let mut word = Word::When;
    for comparison in comparisons {
        tokens.push(Token::Word(word))?;
        write_comparison(alloc, comparison, tokens)?;
        word = Word::And;
    }
    Ok(())
}

fn write_action_rule(
    alloc: Global,
    action_rule: &ActionRule,
    tokens: &mut Tokens,
) -> Result<(), AllocError>
    ensures { OnOk result (tokens.new ≡ tokens.old ++ action_rule_tokens (shortest_action_rule action_rule.now)) }
{
    let value = expression(alloc, &action_rule.value)?;
    tokens.push(Token::Word(action_rule.kind.word()))?;
    tokens.append(&value)?;
    tokens.push(Token::Symbol(Symbol::Semicolon))
}

fn write_rule(alloc: Global, rule: &Rule, tokens: &mut Tokens) -> Result<(), AllocError>
    ensures { OnOk result (tokens.new ≡ tokens.old ++ rule_tokens (shortest_rule rule.now)) }
{
    write_conditions(alloc, rule.conditions.as_slice(), tokens)?;
    write_action_rule(alloc, &rule.action_rule, tokens)
}

fn write_rules(alloc: Global, rules: &[Rule], tokens: &mut Tokens) -> Result<(), AllocError>
    ensures { OnOk result (tokens.new ≡ tokens.old ++ flat_map rule_tokens (map shortest_rule rules.now)) }
{
    for rule in rules {
        write_rule(alloc, rule, tokens)?;
    }
    Ok(())
}

fn write_tree(alloc: Global, tree: &Tree, tokens: &mut Tokens) -> Result<(), AllocError>
    ensures { OnOk result (tokens.new ≡ tokens.old ++ tree_tokens (shortest_tree tree.now)) }
{
    let first = expression(alloc, &tree.first)?;
    tokens.push(Token::Word(Word::First))?;
    tokens.append(&first)?;
    tokens.push(Token::Symbol(Symbol::Semicolon))?;
    write_rules(alloc, tree.rules.as_slice(), tokens)?;
    tokens.push(Token::Word(Word::Else))?;
    write_action_rule(alloc, &tree.last, tokens)
}

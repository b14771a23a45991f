//! The grammar, read from left to right.
ghost use Rattle.std.specs.Prelude.{◌≡◌, ◌≤◌, ◌<◌, ◌∷◌, ◌++◌, [], length, Option, Some, None, Result, Ok, Err, OnOk, IfOk, IfErr, IfSome};
ghost use Rattle.protocol_lang.specs.Formulas.{trees, after};
ghost use Rattle.protocol_lang.specs.Tokens.{operator_of, kind_of};
ghost use Rattle.protocol_lang.specs.Reading.{Ends, Takes, one_token, IsReading, cleared, opening, step, operand, word_operand, opened, call_opened, behind, closed, in_outermost, first_ended, left_ended, right_ended, action_rule_ended, last_ended, begun, rule, last, ending, with_waiting, with_operand, behind_operand, with_infix, value_read, compared_with, is_first, last_kind, tree_read};

use crate::comparison::Comparison;
use crate::draft::{Draft, Instruction};
use crate::fault::ParseFault;
use crate::formula::Formula;
use crate::lexer::next_token;
use crate::rules::{ActionRule, Rule, Tree};
use crate::stack::Stack;
use crate::state::{Expected, Level, Opener, Part, Refusal};
use crate::token::{Symbol, Token, Word};
use crate::tree::{Call, Comparator, Kind, Name, Operator};
use std::alloc::{AllocError, Global};
use std::marker::Model;
use std::mem;

/// The longest text of a protocol, in bytes.
const MAX_TEXT: usize = 4096;

/// The most rules of a protocol.
const MAX_RULES: usize = 32;

/// The most comparisons of a rule.
const MAX_CONDITIONS: usize = 8;

/// The most parentheses that are open at once.
const MAX_OPEN: usize = 32;

/// What has been read so far.
#[derive(Drop)]
pub struct Parser {
    alloc: Global,
    expected: Expected,
    part: Part,
    level: Level,
    outer: Stack<Level, MAX_OPEN>,
    draft: Draft,
    left: Formula,
    conditions: Vec<Comparison>,
    rules: Vec<Rule>,
    first: Formula,
}

impl Model for Parser {
    ghost use Rattle.std.specs.Coded.{codes};
    ghost use Rattle.protocol_lang.specs.Codes.{expression_code};
    ghost use Rattle.protocol_lang.specs.Trees.{Expression};
    ghost use Rattle.protocol_lang.specs.Reading.{State};

    ghost Value = { State Expression };

    ghost coded = { Prim.hlevel (codes, expression_code) };

    ghost view = { λ p. record {
      expected = p.expected;
      part = p.part;
      level = p.level;
      outer = p.outer;
      stack = p.draft;
      left = p.left;
      conditions = p.conditions.items;
      rules = p.rules.items;
      first = p.first;
    } };
}

impl Parser {
    pub(crate) fn new(alloc: Global) -> Parser
        ensures { result ≡ opening trees }
    {
        Parser {
            alloc,
            expected: Expected::First,
            part: Part::First,
            level: Level::new(Opener::Group),
            outer: Stack::new(),
            draft: Draft::new(alloc),
            left: Draft::new(alloc).finish(),
            conditions: Vec::new(alloc),
            rules: Vec::new(alloc),
            first: Draft::new(alloc).finish(),
        }
    }

    /// Goes past a token.
    pub(crate) fn take(&mut self, token: Token) -> Result<(), Refusal>
        ensures { Ends (step trees self.old token) result self.new }
    {
        match self.expected {
            Expected::First => self.take_first(token),
            Expected::Operand => self.take_operand(token),
            Expected::Open(call) => self.take_open(call, token),
            Expected::Operator => self.take_behind(token),
            Expected::Rule => self.take_rule(token),
            Expected::Last => self.take_last(token),
            Expected::End => self.take_end(token),
        }
    }

    fn take_first(&mut self, token: Token) -> Result<(), Refusal>
        ensures { Ends (begun self.old token) result self.new }
    {
        match token {
            Token::Word(Word::First) => {
                self.expected = Expected::Operand;
                Ok(())
            }
            _ => Err(Refusal::Unexpected),
        }
    }

    fn take_operand(&mut self, token: Token) -> Result<(), Refusal>
        ensures { Ends (operand trees self.old token) result self.new }
    {
        match token {
            Token::Number(number) => self.read_operand(Instruction::Number(number)),
            Token::Word(word) => self.take_word(word.name(), word.call()),
            Token::Symbol(Symbol::Open) => self.open_level(Opener::Group),
            _ => Err(Refusal::Unexpected),
        }
    }

    fn take_word(&mut self, name: Option<Name>, call: Option<Call>) -> Result<(), Refusal>
        ensures { Ends (word_operand trees self.old name call) result self.new }
    {
        match (name, call) {
            (Some(name), _) if self.part.hides(name) => Err(Refusal::ViewInFirst),
            (Some(name), _) => self.read_operand(Instruction::Name(name)),
            (None, Some(_)) if self.part.is_first() => Err(Refusal::ViewInFirst),
            (None, Some(call)) => {
                self.expected = Expected::Open(call);
                Ok(())
            }
            (None, None) => Err(Refusal::Unexpected),
        }
    }

    fn take_open(&mut self, call: Call, token: Token) -> Result<(), Refusal>
        ensures { Ends (call_opened call self.old token) result self.new }
    {
        match token {
            Token::Symbol(Symbol::Open) => self.open_level(Opener::Call(call)),
            _ => Err(Refusal::Unexpected),
        }
    }

    fn open_level(&mut self, opener: Opener) -> Result<(), Refusal>
        ensures { Ends (opened opener self.old) result self.new }
    {
        if self.outer.is_full() {
            return Err(Refusal::TooDeep);
        }
        self.outer.push(self.level);
        self.level = Level::new(opener);
        self.expected = Expected::Operand;
        Ok(())
    }

    fn read_operand(&mut self, instruction: Instruction) -> Result<(), Refusal>
        ensures { Ends (Ok (with_operand trees instruction self.old)) result self.new }
    {
        self.draft.push(instruction)?;
        self.end_operand()
    }

    /// Gives a product that waits its right operand.
    fn end_operand(&mut self) -> Result<(), Refusal>
        ensures { Ends (Ok (behind_operand trees self.old)) result self.new }
    {
        if let Some(operator) = self.level.product {
            self.draft.push(Instruction::Operate(operator))?;
        }
        self.level.product = None;
        self.expected = Expected::Operator;
        Ok(())
    }

    /// Gives a sum that waits its right operand.
    fn end_sum(&mut self) -> Result<(), Refusal>
        ensures { Ends (Ok (record self.old { stack = with_waiting trees self.old.level.sum self.old.stack })) result self.new }
    {
        if let Some(operator) = self.level.sum {
            self.draft.push(Instruction::Operate(operator))?;
        }
        Ok(())
    }

    fn take_behind(&mut self, token: Token) -> Result<(), Refusal>
        ensures { Ends (behind trees self.old token (operator_of token)) result self.new }
    {
        match (token.operator(), token) {
            (Some(operator), _) => self.read_infix(operator),
            (None, Token::Symbol(Symbol::Close)) => self.close(),
            (None, _) => self.end_part(token),
        }
    }

    fn read_infix(&mut self, operator: Operator) -> Result<(), Refusal>
        ensures { Ends (Ok (with_infix trees operator self.old)) result self.new }
    {
        if operator.is_sum() {
            self.end_sum()?;
            self.level.sum = Some(operator);
        } else {
            self.level.product = Some(operator);
        }
        self.expected = Expected::Operand;
        Ok(())
    }

    fn close(&mut self) -> Result<(), Refusal>
        ensures { Ends (closed trees self.old self.old.outer) result self.new }
    {
        let Some(level) = self.outer.pop() else {
            return Err(Refusal::Unexpected);
        };
        self.end_sum()?;
        if let Opener::Call(call) = self.level.opener {
            self.draft.push(Instruction::Call(call))?;
        }
        self.level = level;
        self.end_operand()
    }

    fn end_part(&mut self, token: Token) -> Result<(), Refusal>
        ensures { Ends (in_outermost trees self.old self.old.outer token) result self.new }
    {
        if !self.outer.is_empty() {
            return Err(Refusal::Unexpected);
        }
        match self.part {
            Part::First => self.end_first(token),
            Part::Left => self.end_left(token.comparator()),
            Part::Right(comparator) => self.end_right(comparator, token),
            Part::ActionRule(kind) => self.end_action_rule(kind, token),
            Part::Last(_) => self.end_last(token),
        }
    }

    /// The expression that ends here.
    fn take_value(&mut self) -> Result<Formula, Refusal>
        ensures value { IfOk result (λ value. value ≡ value_read trees self.old) }
        ensures rest { OnOk result (self.new ≡ cleared self.old) }
        ensures err { IfErr result (λ refusal. refusal ≡ Refusal.OutOfMemory) }
    {
        self.end_sum()?;
        self.level = Level::new(Opener::Group);
        let draft = mem::replace(&mut self.draft, Draft::new(self.alloc));
        Ok(draft.finish())
    }

    fn end_first(&mut self, token: Token) -> Result<(), Refusal>
        ensures { Ends (first_ended trees self.old token) result self.new }
    {
        let Token::Symbol(Symbol::Semicolon) = token else {
            return Err(Refusal::Unexpected);
        };
        self.first = self.take_value()?;
        self.expected = Expected::Rule;
        Ok(())
    }

    fn end_left(&mut self, comparator: Option<Comparator>) -> Result<(), Refusal>
        ensures { Ends (left_ended trees self.old comparator) result self.new }
    {
        let Some(comparator) = comparator else {
            return Err(Refusal::Unexpected);
        };
        self.left = self.take_value()?;
        self.part = Part::Right(comparator);
        self.expected = Expected::Operand;
        Ok(())
    }

    fn end_right(&mut self, comparator: Comparator, token: Token) -> Result<(), Refusal>
        ensures { Ends (right_ended trees comparator self.old token (kind_of token)) result self.new }
    {
        match (token.kind(), token) {
            (Some(kind), _) => self.read_condition(comparator, Part::ActionRule(kind)),
            (None, Token::Word(Word::And)) if self.conditions.len() < MAX_CONDITIONS - 1 => {
                self.read_condition(comparator, Part::Left)
            }
            (None, _) => Err(Refusal::Unexpected),
        }
    }

    fn read_condition(&mut self, comparator: Comparator, part: Part) -> Result<(), Refusal>
        ensures { Ends (Ok (compared_with trees comparator part self.old)) result self.new }
    {
        let right = self.take_value()?;
        let left = mem::replace(&mut self.left, Draft::new(self.alloc).finish());
        append(
            &mut self.conditions,
            Comparison::new(left, comparator, right),
        )?;
        self.part = part;
        self.expected = Expected::Operand;
        Ok(())
    }

    fn end_action_rule(&mut self, kind: Kind, token: Token) -> Result<(), Refusal>
        ensures { Ends (action_rule_ended trees kind self.old token) result self.new }
    {
        let Token::Symbol(Symbol::Semicolon) = token else {
            return Err(Refusal::Unexpected);
        };
        let value = self.take_value()?;
        let conditions = mem::replace(&mut self.conditions, Vec::new(self.alloc));
        let action_rule = ActionRule { kind, value };
        append(
            &mut self.rules,
            Rule {
                conditions,
                action_rule,
            },
        )?;
        self.expected = Expected::Rule;
        Ok(())
    }

    fn end_last(&mut self, token: Token) -> Result<(), Refusal>
        ensures { Ends (last_ended self.old token) result self.new }
    {
        match token {
            Token::Symbol(Symbol::Semicolon) => {
                self.expected = Expected::End;
                Ok(())
            }
            _ => Err(Refusal::Unexpected),
        }
    }

    fn take_rule(&mut self, token: Token) -> Result<(), Refusal>
        ensures { Ends (rule self.old token) result self.new }
    {
        match token {
            Token::Word(Word::When) if self.rules.len() >= MAX_RULES => Err(Refusal::TooManyRules),
            Token::Word(Word::When) => {
                self.part = Part::Left;
                self.expected = Expected::Operand;
                Ok(())
            }
            Token::Word(Word::Else) => {
                self.expected = Expected::Last;
                Ok(())
            }
            _ => Err(Refusal::Unexpected),
        }
    }

    fn take_last(&mut self, token: Token) -> Result<(), Refusal>
        ensures { Ends (last self.old (kind_of token)) result self.new }
    {
        let Some(kind) = token.kind() else {
            return Err(Refusal::Unexpected);
        };
        self.part = Part::Last(kind);
        self.expected = Expected::Operand;
        Ok(())
    }

    fn take_end(&mut self, token: Token) -> Result<(), Refusal>
        ensures { Ends (ending self.old token) result self.new }
    {
        match token {
            Token::End => Ok(()),
            _ => Err(Refusal::Unexpected),
        }
    }
}

impl Parser {
    /// Goes past the next token of the text from the place `from` on, and gives the place after it,
    /// or `None` at the text's end.
    #[tactic(auto, unfolding(crate::specs::Reading::one_token))]
    fn take_next(&mut self, text: &[u8], from: usize) -> Result<Option<usize>, ParseFault>
        requires { from ≤ length text.now }
        ensures token { Takes (one_token trees text.now from self.old) result self.new }
        ensures onward { IfOk result (λ end. IfSome end (λ end. (from < end) × (end ≤ length text.now))) }
    {
        let placed = next_token(text, from)?;
        if let Err(refusal) = self.take(placed.token) {
            return Err(refusal.at(placed.at));
        }
        if placed.token.is_end() {
            Ok(None)
        } else {
            Ok(Some(placed.end))
        }
    }

    /// The protocol that was read, at the text's end.
    fn finish(mut self) -> Result<Tree, Refusal>
        ensures value { IfOk result (λ tree. tree ≡ tree_read trees self) }
        ensures err { IfErr result (λ refusal. refusal ≡ Refusal.OutOfMemory) }
    {
        let kind = self.part.last_kind();
        let value = self.take_value()?;
        Ok(Tree {
            first: self.first,
            rules: self.rules,
            last: ActionRule { kind, value },
        })
    }
}

/// The tree of a whole text, or its first fault.
pub(crate) fn read(alloc: Global, text: &[u8]) -> Result<Tree, ParseFault>
    ensures { IsReading text.now result }
{
    if text.len() > MAX_TEXT {
        return Err(ParseFault::TooLong);
    }
    let mut parser = Parser::new(alloc);
    let mut from = 0;
    while let Some(end) = parser.take_next(text, from)? {
        from = end;
    }
    match parser.finish() {
        Ok(tree) => Ok(tree),
        Err(refusal) => Err(refusal.at(from)),
    }
}

fn append<T: Drop>(items: &mut Vec<T>, item: T) -> Result<(), AllocError>
    ensures { OnOk result (items.new.items ≡ items.old.items ++ item ∷ []) }
{
    items.push(item)?;
    Ok(())
}

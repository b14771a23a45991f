//! Expressions as the tokens of their shortest text.
ghost use Rattle.std.specs.Prelude.{◌≡◌, ◌∷◌, ◌++◌, [], List, true, false, IfOk, OnOk, Ok};
ghost use Rattle.protocol_lang.specs.Stacks.{pushed, below_top};
ghost use Rattle.protocol_lang.specs.Formulas.{most_waiting, last_of, hold, stepped, made_by, leaf_tree, leaf_made};
ghost use Rattle.protocol_lang.specs.Grammar.{enclosed_tokens, expression_tokens};
ghost use Rattle.protocol_lang.specs.Printing.{stands_left, stands_right, shortest, enclosed_unless, factor, joined, pieces};

use crate::formula::{Formula, Leaf, MOST_WAITING, Step};
use crate::opcode::Opcode;
use crate::token::{Symbol, Token, Word};
use crate::tree::{Call, Name, Operator};
use std::alloc::{AllocError, Global};
use std::marker::Model;

/// Tokens, in order.
#[derive(Drop)]
pub(crate) struct Tokens {
    tokens: Vec<Token>,
}

impl Model for Tokens {
    ghost use Rattle.std.specs.Prelude.{List};
    ghost use Rattle.protocol_lang.specs.declared.token.Token.{Token as OneToken};

    ghost Value = { List OneToken };

    ghost view = { λ tokens. tokens.tokens.items };
}

impl Tokens {
    pub(crate) fn new(alloc: Global) -> Tokens
        ensures { result ≡ [] }
    {
        Tokens {
            tokens: Vec::new(alloc),
        }
    }

    pub(crate) fn one(alloc: Global, token: Token) -> Result<Tokens, AllocError>
        ensures { IfOk result (λ tokens. tokens ≡ token ∷ []) }
    {
        let mut tokens = Tokens::new(alloc);
        tokens.push(token)?;
        Ok(tokens)
    }

    pub(crate) fn as_slice(&self) -> &[Token]
        ensures { result.now ≡ self.now }
    {
        &self.tokens
    }

    pub(crate) fn push(&mut self, token: Token) -> Result<(), AllocError>
        ensures { OnOk result (self.new ≡ self.old ++ token ∷ []) }
    {
        self.tokens.push(token)?;
        Ok(())
    }

    pub(crate) fn append(&mut self, other: &Tokens) -> Result<(), AllocError>
        ensures { OnOk result (self.new ≡ self.old ++ other.now) }
    {
        self.tokens.extend_from_slice(&other.tokens)?;
        Ok(())
    }

    /// The same in parentheses.
    pub(crate) fn enclosed(self) -> Result<Tokens, AllocError>
        ensures { IfOk result (λ tokens. tokens ≡ enclosed_tokens self) }
    {
        let mut tokens = self.tokens;
        tokens.insert(0, Token::Symbol(Symbol::Open))?;
        tokens.push(Token::Symbol(Symbol::Close))?;
        Ok(Tokens { tokens })
    }
}

/// The tokens of an expression, and where they may be without parentheses.
#[derive(Drop)]
struct Piece {
    tokens: Tokens,
    is_term: bool,
    is_factor: bool,
}

impl Model for Piece {
    ghost use Rattle.protocol_lang.specs.Printing.{Piece as OnePiece};

    ghost Value = { OnePiece };

    ghost view = { λ piece. record { tokens = piece.tokens; is_term = piece.is_term; is_factor = piece.is_factor } };
}

impl Piece {
    /// What is allowed wherever an operand is.
    fn factor(tokens: Tokens) -> Piece
        ensures { result ≡ factor tokens }
    {
        Piece {
            tokens,
            is_term: true,
            is_factor: true,
        }
    }

    fn number(alloc: Global, number: u32) -> Result<Piece, AllocError>
        ensures { IfOk result (λ piece. piece ≡ pieces.number number) }
    {
        let tokens = Tokens::one(alloc, Token::Number(number))?;
        Ok(Piece::factor(tokens))
    }

    fn name(alloc: Global, name: Name) -> Result<Piece, AllocError>
        ensures { IfOk result (λ piece. piece ≡ pieces.named name) }
    {
        let tokens = Tokens::one(alloc, Token::Word(name.word()))?;
        Ok(Piece::factor(tokens))
    }

    fn leaf(alloc: Global, leaf: Leaf) -> Result<Piece, AllocError>
        ensures { IfOk result (λ piece. piece ≡ leaf_made pieces leaf) }
    {
        match leaf {
            Leaf::Number(number) => Piece::number(alloc, number),
            Leaf::Name(name) => Piece::name(alloc, name),
        }
    }

    fn call(alloc: Global, call: Call, argument: Piece) -> Result<Piece, AllocError>
        ensures { IfOk result (λ piece. piece ≡ pieces.calling call argument) }
    {
        let mut tokens = Tokens::one(alloc, Token::Word(call.word()))?;
        let argument = argument.tokens.enclosed()?;
        tokens.append(&argument)?;
        Ok(Piece::factor(tokens))
    }

    fn operate(operator: Operator, left: Piece, right: Piece) -> Result<Piece, AllocError>
        ensures { IfOk result (λ piece. piece ≡ joined operator left right) }
    {
        let mut tokens = left.on_left(operator)?;
        let right = right.on_right(operator)?;
        tokens.push(Token::Symbol(operator.symbol()))?;
        tokens.append(&right)?;
        Ok(Piece {
            tokens,
            is_term: !operator.is_sum(),
            is_factor: false,
        })
    }

    /// The tokens as the left operand.
    fn on_left(self, operator: Operator) -> Result<Tokens, AllocError>
        ensures { IfOk result (λ tokens. tokens ≡ enclosed_unless (stands_left operator self.is_term) self.tokens) }
    {
        let stands = operator.is_sum() || self.is_term;
        self.enclosed_unless(stands)
    }

    /// The tokens as the right operand.
    fn on_right(self, operator: Operator) -> Result<Tokens, AllocError>
        ensures { IfOk result (λ tokens. tokens ≡ enclosed_unless (stands_right operator self.is_term self.is_factor) self.tokens) }
    {
        let stands = if operator.is_sum() {
            self.is_term
        } else {
            self.is_factor
        };
        self.enclosed_unless(stands)
    }

    fn enclosed_unless(self, stands: bool) -> Result<Tokens, AllocError>
        ensures { IfOk result (λ tokens. tokens ≡ enclosed_unless stands self.tokens) }
    {
        if stands {
            Ok(self.tokens)
        } else {
            self.tokens.enclosed()
        }
    }
}

/// Pieces that wait for what works on them. Contracts see them from the last one down.
#[derive(Drop)]
struct Pieces {
    pieces: Vec<Piece>,
}

impl Model for Pieces {
    ghost use Rattle.std.specs.Prelude.{List, reverse};
    ghost use Rattle.protocol_lang.specs.Printing.{Piece as OnePiece};

    ghost Value = { List OnePiece };

    ghost view = { λ pieces. reverse pieces.pieces.items };
}

impl Pieces {
    fn new(alloc: Global) -> Pieces
        ensures { result ≡ [] }
    {
        Pieces {
            pieces: Vec::new(alloc),
        }
    }

    /// Puts a piece on top, or does nothing if more wait than in any expression of the language.
    fn push(&mut self, piece: Piece) -> Result<(), AllocError>
        ensures { OnOk result (self.new ≡ pushed most_waiting piece self.old) }
    {
        if self.pieces.len() < MOST_WAITING {
            self.pieces.push(piece)?;
        }
        Ok(())
    }

    /// Takes the top piece away. Where nothing waits it is a 0.
    fn pop(&mut self, alloc: Global) -> Result<Piece, AllocError>
        ensures result { IfOk result (λ piece. piece ≡ last_of pieces self.old) }
        ensures rest { OnOk result (self.new ≡ below_top self.old) }
    {
        match self.pieces.pop() {
            Some(piece) => Ok(piece),
            None => Piece::number(alloc, 0),
        }
    }

    /// The piece on top of these after a step, where this one was on top before it.
    fn stepped(&mut self, alloc: Global, top: Piece, step: Step) -> Result<Piece, AllocError>
        ensures top { IfOk result (λ piece. piece ≡ (stepped pieces (hold top self.old) step).top) }
        ensures below { OnOk result (self.new ≡ (stepped pieces (hold top self.old) step).below) }
    {
        match step {
            Step::Number(number) => {
                self.push(top)?;
                Piece::number(alloc, number)
            }
            Step::Name(name) => {
                self.push(top)?;
                Piece::name(alloc, name)
            }
            Step::Call(call) => Piece::call(alloc, call, top),
            Step::CallNumber(call, number) => {
                self.push(top)?;
                let argument = Piece::number(alloc, number)?;
                Piece::call(alloc, call, argument)
            }
            Step::CallName(call, name) => {
                self.push(top)?;
                let argument = Piece::name(alloc, name)?;
                Piece::call(alloc, call, argument)
            }
            Step::Operate(operator) => {
                let left = self.pop(alloc)?;
                Piece::operate(operator, left, top)
            }
            Step::OperateNumber(operator, number) => {
                let right = Piece::number(alloc, number)?;
                Piece::operate(operator, top, right)
            }
            Step::OperateName(operator, name) => {
                let right = Piece::name(alloc, name)?;
                Piece::operate(operator, top, right)
            }
            Step::OperateLeaves(operator, left, right) => {
                self.push(top)?;
                let left = Piece::leaf(alloc, left)?;
                let right = Piece::leaf(alloc, right)?;
                Piece::operate(operator, left, right)
            }
        }
    }
}

/// The last piece by itself, and those below it.
#[derive(Drop)]
struct Held {
    top: Piece,
    below: Pieces,
}

impl Model for Held {
    ghost use Rattle.protocol_lang.specs.Printing.{Piece as OnePiece};
    ghost use Rattle.protocol_lang.specs.Formulas.{Held as HeldOf, hold};

    ghost Value = { HeldOf OnePiece };

    ghost view = { λ held. hold held.top held.below };
}

impl Held {
    fn new(alloc: Global) -> Result<Held, AllocError>
        ensures { IfOk result (λ held. held ≡ hold (pieces.number 0) []) }
    {
        let top = Piece::number(alloc, 0)?;
        Ok(Held {
            top,
            below: Pieces::new(alloc),
        })
    }

    /// Goes one step on.
    fn take(self, alloc: Global, step: Step) -> Result<Held, AllocError>
        ensures { IfOk result (λ held. held ≡ stepped pieces self step) }
    {
        let Held { top, mut below } = self;
        let top = below.stepped(alloc, top, step)?;
        Ok(Held { top, below })
    }
}

/// The tokens of an expression.
pub(crate) fn expression(alloc: Global, formula: &Formula) -> Result<Tokens, AllocError>
    ensures { IfOk result (λ tokens. tokens ≡ expression_tokens (shortest formula.now)) }
{
    let piece = piece_by(alloc, formula.code())?;
    Ok(piece.tokens)
}

/// The token of a number or name.
pub(crate) fn leaf(alloc: Global, leaf: Leaf) -> Result<Tokens, AllocError>
    ensures { IfOk result (λ tokens. tokens ≡ expression_tokens (shortest (leaf_tree leaf))) }
{
    match leaf {
        Leaf::Number(number) => Tokens::one(alloc, Token::Number(number)),
        Leaf::Name(name) => Tokens::one(alloc, Token::Word(name.word())),
    }
}

/// What the steps make.
fn piece_by(alloc: Global, code: &[Opcode]) -> Result<Piece, AllocError>
    ensures { IfOk result (λ piece. piece ≡ made_by pieces code.now) }
{
    let mut held = Held::new(alloc)?;
    for opcode in code {
        held = held.take(alloc, opcode.step())?;
    }
    Ok(held.top)
}

//! From tokens to trees: what all rules of the grammar are made of.

ghost use Rattle.std.specs.Prelude.{◌≡◌, ◌==◌, ◌≤◌, ◌<◌, IfSome, IfNone, true, length, drop};
ghost use Rattle.cse_syntax_tree.specs.Word.{words};
ghost use Rattle.cse_syntax_tree.specs.Tree.{written};
ghost use Rattle.cse_syntax.specs.Reading as spec;
ghost use Rattle.cse_syntax.specs.Reading.{Reads, Leaves, IsFault, Takes};

use crate::error::{Cause, ReadError, SourceFault};
use cse_syntax_tree::{Kind, Lexeme, Mark, Operator, Relation, Token, is_within};
use std::alloc::Global;

/// The tokens that are left.
#[derive(Drop)]
pub struct Parser<'t, 'a> {
    pub alloc: Global,
    pub rest: &'t [Token<'a>],
    /// The place of the last token that was taken.
    pub last: usize,
    /// What is wrong where no token is left.
    pub end: SourceFault,
}

/// The fault of a token that can't stand where it does.
pub fn refused(token: &Token<'_>) -> ReadError
    ensures { IsFault result }
{
    let cause = match token.kind {
        Kind::LeftOut => Cause::LeftOut,
        _ => Cause::Unexpected,
    };
    ReadError::Found(SourceFault {
        cause,
        place: token.start,
    })
}

impl<'t, 'a> Parser<'t, 'a> {
    /// A parser before these tokens; the fault is told where they end too early.
    pub fn new(alloc: Global, rest: &'t [Token<'a>], end: SourceFault) -> Parser<'t, 'a>
        ensures { result.rest.now ≡ rest.now }
    {
        Parser {
            alloc,
            rest,
            last: 0,
            end,
        }
    }

    /// Whether no token is left.
    pub fn is_at_end(&self) -> bool
        ensures { result ≡ (length (words self.now.rest.now) == 0) }
    {
        self.rest.is_empty()
    }

    /// The fault of the next token, which can't stand here.
    pub fn unexpected(&self) -> ReadError
        ensures { IsFault result }
    {
        match self.rest.first() {
            None => self.ended(),
            Some(token) => refused(token),
        }
    }

    /// The fault where no token is left.
    pub fn ended(&self) -> ReadError
        ensures { IsFault result }
    {
        ReadError::Found(self.end)
    }

    /// The fault of the last token, where too many parentheses and statements are open.
    pub fn too_deep(&self) -> ReadError
        ensures { IsFault result }
    {
        ReadError::Found(SourceFault {
            cause: Cause::TooDeep,
            place: self.last,
        })
    }

    /// The fault of the last token, a number out of its range.
    pub fn out_of_range(&self) -> ReadError
        ensures { IsFault result }
    {
        ReadError::Found(SourceFault {
            cause: Cause::OutOfRange,
            place: self.last,
        })
    }

    /// Whether this mark comes next.
    pub fn sees(&self, mark: Mark) -> bool
        ensures { result ≡ spec.sees mark (words self.now.rest.now) }
    {
        match self.rest.first() {
            None => false,
            Some(token) => match token.kind {
                Kind::Mark(found) => found == mark,
                _ => false,
            },
        }
    }

    /// Whether this mark stands behind the next token.
    pub fn sees_second(&self, mark: Mark) -> bool
        ensures { result ≡ spec.sees mark (drop 1 (words self.now.rest.now)) }
    {
        match self.rest.get(1) {
            None => false,
            Some(token) => match token.kind {
                Kind::Mark(found) => found == mark,
                _ => false,
            },
        }
    }

    /// Takes this mark, if it comes next.
    pub fn eat(&mut self, mark: Mark) -> bool
        ensures found { result ≡ spec.sees mark (words self.old.rest.now) }
        ensures after { words self.new.rest.now ≡ spec.after mark (words self.old.rest.now) }
        ensures shorter { length self.new.rest.now ≤ length self.old.rest.now }
        ensures taken { result ≡ true → length self.new.rest.now < length self.old.rest.now }
    {
        let found = self.sees(mark);
        if found {
            self.last = self.rest[0].start;
            self.rest = &self.rest[1..];
        }
        found
    }

    /// Reads this mark.
    pub fn expect(&mut self, mark: Mark) -> Result<(), ReadError>
        ensures value { Leaves result (spec.expect mark (words self.old.rest.now)) (words self.new.rest.now) }
        ensures shorter { length self.new.rest.now ≤ length self.old.rest.now }
    {
        if self.eat(mark) {
            Ok(())
        } else {
            Err(self.unexpected())
        }
    }

    /// Takes this mark and a semicolon, which end a statement.
    #[tactic(auto, unfolding(crate::specs::Reading::ends))]
    pub fn ends(&mut self, mark: Mark) -> Result<(), ReadError>
        ensures value { Leaves result (spec.ends mark (words self.old.rest.now)) (words self.new.rest.now) }
        ensures shorter { length self.new.rest.now ≤ length self.old.rest.now }
    {
        self.expect(mark)?;
        self.expect(Mark::Semicolon)
    }

    /// Takes a parenthesis, where one more may be open.
    pub fn enter(&mut self, room: usize) -> Result<(), ReadError>
        ensures value { Leaves result (spec.enter room (words self.old.rest.now)) (words self.new.rest.now) }
        ensures shorter { length self.new.rest.now ≤ length self.old.rest.now }
    {
        self.expect(Mark::Open)?;
        if room == 0 {
            return Err(self.too_deep());
        }
        Ok(())
    }

    /// Takes the next token.
    pub fn take(&mut self) -> Option<Token<'a>>
        ensures value { Takes result (words self.old.rest.now) (words self.new.rest.now) }
        ensures shorter { length self.new.rest.now ≤ length self.old.rest.now }
        ensures taken { IfSome result (λ _. length self.new.rest.now < length self.old.rest.now) }
    {
        let token = *self.rest.first()?;
        self.last = token.start;
        self.rest = &self.rest[1..];
        Some(token)
    }

    /// Reads a name.
    pub fn name(&mut self) -> Result<Lexeme<'a>, ReadError>
        ensures { Reads written spec.take_name result self.old.rest.now self.new.rest.now }
    {
        let Some(found) = self.take() else {
            return Err(self.ended());
        };
        match found.kind {
            Kind::Name => Ok(Lexeme {
                token: found.index,
                text: found.text,
            }),
            _ => Err(refused(&found)),
        }
    }

    /// A name, and this mark behind it.
    #[tactic(auto, unfolding(crate::specs::Reading::name_before))]
    pub fn name_before(&mut self, mark: Mark) -> Result<Lexeme<'a>, ReadError>
        ensures { Reads written (spec.name_before mark) result self.old.rest.now self.new.rest.now }
    {
        let name = self.name()?;
        self.expect(mark)?;
        Ok(name)
    }

    /// A number in this range.
    pub fn number(&mut self, least: u64, most: u64) -> Result<Lexeme<'a>, ReadError>
        ensures { Reads written (spec.take_number least most) result self.old.rest.now self.new.rest.now }
    {
        let Some(found) = self.take() else {
            return Err(self.ended());
        };
        match found.kind {
            Kind::Number if is_within(least, most, found.text) => Ok(Lexeme {
                token: found.index,
                text: found.text,
            }),
            Kind::Number => Err(self.out_of_range()),
            _ => Err(refused(&found)),
        }
    }

    /// Takes an operator of this level, if one comes next.
    pub fn take_operator(&mut self, level: Level) -> Option<Operator>
        ensures found { result ≡ spec.operator_at (spec.operator_of level) (words self.old.rest.now) }
        ensures after { IfSome result (λ _. words self.new.rest.now ≡ drop 1 (words self.old.rest.now)) }
        ensures kept { IfNone result (words self.new.rest.now ≡ words self.old.rest.now) }
        ensures shorter { length self.new.rest.now ≤ length self.old.rest.now }
        ensures taken { IfSome result (λ _. length self.new.rest.now < length self.old.rest.now) }
    {
        let token = self.rest.first()?;
        let Kind::Mark(mark) = token.kind else {
            return None;
        };
        let operator = operator_of(level, mark)?;
        self.last = token.start;
        self.rest = &self.rest[1..];
        Some(operator)
    }

    /// Takes a relation, if one comes next.
    pub fn take_relation(&mut self) -> Option<Relation>
        ensures found { result ≡ spec.operator_at spec.relation_of (words self.old.rest.now) }
        ensures after { IfSome result (λ _. words self.new.rest.now ≡ drop 1 (words self.old.rest.now)) }
        ensures kept { IfNone result (words self.new.rest.now ≡ words self.old.rest.now) }
        ensures shorter { length self.new.rest.now ≤ length self.old.rest.now }
    {
        let token = self.rest.first()?;
        let Kind::Mark(mark) = token.kind else {
            return None;
        };
        let relation = relation_of(mark)?;
        self.last = token.start;
        self.rest = &self.rest[1..];
        Some(relation)
    }
}

/// The rules whose operators group to the left, from the loosest.
#[derive(Clone, Copy)]
pub enum Level {
    Or,
    And,
    Sum,
    Product,
}

fn operator_of(level: Level, mark: Mark) -> Option<Operator>
    ensures { result ≡ spec.operator_of level mark }
{
    match (level, mark) {
        (Level::Or, Mark::Or) => Some(Operator::Or),
        (Level::And, Mark::And) => Some(Operator::And),
        (Level::Sum, Mark::Plus) => Some(Operator::Add),
        (Level::Sum, Mark::Minus) => Some(Operator::Subtract),
        (Level::Product, Mark::Star) => Some(Operator::Multiply),
        (Level::Product, Mark::Slash) => Some(Operator::Divide),
        (Level::Product, Mark::Percent) => Some(Operator::Remainder),
        _ => None,
    }
}

fn relation_of(mark: Mark) -> Option<Relation>
    ensures { result ≡ spec.relation_of mark }
{
    match mark {
        Mark::Equals => Some(Relation::Equal),
        Mark::Differs => Some(Relation::Differs),
        Mark::Less => Some(Relation::Less),
        Mark::AtMost => Some(Relation::AtMost),
        Mark::More => Some(Relation::More),
        Mark::AtLeast => Some(Relation::AtLeast),
        _ => None,
    }
}

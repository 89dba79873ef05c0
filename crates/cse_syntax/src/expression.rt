//! From tokens to expressions, one method a rule of the grammar. `room` is how many more parentheses and
//! statements may be open, so no text makes the methods call themselves without end.

ghost use Rattle.std.specs.Prelude.{◌≡◌, [], ◌∷◌, Some, length, map};
ghost use Rattle.cse_syntax_tree.specs.Word.{words};
ghost use Rattle.cse_syntax_tree.specs.Tree as tree;
ghost use Rattle.cse_syntax_tree.specs.Tree.{written, expr, expr_kind, exprs, operation_tree, Compare};
ghost use Rattle.std.specs.Option.{option_map};
ghost use Rattle.cse_syntax.specs.Reading as spec;
ghost use Rattle.cse_syntax.specs.Reading.{Reads, Makes};

use crate::error::ReadError;
use crate::parser::{Level, Parser, refused};
use cse_syntax_tree::{
    Expression, ExpressionKind, Function, Kind, Lexeme, Mark, Operation, Query, Relation, Token,
    is_within,
};
use std::alloc::Global;

/// The greatest number of a source.
pub const MOST: u64 = 9_223_372_036_854_775_807;

impl<'t, 'a> Parser<'t, 'a> {
    /// An expression of this kind, for which nothing more is read.
    fn expression_of(&self, kind: ExpressionKind<'a>) -> Result<Expression<'a>, ReadError>
        ensures { Reads expr (λ ws. Some (expr_kind kind.entry, ws)) result self.now.rest.now self.now.rest.now }
    {
        made(self.alloc, kind)
    }

    /// A name and what stands in parentheses after it.
    fn indexed(
        &self,
        name: Lexeme<'a>,
        arguments: Vec<Expression<'a>>,
    ) -> Result<Expression<'a>, ReadError>
        ensures { Reads expr (λ ws. Some (tree.Indexed (written name.entry) (exprs (map expr arguments.entry.items)), ws))
            result self.now.rest.now self.now.rest.now }
    {
        self.expression_of(ExpressionKind::Indexed(name, arguments))
    }

    /// An expression behind one more parenthesis or statement.
    #[cycle(expression)]
    #[tactic(auto, unfolding(crate::specs::Reading::nested, crate::specs::Reading::disjunction))]
    pub fn nested(&mut self, room: usize) -> Result<Expression<'a>, ReadError>
        ensures { Reads expr (spec.nested room) result self.old.rest.now self.new.rest.now }
    {
        if room == 0 {
            return Err(self.too_deep());
        }
        self.chain(Level::Or, room - 1)
    }

    /// Expressions with commas between them, one at least.
    #[cycle(expression)]
    #[tactic(auto, unfolding(crate::specs::Reading::listed))]
    pub fn listed(&mut self, room: usize) -> Result<Vec<Expression<'a>>, ReadError>
        ensures { Reads (λ v. map expr v.items) (spec.listed (spec.nested room)) result self.old.rest.now self.new.rest.now }
    {
        let mut found = Vec::new(self.alloc);
        'all: loop {
            let next = self.nested(room)?;
            found.push(next)?;
            if !self.eat(Mark::Comma) {
                return Ok(found);
            }
        }
    }

    /// Expressions in parentheses.
    #[tactic(auto, unfolding(crate::specs::Reading::bracketed))]
    fn bracketed(&mut self, room: usize) -> Result<Vec<Expression<'a>>, ReadError>
        ensures { Reads (λ v. map expr v.items) (spec.bracketed room (spec.nested room)) result self.old.rest.now self.new.rest.now }
    {
        self.enter(room)?;
        let found = self.listed(room)?;
        self.expect(Mark::Close)?;
        Ok(found)
    }

    /// What stands in parentheses after a name; nothing where no parentheses are.
    #[tactic(auto, unfolding(crate::specs::Reading::subscripts))]
    pub fn subscripts(&mut self, room: usize) -> Result<Vec<Expression<'a>>, ReadError>
        ensures { Reads (λ v. map expr v.items) (spec.subscripts room (spec.nested room)) result self.old.rest.now self.new.rest.now }
    {
        if !self.sees(Mark::Open) {
            return Ok(Vec::new(self.alloc));
        }
        self.bracketed(room)
    }

    /// What stands in parentheses, if anything.
    #[cycle(expression)]
    #[tactic(auto, unfolding(crate::specs::Reading::arguments))]
    pub fn arguments(&mut self, room: usize) -> Result<Vec<Expression<'a>>, ReadError>
        ensures { Reads (λ v. map expr v.items) (spec.arguments room (spec.nested room)) result self.old.rest.now self.new.rest.now }
    {
        self.enter(room)?;
        if self.eat(Mark::Close) {
            return Ok(Vec::new(self.alloc));
        }
        let found = self.listed(room)?;
        self.expect(Mark::Close)?;
        Ok(found)
    }

    /// An expression, up to the parenthesis that closes it.
    #[cycle(expression)]
    #[tactic(auto, unfolding(crate::specs::Reading::closed))]
    fn closed(&mut self, room: usize) -> Result<Expression<'a>, ReadError>
        ensures { Reads expr (spec.closed room (spec.nested room)) result self.old.rest.now self.new.rest.now }
    {
        let inner = self.nested(room)?;
        self.expect(Mark::Close)?;
        Ok(inner)
    }

    #[cycle(expression)]
    #[tactic(auto, unfolding(crate::specs::Reading::apply))]
    fn apply(&mut self, room: usize, function: Function) -> Result<Expression<'a>, ReadError>
        ensures { Reads expr (spec.apply room (spec.nested room) function) result self.old.rest.now self.new.rest.now }
    {
        self.enter(room)?;
        let argument = self.closed(room)?;
        self.expression_of(ExpressionKind::Apply(function, argument))
    }

    #[tactic(auto, unfolding(crate::specs::Reading::query))]
    fn query(&mut self, room: usize, query: Query) -> Result<Expression<'a>, ReadError>
        ensures { Reads expr (spec.query room (spec.nested room) query) result self.old.rest.now self.new.rest.now }
    {
        self.enter(room)?;
        let name = self.name_before(Mark::Close)?;
        self.expression_of(ExpressionKind::Query(query, name))
    }

    /// The set after an item, if one stands there.
    #[tactic(auto, unfolding(crate::specs::Reading::set_after))]
    fn set_after(&mut self) -> Result<Option<Lexeme<'a>>, ReadError>
        ensures { Reads (option_map written) spec.set_after result self.old.rest.now self.new.rest.now }
    {
        if !self.eat(Mark::Comma) {
            return Ok(None);
        }
        let set = self.name()?;
        Ok(Some(set))
    }

    #[tactic(auto, unfolding(crate::specs::Reading::member))]
    fn member(&mut self, room: usize) -> Result<Expression<'a>, ReadError>
        ensures { Reads expr (spec.member room (spec.nested room)) result self.old.rest.now self.new.rest.now }
    {
        self.enter(room)?;
        let item = self.name()?;
        let set = self.set_after()?;
        self.expect(Mark::Close)?;
        self.expression_of(ExpressionKind::InValueSet(item, set))
    }

    /// What begins with a reserved word or a symbol, which is the last token.
    #[cycle(expression)]
    #[tactic(auto, unfolding(crate::specs::Reading::marked, crate::specs::Reading::group))]
    fn marked(
        &mut self,
        room: usize,
        mark: Mark,
        first: Token<'a>,
    ) -> Result<Expression<'a>, ReadError>
        ensures { Reads expr (spec.marked room (spec.nested room) mark) result self.old.rest.now self.new.rest.now }
    {
        match mark {
            Mark::Open => {
                let inner = self.closed(room)?;
                self.expression_of(ExpressionKind::Group(inner))
            }
            Mark::Int => self.apply(room, Function::Int),
            Mark::Special => self.apply(room, Function::Special),
            Mark::GetDeck => self.query(room, Query::GetDeck),
            Mark::TotOcc => self.query(room, Query::TotOcc),
            Mark::MaxOcc => self.query(room, Query::MaxOcc),
            Mark::CurOcc => self.query(room, Query::CurOcc),
            Mark::InValueSet => self.member(room),
            _ => Err(refused(&first)),
        }
    }

    /// What needs no parentheses.
    #[cycle(expression)]
    #[tactic(auto, unfolding(crate::specs::Reading::prim, crate::specs::Reading::named))]
    fn prim(&mut self, room: usize) -> Result<Expression<'a>, ReadError>
        ensures { Reads expr (spec.prim room (spec.nested room)) result self.old.rest.now self.new.rest.now }
    {
        let Some(first) = self.take() else {
            return Err(self.ended());
        };
        match first.kind {
            Kind::Number if is_within(0, MOST, first.text) => {
                self.expression_of(ExpressionKind::Number(Lexeme {
                    token: first.index,
                    text: first.text,
                }))
            }
            Kind::Number => Err(self.out_of_range()),
            Kind::Text => self.expression_of(ExpressionKind::Text(Lexeme {
                token: first.index,
                text: first.text,
            })),
            Kind::Special(special) => self.expression_of(ExpressionKind::Special(
                first.index,
                special,
            )),
            Kind::Name => {
                let name = Lexeme {
                    token: first.index,
                    text: first.text,
                };
                if !self.sees(Mark::Open) {
                    return self.expression_of(ExpressionKind::Name(name));
                }
                let arguments = self.arguments(room)?;
                self.indexed(name, arguments)
            }
            Kind::Mark(mark) => self.marked(room, mark, first),
            _ => Err(refused(&first)),
        }
    }

    #[cycle(expression)]
    #[tactic(auto, unfolding(crate::specs::Reading::unary))]
    fn unary(&mut self, room: usize) -> Result<Expression<'a>, ReadError>
        ensures { Reads expr (spec.unary room (spec.nested room)) result self.old.rest.now self.new.rest.now }
    {
        if !self.eat(Mark::Minus) {
            return self.prim(room);
        }
        let operand = self.prim(room)?;
        self.expression_of(ExpressionKind::Minus(operand))
    }

    /// Operands of a level, with its operators between them.
    #[cycle(expression)]
    fn chain(&mut self, level: Level, room: usize) -> Result<Expression<'a>, ReadError>
        ensures { Reads expr (spec.chain (spec.operator_of level) (spec.operand_of room (spec.nested room) level)) result self.old.rest.now self.new.rest.now }
    {
        let first = self.operand(level, room)?;
        let rest = self.operations(level, room)?;
        chained(self.alloc, first, rest)
    }

    #[cycle(expression)]
    fn operations(&mut self, level: Level, room: usize) -> Result<Vec<Operation<'a>>, ReadError>
        ensures { Reads (λ v. map operation_tree v.items) (λ ws. spec.operations_from (spec.operator_of level) (spec.operand_of room (spec.nested room) level)
            (length ws) [] ws) result self.old.rest.now self.new.rest.now }
    {
        let mut found = Vec::new(self.alloc);
        'operands: while let Some(operator) = self.take_operator(level) {
            let operand = self.operand(level, room)?;
            found.push(Operation { operator, operand })?;
        }
        Ok(found)
    }

    #[cycle(expression)]
    #[tactic(auto, unfolding(crate::specs::Reading::conjunction, crate::specs::Reading::product))]
    fn operand(&mut self, level: Level, room: usize) -> Result<Expression<'a>, ReadError>
        ensures { Reads expr (spec.operand_of room (spec.nested room) level) result self.old.rest.now self.new.rest.now }
    {
        match level {
            Level::Or => self.chain(Level::And, room),
            Level::And => self.negation(room),
            Level::Sum => self.chain(Level::Product, room),
            Level::Product => self.unary(room),
        }
    }

    #[cycle(expression)]
    #[tactic(auto, unfolding(crate::specs::Reading::negation))]
    fn negation(&mut self, room: usize) -> Result<Expression<'a>, ReadError>
        ensures { Reads expr (spec.negation room (spec.nested room)) result self.old.rest.now self.new.rest.now }
    {
        if !self.eat(Mark::Not) {
            return self.relation(room);
        }
        let operand = self.relation(room)?;
        self.expression_of(ExpressionKind::Not(operand))
    }

    #[cycle(expression)]
    #[tactic(auto, unfolding(crate::specs::Reading::relation, crate::specs::Reading::related, crate::specs::Reading::sum))]
    fn relation(&mut self, room: usize) -> Result<Expression<'a>, ReadError>
        ensures { Reads expr (spec.relation room (spec.nested room)) result self.old.rest.now self.new.rest.now }
    {
        let left = self.chain(Level::Sum, room)?;
        let Some(relation) = self.take_relation() else {
            return Ok(left);
        };
        let right = self.chain(Level::Sum, room)?;
        compare(self.alloc, left, relation, right)
    }

    /// Reads an expression, in which parentheses nest so deep at most.
    #[tactic(auto, unfolding(crate::specs::Reading::disjunction))]
    pub fn expression(&mut self, room: usize) -> Result<Expression<'a>, ReadError>
        ensures { Reads expr (spec.expr_at room) result self.old.rest.now self.new.rest.now }
    {
        self.chain(Level::Or, room)
    }
}

/// A node of this kind.
fn made<'a>(alloc: Global, kind: ExpressionKind<'a>) -> Result<Expression<'a>, ReadError>
    ensures { Makes expr result (expr_kind kind.entry) }
{
    Ok(Expression::new(alloc, kind)?)
}

fn compare<'a>(
    alloc: Global,
    left: Expression<'a>,
    relation: Relation,
    right: Expression<'a>,
) -> Result<Expression<'a>, ReadError>
    ensures { Makes expr result (Compare relation (expr left.entry) (expr right.entry)) }
{
    made(alloc, ExpressionKind::Compare(left, relation, right))
}

// A node that holds a `Vec` is made in a function of its own, whose clause is its view.

fn chain_of<'a>(
    alloc: Global,
    first: Expression<'a>,
    rest: Vec<Operation<'a>>,
) -> Result<Expression<'a>, ReadError>
    ensures { Makes expr result (tree.Chain (expr first.entry) (tree.operations (map operation_tree rest.entry.items))) }
{
    made(alloc, ExpressionKind::Chain(first, rest))
}

fn chained<'a>(
    alloc: Global,
    first: Expression<'a>,
    rest: Vec<Operation<'a>>,
) -> Result<Expression<'a>, ReadError>
    ensures { Makes expr result (spec.chained (expr first.entry) (map operation_tree rest.entry.items)) }
{
    if rest.is_empty() {
        return Ok(first);
    }
    chain_of(alloc, first, rest)
}

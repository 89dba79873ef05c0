//! From tokens to statements, one method a rule of the grammar.

ghost use Rattle.std.specs.Prelude.{◌≡◌, ◌<◌, IfOk, [], ◌∷◌, Some, length, map};
ghost use Rattle.std.specs.Option.{option_map};
ghost use Rattle.std.specs.Str.{str_eq_ignore_ascii_case};
ghost use Rattle.cse_syntax_tree.specs.Word.{words};
ghost use Rattle.cse_syntax_tree.specs.Tree as tree;
ghost use Rattle.cse_syntax_tree.specs.Tree.{written, expr, exprs, stmt, stmt_kind, stmts, block, arms, arm_tree, otherwise_tree};
ghost use Rattle.cse_syntax.specs.Reading as spec;
ghost use Rattle.cse_syntax.specs.Reading.{Reads};
ghost use Rattle.cse_syntax.specs.ReadingStmt as rule;

use crate::error::ReadError;
use crate::expression::MOST;
use crate::parser::{Parser, refused};
use cse_syntax_tree::{
    Arm, Count, Counting, Expression, Jump, Kind, Lexeme, Limit, Literal, Mark, Message, Place,
    Statement, StatementKind, Token, is_within,
};

/// The greatest limit of a `do`, and its greatest step.
const LIMIT_MOST: u64 = 999_999_999;

const STEP_MOST: u64 = 999;

fn starts_mark(mark: Mark) -> bool
    ensures { result ≡ rule.starts_mark mark }
{
    matches!(
        mark,
        Mark::Semicolon
            | Mark::If
            | Mark::For
            | Mark::Do
            | Mark::Impute
            | Mark::PutDeck
            | Mark::ErrMsg
    )
}

fn is_same_name(a: &str, b: &str) -> bool
    ensures { result ≡ str_eq_ignore_ascii_case a.now b.now }
{
    a.eq_ignore_ascii_case(b)
}

impl<'t, 'a> Parser<'t, 'a> {
    /// A statement of this kind, for which nothing more is read.
    fn statement_of(&self, kind: StatementKind<'a>) -> Result<Statement<'a>, ReadError>
        ensures { Reads stmt (λ ws. Some (stmt_kind kind.entry, ws)) result self.now.rest.now self.now.rest.now }
    {
        Ok(Statement::new(self.alloc, kind)?)
    }

    // A node that holds a `Vec` of statements is made in a function of its own, whose clause is its view.

    fn if_node(
        &self,
        first: Arm<'a>,
        others: Vec<Arm<'a>>,
        otherwise: Option<Vec<Statement<'a>>>,
    ) -> Result<Statement<'a>, ReadError>
        ensures { Reads stmt (λ ws. Some (tree.If (arm_tree first.entry).0 (arm_tree first.entry).1 (arms (map arm_tree others.entry.items) (otherwise_tree otherwise.entry)), ws))
            result self.now.rest.now self.now.rest.now }
    {
        self.statement_of(StatementKind::If(first, others, otherwise))
    }

    fn for_node(
        &self,
        variable: Lexeme<'a>,
        record_name: Lexeme<'a>,
        body: Vec<Statement<'a>>,
    ) -> Result<Statement<'a>, ReadError>
        ensures { Reads stmt (λ ws. Some (tree.For (written variable.entry) (written record_name.entry) (block body.entry.items), ws))
            result self.now.rest.now self.now.rest.now }
    {
        self.statement_of(StatementKind::For(variable, record_name, body))
    }

    fn do_node(
        &self,
        counting: Counting<'a>,
        body: Vec<Statement<'a>>,
    ) -> Result<Statement<'a>, ReadError>
        ensures { Reads stmt (λ ws. Some (tree.Do (tree.counting counting.entry) (block body.entry.items), ws))
            result self.now.rest.now self.now.rest.now }
    {
        self.statement_of(StatementKind::Do(counting, body))
    }

    fn starts_statement(&self) -> bool
        ensures { result ≡ rule.starts_stmt (words self.now.rest.now) }
    {
        match self.rest.first() {
            None => false,
            Some(token) => match token.kind {
                Kind::Name | Kind::Jump(_) => true,
                Kind::Mark(mark) => starts_mark(mark),
                _ => false,
            },
        }
    }

    /// A number with or without a minus, up to this.
    #[tactic(auto, unfolding(crate::specs::ReadingStmt::literal))]
    pub fn literal(&mut self, most: u64) -> Result<Literal<'a>, ReadError>
        ensures { Reads tree.literal (rule.literal most) result self.old.rest.now self.new.rest.now }
    {
        let is_negative = self.eat(Mark::Minus);
        let digits = self.number(0, most)?;
        Ok(Literal {
            is_negative,
            digits,
        })
    }

    #[tactic(auto, unfolding(crate::specs::ReadingStmt::counted))]
    fn counted(&mut self, room: usize, count: Count) -> Result<Limit<'a>, ReadError>
        ensures { Reads tree.limit (rule.counted room count) result self.old.rest.now self.new.rest.now }
    {
        self.enter(room)?;
        let record = self.name_before(Mark::Close)?;
        Ok(Limit::Count(count, record))
    }

    #[tactic(auto, unfolding(crate::specs::ReadingStmt::fixed))]
    fn fixed(&mut self) -> Result<Limit<'a>, ReadError>
        ensures { Reads tree.limit rule.fixed result self.old.rest.now self.new.rest.now }
    {
        let literal = self.literal(LIMIT_MOST)?;
        Ok(Limit::Literal(literal))
    }

    #[tactic(auto, unfolding(crate::specs::ReadingStmt::limit))]
    fn limit(&mut self, room: usize) -> Result<Limit<'a>, ReadError>
        ensures { Reads tree.limit (rule.limit room) result self.old.rest.now self.new.rest.now }
    {
        if self.eat(Mark::TotOcc) {
            return self.counted(room, Count::TotOcc);
        }
        if self.eat(Mark::MaxOcc) {
            return self.counted(room, Count::MaxOcc);
        }
        self.fixed()
    }

    #[tactic(auto, unfolding(crate::specs::ReadingStmt::step))]
    fn step(&mut self) -> Result<Option<Lexeme<'a>>, ReadError>
        ensures { Reads (option_map written) rule.step result self.old.rest.now self.new.rest.now }
    {
        if !self.eat(Mark::By) {
            return Ok(None);
        }
        let step = self.number(1, STEP_MOST)?;
        Ok(Some(step))
    }

    /// The second name of the variable, which is the first but for letter case.
    #[tactic(auto, unfolding(crate::specs::ReadingStmt::again))]
    fn again(&mut self, variable: Lexeme<'a>) -> Result<Lexeme<'a>, ReadError>
        ensures { Reads written (rule.again (written variable.entry)) result self.old.rest.now self.new.rest.now }
    {
        let place = self.unexpected();
        let name = self.name()?;
        if is_same_name(variable.text, name.text) {
            Ok(name)
        } else {
            Err(place)
        }
    }

    /// What stands between a `do` and its body.
    #[tactic(auto, unfolding(crate::specs::ReadingStmt::counting))]
    fn counting(&mut self, room: usize) -> Result<Counting<'a>, ReadError>
        ensures { Reads tree.counting (rule.counting room) result self.old.rest.now self.new.rest.now }
    {
        self.expect(Mark::Varying)?;
        let variable = self.name_before(Mark::Equals)?;
        let from = self.limit(room)?;
        self.expect(Mark::Until)?;
        let again = self.again(variable)?;
        self.expect(Mark::More)?;
        let to = self.limit(room)?;
        let by = self.step()?;
        Ok(Counting {
            variable,
            from,
            again,
            to,
            by,
        })
    }

    /// The same, where one more statement may be open.
    #[tactic(auto, unfolding(crate::specs::ReadingStmt::counting_at))]
    fn counting_at(&mut self, room: usize) -> Result<Counting<'a>, ReadError>
        ensures { Reads tree.counting (rule.counting_at room) result self.old.rest.now self.new.rest.now }
    {
        if room == 0 {
            return Err(self.too_deep());
        }
        self.counting(room - 1)
    }

    /// What stands between a `for` and its body, where one more statement may be open: the variable and the record.
    #[tactic(auto, unfolding(crate::specs::ReadingStmt::visiting, crate::specs::ReadingStmt::visiting_at))]
    fn visiting(&mut self, room: usize) -> Result<(Lexeme<'a>, Lexeme<'a>), ReadError>
        ensures { Reads (λ p. (written p.0, written p.1)) (rule.visiting_at room) result self.old.rest.now self.new.rest.now }
    {
        if room == 0 {
            return Err(self.too_deep());
        }
        let variable = self.name_before(Mark::In)?;
        let record_name = self.name_before(Mark::Do)?;
        Ok((variable, record_name))
    }

    #[tactic(auto, unfolding(crate::specs::ReadingStmt::message))]
    fn message(&mut self) -> Result<Message<'a>, ReadError>
        ensures { Reads tree.message rule.message result self.old.rest.now self.new.rest.now }
    {
        let Some(first) = self.take() else {
            return Err(self.ended());
        };
        match first.kind {
            Kind::Text => Ok(Message::Text(Lexeme {
                token: first.index,
                text: first.text,
            })),
            Kind::Number if is_within(0, MOST, first.text) => Ok(Message::Number(Lexeme {
                token: first.index,
                text: first.text,
            })),
            Kind::Number => Err(self.out_of_range()),
            _ => Err(refused(&first)),
        }
    }

    /// The value of an assignment, up to its end.
    #[tactic(auto, unfolding(crate::specs::ReadingStmt::assigned))]
    fn assigned(
        &mut self,
        room: usize,
        name: Lexeme<'a>,
        subscripts: Vec<Expression<'a>>,
    ) -> Result<Statement<'a>, ReadError>
        ensures { Reads stmt (rule.assigned room (written name.entry) (map expr subscripts.entry.items)) result self.old.rest.now self.new.rest.now }
    {
        let value = self.expression(room)?;
        self.expect(Mark::Semicolon)?;
        self.statement_of(StatementKind::Assign(Place { name, subscripts }, value))
    }

    /// What stands after a name and its parentheses: a value, if there was something in them, or nothing.
    #[tactic(auto, unfolding(crate::specs::ReadingStmt::called))]
    fn called(
        &mut self,
        room: usize,
        name: Lexeme<'a>,
        arguments: Vec<Expression<'a>>,
    ) -> Result<Statement<'a>, ReadError>
        ensures { Reads stmt (rule.called room (written name.entry) (map expr arguments.entry.items)) result self.old.rest.now self.new.rest.now }
    {
        if !arguments.is_empty() && self.eat(Mark::Equals) {
            return self.assigned(room, name, arguments);
        }
        self.expect(Mark::Semicolon)?;
        self.statement_of(StatementKind::Call(name, arguments))
    }

    /// What stands after a name that begins a statement.
    #[tactic(auto, unfolding(crate::specs::ReadingStmt::named_stmt))]
    fn named_statement(&mut self, room: usize, name: Lexeme<'a>) -> Result<Statement<'a>, ReadError>
        ensures { Reads stmt (rule.named_stmt room (written name.entry)) result self.old.rest.now self.new.rest.now }
    {
        if self.sees(Mark::Open) {
            let arguments = self.arguments(room)?;
            return self.called(room, name, arguments);
        }
        self.expect(Mark::Equals)?;
        self.assigned(room, name, Vec::new(self.alloc))
    }

    #[tactic(auto, unfolding(crate::specs::ReadingStmt::putdeck))]
    fn putdeck(&mut self, room: usize) -> Result<Statement<'a>, ReadError>
        ensures { Reads stmt (rule.putdeck room) result self.old.rest.now self.new.rest.now }
    {
        self.enter(room)?;
        let deck = self.name_before(Mark::Comma)?;
        let value = self.nested(room)?;
        self.ends(Mark::Close)?;
        self.statement_of(StatementKind::PutDeck(deck, value))
    }

    /// Further values, each after a comma.
    #[tactic(auto, unfolding(crate::specs::ReadingStmt::other_values))]
    fn other_values(&mut self, room: usize) -> Result<Vec<Expression<'a>>, ReadError>
        ensures { Reads (λ v. map expr v.items) (rule.other_values room) result self.old.rest.now self.new.rest.now }
    {
        if !self.eat(Mark::Comma) {
            return Ok(Vec::new(self.alloc));
        }
        self.listed(room)
    }

    #[tactic(auto, unfolding(crate::specs::ReadingStmt::errmsg))]
    fn errmsg(&mut self, room: usize) -> Result<Statement<'a>, ReadError>
        ensures { Reads stmt (rule.errmsg room) result self.old.rest.now self.new.rest.now }
    {
        self.enter(room)?;
        let message = self.message()?;
        let values = self.other_values(room)?;
        self.expect(Mark::Close)?;
        let is_summary = self.eat(Mark::Summary);
        self.expect(Mark::Semicolon)?;
        self.statement_of(StatementKind::ErrMsg(message, values, is_summary))
    }

    #[tactic(auto, unfolding(crate::specs::ReadingStmt::jump))]
    fn jump(&mut self, room: usize, token: usize, jump: Jump) -> Result<Statement<'a>, ReadError>
        ensures { Reads stmt (rule.jump room token jump) result self.old.rest.now self.new.rest.now }
    {
        self.expect(Mark::Semicolon)?;
        self.statement_of(StatementKind::Jump(token, jump))
    }

    #[tactic(auto, unfolding(crate::specs::ReadingStmt::impute))]
    fn impute(&mut self, room: usize) -> Result<Statement<'a>, ReadError>
        ensures { Reads stmt (rule.impute room) result self.old.rest.now self.new.rest.now }
    {
        self.expect(Mark::Open)?;
        if room == 0 {
            return Err(self.too_deep());
        }
        self.imputed(room - 1)
    }

    /// What stands in the parentheses of an `impute`, and its end.
    #[tactic(auto, unfolding(crate::specs::ReadingStmt::imputed))]
    fn imputed(&mut self, room: usize) -> Result<Statement<'a>, ReadError>
        ensures { Reads stmt (rule.imputed room) result self.old.rest.now self.new.rest.now }
    {
        let name = self.name()?;
        let subscripts = self.subscripts(room)?;
        self.expect(Mark::Comma)?;
        let value = self.expression(room)?;
        self.ends(Mark::Close)?;
        self.statement_of(StatementKind::Impute(Place { name, subscripts }, value))
    }

    /// Statements, up to what begins none.
    #[cycle(statement)]
    #[tactic(auto, unfolding(crate::specs::ReadingStmt::statements))]
    pub fn statements(&mut self, room: usize) -> Result<Vec<Statement<'a>>, ReadError>
        ensures { Reads (λ v. map stmt v.items) (rule.statements_at room) result self.old.rest.now self.new.rest.now }
    {
        let mut found = Vec::new(self.alloc);
        'all: while self.starts_statement() {
            let next = self.statement(room)?;
            found.push(next)?;
        }
        Ok(found)
    }

    /// The statements in one that is open.
    #[cycle(statement)]
    #[tactic(auto, unfolding(crate::specs::ReadingStmt::body_at))]
    fn body(&mut self, room: usize) -> Result<Vec<Statement<'a>>, ReadError>
        ensures { Reads (λ v. map stmt v.items) (rule.body_at room) result self.old.rest.now self.new.rest.now }
    {
        if room == 0 {
            return Err(self.too_deep());
        }
        self.statements(room - 1)
    }

    #[cycle(statement)]
    #[tactic(auto, unfolding(crate::specs::ReadingStmt::statement))]
    fn statement(&mut self, room: usize) -> Result<Statement<'a>, ReadError>
        ensures reads { Reads stmt (rule.statement room (rule.body_at room)) result self.old.rest.now self.new.rest.now }
        ensures taken { IfOk result (λ _. length self.new.rest.now < length self.old.rest.now) }
    {
        let Some(first) = self.take() else {
            return Err(self.ended());
        };
        match first.kind {
            Kind::Name => self.named_statement(
                room,
                Lexeme {
                    token: first.index,
                    text: first.text,
                },
            ),
            Kind::Jump(jump) => self.jump(room, first.index, jump),
            Kind::Mark(mark) => self.marked_statement(room, mark, first),
            _ => Err(refused(&first)),
        }
    }

    /// What begins with a reserved word or a symbol, which is the last token.
    #[cycle(statement)]
    #[tactic(auto, unfolding(crate::specs::ReadingStmt::marked_stmt, crate::specs::ReadingStmt::over, crate::specs::ReadingStmt::repeated))]
    fn marked_statement(
        &mut self,
        room: usize,
        mark: Mark,
        first: Token<'a>,
    ) -> Result<Statement<'a>, ReadError>
        ensures { Reads stmt (rule.marked_stmt room (rule.body_at room) mark) result self.old.rest.now self.new.rest.now }
    {
        match mark {
            Mark::Semicolon => self.statement_of(StatementKind::Empty),
            Mark::If => self.conditional(room),
            Mark::For => {
                let (variable, record_name) = self.visiting(room)?;
                let body = self.body_to(room, Mark::EndDo)?;
                self.for_node(variable, record_name, body)
            }
            Mark::Do => {
                let counting = self.counting_at(room)?;
                let body = self.body_to(room, Mark::EndDo)?;
                self.do_node(counting, body)
            }
            Mark::Impute => self.impute(room),
            Mark::PutDeck => self.putdeck(room),
            Mark::ErrMsg => self.errmsg(room),
            _ => Err(refused(&first)),
        }
    }

    /// An `if`, behind its first word.
    #[cycle(statement)]
    #[tactic(auto, unfolding(crate::specs::ReadingStmt::conditional))]
    fn conditional(&mut self, room: usize) -> Result<Statement<'a>, ReadError>
        ensures { Reads stmt (rule.conditional room (rule.body_at room)) result self.old.rest.now self.new.rest.now }
    {
        let first = self.guarded(room)?;
        let (others, otherwise) = self.alternatives(room)?;
        self.if_node(first, others, otherwise)
    }

    /// A condition and the statements that it guards.
    #[cycle(statement)]
    #[tactic(auto, unfolding(crate::specs::ReadingStmt::guarded))]
    fn guarded(&mut self, room: usize) -> Result<Arm<'a>, ReadError>
        ensures { Reads arm_tree (rule.guarded room (rule.body_at room)) result self.old.rest.now self.new.rest.now }
    {
        let condition = self.nested(room)?;
        self.expect(Mark::Then)?;
        let body = self.body(room)?;
        Ok(Arm { condition, body })
    }

    /// What stands behind the first arm of an `if`, and its end.
    #[cycle(statement)]
    #[tactic(auto, unfolding(crate::specs::ReadingStmt::alternatives, crate::specs::ReadingStmt::elseifs))]
    fn alternatives(
        &mut self,
        room: usize,
    ) -> Result<(Vec<Arm<'a>>, Option<Vec<Statement<'a>>>), ReadError>
        ensures { Reads (λ p. arms (map arm_tree p.0.items) (otherwise_tree p.1))
            (rule.alternatives room (rule.body_at room)) result self.old.rest.now self.new.rest.now }
    {
        let mut others = Vec::new(self.alloc);
        'all: while self.eat(Mark::ElseIf) {
            let next = self.guarded(room)?;
            others.push(next)?;
        }
        let otherwise = self.otherwise(room)?;
        Ok((others, otherwise))
    }

    /// The `else`, if it stands there, and the end of the `if`.
    #[cycle(statement)]
    #[tactic(auto, unfolding(crate::specs::ReadingStmt::otherwise))]
    fn otherwise(&mut self, room: usize) -> Result<Option<Vec<Statement<'a>>>, ReadError>
        ensures { Reads otherwise_tree (rule.otherwise room (rule.body_at room)) result self.old.rest.now self.new.rest.now }
    {
        if !self.eat(Mark::Else) {
            self.ends(Mark::EndIf)?;
            return Ok(None);
        }
        let body = self.body_to(room, Mark::EndIf)?;
        Ok(Some(body))
    }

    /// The statements in one that is open, up to its last word and a semicolon.
    #[cycle(statement)]
    #[tactic(auto, unfolding(crate::specs::ReadingStmt::body_to))]
    fn body_to(&mut self, room: usize, last: Mark) -> Result<Vec<Statement<'a>>, ReadError>
        ensures { Reads (λ v. block v.items) (rule.body_to room (rule.body_at room) last) result self.old.rest.now self.new.rest.now }
    {
        let body = self.body(room)?;
        self.ends(last)?;
        Ok(body)
    }
}

//! Syntax trees of logic. Names, numbers and texts are slices of the source, as written. A node is a handle, and what it is stands
//! behind a box (`Expression { kind: Box<ExpressionKind> }`): so whatever holds a node is small.
//!
//! Each leaf has the index of its token, counted from 0, so that a reader can tell its line and column. The token that
//! another node begins with stands right before its first leaf: [`Expression::token`] and the like tell it.

ghost use Rattle.std.specs.Prelude.{◌≡◌, ◌-◌, IfOk};
ghost use Rattle.cse_syntax_tree.specs.Tree.{expr, expr_kind, literal, message, stmt, stmt_kind};
ghost use Rattle.cse_syntax_tree.specs.First.{expr_token, literal_token, message_token, stmt_token};

use std::alloc::{AllocError, Global};

/// A name, a number or a text (its quotes included), as written.
#[derive(Clone, Copy)]
pub struct Lexeme<'a> {
    pub token: usize,
    pub text: &'a str,
}

// ---- expressions

/// The operators that group to the left.
#[derive(Clone, Copy)]
pub enum Operator {
    Or,
    And,
    Add,
    Subtract,
    Multiply,
    Divide,
    Remainder,
}

/// A relation of two values.
#[derive(Clone, Copy)]
pub enum Relation {
    Equal,
    Differs,
    Less,
    AtMost,
    More,
    AtLeast,
}

/// The special values.
#[derive(Clone, Copy, PartialEq, Eq)]
pub enum Special {
    NotAppl,
    Missing,
    Default,
}

/// The functions of one value.
#[derive(Clone, Copy)]
pub enum Function {
    Int,
    Special,
}

/// The functions of one name.
#[derive(Clone, Copy)]
pub enum Query {
    GetDeck,
    TotOcc,
    MaxOcc,
    CurOcc,
}

/// An expression, as it is written.
#[cycle(expr)]
pub struct Expression<'a> {
    pub kind: Box<ExpressionKind<'a>>,
}

impl Drop for Expression<'_> {
    #[cycle(expr)]
    fn drop(self) {
        let Expression { kind } = self;
        drop(kind);
    }
}

/// What an expression is.
#[cycle(expr)]
pub enum ExpressionKind<'a> {
    Number(Lexeme<'a>),
    Text(Lexeme<'a>),
    /// With its token.
    Special(usize, Special),
    Name(Lexeme<'a>),
    /// A name with parentheses after it: a place with subscripts, or a call.
    Indexed(Lexeme<'a>, Vec<Expression<'a>>),
    /// In parentheses.
    Group(Expression<'a>),
    Apply(Function, Expression<'a>),
    Query(Query, Lexeme<'a>),
    /// Whether an item's value is in a set, or in its first one.
    InValueSet(Lexeme<'a>, Option<Lexeme<'a>>),
    Minus(Expression<'a>),
    Not(Expression<'a>),
    /// Two sums with a relation between them.
    Compare(Expression<'a>, Relation, Expression<'a>),
    /// Operands of one level with its operators between them, which group to the left. There is at least one operator.
    Chain(Expression<'a>, Vec<Operation<'a>>),
}

// Its drop is written out, as those of the trees below: what owns a tree calls it. A derived one is laid out, with a part for
// each kind of node, wherever a tree may be dropped, in the crates above too.
impl Drop for ExpressionKind<'_> {
    #[cycle(expr)]
    fn drop(self) {
        match self {
            ExpressionKind::Number(_)
            | ExpressionKind::Text(_)
            | ExpressionKind::Special(_, _)
            | ExpressionKind::Name(_)
            | ExpressionKind::Query(_, _)
            | ExpressionKind::InValueSet(_, _) => {}
            ExpressionKind::Indexed(_, subscripts) => drop(subscripts),
            ExpressionKind::Group(inner)
            | ExpressionKind::Apply(_, inner)
            | ExpressionKind::Minus(inner)
            | ExpressionKind::Not(inner) => drop(inner),
            ExpressionKind::Compare(left, _, right) => {
                drop(left);
                drop(right);
            }
            ExpressionKind::Chain(first, others) => {
                drop(first);
                drop(others);
            }
        }
    }
}

/// An operator and the operand after it.
#[cycle(expr)]
#[derive(Drop)]
pub struct Operation<'a> {
    pub operator: Operator,
    pub operand: Expression<'a>,
}

// ---- statements

/// What a value is put into: a name, with the subscripts that stand in parentheses after it.
pub struct Place<'a> {
    pub name: Lexeme<'a>,
    pub subscripts: Vec<Expression<'a>>,
}

impl Drop for Place<'_> {
    fn drop(self) {
        let Place {
            name: _,
            subscripts,
        } = self;
        drop(subscripts);
    }
}

/// A number with its sign.
#[derive(Clone, Copy)]
pub struct Literal<'a> {
    pub is_negative: bool,
    pub digits: Lexeme<'a>,
}

/// What a limit of a `do` counts.
#[derive(Clone, Copy)]
pub enum Count {
    TotOcc,
    MaxOcc,
}

/// Where a `do` begins and ends.
#[derive(Clone, Copy)]
pub enum Limit<'a> {
    Literal(Literal<'a>),
    Count(Count, Lexeme<'a>),
}

/// The head of a `do varying`. The two names of its variable are the same but for letter case.
#[derive(Clone, Copy)]
pub struct Counting<'a> {
    pub variable: Lexeme<'a>,
    pub from: Limit<'a>,
    pub again: Lexeme<'a>,
    pub to: Limit<'a>,
    pub by: Option<Lexeme<'a>>,
}

/// A statement that leaves a turn, a loop or a procedure.
#[derive(Clone, Copy, PartialEq, Eq)]
pub enum Jump {
    Break,
    Next,
    Exit,
}

/// What a message says: a text of its own, or the number of one.
#[derive(Clone, Copy)]
pub enum Message<'a> {
    Text(Lexeme<'a>),
    Number(Lexeme<'a>),
}

/// A statement, as it is written.
#[cycle(stmt)]
pub struct Statement<'a> {
    pub kind: Box<StatementKind<'a>>,
}

impl Drop for Statement<'_> {
    #[cycle(stmt)]
    fn drop(self) {
        let Statement { kind } = self;
        drop(kind);
    }
}

/// What a statement is.
#[cycle(stmt)]
pub enum StatementKind<'a> {
    Empty,
    Assign(Place<'a>, Expression<'a>),
    Call(Lexeme<'a>, Vec<Expression<'a>>),
    /// The `if` and each `elseif`, in order, and the `else`.
    If(Arm<'a>, Vec<Arm<'a>>, Option<Vec<Statement<'a>>>),
    /// Over the occurrences of a record: the variable, the record and the body.
    For(Lexeme<'a>, Lexeme<'a>, Vec<Statement<'a>>),
    Do(Counting<'a>, Vec<Statement<'a>>),
    /// With its token.
    Jump(usize, Jump),
    Impute(Place<'a>, Expression<'a>),
    PutDeck(Lexeme<'a>, Expression<'a>),
    /// The message, its values, and whether it is only counted.
    ErrMsg(Message<'a>, Vec<Expression<'a>>, bool),
}

impl Drop for StatementKind<'_> {
    #[cycle(stmt)]
    fn drop(self) {
        match self {
            StatementKind::Empty | StatementKind::Jump(_, _) => {}
            StatementKind::Assign(place, value) | StatementKind::Impute(place, value) => {
                drop(place);
                drop(value);
            }
            StatementKind::Call(_, values) | StatementKind::ErrMsg(_, values, _) => drop(values),
            StatementKind::If(first, others, otherwise) => {
                drop(first);
                drop(others);
                drop(otherwise);
            }
            StatementKind::For(_, _, body) | StatementKind::Do(_, body) => drop(body),
            StatementKind::PutDeck(_, value) => drop(value),
        }
    }
}

/// A condition and the statements that it guards.
#[cycle(stmt)]
pub struct Arm<'a> {
    pub condition: Expression<'a>,
    pub body: Vec<Statement<'a>>,
}

impl Drop for Arm<'_> {
    #[cycle(stmt)]
    fn drop(self) {
        let Arm { condition, body } = self;
        drop(condition);
        drop(body);
    }
}

// ---- sources

/// The size of an array in one direction: a number, or the rows of a value set, with one more where `(+)` stands.
#[derive(Clone, Copy)]
pub enum Dimension<'a> {
    Number(Lexeme<'a>),
    Set(Lexeme<'a>, bool),
}

/// A parameter of a function, and whether `numeric` stands before it.
#[derive(Clone, Copy)]
pub struct Parameter<'a> {
    pub is_declared: bool,
    pub name: Lexeme<'a>,
}

/// What is declared in `PROC GLOBAL`.
pub enum Declaration<'a> {
    Numeric(Vec<Lexeme<'a>>),
    /// The length of the texts, and their names.
    Alpha(Lexeme<'a>, Vec<Lexeme<'a>>),
    Array(Array<'a>),
    Function(Lexeme<'a>, Vec<Parameter<'a>>, Vec<Statement<'a>>),
}

impl Drop for Declaration<'_> {
    fn drop(self) {
        match self {
            Declaration::Numeric(names) | Declaration::Alpha(_, names) => drop(names),
            Declaration::Array(array) => drop(array),
            Declaration::Function(_, parameters, body) => {
                drop(parameters);
                drop(body);
            }
        }
    }
}

/// An array that is declared, as it is written.
pub struct Array<'a> {
    pub name: Lexeme<'a>,
    pub dimensions: Vec<Dimension<'a>>,
    pub is_saved: bool,
    /// The cells at the start; none where no list stands there.
    pub cells: Vec<Literal<'a>>,
}

impl Drop for Array<'_> {
    fn drop(self) {
        let Array {
            name: _,
            dimensions: _dimensions,
            is_saved: _,
            cells: _cells,
        } = self;
    }
}

/// The statements of a procedure, by the words that stand before them.
pub enum Body<'a> {
    Plain(Vec<Statement<'a>>),
    Preproc(Vec<Statement<'a>>),
    Both(Vec<Statement<'a>>, Vec<Statement<'a>>),
    Postproc(Vec<Statement<'a>>),
}

impl Drop for Body<'_> {
    fn drop(self) {
        match self {
            Body::Plain(part) | Body::Preproc(part) | Body::Postproc(part) => drop(part),
            Body::Both(before, after) => {
                drop(before);
                drop(after);
            }
        }
    }
}

/// A procedure, as it is written.
pub struct Procedure<'a> {
    pub name: Lexeme<'a>,
    pub body: Body<'a>,
}

impl Drop for Procedure<'_> {
    fn drop(self) {
        let Procedure {
            name: _,
            body: _body,
        } = self;
    }
}

/// What stands after `PROC GLOBAL`, if it is there, and the other procedures.
pub struct Tree<'a> {
    pub globals: Option<Vec<Declaration<'a>>>,
    pub procedures: Vec<Procedure<'a>>,
}

impl Drop for Tree<'_> {
    fn drop(self) {
        let Tree {
            globals: _globals,
            procedures: _procedures,
        } = self;
    }
}

impl<'a> Expression<'a> {
    /// An expression of this kind; want of memory (90) is its only fault.
    pub fn new(alloc: Global, kind: ExpressionKind<'a>) -> Result<Expression<'a>, AllocError>
        ensures { IfOk result (λ r. expr r ≡ expr_kind kind.entry) }
    {
        Ok(Expression {
            kind: Box::new(alloc, kind)?,
        })
    }
}

impl Expression<'_> {
    /// The index of the first token.
    pub fn token(&self) -> usize
        ensures { result ≡ expr_token (expr self.now) }
    {
        match &*self.kind {
            ExpressionKind::Number(lexeme) => lexeme.token,
            ExpressionKind::Text(lexeme) => lexeme.token,
            ExpressionKind::Name(lexeme) => lexeme.token,
            ExpressionKind::Indexed(name, _) => name.token,
            ExpressionKind::Special(token, _) => *token,
            ExpressionKind::Group(inner) => inner.token().saturating_sub(1),
            ExpressionKind::Apply(_, argument) => argument.token().saturating_sub(2),
            ExpressionKind::Query(_, name) => name.token.saturating_sub(2),
            ExpressionKind::InValueSet(item, _) => item.token.saturating_sub(2),
            ExpressionKind::Minus(operand) => operand.token().saturating_sub(1),
            ExpressionKind::Not(operand) => operand.token().saturating_sub(1),
            ExpressionKind::Compare(first, _, _) => first.token(),
            ExpressionKind::Chain(first, _) => first.token(),
        }
    }
}

impl Operation<'_> {
    /// The index of the operator.
    pub fn token(&self) -> usize
        ensures { result ≡ expr_token (expr self.now.operand) - 1 }
    {
        self.operand.token().saturating_sub(1)
    }
}

impl Literal<'_> {
    /// The index of the sign, if there is one, or else of the number.
    pub fn token(&self) -> usize
        ensures { result ≡ literal_token (literal self.now) }
    {
        if self.is_negative {
            self.digits.token.saturating_sub(1)
        } else {
            self.digits.token
        }
    }
}

impl Message<'_> {
    /// The index of the text or the number.
    pub fn token(&self) -> usize
        ensures { result ≡ message_token (message self.now) }
    {
        match self {
            Message::Text(text) => text.token,
            Message::Number(number) => number.token,
        }
    }
}

impl<'a> Statement<'a> {
    /// A statement of this kind; want of memory (90) is its only fault.
    pub fn new(alloc: Global, kind: StatementKind<'a>) -> Result<Statement<'a>, AllocError>
        ensures { IfOk result (λ r. stmt r ≡ stmt_kind kind.entry) }
    {
        Ok(Statement {
            kind: Box::new(alloc, kind)?,
        })
    }
}

impl Statement<'_> {
    /// The index of the first token; an empty statement tells none.
    pub fn token(&self) -> Option<usize>
        ensures { result ≡ stmt_token (stmt self.now) }
    {
        match &*self.kind {
            StatementKind::Empty => None,
            StatementKind::Assign(place, _) => Some(place.name.token),
            StatementKind::Call(name, _) => Some(name.token),
            StatementKind::If(first, _, _) => Some(first.condition.token().saturating_sub(1)),
            StatementKind::For(variable, _, _) => Some(variable.token.saturating_sub(1)),
            StatementKind::Do(counting, _) => Some(counting.variable.token.saturating_sub(2)),
            StatementKind::Jump(token, _) => Some(*token),
            StatementKind::Impute(place, _) => Some(place.name.token.saturating_sub(2)),
            StatementKind::PutDeck(deck, _) => Some(deck.token.saturating_sub(2)),
            StatementKind::ErrMsg(message, _, _) => Some(message.token().saturating_sub(2)),
        }
    }
}

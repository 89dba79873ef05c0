//! Trees of logic in which each name stands beside what it names.
//!
//! A node is a handle, and what it is stands behind a box (`Number { kind: Box<NumberKind> }`): so whatever holds a node is small.
//! A number and a text are of different types, so that no text stands where a number is wanted. Names are slices of
//! the source with their tokens, as in the trees of syntax. Globals, arrays, functions and messages are numbered from
//! 0 in order of the source; items, records and value sets as in the dictionary.

use cse_syntax_tree::{
    Count, Jump, Lexeme, Literal, Message, Operator, Parameter, Relation, Special,
};

// ---- what names mean

/// A variable that holds a number.
#[derive(Clone, Copy)]
pub enum Variable {
    Global(usize),
    /// By its place among the parameters, from 0.
    Parameter(usize),
    /// The result of the function.
    Result,
}

/// Which occurrence an item of a record means where no subscript stands.
#[derive(Clone, Copy)]
pub enum Found {
    /// That of the innermost `for` over the record.
    Loop,
    /// That of the event, which is of an item of the record.
    Event,
    /// The first, since the record has one at most.
    First,
}

/// An item of a record.
#[derive(Clone, Copy)]
pub struct Field {
    /// The number of its record.
    pub owner: u8,
    pub item: u16,
}

/// An item without a subscript.
#[derive(Clone, Copy)]
pub enum Present {
    /// An id item.
    Id(u16),
    Here(Field, Found),
}

/// What picks one index of a hot deck: the row of an item's value in a value set.
#[derive(Clone, Copy)]
pub struct Pick {
    pub item: Present,
    pub set: u16,
    /// Whether a value without a row picks one more row, the last.
    pub has_leftover: bool,
}

// ---- expressions

/// A numeric expression, each name beside what it names.
#[cycle(value)]
pub struct Number<'a> {
    pub kind: Box<NumberKind<'a>>,
}

impl Drop for Number<'_> {
    #[cycle(value)]
    fn drop(self) {
        let Number { kind } = self;
        drop(kind);
    }
}

/// What a numeric expression is.
#[cycle(value)]
pub enum NumberKind<'a> {
    /// With the number that the digits write.
    Literal(Lexeme<'a>, i64),
    /// With its token.
    Special(usize, Special),
    Variable(Lexeme<'a>, Variable),
    Item(Lexeme<'a>, Present),
    /// With a subscript.
    ItemAt(Lexeme<'a>, Field, Number<'a>),
    /// A cell of an array, by its subscripts.
    Cell(Lexeme<'a>, usize, Vec<Number<'a>>),
    /// A call of a function.
    Call(Lexeme<'a>, usize, Vec<Number<'a>>),
    /// In parentheses.
    Group(Number<'a>),
    Int(Number<'a>),
    IsSpecial(Number<'a>),
    /// The cell of a hot deck.
    Deck(Lexeme<'a>, usize, Vec<Pick>),
    TotOcc(Lexeme<'a>, u8),
    MaxOcc(Lexeme<'a>, u8),
    CurOcc(Lexeme<'a>, u8, Found),
    /// Whether an item's value is in a set, with the set's name where one stands there.
    InSet(Lexeme<'a>, Present, Option<Lexeme<'a>>, u16),
    Minus(Number<'a>),
    Not(Number<'a>),
    Compare(Number<'a>, Relation, Number<'a>),
    CompareTexts(Words<'a>, Relation, Words<'a>),
    /// Operands of one level with its operators between them, which group to the left.
    Chain(Number<'a>, Vec<Operation<'a>>),
}

// Its drop is written out, as those of the trees below: what owns a tree calls it. A derived one is laid out, with a part for
// each kind of node, wherever a tree may be dropped, in the crates above too.
impl Drop for NumberKind<'_> {
    #[cycle(value)]
    fn drop(self) {
        match self {
            NumberKind::Literal(_, _)
            | NumberKind::Special(_, _)
            | NumberKind::Variable(_, _)
            | NumberKind::Item(_, _)
            | NumberKind::TotOcc(_, _)
            | NumberKind::MaxOcc(_, _)
            | NumberKind::CurOcc(_, _, _)
            | NumberKind::InSet(_, _, _, _) => {}
            NumberKind::Deck(_, _, picks) => drop(picks),
            NumberKind::ItemAt(_, _, x)
            | NumberKind::Group(x)
            | NumberKind::Int(x)
            | NumberKind::IsSpecial(x)
            | NumberKind::Minus(x)
            | NumberKind::Not(x) => drop(x),
            NumberKind::Cell(_, _, inner) | NumberKind::Call(_, _, inner) => drop(inner),
            NumberKind::Compare(left, _, right) => {
                drop(left);
                drop(right);
            }
            NumberKind::CompareTexts(left, _, right) => {
                drop(left);
                drop(right);
            }
            NumberKind::Chain(first, others) => {
                drop(first);
                drop(others);
            }
        }
    }
}

/// A text.
#[cycle(value)]
pub struct Words<'a> {
    pub kind: Box<WordsKind<'a>>,
}

impl Drop for Words<'_> {
    #[cycle(value)]
    fn drop(self) {
        let Words { kind } = self;
        drop(kind);
    }
}

/// What a text is.
#[cycle(value)]
pub enum WordsKind<'a> {
    /// In quotes.
    Literal(Lexeme<'a>),
    Global(Lexeme<'a>, usize),
    Item(Lexeme<'a>, Present),
    /// With a subscript.
    ItemAt(Lexeme<'a>, Field, Number<'a>),
    /// In parentheses.
    Group(Words<'a>),
}

impl Drop for WordsKind<'_> {
    #[cycle(value)]
    fn drop(self) {
        match self {
            WordsKind::Literal(_) | WordsKind::Global(_, _) | WordsKind::Item(_, _) => {}
            WordsKind::ItemAt(_, _, x) => drop(x),
            WordsKind::Group(x) => drop(x),
        }
    }
}

/// An operator and the operand after it.
#[cycle(value)]
#[derive(Drop)]
pub struct Operation<'a> {
    pub operator: Operator,
    pub operand: Number<'a>,
}

// ---- statements

/// Which occurrence of an item a value is put into.
pub enum Which<'a> {
    Here(Found),
    At(Number<'a>),
}

impl Drop for Which<'_> {
    fn drop(self) {
        match self {
            Which::Here(_) => {}
            Which::At(index) => drop(index),
        }
    }
}

/// A value of a message.
pub enum Argument<'a> {
    Number(Number<'a>),
    Words(Words<'a>),
}

impl Drop for Argument<'_> {
    fn drop(self) {
        match self {
            Argument::Number(number) => drop(number),
            Argument::Words(words) => drop(words),
        }
    }
}

/// A number with its sign, and what it is.
#[derive(Clone, Copy)]
pub struct Whole<'a> {
    pub literal: Literal<'a>,
    pub value: i64,
}

/// Where a `do` begins and ends.
#[derive(Clone, Copy)]
pub enum Limit<'a> {
    Literal(Whole<'a>),
    /// The occurrences of a record, by its number.
    Count(Count, Lexeme<'a>, u8),
}

/// The head of a `do varying`.
#[derive(Clone, Copy)]
pub struct Counting<'a> {
    pub name: Lexeme<'a>,
    pub variable: Variable,
    pub from: Limit<'a>,
    pub again: Lexeme<'a>,
    pub to: Limit<'a>,
    pub by: Option<Lexeme<'a>>,
    /// What each turn adds.
    pub step: i64,
}

/// A statement, each name beside what it names.
#[cycle(action)]
pub struct Statement<'a> {
    pub kind: Box<StatementKind<'a>>,
}

impl Drop for Statement<'_> {
    #[cycle(action)]
    fn drop(self) {
        let Statement { kind } = self;
        drop(kind);
    }
}

/// What a statement is.
#[cycle(action)]
pub enum StatementKind<'a> {
    Empty,
    Set(Lexeme<'a>, Variable, Number<'a>),
    SetText(Lexeme<'a>, usize, Words<'a>),
    SetItem(Lexeme<'a>, Field, Which<'a>, Number<'a>),
    SetTextItem(Lexeme<'a>, Field, Which<'a>, Words<'a>),
    SetCell(Lexeme<'a>, usize, Vec<Number<'a>>, Number<'a>),
    /// A call of a function, whose result is given up.
    Call(Lexeme<'a>, usize, Vec<Number<'a>>),
    /// The `if` and each `elseif`, in order, and the `else`.
    If(Arm<'a>, Vec<Arm<'a>>, Option<Vec<Statement<'a>>>),
    /// Over the occurrences of a record: the variable, the record and the body.
    For(Lexeme<'a>, Variable, Lexeme<'a>, u8, Vec<Statement<'a>>),
    Do(Counting<'a>, Vec<Statement<'a>>),
    /// With its token.
    Jump(usize, Jump),
    Impute(Lexeme<'a>, Field, Which<'a>, Number<'a>),
    PutDeck(Lexeme<'a>, usize, Vec<Pick>, Number<'a>),
    /// The message, its number among the messages of the source, its values, and whether it is only counted.
    ErrMsg(Message<'a>, usize, Vec<Argument<'a>>, bool),
}

impl Drop for StatementKind<'_> {
    #[cycle(action)]
    fn drop(self) {
        match self {
            StatementKind::Empty | StatementKind::Jump(_, _) => {}
            StatementKind::Set(_, _, value) => drop(value),
            StatementKind::SetText(_, _, text) => drop(text),
            StatementKind::SetItem(_, _, which, value)
            | StatementKind::Impute(_, _, which, value) => {
                drop(which);
                drop(value);
            }
            StatementKind::SetTextItem(_, _, which, text) => {
                drop(which);
                drop(text);
            }
            StatementKind::SetCell(_, _, subscripts, value) => {
                drop(subscripts);
                drop(value);
            }
            StatementKind::PutDeck(_, _, picks, value) => {
                drop(picks);
                drop(value);
            }
            StatementKind::Call(_, _, arguments) => drop(arguments),
            StatementKind::ErrMsg(_, _, values, _) => drop(values),
            StatementKind::If(first, others, otherwise) => {
                drop(first);
                drop(others);
                drop(otherwise);
            }
            StatementKind::For(_, _, _, _, body) | StatementKind::Do(_, body) => drop(body),
        }
    }
}

/// A condition and the statements that it guards.
#[cycle(action)]
pub struct Arm<'a> {
    pub condition: Number<'a>,
    pub body: Vec<Statement<'a>>,
}

impl Drop for Arm<'_> {
    #[cycle(action)]
    fn drop(self) {
        let Arm { condition, body } = self;
        drop(condition);
        drop(body);
    }
}

// ---- sources

/// The size of an array in one direction: a number, or the rows of a value set, with one more where `(+)` stands.
#[derive(Clone, Copy)]
pub enum Dimension<'a> {
    Number(Lexeme<'a>, u16),
    /// The set's name, its number, whether `(+)` stands there, and the size.
    Set(Lexeme<'a>, u16, bool, u16),
}

/// An array that is declared.
pub struct Array<'a> {
    pub name: Lexeme<'a>,
    pub dimensions: Vec<Dimension<'a>>,
    pub is_saved: bool,
    /// The first cells at the start; the others are 0.
    pub cells: Vec<Whole<'a>>,
}

impl Drop for Array<'_> {
    fn drop(self) {
        let Array {
            name: _,
            dimensions: _dimensions,
            is_saved: _,
            cells: _cells,
        } = self;
    }
}

/// A function that is declared.
pub struct Function<'a> {
    pub name: Lexeme<'a>,
    pub parameters: Vec<Parameter<'a>>,
    pub body: Vec<Statement<'a>>,
    /// Whether it needs a case: it names a record or an item, uses a hot deck, or calls a function that needs one.
    pub needs_case: bool,
}

impl Drop for Function<'_> {
    fn drop(self) {
        let Function {
            name: _,
            parameters: _parameters,
            body: _body,
            needs_case: _,
        } = self;
    }
}

/// What stands in `PROC GLOBAL`.
pub enum Declaration<'a> {
    Numeric(Vec<Lexeme<'a>>),
    /// The length of the texts, as written and as a number, and their names.
    Alpha(Lexeme<'a>, u16, Vec<Lexeme<'a>>),
    Array(Array<'a>),
    Function(Function<'a>),
}

impl Drop for Declaration<'_> {
    fn drop(self) {
        match self {
            Declaration::Numeric(names) | Declaration::Alpha(_, _, names) => drop(names),
            Declaration::Array(array) => drop(array),
            Declaration::Function(function) => drop(function),
        }
    }
}

/// The statements of a procedure, by the words that stand before them.
pub enum Body<'a> {
    Plain(Vec<Statement<'a>>),
    Preproc(Vec<Statement<'a>>),
    Both(Vec<Statement<'a>>, Vec<Statement<'a>>),
    Postproc(Vec<Statement<'a>>),
}

impl Drop for Body<'_> {
    fn drop(self) {
        match self {
            Body::Plain(part) | Body::Preproc(part) | Body::Postproc(part) => drop(part),
            Body::Both(before, after) => {
                drop(before);
                drop(after);
            }
        }
    }
}

/// What a procedure belongs to.
#[derive(Clone, Copy)]
pub enum Owner {
    Application,
    Level,
    Record(u8),
    Item(Field),
}

/// A procedure, with what it belongs to.
pub struct Procedure<'a> {
    pub name: Lexeme<'a>,
    pub owner: Owner,
    pub body: Body<'a>,
}

impl Drop for Procedure<'_> {
    fn drop(self) {
        let Procedure {
            name: _,
            owner: _,
            body: _body,
        } = self;
    }
}

/// A message of the source: its number, 0 for a text that stands in the source, its text, and whether it is only
/// counted.
#[derive(Clone, Copy)]
pub struct MessageEntry<'a> {
    pub number: u32,
    pub text: &'a str,
    pub is_summary: bool,
}

/// What stands after `PROC GLOBAL`, if it is there, the other procedures, and the messages of each `errmsg`, in order.
pub struct Tree<'a> {
    pub globals: Option<Vec<Declaration<'a>>>,
    pub procedures: Vec<Procedure<'a>>,
    pub messages: Vec<MessageEntry<'a>>,
}

// Written out, so that a crate that owns a tree calls this drop and does not prove one for each part.
impl Drop for Tree<'_> {
    fn drop(self) {
        let Tree {
            globals: _globals,
            procedures: _procedures,
            messages: _messages,
        } = self;
    }
}

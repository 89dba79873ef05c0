//! Nodes that hold others in a `Vec`. Each is made in a function of its own, whose clause is its view.

ghost use Rattle.std.specs.Prelude.{◌≡◌, map, IfOk};
ghost use Rattle.cse_syntax_tree.specs.Tree.{written};
ghost use Rattle.cse_logic_tree.specs.Typed as spec;
ghost use Rattle.cse_logic_tree.specs.Typed.{number, number_kind, words, words_kind, numbers, operations, operation_tree, statement, statement_kind, counting, block, arms, arm_tree, otherwise_tree};

use crate::tree::{
    Arm, Counting, Number, NumberKind, Operation, Statement, StatementKind, Variable, Words,
    WordsKind,
};
use cse_syntax_tree::Lexeme;
use std::alloc::{AllocError, Global};

impl<'a> NumberKind<'a> {
    /// A cell of an array.
    pub fn cell(name: Lexeme<'a>, array: usize, subscripts: Vec<Number<'a>>) -> NumberKind<'a>
        ensures { number_kind result ≡ spec.Cell (written name.entry) array (numbers (map number subscripts.entry.items)) }
    {
        NumberKind::Cell(name, array, subscripts)
    }

    /// A call of a function.
    pub fn call(name: Lexeme<'a>, function: usize, arguments: Vec<Number<'a>>) -> NumberKind<'a>
        ensures { number_kind result ≡ spec.Call (written name.entry) function (numbers (map number arguments.entry.items)) }
    {
        NumberKind::Call(name, function, arguments)
    }

    /// Operands with operators between them.
    pub fn chain(first: Number<'a>, others: Vec<Operation<'a>>) -> NumberKind<'a>
        ensures { number_kind result ≡ spec.Chain (number first.entry) (operations (map operation_tree others.entry.items)) }
    {
        NumberKind::Chain(first, others)
    }
}

impl<'a> StatementKind<'a> {
    /// The `if` and each `elseif`, in order, and the `else`.
    pub fn choice(
        first: Arm<'a>,
        others: Vec<Arm<'a>>,
        otherwise: Option<Vec<Statement<'a>>>,
    ) -> StatementKind<'a>
        ensures { statement_kind result
            ≡ spec.If (arm_tree first.entry).0 (arm_tree first.entry).1 (arms (map arm_tree others.entry.items) (otherwise_tree otherwise.entry)) }
    {
        StatementKind::If(first, others, otherwise)
    }

    /// A loop over the occurrences of a record.
    pub fn each_occurrence(
        name: Lexeme<'a>,
        variable: Variable,
        record_name: Lexeme<'a>,
        over: u8,
        body: Vec<Statement<'a>>,
    ) -> StatementKind<'a>
        ensures { statement_kind result ≡ spec.For (written name.entry) variable (written record_name.entry) over (block body.entry.items) }
    {
        StatementKind::For(name, variable, record_name, over, body)
    }

    /// A loop that counts.
    pub fn counted(head: Counting<'a>, body: Vec<Statement<'a>>) -> StatementKind<'a>
        ensures { statement_kind result ≡ spec.Do (counting head.entry) (block body.entry.items) }
    {
        StatementKind::Do(head, body)
    }
}

impl<'a> Number<'a> {
    /// A number of this kind; want of memory (90) is its only fault.
    pub fn new(alloc: Global, kind: NumberKind<'a>) -> Result<Number<'a>, AllocError>
        ensures { IfOk result (λ r. number r ≡ number_kind kind.entry) }
    {
        Ok(Number {
            kind: Box::new(alloc, kind)?,
        })
    }
}

impl<'a> Words<'a> {
    /// A text of this kind; want of memory (90) is its only fault.
    pub fn new(alloc: Global, kind: WordsKind<'a>) -> Result<Words<'a>, AllocError>
        ensures { IfOk result (λ r. words r ≡ words_kind kind.entry) }
    {
        Ok(Words {
            kind: Box::new(alloc, kind)?,
        })
    }
}

impl<'a> Statement<'a> {
    /// A statement of this kind; want of memory (90) is its only fault.
    pub fn new(alloc: Global, kind: StatementKind<'a>) -> Result<Statement<'a>, AllocError>
        ensures { IfOk result (λ r. statement r ≡ statement_kind kind.entry) }
    {
        Ok(Statement {
            kind: Box::new(alloc, kind)?,
        })
    }
}

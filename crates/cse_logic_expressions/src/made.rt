//! Nodes, each as what it is found to be.

ghost use Rattle.std.specs.Prelude.{◌≡◌, Some, IfOk};
ghost use Rattle.std.specs.Option.{option_map};
ghost use Rattle.cse_logic_tree.specs.Typed.{number_kind, words_kind, statement, statement_kind};
ghost use Rattle.cse_logic_expressions.specs.Judge as spec;
ghost use Rattle.cse_logic_expressions.specs.Judge.{judged};

use crate::judged::Judged;
use cse_logic_tree::{Number, NumberKind, Statement, StatementKind, Words, WordsKind};
use std::alloc::{AllocError, Global};

/// A statement that is sound.
pub fn statement_found<'a>(
    alloc: Global,
    kind: StatementKind<'a>,
) -> Result<Option<Statement<'a>>, AllocError>
    ensures { IfOk result (λ r. option_map statement r ≡ Some (statement_kind kind.entry)) }
{
    match Statement::new(alloc, kind) {
        Ok(x) => Ok(Some(x)),
        Err(fault) => Err(fault),
    }
}

/// A number that is sound, as what an expression is.
pub fn number_judged<'a>(alloc: Global, kind: NumberKind<'a>) -> Result<Judged<'a>, AllocError>
    ensures { IfOk result (λ r. judged r ≡ spec.AsNumber (Some (number_kind kind.entry))) }
{
    match Number::new(alloc, kind) {
        Ok(x) => Ok(Judged::Number(Some(x))),
        Err(fault) => Err(fault),
    }
}

/// A text that is sound, as what an expression is.
pub fn words_judged<'a>(alloc: Global, kind: WordsKind<'a>) -> Result<Judged<'a>, AllocError>
    ensures { IfOk result (λ r. judged r ≡ spec.AsWords (Some (words_kind kind.entry))) }
{
    match Words::new(alloc, kind) {
        Ok(x) => Ok(Judged::Words(Some(x))),
        Err(fault) => Err(fault),
    }
}

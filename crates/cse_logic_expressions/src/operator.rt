//! What operators make of their operands.

ghost use Rattle.std.specs.Prelude.{◌≡◌, not, map, IfOk};
ghost use Rattle.std.specs.Option.{option_map};
ghost use Rattle.cse_logic_tree.specs.Typed as typed;
ghost use Rattle.cse_logic_tree.specs.Typed.{number, words, operations, operation_tree};
ghost use Rattle.cse_logic_expressions.specs.Judge as spec;
ghost use Rattle.cse_logic_expressions.specs.Judge.{judged, compared};
ghost use Rattle.cse_logic_names.specs.Walk.{joined};

use crate::judged::Judged;
use crate::made::{number_judged, words_judged};
use cse_logic_tree::{Number, NumberKind, Operation, Words, WordsKind};
use cse_syntax_tree::Relation;
use std::alloc::{AllocError, Global};

/// The negative of a number, where it is sound.
pub fn minus<'a>(alloc: Global, x: Option<Number<'a>>) -> Result<Judged<'a>, AllocError>
    ensures { IfOk result (λ r. judged r ≡ spec.AsNumber (option_map typed.Minus (option_map number x.entry))) }
{
    match x {
        None => Ok(Judged::Number(None)),
        Some(x) => number_judged(alloc, NumberKind::Minus(x)),
    }
}

/// What `not` makes of a number.
pub fn negated<'a>(alloc: Global, x: Option<Number<'a>>) -> Result<Judged<'a>, AllocError>
    ensures { IfOk result (λ r. judged r ≡ spec.AsNumber (option_map typed.Not (option_map number x.entry))) }
{
    match x {
        None => Ok(Judged::Number(None)),
        Some(x) => number_judged(alloc, NumberKind::Not(x)),
    }
}

/// What `int` makes of a number.
pub fn int<'a>(alloc: Global, x: Option<Number<'a>>) -> Result<Judged<'a>, AllocError>
    ensures { IfOk result (λ r. judged r ≡ spec.AsNumber (option_map typed.Int (option_map number x.entry))) }
{
    match x {
        None => Ok(Judged::Number(None)),
        Some(x) => number_judged(alloc, NumberKind::Int(x)),
    }
}

/// What `special` makes of a number.
pub fn is_special<'a>(alloc: Global, x: Option<Number<'a>>) -> Result<Judged<'a>, AllocError>
    ensures { IfOk result (λ r. judged r ≡ spec.AsNumber (option_map typed.IsSpecial (option_map number x.entry))) }
{
    match x {
        None => Ok(Judged::Number(None)),
        Some(x) => number_judged(alloc, NumberKind::IsSpecial(x)),
    }
}

fn number_group<'a>(alloc: Global, x: Option<Number<'a>>) -> Result<Judged<'a>, AllocError>
    ensures { IfOk result (λ r. judged r ≡ spec.AsNumber (option_map typed.Group (option_map number x.entry))) }
{
    match x {
        None => Ok(Judged::Number(None)),
        Some(x) => number_judged(alloc, NumberKind::Group(x)),
    }
}

fn text_group<'a>(alloc: Global, x: Option<Words<'a>>) -> Result<Judged<'a>, AllocError>
    ensures { IfOk result (λ r. judged r ≡ spec.AsWords (option_map typed.TextGroup (option_map words x.entry))) }
{
    match x {
        None => Ok(Judged::Words(None)),
        Some(x) => words_judged(alloc, WordsKind::Group(x)),
    }
}

/// A number or a text in parentheses.
pub fn grouped<'a>(alloc: Global, x: Judged<'a>) -> Result<Judged<'a>, AllocError>
    ensures { IfOk result (λ r. judged r ≡ spec.grouped (judged x.entry)) }
{
    match x {
        Judged::Number(x) => number_group(alloc, x),
        Judged::Words(x) => text_group(alloc, x),
        Judged::Unknown => Ok(Judged::Unknown),
    }
}

fn compared_numbers<'a>(
    alloc: Global,
    relation: Relation,
    x: Option<Number<'a>>,
    y: Judged<'a>,
) -> Result<Judged<'a>, AllocError>
    ensures { IfOk result (λ r. judged r ≡ spec.AsNumber (compared relation (spec.AsNumber (option_map number x.entry)) (judged y.entry))) }
{
    let Judged::Number(y) = y else {
        return Ok(Judged::Number(None));
    };
    match x.zip(y) {
        None => Ok(Judged::Number(None)),
        Some((x, y)) => number_judged(alloc, NumberKind::Compare(x, relation, y)),
    }
}

fn compared_texts<'a>(
    alloc: Global,
    relation: Relation,
    x: Option<Words<'a>>,
    y: Judged<'a>,
) -> Result<Judged<'a>, AllocError>
    ensures { IfOk result (λ r. judged r ≡ spec.AsNumber (compared relation (spec.AsWords (option_map words x.entry)) (judged y.entry))) }
{
    let Judged::Words(y) = y else {
        return Ok(Judged::Number(None));
    };
    match x.zip(y) {
        None => Ok(Judged::Number(None)),
        Some((x, y)) => number_judged(alloc, NumberKind::CompareTexts(x, relation, y)),
    }
}

/// Two values of one kind; else none.
pub fn compared<'a>(
    alloc: Global,
    relation: Relation,
    x: Judged<'a>,
    y: Judged<'a>,
) -> Result<Judged<'a>, AllocError>
    ensures { IfOk result (λ r. judged r ≡ spec.AsNumber (compared relation (judged x.entry) (judged y.entry))) }
{
    match x {
        Judged::Number(x) => compared_numbers(alloc, relation, x, y),
        Judged::Words(x) => compared_texts(alloc, relation, x, y),
        Judged::Unknown => Ok(Judged::Number(None)),
    }
}

/// A first operand, and operators with theirs.
pub fn chained<'a>(
    alloc: Global,
    first: Option<Number<'a>>,
    others: Option<Vec<Operation<'a>>>,
) -> Result<Judged<'a>, AllocError>
    ensures { IfOk result (λ r. judged r
        ≡ spec.AsNumber (joined typed.Chain (option_map number first.entry) (option_map (λ v. operations (map operation_tree v.items)) others.entry))) }
{
    match first.zip(others) {
        None => Ok(Judged::Number(None)),
        Some((first, others)) => number_judged(alloc, NumberKind::chain(first, others)),
    }
}

//! Items, value sets, hot decks and records in expressions.

ghost use Rattle.std.specs.Prelude.{◌≡◌, map, Some, None, IfOk};
ghost use Rattle.std.specs.Option.{option_map};
ghost use Rattle.cse_syntax_tree.specs.Tree.{written};
ghost use Rattle.cse_logic_tree.specs.Typed as typed;
ghost use Rattle.cse_logic_tree.specs.Typed.{number, numbers};
ghost use Rattle.cse_logic_names.specs.Scope.{kind_and_owner, has_case};
ghost use Rattle.cse_logic_expressions.specs.Judge as spec;
ghost use Rattle.cse_logic_expressions.specs.Judge.{judged, number_present};
ghost use Rattle.cse_logic_names.specs.Walk.{joined};
ghost use Rattle.cse_logic_expressions.specs.Clauses.{numbers_made};

use crate::judged::Judged;
use crate::made::{number_judged, words_judged};
use cse_logic_names::meaning::Meaning;
use cse_logic_names::scope::{Scope, has_case, kind_and_owner};
use cse_logic_tree::{Field, Number, NumberKind, Present, WordsKind};
use cse_syntax_tree::Lexeme;
use cse_value::shape::ItemKind;
use std::alloc::{AllocError, Global};

/// The number of an id item's record.
const IDS: u8 = 255;

/// An item without a subscript, by its record's number.
#[tactic(auto, unfolding(crate::specs::Judge::present_at))]
pub fn present_at(scope: &Scope<'_>, item: u16, owner: u8) -> Option<Present>
    ensures { result ≡ spec.present_at scope.now item owner }
{
    if !has_case(scope.routine) {
        return None;
    }
    if owner == IDS {
        return Some(Present::Id(item));
    }
    match scope.found(u16::from(owner)) {
        None => None,
        Some(found) => Some(Present::Here(Field { owner, item }, found)),
    }
}

/// An item of a record, by its record's number. An id item has no subscript and is not assigned.
#[tactic(auto, unfolding(crate::specs::Judge::field_at))]
pub fn field_at(scope: &Scope<'_>, item: u16, owner: u8) -> Option<Field>
    ensures { result ≡ spec.field_at scope.now item owner }
{
    if owner == IDS || !has_case(scope.routine) {
        return None;
    }
    Some(Field { owner, item })
}

fn number_item<'a>(
    alloc: Global,
    name: Lexeme<'a>,
    item: Option<Present>,
) -> Result<Judged<'a>, AllocError>
    ensures { IfOk result (λ r. judged r ≡ spec.AsNumber (option_map (typed.Item (written name.entry)) item)) }
{
    match item {
        None => Ok(Judged::Number(None)),
        Some(item) => number_judged(alloc, NumberKind::Item(name, item)),
    }
}

fn text_item<'a>(
    alloc: Global,
    name: Lexeme<'a>,
    item: Option<Present>,
) -> Result<Judged<'a>, AllocError>
    ensures { IfOk result (λ r. judged r ≡ spec.AsWords (option_map (typed.TextItem (written name.entry)) item)) }
{
    match item {
        None => Ok(Judged::Words(None)),
        Some(item) => words_judged(alloc, WordsKind::Item(name, item)),
    }
}

/// An item that is named without a subscript.
pub fn item<'a>(
    alloc: Global,
    scope: &Scope<'_>,
    name: Lexeme<'a>,
    item: u16,
) -> Result<Judged<'a>, AllocError>
    ensures { IfOk result (λ r. judged r ≡ spec.item_judged scope.now (written name.entry) item (kind_and_owner scope.now.dictionary item)) }
{
    match kind_and_owner(scope.dictionary, item) {
        Some((ItemKind::Number, owner)) => {
            number_item(alloc, name, present_at(scope, item, owner))
        }
        Some((ItemKind::Text, owner)) => text_item(alloc, name, present_at(scope, item, owner)),
        _ => Ok(Judged::Unknown),
    }
}

/// The only one of some subscripts.
pub fn sole<'a>(subscripts: Option<Vec<Number<'a>>>) -> Option<Number<'a>>
    ensures { option_map number result ≡ spec.sole (numbers_made subscripts.entry) }
{
    match subscripts {
        None => None,
        Some(subscripts) => only_one(subscripts),
    }
}

fn only_one<'a>(subscripts: Vec<Number<'a>>) -> Option<Number<'a>>
    ensures { option_map number result ≡ spec.sole (Some (numbers (map number subscripts.entry.items))) }
{
    let mut subscripts = subscripts;
    if subscripts.len() != 1 {
        return None;
    }
    subscripts.pop()
}

/// A numeric item without a subscript.
pub fn number_present(scope: &Scope<'_>, item: u16) -> Option<Present>
    ensures { result ≡ number_present scope.now item }
{
    match kind_and_owner(scope.dictionary, item) {
        Some((ItemKind::Number, owner)) => present_at(scope, item, owner),
        _ => None,
    }
}

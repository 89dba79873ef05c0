//! What is put into variables, cells, items and hot decks, and calls that stand alone.
//!
//! What a name means is asked before its parts are judged, so that no tree is owned where the ways part.

ghost use Rattle.std.specs.Prelude.{◌≡◌, ◌==◌, Some, IfOk};
ghost use Rattle.std.specs.Option.{option_map};
ghost use Rattle.cse_syntax_tree.specs.Tree.{written};
ghost use Rattle.cse_logic_tree.specs.Typed as typed;
ghost use Rattle.cse_logic_tree.specs.Typed.{statement, words};
ghost use Rattle.cse_logic_names.specs.WellTyped.{dimensions_of};
ghost use Rattle.cse_logic_names.specs.Walk.{joined, only_if};
ghost use Rattle.cse_logic_expressions.specs.Judge as judge;
ghost use Rattle.cse_logic_expressions.specs.JudgeStatement as spec;
ghost use Rattle.cse_logic_expressions.specs.Clauses.{all_judged, by_item, into_cell, into_deck, into_item, judged_alone, number_alone, place_count, text_alone, value_count};

use crate::call::{has_dimensions, is_free};
use crate::deck::picks;
use crate::expression::{all_values, expression, value};
use crate::judged::Judged;
use crate::made::statement_found;
use crate::place::place_at;
use cse_logic_names::scope::{Scope, kind_and_owner};
use cse_logic_tree::{Statement, StatementKind, Variable, Words};
use cse_syntax_tree::{Expression, Lexeme, Place};
use cse_value::shape::ItemKind;
use std::alloc::{AllocError, Global};

/// How many values stand there.
pub fn count_of(values: &Vec<Expression<'_>>) -> usize
    ensures { result ≡ value_count values.now.items }
{
    values.len()
}

/// A variable that no open loop is over; else none.
pub fn free_variable(scope: &Scope<'_>, variable: Option<Variable>) -> Option<Variable>
    ensures { result ≡ spec.free_variable scope.now.loops variable }
{
    match variable {
        Some(variable) if is_free(&scope.loops, variable) => Some(variable),
        _ => None,
    }
}

fn set<'a>(
    alloc: Global,
    scope: &Scope<'_>,
    name: Lexeme<'a>,
    variable: Variable,
    x: &Expression<'a>,
) -> Result<Option<Statement<'a>>, AllocError>
    ensures { IfOk result (λ r. option_map statement r
        ≡ joined (typed.Set (written name.entry)) (Some variable) (number_alone scope.now x.now)) }
{
    match value(alloc, scope, false, x)? {
        None => Ok(None),
        Some(value) => statement_found(alloc, StatementKind::Set(name, variable, value)),
    }
}

/// An assignment of a variable, or of the result of a function in its own body.
pub fn assign_variable<'a>(
    alloc: Global,
    scope: &Scope<'_>,
    place: &Place<'a>,
    variable: Option<Variable>,
    x: &Expression<'a>,
) -> Result<Option<Statement<'a>>, AllocError>
    ensures { IfOk result (λ r. option_map statement r
        ≡ spec.assign_variable scope.now (written place.now.name) variable (place_count place.now) (judged_alone scope.now x.now)) }
{
    if count_of(&place.subscripts) != 0 {
        return Ok(None);
    }
    match free_variable(scope, variable) {
        None => Ok(None),
        Some(variable) => set(alloc, scope, place.name, variable, x),
    }
}

/// A text, or none.
pub fn text<'a>(
    alloc: Global,
    scope: &Scope<'_>,
    x: &Expression<'a>,
) -> Result<Option<Words<'a>>, AllocError>
    ensures { IfOk result (λ r. option_map words r ≡ text_alone scope.now x.now) }
{
    match expression(alloc, scope, false, x)? {
        Judged::Words(text) => Ok(text),
        _ => Ok(None),
    }
}

/// An assignment of a text variable.
pub fn assign_text<'a>(
    alloc: Global,
    scope: &Scope<'_>,
    place: &Place<'a>,
    global: usize,
    x: &Expression<'a>,
) -> Result<Option<Statement<'a>>, AllocError>
    ensures { IfOk result (λ r. option_map statement r ≡ only_if (place_count place.now == 0)
        (option_map (typed.SetText (written place.now.name) global) (text_alone scope.now x.now))) }
{
    if count_of(&place.subscripts) != 0 {
        return Ok(None);
    }
    match text(alloc, scope, x)? {
        None => Ok(None),
        Some(text) => statement_found(alloc, StatementKind::SetText(place.name, global, text)),
    }
}

fn set_cell<'a>(
    alloc: Global,
    scope: &Scope<'_>,
    place: &Place<'a>,
    array: usize,
    x: &Expression<'a>,
) -> Result<Option<Statement<'a>>, AllocError>
    ensures { IfOk result (λ r. option_map statement r ≡ into_cell scope.now place.now array (number_alone scope.now x.now)) }
{
    let Some(subscripts) = all_values(alloc, scope, &place.subscripts)? else {
        return Ok(None);
    };
    match value(alloc, scope, false, x)? {
        None => Ok(None),
        Some(value) => statement_found(
            alloc,
            StatementKind::SetCell(place.name, array, subscripts, value),
        ),
    }
}

/// An assignment of a cell, where the array has so many dimensions.
pub fn assign_cell<'a>(
    alloc: Global,
    scope: &Scope<'_>,
    place: &Place<'a>,
    array: usize,
    x: &Expression<'a>,
) -> Result<Option<Statement<'a>>, AllocError>
    ensures { IfOk result (λ r. option_map statement r ≡ only_if (judge.is_count (place_count place.now) (dimensions_of scope.now array))
        (into_cell scope.now place.now array (number_alone scope.now x.now))) }
{
    if !has_dimensions(scope, count_of(&place.subscripts), array) {
        return Ok(None);
    }
    set_cell(alloc, scope, place, array, x)
}

fn set_item<'a>(
    alloc: Global,
    scope: &Scope<'_>,
    place: &Place<'a>,
    item: u16,
    owner: u8,
    x: &Expression<'a>,
) -> Result<Option<Statement<'a>>, AllocError>
    ensures { IfOk result (λ r. option_map statement r
        ≡ into_item spec.set_item scope.now place.now item owner (number_alone scope.now x.now)) }
{
    let Some((field, which)) = place_at(alloc, scope, place, item, owner)? else {
        return Ok(None);
    };
    match value(alloc, scope, false, x)? {
        None => Ok(None),
        Some(value) => statement_found(
            alloc,
            StatementKind::SetItem(place.name, field, which, value),
        ),
    }
}

fn set_text_item<'a>(
    alloc: Global,
    scope: &Scope<'_>,
    place: &Place<'a>,
    item: u16,
    owner: u8,
    x: &Expression<'a>,
) -> Result<Option<Statement<'a>>, AllocError>
    ensures { IfOk result (λ r. option_map statement r
        ≡ into_item spec.set_text_item scope.now place.now item owner (text_alone scope.now x.now)) }
{
    let Some((field, which)) = place_at(alloc, scope, place, item, owner)? else {
        return Ok(None);
    };
    match text(alloc, scope, x)? {
        None => Ok(None),
        Some(text) => statement_found(
            alloc,
            StatementKind::SetTextItem(place.name, field, which, text),
        ),
    }
}

/// An assignment of an item.
pub fn assign_item<'a>(
    alloc: Global,
    scope: &Scope<'_>,
    place: &Place<'a>,
    item: u16,
    x: &Expression<'a>,
) -> Result<Option<Statement<'a>>, AllocError>
    ensures { IfOk result (λ r. option_map statement r ≡ by_item spec.assign_item scope.now place.now item (judged_alone scope.now x.now)) }
{
    match kind_and_owner(scope.dictionary, item) {
        Some((ItemKind::Number, owner)) => set_item(alloc, scope, place, item, owner, x),
        Some((ItemKind::Text, owner)) => set_text_item(alloc, scope, place, item, owner, x),
        _ => Ok(None),
    }
}

fn imputed<'a>(
    alloc: Global,
    scope: &Scope<'_>,
    place: &Place<'a>,
    item: u16,
    owner: u8,
    x: &Expression<'a>,
) -> Result<Option<Statement<'a>>, AllocError>
    ensures { IfOk result (λ r. option_map statement r
        ≡ into_item spec.impute_item scope.now place.now item owner (number_alone scope.now x.now)) }
{
    let Some((field, which)) = place_at(alloc, scope, place, item, owner)? else {
        return Ok(None);
    };
    match value(alloc, scope, false, x)? {
        None => Ok(None),
        Some(value) => statement_found(
            alloc,
            StatementKind::Impute(place.name, field, which, value),
        ),
    }
}

/// An imputation of an item, which is a numeric one.
pub fn impute_item<'a>(
    alloc: Global,
    scope: &Scope<'_>,
    place: &Place<'a>,
    item: u16,
    x: &Expression<'a>,
) -> Result<Option<Statement<'a>>, AllocError>
    ensures { IfOk result (λ r. option_map statement r ≡ by_item spec.impute_number scope.now place.now item (number_alone scope.now x.now)) }
{
    match kind_and_owner(scope.dictionary, item) {
        Some((ItemKind::Number, owner)) => imputed(alloc, scope, place, item, owner, x),
        _ => Ok(None),
    }
}

/// A call that stands alone, of a function that may be called.
pub fn call<'a>(
    alloc: Global,
    scope: &Scope<'_>,
    name: Lexeme<'a>,
    function: usize,
    arguments: &Vec<Expression<'a>>,
) -> Result<Option<Statement<'a>>, AllocError>
    ensures { IfOk result (λ r. option_map statement r
        ≡ option_map (typed.CallOf (written name.entry) function) (all_judged scope.now arguments.now.items)) }
{
    match all_values(alloc, scope, arguments)? {
        None => Ok(None),
        Some(arguments) => statement_found(alloc, StatementKind::Call(name, function, arguments)),
    }
}

/// A value that is put into a hot deck.
pub fn put_deck<'a>(
    alloc: Global,
    scope: &Scope<'_>,
    name: Lexeme<'a>,
    array: usize,
    x: &Expression<'a>,
) -> Result<Option<Statement<'a>>, AllocError>
    ensures { IfOk result (λ r. option_map statement r ≡ into_deck scope.now name.entry array (number_alone scope.now x.now)) }
{
    let Some(picks) = picks(alloc, scope, array)? else {
        return Ok(None);
    };
    match value(alloc, scope, false, x)? {
        None => Ok(None),
        Some(value) => statement_found(alloc, StatementKind::PutDeck(name, array, picks, value)),
    }
}

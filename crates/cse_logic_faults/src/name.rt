//! The faults of names of variables, cells, calls and items.

ghost use Rattle.std.specs.Prelude.{◌≡◌, ◌++◌, Some, OnOk, slice_get};
ghost use Rattle.std.specs.List.{list_any};
ghost use Rattle.cse_syntax_tree.specs.Tree.{written};
ghost use Rattle.cse_logic_names.specs.Scope as scopes;
ghost use Rattle.cse_logic_faults.specs.FaultsOfExpressions as spec;
ghost use Rattle.cse_logic_names.specs.Walk.{is_there};

use crate::counts::{Counts, is_count};
use crate::found::Found;
use cse_fault_numbers::{
    BEFORE_ITS_END, LOOP_VARIABLE, OPAQUE_ITEM, OTHER_KIND, UNKNOWN_NAME, UNUSABLE_HERE,
};
use cse_logic_names::meaning::Meaning;
use cse_logic_names::names::Globals;
use cse_logic_names::scope::{Facts, Scope, has_case, kind_and_owner, own_result};
use cse_logic_tree::Variable;
use cse_syntax_tree::Lexeme;
use cse_value::shape::ItemKind;
use std::alloc::AllocError;

/// The number of an id item's record.
pub const IDS: u8 = 255;

// ---- items

/// Whether an occurrence of the record is known.
pub fn is_found(scope: &Scope<'_>, owner: u8) -> bool
    ensures { result ≡ is_there (scopes.found scope.now owner) }
{
    match scope.found(u16::from(owner)) {
        None => false,
        Some(_) => true,
    }
}

/// Whether an item of this record stands here without a subscript: an id item, or one whose occurrence is known.
pub fn is_present(scope: &Scope<'_>, owner: u8) -> bool
    ensures { result ≡ spec.is_present scope.now owner }
{
    has_case(scope.routine) && (owner == IDS || is_found(scope, owner))
}

/// An item without a subscript.
fn item(scope: &Scope<'_>, found: &mut Found, token: usize, item: u16) -> Result<(), AllocError>
    ensures { OnOk result (found.new ≡ found.old ++ spec.item_faults scope.now token (scopes.kind_and_owner scope.now.dictionary item)) }
{
    match kind_and_owner(scope.dictionary, item) {
        None => found.add(UNKNOWN_NAME, token),
        Some((kind, owner)) => match kind {
            ItemKind::Opaque => found.add(OPAQUE_ITEM, token),
            ItemKind::Number => found.unless(is_present(scope, owner), UNUSABLE_HERE, token),
            ItemKind::Text => found.unless(is_present(scope, owner), UNUSABLE_HERE, token),
        },
    }
}

/// An item of a record with so many subscripts.
#[tactic(auto, using(crate::proofs::Lists::behind))]
fn field(
    scope: &Scope<'_>,
    found: &mut Found,
    token: usize,
    count: usize,
    owner: u8,
) -> Result<(), AllocError>
    ensures { OnOk result (found.new ≡ found.old ++ spec.field_faults scope.now token count owner) }
{
    found.unless(count == 1 && !(owner == IDS), OTHER_KIND, token)?;
    found.unless(has_case(scope.routine), UNUSABLE_HERE, token)
}

/// An item with so many subscripts.
fn item_at(
    scope: &Scope<'_>,
    found: &mut Found,
    token: usize,
    count: usize,
    item: u16,
) -> Result<(), AllocError>
    ensures { OnOk result (found.new ≡ found.old ++ spec.item_at_faults scope.now token count (scopes.kind_and_owner scope.now.dictionary item)) }
{
    match kind_and_owner(scope.dictionary, item) {
        None => found.add(UNKNOWN_NAME, token),
        Some((kind, owner)) => match kind {
            ItemKind::Opaque => found.add(OPAQUE_ITEM, token),
            ItemKind::Number => field(scope, found, token, count, owner),
            ItemKind::Text => field(scope, found, token, count, owner),
        },
    }
}

/// A numeric item without a subscript.
pub fn number_item(
    scope: &Scope<'_>,
    found: &mut Found,
    token: usize,
    item: u16,
) -> Result<(), AllocError>
    ensures { OnOk result (found.new ≡ found.old ++ spec.number_item_faults scope.now token (scopes.kind_and_owner scope.now.dictionary item)) }
{
    match kind_and_owner(scope.dictionary, item) {
        None => found.add(UNKNOWN_NAME, token),
        Some((kind, owner)) => match kind {
            ItemKind::Opaque => found.add(OPAQUE_ITEM, token),
            ItemKind::Number => found.unless(is_present(scope, owner), UNUSABLE_HERE, token),
            ItemKind::Text => found.add(OTHER_KIND, token),
        },
    }
}

// ---- calls and cells

/// Whether a variable is one of these globals.
fn is_among(globals: &Globals, variable: Variable) -> bool
    ensures { result ≡ scopes.is_among globals.now variable }
{
    match variable {
        Variable::Global(global) => globals.has(global),
        Variable::Parameter(_) => false,
        Variable::Result => false,
    }
}

fn is_any_among(loops: &[(Option<u16>, Variable)], globals: &Globals) -> bool
    ensures { result ≡ list_any (λ l. scopes.is_among globals.now l.1) loops.now }
{
    loops.iter().any(|open| is_among(globals, open.1))
}

/// Whether none of these globals is the variable of an open loop.
fn are_free(loops: &[(Option<u16>, Variable)], globals: &Globals) -> bool
    ensures { result ≡ scopes.are_free loops.now globals.now }
{
    !is_any_among(loops, globals)
}

/// A call of a function that has ended.
#[tactic(auto, using(crate::proofs::Lists::behind))]
fn ended(
    scope: &Scope<'_>,
    found: &mut Found,
    token: usize,
    facts: &Facts,
) -> Result<(), AllocError>
    ensures { OnOk result (found.new ≡ found.old ++ spec.ended_faults scope.now token (Some (Some facts.now))) }
{
    found.unless(
        are_free(&scope.loops, &facts.assigned),
        LOOP_VARIABLE,
        token,
    )?;
    found.unless(
        has_case(scope.routine) || !facts.needs_case,
        UNUSABLE_HERE,
        token,
    )
}

/// A call of a function that has ended, sound or not, or has not.
fn called(
    scope: &Scope<'_>,
    found: &mut Found,
    token: usize,
    function: usize,
) -> Result<(), AllocError>
    ensures { OnOk result (found.new ≡ found.old ++ spec.ended_faults scope.now token (slice_get scope.now.functions function)) }
{
    match scope.functions.get(function) {
        None => found.add(BEFORE_ITS_END, token),
        Some(facts) => match facts {
            None => found.none(),
            Some(facts) => ended(scope, found, token, facts),
        },
    }
}

/// A call of a function with so many arguments.
#[tactic(auto, using(crate::proofs::Lists::behind))]
pub fn call(
    scope: &Scope<'_>,
    counts: &Counts,
    found: &mut Found,
    token: usize,
    count: usize,
    function: usize,
) -> Result<(), AllocError>
    ensures { OnOk result (found.new ≡ found.old ++ spec.call_faults counts.now scope.now token count function) }
{
    found.unless(
        is_count(&counts.parameters, function, count),
        OTHER_KIND,
        token,
    )?;
    called(scope, found, token, function)
}

/// A cell of an array with so many subscripts.
pub fn cell(
    counts: &Counts,
    found: &mut Found,
    token: usize,
    count: usize,
    array: usize,
) -> Result<(), AllocError>
    ensures { OnOk result (found.new ≡ found.old ++ spec.cell_faults counts.now token count array) }
{
    found.unless(
        is_count(&counts.dimensions, array, count),
        OTHER_KIND,
        token,
    )
}

// ---- names

/// Whether this is the function in which its name stands.
fn is_own(scope: &Scope<'_>, function: usize) -> bool
    ensures { result ≡ is_there (scopes.own_result scope.now.routine function) }
{
    match own_result(scope.routine, function) {
        None => false,
        Some(_) => true,
    }
}

/// A name without parentheses.
pub fn bare(scope: &Scope<'_>, found: &mut Found, name: Lexeme<'_>) -> Result<(), AllocError>
    ensures { OnOk result (found.new ≡ found.old ++ spec.bare_faults scope.now name.entry.token (scopes.meant scope.now (written name.entry))) }
{
    match scope.meant(name) {
        None => found.add(UNKNOWN_NAME, name.token),
        Some(meaning) => match meaning {
            Meaning::Variable(_) => found.none(),
            Meaning::Text(_) => found.none(),
            Meaning::Array(_) => found.add(OTHER_KIND, name.token),
            Meaning::Function(function) => found.unless(
                is_own(scope, function),
                UNKNOWN_NAME,
                name.token,
            ),
            Meaning::Record(_) => found.add(UNKNOWN_NAME, name.token),
            Meaning::Item(number) => item(scope, found, name.token, number),
            Meaning::Set(_) => found.add(UNKNOWN_NAME, name.token),
            Meaning::Application => found.add(UNKNOWN_NAME, name.token),
            Meaning::Level => found.add(UNKNOWN_NAME, name.token),
        },
    }
}

/// A name with so many subscripts or arguments.
pub fn indexed(
    scope: &Scope<'_>,
    counts: &Counts,
    found: &mut Found,
    name: Lexeme<'_>,
    count: usize,
) -> Result<(), AllocError>
    ensures { OnOk result (found.new ≡ found.old ++ spec.indexed_faults counts.now scope.now name.entry.token count (scopes.meant scope.now (written name.entry))) }
{
    match scope.meant(name) {
        None => found.add(UNKNOWN_NAME, name.token),
        Some(meaning) => match meaning {
            Meaning::Variable(_) => found.add(OTHER_KIND, name.token),
            Meaning::Text(_) => found.add(OTHER_KIND, name.token),
            Meaning::Array(array) => cell(counts, found, name.token, count, array),
            Meaning::Function(function) => {
                call(scope, counts, found, name.token, count, function)
            }
            Meaning::Record(_) => found.add(UNKNOWN_NAME, name.token),
            Meaning::Item(item) => item_at(scope, found, name.token, count, item),
            Meaning::Set(_) => found.add(UNKNOWN_NAME, name.token),
            Meaning::Application => found.add(UNKNOWN_NAME, name.token),
            Meaning::Level => found.add(UNKNOWN_NAME, name.token),
        },
    }
}

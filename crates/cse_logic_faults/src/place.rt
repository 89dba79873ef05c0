//! The faults of what a value is put into, and of calls that stand alone.

ghost use Rattle.std.specs.Prelude.{◌≡◌, ◌++◌, ◌==◌, OnOk};
ghost use Rattle.std.specs.List.{list_any};
ghost use Rattle.cse_syntax_tree.specs.Tree.{written};
ghost use Rattle.cse_logic_names.specs.Scope as scopes;
ghost use Rattle.cse_logic_faults.specs.Faults as faults;
ghost use Rattle.cse_logic_faults.specs.FaultsOfExpressions as expressions;
ghost use Rattle.cse_logic_faults.specs.FaultsOfStatements as spec;
ghost use Rattle.cse_logic_faults.specs.Listed.{sort};
ghost use Rattle.cse_logic_faults.specs.Clauses.{item_faults, name_faults, result_faults, text_item_faults, variable_faults};

use crate::counts::Counts;
use crate::expression::text;
use crate::found::Found;
use crate::kind::{Kind, is_number};
use crate::name::{IDS, call, cell, is_found};
use cse_fault_numbers::{
    ID_ITEM, LOOP_VARIABLE, OPAQUE_ITEM, OTHER_KIND, UNKNOWN_NAME, UNUSABLE_HERE,
};
use cse_logic_names::meaning::Meaning;
use cse_logic_names::scope::{Scope, has_case, kind_and_owner, own_result};
use cse_logic_tree::Variable;
use cse_syntax_tree::Lexeme;
use cse_value::shape::ItemKind;
use std::alloc::AllocError;

fn is_same_variable(x: Variable, y: Variable) -> bool
    ensures { result ≡ scopes.is_same_variable x y }
{
    match x {
        Variable::Global(x) => match y {
            Variable::Global(y) => x == y,
            Variable::Parameter(_) => false,
            Variable::Result => false,
        },
        Variable::Parameter(x) => match y {
            Variable::Global(_) => false,
            Variable::Parameter(y) => x == y,
            Variable::Result => false,
        },
        Variable::Result => match y {
            Variable::Global(_) => false,
            Variable::Parameter(_) => false,
            Variable::Result => true,
        },
    }
}

fn is_looped(loops: &[(Option<u16>, Variable)], variable: Variable) -> bool
    ensures { result ≡ list_any (λ l. scopes.is_same_variable l.1 variable) loops.now }
{
    loops.iter().any(|open| is_same_variable(open.1, variable))
}

/// Whether no open loop is over this variable.
fn is_free(loops: &[(Option<u16>, Variable)], variable: Variable) -> bool
    ensures { result ≡ scopes.is_free loops.now variable }
{
    !is_looped(loops, variable)
}

/// A variable that no open loop is over.
pub fn free(
    scope: &Scope<'_>,
    found: &mut Found,
    token: usize,
    variable: Option<Variable>,
) -> Result<(), AllocError>
    ensures { OnOk result (found.new ≡ found.old ++ spec.free_faults scope.now token variable) }
{
    match variable {
        None => found.add(UNKNOWN_NAME, token),
        Some(variable) => found.unless(is_free(&scope.loops, variable), LOOP_VARIABLE, token),
    }
}

/// Whether the case is there, and, where no subscript stands, the occurrence is known.
fn stands(scope: &Scope<'_>, count: usize, owner: u8) -> bool
    ensures { result ≡ spec.stands scope.now count owner }
{
    has_case(scope.routine) && (count != 0 || is_found(scope, owner))
}

/// A place of an item of a record, with so many subscripts.
#[tactic(auto, using(crate::proofs::Lists::behind))]
fn place(
    scope: &Scope<'_>,
    found: &mut Found,
    token: usize,
    count: usize,
    owner: u8,
) -> Result<(), AllocError>
    ensures { OnOk result (found.new ≡ found.old ++ spec.place_faults scope.now token count owner) }
{
    if owner == IDS {
        return found.add(ID_ITEM, token);
    }
    found.unless(stands(scope, count, owner), UNUSABLE_HERE, token)?;
    found.unless(count <= 1, OTHER_KIND, token)
}

/// A numeric item, assigned a value of this kind, which stands at the last token where it is a text.
#[tactic(auto, using(crate::proofs::Lists::behind))]
fn number_item(
    scope: &Scope<'_>,
    found: &mut Found,
    tokens: (usize, usize),
    count: usize,
    owner: u8,
    kind: Kind,
) -> Result<(), AllocError>
    ensures { OnOk result (found.new ≡ found.old ++ (spec.place_faults scope.now tokens.0 count owner ++ expressions.text_faults (sort kind) tokens.1)) }
{
    place(scope, found, tokens.0, count, owner)?;
    text(found, kind, tokens.1)
}

/// A text item, which is itself the text at fault where the value is none.
#[tactic(auto, using(crate::proofs::Lists::behind))]
fn text_item(
    scope: &Scope<'_>,
    found: &mut Found,
    token: usize,
    count: usize,
    owner: u8,
    kind: Kind,
) -> Result<(), AllocError>
    ensures { OnOk result (found.new ≡ found.old ++ text_item_faults scope.now token count owner (sort kind)) }
{
    place(scope, found, token, count, owner)?;
    found.unless(!is_number(kind), OTHER_KIND, token)
}

/// An item, assigned a value of this kind.
fn assign_item(
    scope: &Scope<'_>,
    found: &mut Found,
    tokens: (usize, usize),
    count: usize,
    item: u16,
    kind: Kind,
) -> Result<(), AllocError>
    ensures { OnOk result (found.new ≡ found.old ++ item_faults scope.now tokens count item (sort kind)) }
{
    match kind_and_owner(scope.dictionary, item) {
        None => found.add(UNKNOWN_NAME, tokens.0),
        Some((of, owner)) => match of {
            ItemKind::Opaque => found.add(OPAQUE_ITEM, tokens.0),
            ItemKind::Number => number_item(scope, found, tokens, count, owner, kind),
            ItemKind::Text => text_item(scope, found, tokens.0, count, owner, kind),
        },
    }
}

/// A variable, assigned a value of this kind.
#[tactic(auto, using(crate::proofs::Lists::behind))]
fn assign_variable(
    scope: &Scope<'_>,
    found: &mut Found,
    tokens: (usize, usize),
    count: usize,
    variable: Variable,
    kind: Kind,
) -> Result<(), AllocError>
    ensures { OnOk result (found.new ≡ found.old ++ variable_faults scope.now tokens count variable (sort kind)) }
{
    found.unless(count == 0, OTHER_KIND, tokens.0)?;
    found.unless(is_free(&scope.loops, variable), LOOP_VARIABLE, tokens.0)?;
    text(found, kind, tokens.1)
}

/// A function's own result, which stands without parentheses.
#[tactic(auto, using(crate::proofs::Lists::behind))]
fn own(
    scope: &Scope<'_>,
    found: &mut Found,
    token: usize,
    count: usize,
    variable: Option<Variable>,
) -> Result<(), AllocError>
    ensures { OnOk result (found.new ≡ found.old ++ spec.assign_result_faults scope.now token count variable) }
{
    match variable {
        None => found.add(UNKNOWN_NAME, token),
        Some(variable) => {
            found.unless(count == 0, UNKNOWN_NAME, token)?;
            found.unless(is_free(&scope.loops, variable), LOOP_VARIABLE, token)
        }
    }
}

/// The result of a function, assigned a value of this kind.
#[tactic(auto, using(crate::proofs::Lists::behind))]
fn assign_result(
    scope: &Scope<'_>,
    found: &mut Found,
    tokens: (usize, usize),
    count: usize,
    function: usize,
    kind: Kind,
) -> Result<(), AllocError>
    ensures { OnOk result (found.new ≡ found.old ++ result_faults scope.now tokens count function (sort kind)) }
{
    own(
        scope,
        found,
        tokens.0,
        count,
        own_result(scope.routine, function),
    )?;
    text(found, kind, tokens.1)
}

/// A cell, assigned a value of this kind.
#[tactic(auto, using(crate::proofs::Lists::behind))]
fn assign_cell(
    counts: &Counts,
    found: &mut Found,
    tokens: (usize, usize),
    count: usize,
    array: usize,
    kind: Kind,
) -> Result<(), AllocError>
    ensures { OnOk result (found.new ≡ found.old ++ (expressions.cell_faults counts.now tokens.0 count array ++ expressions.text_faults (sort kind) tokens.1)) }
{
    cell(counts, found, tokens.0, count, array)?;
    text(found, kind, tokens.1)
}

/// A name with so many subscripts, assigned a value of this kind, which stands at this token where it is a text.
pub fn assign(
    scope: &Scope<'_>,
    counts: &Counts,
    found: &mut Found,
    name: Lexeme<'_>,
    count: usize,
    kind: Kind,
    token: usize,
) -> Result<(), AllocError>
    ensures { OnOk result (found.new ≡ found.old ++ name_faults counts.now scope.now name.entry count (sort kind) token) }
{
    let tokens = (name.token, token);
    match scope.meant(name) {
        None => found.add(UNKNOWN_NAME, name.token),
        Some(meaning) => match meaning {
            Meaning::Variable(variable) => {
                assign_variable(scope, found, tokens, count, variable, kind)
            }
            Meaning::Text(_) => found.unless(
                count == 0 && !is_number(kind),
                OTHER_KIND,
                name.token,
            ),
            Meaning::Array(array) => assign_cell(counts, found, tokens, count, array, kind),
            Meaning::Function(function) => {
                assign_result(scope, found, tokens, count, function, kind)
            }
            Meaning::Record(_) => found.add(UNKNOWN_NAME, name.token),
            Meaning::Item(item) => assign_item(scope, found, tokens, count, item, kind),
            Meaning::Set(_) => found.add(UNKNOWN_NAME, name.token),
            Meaning::Application => found.add(UNKNOWN_NAME, name.token),
            Meaning::Level => found.add(UNKNOWN_NAME, name.token),
        },
    }
}

/// A text item that is imputed.
#[tactic(auto, using(crate::proofs::Lists::behind))]
fn impute_text(
    scope: &Scope<'_>,
    found: &mut Found,
    token: usize,
    count: usize,
    owner: u8,
) -> Result<(), AllocError>
    ensures { OnOk result (found.new ≡ found.old ++ (faults.only 44 token ++ spec.place_faults scope.now token count owner)) }
{
    found.add(OTHER_KIND, token)?;
    place(scope, found, token, count, owner)
}

fn impute_item(
    scope: &Scope<'_>,
    found: &mut Found,
    token: usize,
    count: usize,
    item: u16,
) -> Result<(), AllocError>
    ensures { OnOk result (found.new ≡ found.old ++ spec.impute_item_faults scope.now token count (scopes.kind_and_owner scope.now.dictionary item)) }
{
    match kind_and_owner(scope.dictionary, item) {
        None => found.add(UNKNOWN_NAME, token),
        Some((kind, owner)) => match kind {
            ItemKind::Opaque => found.add(OPAQUE_ITEM, token),
            ItemKind::Number => place(scope, found, token, count, owner),
            ItemKind::Text => impute_text(scope, found, token, count, owner),
        },
    }
}

/// An item that is imputed.
pub fn impute(
    scope: &Scope<'_>,
    found: &mut Found,
    name: Lexeme<'_>,
    count: usize,
) -> Result<(), AllocError>
    ensures { OnOk result (found.new ≡ found.old ++ spec.impute_faults scope.now name.entry.token count (scopes.meant scope.now (written name.entry))) }
{
    match scope.meant(name) {
        Some(Meaning::Item(item)) => impute_item(scope, found, name.token, count, item),
        _ => found.add(UNKNOWN_NAME, name.token),
    }
}

/// A call that stands alone.
pub fn alone(
    scope: &Scope<'_>,
    counts: &Counts,
    found: &mut Found,
    name: Lexeme<'_>,
    count: usize,
) -> Result<(), AllocError>
    ensures { OnOk result (found.new ≡ found.old ++ spec.alone_faults counts.now scope.now name.entry.token count (scopes.meant scope.now (written name.entry))) }
{
    match scope.meant(name) {
        Some(Meaning::Function(function)) => {
            call(scope, counts, found, name.token, count, function)
        }
        _ => found.add(UNKNOWN_NAME, name.token),
    }
}

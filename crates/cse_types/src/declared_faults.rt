//! The faults of a declaration, without its names.

ghost use Rattle.std.specs.Prelude.{◌≡◌, ◌++◌, map, slice_get, OnOk};
ghost use Rattle.cse_syntax_tree.specs.Tree as syntax;
ghost use Rattle.cse_syntax_tree.specs.Tree.{written};
ghost use Rattle.cse_logic_names.specs.Scope.{meant};
ghost use Rattle.cse_logic_names.specs.Walk.{is_there};
ghost use Rattle.cse_logic_names.specs.WellTyped as well;
ghost use Rattle.cse_logic_faults.specs.FaultsOfStatements.{digits_faults, stmts_faults};
ghost use Rattle.cse_types.specs.Fresh.{body_scope};
ghost use Rattle.cse_types.specs.PartFaults as spec;
ghost use Rattle.cse_types.specs.PartClauses.{body_faults_of};

use crate::parameters::parameters;
use cse_dict::Dictionary;
use cse_fault_numbers::{OTHER_KIND, UNUSABLE_HERE};
use cse_logic_faults::counts::Counts;
use cse_logic_faults::digits;
use cse_logic_faults::found::Found;
use cse_logic_faults::set::set;
use cse_logic_faults::statement::block;
use cse_logic_names::meaning::{Meaning, Routine};
use cse_logic_names::names::Parameters;
use cse_logic_names::scope::Scope;
use cse_syntax_tree::{
    Array, Declaration, Dimension, Lexeme, Literal, Parameter, Statement, is_within,
};
use std::alloc::{AllocError, Global};

// ---- arrays

/// Whether digits write a size: from 1 to the most.
#[tactic(auto, unfolding(cse_logic_names::specs::WellTyped::size_in))]
fn is_size(most: u16, digits: Lexeme<'_>) -> bool
    ensures { result ≡ is_there (well.size_of most (written digits.entry)) }
{
    is_within(1, u64::from(most), digits.text)
}

/// A size.
fn size(found: &mut Found, most: u16, digits: Lexeme<'_>) -> Result<(), AllocError>
    ensures { OnOk result (found.new ≡ found.old ++ spec.size_faults most (written digits.entry)) }
{
    found.unless(is_size(most, digits), OTHER_KIND, digits.token)
}

fn has_rows(dictionary: &Dictionary, set: u16) -> bool
    ensures { result ≡ is_there (well.rows_of (slice_get dictionary.now.sets set)) }
{
    match dictionary.shape().sets.get(set as usize) {
        None => false,
        Some(found) => found.rows != 0,
    }
}

/// A set without rows is no dimension.
fn rows(
    dictionary: &Dictionary,
    found: &mut Found,
    token: usize,
    meaning: Option<Meaning>,
) -> Result<(), AllocError>
    ensures { OnOk result (found.new ≡ found.old ++ spec.rows_faults dictionary.now token meaning) }
{
    match meaning {
        Some(Meaning::Set(set)) => found.unless(has_rows(dictionary, set), UNUSABLE_HERE, token),
        _ => found.none(),
    }
}

/// The rows of a set as a dimension.
#[tactic(auto, using(cse_logic_faults::proofs::Lists::behind))]
fn set_dimension(scope: &Scope<'_>, found: &mut Found, name: Lexeme<'_>) -> Result<(), AllocError>
    ensures { OnOk result (found.new ≡ found.old ++ spec.set_dimension_faults scope.now (written name.entry)) }
{
    let meaning = scope.meant(name);
    set(scope.dictionary, found, name.token, meaning)?;
    rows(scope.dictionary, found, name.token, meaning)
}

fn dimension(scope: &Scope<'_>, found: &mut Found, x: &Dimension<'_>) -> Result<(), AllocError>
    ensures { OnOk result (found.new ≡ found.old ++ spec.dimension_faults scope.now (syntax.dimension x.now)) }
{
    match *x {
        Dimension::Number(digits) => size(found, 65_535, digits),
        Dimension::Set(name, _) => set_dimension(scope, found, name),
    }
}

fn dimensions(
    scope: &Scope<'_>,
    found: &mut Found,
    all: &Vec<Dimension<'_>>,
) -> Result<(), AllocError>
    ensures { OnOk result (found.new ≡ found.old ++ spec.dimensions_faults scope.now (map syntax.dimension all.now.items)) }
{
    'all: for x in all {
        dimension(scope, found, x)?;
    }
    Ok(())
}

fn cell(found: &mut Found, x: &Literal<'_>) -> Result<(), AllocError>
    ensures { OnOk result (found.new ≡ found.old ++ digits_faults (syntax.literal x.now).digits) }
{
    digits(found, x.digits)
}

fn cells(found: &mut Found, all: &Vec<Literal<'_>>) -> Result<(), AllocError>
    ensures { OnOk result (found.new ≡ found.old ++ spec.cells_faults (map syntax.literal all.now.items)) }
{
    'all: for x in all {
        cell(found, x)?;
    }
    Ok(())
}

/// The dimensions of an array, and its cells at the start.
#[tactic(auto, using(cse_logic_faults::proofs::Lists::behind))]
fn array(scope: &Scope<'_>, found: &mut Found, x: &Array<'_>) -> Result<(), AllocError>
    ensures { OnOk result (found.new ≡ found.old ++ spec.array_faults scope.now (syntax.array x.now)) }
{
    dimensions(scope, found, &x.dimensions)?;
    cells(found, &x.cells)
}

// ---- functions

/// The statements of the next function, in which these names are its parameters.
fn body_in(
    scope: &mut Scope<'_>,
    counts: &Counts,
    found: &mut Found,
    names: Parameters,
    body: &Vec<Statement<'_>>,
) -> Result<(), AllocError>
    ensures found { OnOk result (found.new ≡ found.old ++ stmts_faults counts.now (body_scope scope.old names) (syntax.block body.now.items)) }
    ensures same { OnOk result (scope.new ≡ scope.old) }
{
    let routine = scope.routine;
    scope.routine = Routine::Function(scope.functions.len());
    let outer = std::mem::replace(&mut scope.parameters, names);
    let answer = block(scope, counts, found, body);
    scope.routine = routine;
    scope.parameters = outer;
    answer
}

/// The statements of the next function.
fn function_body(
    alloc: Global,
    scope: &mut Scope<'_>,
    counts: &Counts,
    found: &mut Found,
    all: &Vec<Parameter<'_>>,
    body: &Vec<Statement<'_>>,
) -> Result<(), AllocError>
    ensures found { OnOk result (found.new ≡ found.old ++ body_faults_of counts.now scope.old all.now.items body.now.items) }
    ensures same { OnOk result (scope.new ≡ scope.old) }
{
    let fresh = parameters(alloc, scope, all)?;
    body_in(scope, counts, found, fresh.names, body)
}

// ---- declarations

/// A declaration, without its names.
pub fn one(
    alloc: Global,
    scope: &mut Scope<'_>,
    counts: &Counts,
    found: &mut Found,
    x: &Declaration<'_>,
) -> Result<(), AllocError>
    ensures found { OnOk result (found.new ≡ found.old ++ spec.declaration_faults counts.now scope.old (syntax.declaration x.now)) }
    ensures same { OnOk result (scope.new ≡ scope.old) }
{
    match x {
        Declaration::Numeric(_) => found.none(),
        Declaration::Alpha(digits, _) => size(found, 255, *digits),
        Declaration::Array(x) => array(scope, found, x),
        Declaration::Function(_, all, body) => {
            function_body(alloc, scope, counts, found, all, body)
        }
    }
}

//! Calls of functions and cells of arrays.

ghost use Rattle.std.specs.Prelude.{◌≡◌, slice_get, Some, None};
ghost use Rattle.std.specs.Option.{option_map};
ghost use Rattle.std.specs.List.{list_any};
ghost use Rattle.cse_syntax_tree.specs.Tree.{written};
ghost use Rattle.cse_logic_tree.specs.Typed as typed;
ghost use Rattle.cse_logic_tree.specs.Typed.{number};
ghost use Rattle.cse_logic_names.specs.Scope as scope_of;
ghost use Rattle.cse_logic_names.specs.WellTyped as well;
ghost use Rattle.cse_logic_expressions.specs.Judge as spec;
ghost use Rattle.cse_logic_expressions.specs.Clauses.{numbers_made};

use cse_logic_names::names::Globals;
use cse_logic_names::scope::{Facts, Scope, has_case};
use cse_logic_tree::{Number, Variable};
use cse_syntax_tree::Lexeme;

fn is_same_variable(x: Variable, y: Variable) -> bool
    ensures { result ≡ scope_of.is_same_variable x y }
{
    match x {
        Variable::Global(x) => match y {
            Variable::Global(y) => x == y,
            Variable::Parameter(_) => false,
            Variable::Result => false,
        },
        Variable::Parameter(x) => match y {
            Variable::Global(_) => false,
            Variable::Parameter(y) => x == y,
            Variable::Result => false,
        },
        Variable::Result => match y {
            Variable::Global(_) => false,
            Variable::Parameter(_) => false,
            Variable::Result => true,
        },
    }
}

fn is_looped(loops: &[(Option<u16>, Variable)], variable: Variable) -> bool
    ensures { result ≡ list_any (λ l. scope_of.is_same_variable l.1 variable) loops.now }
{
    loops.iter().any(|open| is_same_variable(open.1, variable))
}

/// Whether no open loop is over this variable.
pub fn is_free(loops: &[(Option<u16>, Variable)], variable: Variable) -> bool
    ensures { result ≡ scope_of.is_free loops.now variable }
{
    !is_looped(loops, variable)
}

/// How many dimensions an array has; none where its declaration is at fault.
#[tactic(auto, unfolding(cse_logic_names::specs::WellTyped::dimensions_of))]
pub fn dimensions_of(scope: &Scope<'_>, array: usize) -> Option<usize>
    ensures { result ≡ well.dimensions_of scope.now array }
{
    match scope.arrays.get(array) {
        Some(Some(dimensions)) => Some(dimensions.len()),
        _ => None,
    }
}

/// Whether an array has so many dimensions.
pub fn has_dimensions(scope: &Scope<'_>, count: usize, array: usize) -> bool
    ensures { result ≡ spec.is_count count (well.dimensions_of scope.now array) }
{
    match dimensions_of(scope, array) {
        None => false,
        Some(dimensions) => dimensions == count,
    }
}

/// Whether a variable is one of these globals.
fn is_among(globals: &Globals, variable: Variable) -> bool
    ensures { result ≡ scope_of.is_among globals.now variable }
{
    match variable {
        Variable::Global(global) => globals.has(global),
        Variable::Parameter(_) => false,
        Variable::Result => false,
    }
}

fn is_any_among(loops: &[(Option<u16>, Variable)], globals: &Globals) -> bool
    ensures { result ≡ list_any (λ l. scope_of.is_among globals.now l.1) loops.now }
{
    loops.iter().any(|open| is_among(globals, open.1))
}

fn are_free(loops: &[(Option<u16>, Variable)], globals: &Globals) -> bool
    ensures { result ≡ scope_of.are_free loops.now globals.now }
{
    !is_any_among(loops, globals)
}

/// Whether a function that has ended may be called here with so many arguments.
#[tactic(auto, unfolding(cse_logic_names::specs::WellTyped::suits))]
fn suits(scope: &Scope<'_>, arguments: usize, facts: &Facts) -> bool
    ensures { result ≡ well.suits scope.now arguments facts.now }
{
    facts.parameters == arguments
        && (has_case(scope.routine) || !facts.needs_case)
        && are_free(&scope.loops, &facts.assigned)
}

/// Whether a function may be called here with so many arguments.
pub fn may_call(scope: &Scope<'_>, arguments: usize, function: usize) -> bool
    ensures { result ≡ well.may_call scope.now arguments (slice_get scope.now.functions function) }
{
    match scope.functions.get(function) {
        Some(Some(facts)) => suits(scope, arguments, facts),
        _ => false,
    }
}

//! The faults of the heads of loops, and of jumps.

ghost use Rattle.std.specs.Prelude.{◌≡◌, ◌++◌, OnOk};
ghost use Rattle.std.specs.Option.{option_map};
ghost use Rattle.cse_syntax_tree.specs.Tree as syntax;
ghost use Rattle.cse_syntax_tree.specs.Tree.{written};
ghost use Rattle.cse_logic_names.specs.Scope as scopes;
ghost use Rattle.cse_logic_names.specs.WellTyped as well;
ghost use Rattle.cse_logic_faults.specs.Faults as faults;
ghost use Rattle.cse_logic_faults.specs.FaultsOfStatements as spec;
ghost use Rattle.cse_logic_faults.specs.Clauses.{limits_faults};

use crate::expression::digits;
use crate::found::Found;
use crate::place::free;
use crate::set::record_named;
use cse_fault_numbers::UNUSABLE_HERE;
use cse_logic_names::meaning::Meaning;
use cse_logic_names::scope::Scope;
use cse_logic_tree::Variable;
use cse_syntax_tree::{Counting, Jump, Lexeme, Limit};
use std::alloc::AllocError;

/// The variable of a loop: a numeric global or a parameter.
fn loop_variable(scope: &Scope<'_>, name: Lexeme<'_>) -> Option<Variable>
    ensures { result ≡ scopes.loop_variable scope.now (written name.entry) }
{
    match scope.meant(name) {
        Some(Meaning::Variable(variable)) => Some(variable),
        _ => None,
    }
}

fn variable(scope: &Scope<'_>, found: &mut Found, name: Lexeme<'_>) -> Result<(), AllocError>
    ensures { OnOk result (found.new ≡ found.old ++ spec.variable_faults scope.now (written name.entry)) }
{
    free(scope, found, name.token, loop_variable(scope, name))
}

/// The head of a `for`.
#[tactic(auto, using(crate::proofs::Lists::behind))]
pub fn for_head(
    scope: &Scope<'_>,
    found: &mut Found,
    name: Lexeme<'_>,
    record_name: Lexeme<'_>,
) -> Result<(), AllocError>
    ensures { OnOk result (found.new ≡ found.old ++ spec.for_faults scope.now (written name.entry) (written record_name.entry)) }
{
    variable(scope, found, name)?;
    record_named(scope, found, record_name)
}

fn limit(scope: &Scope<'_>, found: &mut Found, x: Limit<'_>) -> Result<(), AllocError>
    ensures { OnOk result (found.new ≡ found.old ++ spec.limit_faults scope.now (syntax.limit x.entry)) }
{
    match x {
        Limit::Literal(literal) => digits(found, literal.digits),
        Limit::Count(_, name) => record_named(scope, found, name),
    }
}

fn step(found: &mut Found, by: Option<Lexeme<'_>>) -> Result<(), AllocError>
    ensures { OnOk result (found.new ≡ found.old ++ spec.by_faults (option_map written by.entry)) }
{
    match by {
        None => found.none(),
        Some(written) => digits(found, written),
    }
}

/// The limits of a `do`, and what each turn adds.
#[tactic(auto, using(crate::proofs::Lists::behind))]
fn limits(scope: &Scope<'_>, found: &mut Found, x: Counting<'_>) -> Result<(), AllocError>
    ensures { OnOk result (found.new ≡ found.old ++ limits_faults scope.now x.entry) }
{
    limit(scope, found, x.from)?;
    limit(scope, found, x.to)?;
    step(found, x.by)
}

/// The head of a `do`.
#[tactic(auto, using(crate::proofs::Lists::behind))]
pub fn counting(scope: &Scope<'_>, found: &mut Found, x: Counting<'_>) -> Result<(), AllocError>
    ensures { OnOk result (found.new ≡ found.old ++ spec.counting_faults scope.now (syntax.counting x.entry)) }
{
    variable(scope, found, x.variable)?;
    limits(scope, found, x)
}

/// The variable of a loop; where its name means none, one that nothing names.
fn variable_or(variable: Option<Variable>) -> Variable
    ensures { result ≡ spec.variable_or variable }
{
    match variable {
        None => Variable::Parameter(usize::MAX),
        Some(variable) => variable,
    }
}

fn record_in(meaning: Option<Meaning>) -> Option<u16>
    ensures { result ≡ spec.record_in meaning }
{
    match meaning {
        Some(Meaning::Record(record)) => Some(u16::from(record)),
        _ => None,
    }
}

/// The turns of a `for`, also where its head is at fault.
pub fn for_turns(
    scope: &Scope<'_>,
    name: Lexeme<'_>,
    record_name: Lexeme<'_>,
) -> (Option<u16>, Variable)
    ensures { scopes.within scope.now result.0 result.1 ≡ spec.for_scope scope.now (written name.entry) (written record_name.entry) }
{
    let variable = variable_or(loop_variable(scope, name));
    (record_in(scope.meant(record_name)), variable)
}

/// The turns of a `do`.
pub fn do_turns(scope: &Scope<'_>, name: Lexeme<'_>) -> (Option<u16>, Variable)
    ensures { scopes.within scope.now result.0 result.1 ≡ spec.do_scope scope.now (written name.entry) }
{
    (None, variable_or(loop_variable(scope, name)))
}

/// Whether a jump may stand in these loops.
fn may_jump(loops: &[(Option<u16>, Variable)], jump: Jump) -> bool
    ensures { result ≡ well.may_jump loops.now jump }
{
    match jump {
        Jump::Exit => true,
        Jump::Break | Jump::Next => match loops {
            [] => false,
            _ => true,
        },
    }
}

/// A jump; one out of a loop or a turn stands in a loop.
pub fn jump(
    scope: &Scope<'_>,
    found: &mut Found,
    token: usize,
    jump: Jump,
) -> Result<(), AllocError>
    ensures { OnOk result (found.new ≡ found.old ++ faults.unless (well.may_jump scope.now.loops jump) 49 token) }
{
    found.unless(may_jump(&scope.loops, jump), UNUSABLE_HERE, token)
}

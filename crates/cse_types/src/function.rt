//! Functions: their parameters, their statements, and what is known of them behind their end.

ghost use Rattle.std.specs.Prelude.{◌≡◌, ◌++◌, ◌∷◌, [], map, length, IfOk, OnOk};
ghost use Rattle.std.specs.Option.{option_map};
ghost use Rattle.cse_syntax_tree.specs.Tree as syntax;
ghost use Rattle.cse_logic_tree.specs.Typed as typed;
ghost use Rattle.cse_types.specs.Told.{told_of};
ghost use Rattle.cse_logic_names.specs.Uses.{facts_of};
ghost use Rattle.cse_logic_names.specs.WellTyped.{messages_of};
ghost use Rattle.cse_logic_expressions.specs.JudgeStatement.{judge_block};
ghost use Rattle.cse_types.specs.Fresh.{body_scope};
ghost use Rattle.cse_types.specs.SourceClauses.{behind_judged, function_made, judged_function};
ghost use Rattle.cse_types.specs.Clauses.{block_made};

use crate::facts::facts_of;
use crate::parameters::parameters;
use crate::statement::block;
use crate::told::Told;
use cse_logic_names::meaning::Routine;
use cse_logic_names::names::Parameters;
use cse_logic_names::scope::{Facts, Scope};
use cse_logic_tree::{Function, Statement};
use cse_syntax_tree::{Lexeme, Parameter, Statement as Parsed};
use std::alloc::{AllocError, Global};

/// The statements of the next function, in which these names are its parameters.
fn body_in<'a>(
    alloc: Global,
    scope: &mut Scope<'_>,
    told: &mut Vec<Told<'a>>,
    names: Parameters,
    body: &Vec<Parsed<'a>>,
) -> Result<Option<Vec<Statement<'a>>>, AllocError>
    ensures value { IfOk result (λ r. block_made r ≡ judge_block (body_scope scope.old names) (length told.old.items) (syntax.block body.now.items)) }
    ensures told { OnOk result (map told_of told.new.items ≡ map told_of told.old.items ++ messages_of (syntax.block body.now.items)) }
    ensures same { OnOk result (scope.new ≡ scope.old) }
{
    let routine = scope.routine;
    scope.routine = Routine::Function(scope.functions.len());
    let outer = std::mem::replace(&mut scope.parameters, names);
    let found = block(alloc, scope, told, body);
    scope.routine = routine;
    scope.parameters = outer;
    found
}

/// A function of sound parts, and what is known of it.
fn made<'a>(
    alloc: Global,
    scope: &Scope<'_>,
    is_sound: bool,
    name: Lexeme<'a>,
    parameters: &Vec<Parameter<'a>>,
    body: Option<Vec<Statement<'a>>>,
) -> Result<Option<(Function<'a>, Facts)>, AllocError>
    ensures function { IfOk result (λ r. option_map (λ p. typed.function p.0) r ≡ function_made scope.now is_sound name.entry parameters.now.items body.entry) }
    ensures facts { IfOk result (λ r. option_map (λ p. p.1) r ≡ option_map (λ p. facts_of scope.now.functions (typed.function p.0)) r) }
{
    if !is_sound {
        return Ok(None);
    }
    match body {
        None => Ok(None),
        Some(body) => {
            let facts = facts_of(&body, alloc, &scope.functions, parameters.len())?;
            let function = Function {
                name,
                parameters: Vec::from_slice(alloc, parameters)?,
                body,
                needs_case: facts.needs_case,
            };
            Ok(Some((function, facts)))
        }
    }
}

/// A function ends: what is known of it is known behind it.
fn ended<'a>(
    scope: &mut Scope<'_>,
    made: Option<(Function<'a>, Facts)>,
) -> Result<Option<Function<'a>>, AllocError>
    ensures value { IfOk result (λ r. option_map typed.function r ≡ option_map (λ p. typed.function p.0) made.entry) }
    ensures behind { OnOk result (scope.new ≡ record scope.old { functions = scope.old.functions ++ option_map (λ p. p.1) made.entry ∷ [] }) }
{
    match made {
        None => {
            scope.functions.push(None)?;
            Ok(None)
        }
        Some((function, facts)) => {
            scope.functions.push(Some(facts))?;
            Ok(Some(function))
        }
    }
}

/// A function, or none where it isn't sound; behind it stands what is known of it.
pub fn function<'a>(
    alloc: Global,
    scope: &mut Scope<'_>,
    told: &mut Vec<Told<'a>>,
    name: Lexeme<'a>,
    all: &Vec<Parameter<'a>>,
    body: &Vec<Parsed<'a>>,
) -> Result<Option<Function<'a>>, AllocError>
    ensures value { IfOk result (λ r. option_map typed.function r ≡ judged_function scope.old (length told.old.items) name.entry all.now.items body.now.items) }
    ensures behind { OnOk result (scope.new ≡ behind_judged scope.old (length told.old.items) name.entry all.now.items body.now.items) }
    ensures told { OnOk result (map told_of told.new.items ≡ map told_of told.old.items ++ messages_of (syntax.block body.now.items)) }
{
    let fresh = parameters(alloc, scope, all)?;
    let is_sound = fresh.is_sound;
    let found = match body_in(alloc, scope, told, fresh.names, body) {
        Err(fault) => return Err(fault),
        Ok(found) => found,
    };
    match made(alloc, scope, is_sound, name, all, found) {
        Err(fault) => Err(fault),
        Ok(made) => ended(scope, made),
    }
}

//! Statements that hold no others.

ghost use Rattle.std.specs.Prelude.{◌≡◌, false, Some, IfOk};
ghost use Rattle.std.specs.Option.{option_map};
ghost use Rattle.cse_syntax_tree.specs.Tree.{expr};
ghost use Rattle.cse_logic_tree.specs.Typed as typed;
ghost use Rattle.cse_logic_tree.specs.Typed.{statement};
ghost use Rattle.cse_logic_names.specs.WellTyped as well;
ghost use Rattle.cse_logic_expressions.specs.Judge.{as_number, judge};
ghost use Rattle.cse_logic_expressions.specs.JudgeStatement as spec;
ghost use Rattle.cse_logic_names.specs.Walk.{only_if};
ghost use Rattle.cse_logic_expressions.specs.Clauses.{by_name, by_name_with, by_place};

use crate::assign::{
    assign_cell, assign_item, assign_text, assign_variable, call, count_of, impute_item, put_deck,
};
use crate::call::may_call;
use crate::made::statement_found;
use cse_logic_names::meaning::Meaning;
use cse_logic_names::scope::{Scope, own_result};
use cse_logic_tree::{Statement, StatementKind, Variable};
use cse_syntax_tree::{Expression, Jump, Lexeme, Place};
use std::alloc::{AllocError, Global};

/// An assignment.
pub fn assignment<'a>(
    alloc: Global,
    scope: &Scope<'_>,
    place: &Place<'a>,
    x: &Expression<'a>,
) -> Result<Option<Statement<'a>>, AllocError>
    ensures { IfOk result (λ r. option_map statement r ≡ by_place spec.assign scope.now place.now (judge scope.now false (expr x.now))) }
{
    match scope.meant(place.name) {
        Some(Meaning::Variable(variable)) => {
            assign_variable(alloc, scope, place, Some(variable), x)
        }
        Some(Meaning::Text(global)) => assign_text(alloc, scope, place, global, x),
        Some(Meaning::Array(array)) => assign_cell(alloc, scope, place, array, x),
        Some(Meaning::Function(function)) => {
            // By its name alone, since a call is no place.
            let own = own_result(scope.routine, function);
            assign_variable(alloc, scope, place, own, x)
        }
        Some(Meaning::Item(item)) => assign_item(alloc, scope, place, item, x),
        _ => Ok(None),
    }
}

/// An imputation.
pub fn imputation<'a>(
    alloc: Global,
    scope: &Scope<'_>,
    place: &Place<'a>,
    x: &Expression<'a>,
) -> Result<Option<Statement<'a>>, AllocError>
    ensures { IfOk result (λ r. option_map statement r ≡ by_place spec.impute scope.now place.now (as_number (judge scope.now false (expr x.now)))) }
{
    match scope.meant(place.name) {
        Some(Meaning::Item(item)) => impute_item(alloc, scope, place, item, x),
        _ => Ok(None),
    }
}

/// A call that stands alone.
pub fn alone<'a>(
    alloc: Global,
    scope: &Scope<'_>,
    name: Lexeme<'a>,
    arguments: &Vec<Expression<'a>>,
) -> Result<Option<Statement<'a>>, AllocError>
    ensures { IfOk result (λ r. option_map statement r ≡ by_name_with spec.call_of scope.now name.entry arguments.now.items) }
{
    match scope.meant(name) {
        Some(Meaning::Function(function)) if may_call(scope, count_of(arguments), function) => {
            call(alloc, scope, name, function, arguments)
        }
        _ => Ok(None),
    }
}

/// A value that is put into a hot deck.
pub fn deck_value<'a>(
    alloc: Global,
    scope: &Scope<'_>,
    deck: Lexeme<'a>,
    x: &Expression<'a>,
) -> Result<Option<Statement<'a>>, AllocError>
    ensures { IfOk result (λ r. option_map statement r ≡ by_name spec.put_deck scope.now deck.entry (as_number (judge scope.now false (expr x.now)))) }
{
    match scope.meant(deck) {
        Some(Meaning::Array(array)) => put_deck(alloc, scope, deck, array, x),
        _ => Ok(None),
    }
}

/// Whether a jump may stand in these loops.
fn may_jump(loops: &[(Option<u16>, Variable)], jump: Jump) -> bool
    ensures { result ≡ well.may_jump loops.now jump }
{
    match jump {
        Jump::Exit => true,
        Jump::Break | Jump::Next => match loops {
            [] => false,
            _ => true,
        },
    }
}

/// A jump; one out of a loop or a turn stands in a loop (49).
pub fn jump<'a>(
    alloc: Global,
    scope: &Scope<'_>,
    token: usize,
    jump: Jump,
) -> Result<Option<Statement<'a>>, AllocError>
    ensures { IfOk result (λ r. option_map statement r ≡ only_if (well.may_jump scope.now.loops jump) (Some (typed.Jump' token jump))) }
{
    if may_jump(&scope.loops, jump) {
        statement_found(alloc, StatementKind::Jump(token, jump))
    } else {
        Ok(None)
    }
}

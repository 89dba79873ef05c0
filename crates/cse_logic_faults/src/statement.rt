//! The faults of statements.

ghost use Rattle.std.specs.Prelude.{◌≡◌, ◌++◌, false, map, drop, length, OnOk};
ghost use Rattle.cse_syntax_tree.specs.Tree as syntax;
ghost use Rattle.cse_syntax_tree.specs.Tree.{written, expr, stmt, arm_tree};
ghost use Rattle.cse_logic_names.specs.Scope as scopes;
ghost use Rattle.cse_logic_faults.specs.FaultsOfStatements as spec;
ghost use Rattle.cse_logic_faults.specs.Operators.{arm_faults};
ghost use Rattle.cse_logic_faults.specs.Clauses.{assigned, called, imputed};

use crate::counts::Counts;
use crate::expression::{expression, number, numbers};
use crate::found::Found;
use crate::head::{counting, do_turns, for_head, for_turns, jump};
use crate::kind::{kind_of, text_token};
use crate::message::err_msg;
use crate::place::{alone, assign, impute};
use crate::set::deck;
use cse_logic_names::scope::Scope;
use cse_logic_tree::Variable;
use cse_syntax_tree::{Arm, Expression, Lexeme, Place, Statement, StatementKind};
use std::alloc::AllocError;

/// An assignment.
#[tactic(auto, unfolding(crate::specs::FaultsOfStatements::stmt_faults), using(crate::proofs::Lists::behind, crate::proofs::Nodes::values_count))]
fn assignment(
    scope: &Scope<'_>,
    counts: &Counts,
    found: &mut Found,
    place: &Place<'_>,
    value: &Expression<'_>,
) -> Result<(), AllocError>
    ensures { OnOk result (found.new ≡ found.old ++ spec.stmt_faults counts.now scope.now (assigned place.now value.now)) }
{
    numbers(scope, counts, found, &place.subscripts)?;
    expression(scope, counts, found, false, value)?;
    let kind = kind_of(scope, value);
    let count = place.subscripts.len();
    assign(
        scope,
        counts,
        found,
        place.name,
        count,
        kind,
        text_token(value),
    )
}

/// An imputation.
#[tactic(auto, unfolding(crate::specs::FaultsOfStatements::stmt_faults), using(crate::proofs::Lists::behind, crate::proofs::Nodes::values_count))]
fn imputation(
    scope: &Scope<'_>,
    counts: &Counts,
    found: &mut Found,
    place: &Place<'_>,
    value: &Expression<'_>,
) -> Result<(), AllocError>
    ensures { OnOk result (found.new ≡ found.old ++ spec.stmt_faults counts.now scope.now (imputed place.now value.now)) }
{
    numbers(scope, counts, found, &place.subscripts)?;
    number(scope, counts, found, false, value)?;
    impute(scope, found, place.name, place.subscripts.len())
}

/// A call that stands alone.
#[tactic(auto, unfolding(crate::specs::FaultsOfStatements::stmt_faults), using(crate::proofs::Lists::behind, crate::proofs::Nodes::values_count))]
fn call(
    scope: &Scope<'_>,
    counts: &Counts,
    found: &mut Found,
    name: Lexeme<'_>,
    arguments: &Vec<Expression<'_>>,
) -> Result<(), AllocError>
    ensures { OnOk result (found.new ≡ found.old ++ spec.stmt_faults counts.now scope.now (called name.entry arguments.now.items)) }
{
    numbers(scope, counts, found, arguments)?;
    alone(scope, counts, found, name, arguments.len())
}

/// A value that is put into a hot deck.
#[tactic(auto, unfolding(crate::specs::FaultsOfStatements::stmt_faults), using(crate::proofs::Lists::behind))]
fn put_deck(
    scope: &Scope<'_>,
    counts: &Counts,
    found: &mut Found,
    name: Lexeme<'_>,
    value: &Expression<'_>,
) -> Result<(), AllocError>
    ensures { OnOk result (found.new ≡ found.old ++ spec.stmt_faults counts.now scope.now (syntax.PutDeck (written name.entry) (expr value.now))) }
{
    number(scope, counts, found, false, value)?;
    deck(scope, found, name)
}

/// A statement.
#[cycle(act)]
#[tactic(auto, unfolding(crate::specs::FaultsOfStatements::stmt_faults))]
fn statement(
    scope: &mut Scope<'_>,
    counts: &Counts,
    found: &mut Found,
    x: &Statement<'_>,
) -> Result<(), AllocError>
    ensures found { OnOk result (found.new ≡ found.old ++ spec.stmt_faults counts.now scope.old (stmt x.now)) }
    ensures same { OnOk result (scope.new ≡ scope.old) }
{
    match &*x.kind {
        StatementKind::Empty => found.none(),
        StatementKind::Assign(place, value) => assignment(scope, counts, found, place, value),
        StatementKind::Call(name, arguments) => call(scope, counts, found, *name, arguments),
        StatementKind::If(first, others, otherwise) => {
            arm(scope, counts, found, first)?;
            arms(scope, counts, found, others)?;
            match otherwise {
                None => Ok(()),
                Some(body) => block(scope, counts, found, body),
            }
        }
        StatementKind::For(name, record_name, body) => {
            for_head(scope, found, *name, *record_name)?;
            let turns = for_turns(scope, *name, *record_name);
            body_of(scope, counts, found, turns, body)
        }
        StatementKind::Do(head, body) => {
            counting(scope, found, *head)?;
            let turns = do_turns(scope, head.variable);
            body_of(scope, counts, found, turns, body)
        }
        StatementKind::Jump(token, leaving) => jump(scope, found, *token, *leaving),
        StatementKind::Impute(place, value) => imputation(scope, counts, found, place, value),
        StatementKind::PutDeck(name, value) => put_deck(scope, counts, found, *name, value),
        StatementKind::ErrMsg(message, values, _) => err_msg(
            scope, counts, found, *message, values,
        ),
    }
}

/// Statements, one after the other.
#[cycle(act)]
pub fn block(
    scope: &mut Scope<'_>,
    counts: &Counts,
    found: &mut Found,
    all: &Vec<Statement<'_>>,
) -> Result<(), AllocError>
    ensures found { OnOk result (found.new ≡ found.old ++ spec.stmts_faults counts.now scope.old (syntax.block all.now.items)) }
    ensures same { OnOk result (scope.new ≡ scope.old) }
{
    'all: for x in all {
        statement(scope, counts, found, x)?;
    }
    Ok(())
}

/// The body of a loop.
#[cycle(act)]
fn body_of(
    scope: &mut Scope<'_>,
    counts: &Counts,
    found: &mut Found,
    turns: (Option<u16>, Variable),
    body: &Vec<Statement<'_>>,
) -> Result<(), AllocError>
    ensures found { OnOk result (found.new ≡ found.old ++ spec.stmts_faults counts.now (scopes.within scope.old turns.0 turns.1) (syntax.block body.now.items)) }
    ensures same { OnOk result (scope.new ≡ scope.old) }
{
    scope.begin(turns)?;
    block(scope, counts, found, body)?;
    scope.end();
    Ok(())
}

/// A condition and the statements that it guards.
#[cycle(act)]
#[tactic(auto, using(crate::proofs::Lists::behind))]
fn arm(
    scope: &mut Scope<'_>,
    counts: &Counts,
    found: &mut Found,
    x: &Arm<'_>,
) -> Result<(), AllocError>
    ensures found { OnOk result (found.new ≡ found.old ++ arm_faults counts.now scope.old (arm_tree x.now)) }
    ensures same { OnOk result (scope.new ≡ scope.old) }
{
    number(scope, counts, found, false, &x.condition)?;
    block(scope, counts, found, &x.body)
}

/// Each `elseif`, without the `else`.
#[cycle(act)]
fn arms(
    scope: &mut Scope<'_>,
    counts: &Counts,
    found: &mut Found,
    all: &Vec<Arm<'_>>,
) -> Result<(), AllocError>
    ensures found { OnOk result (found.new ≡ found.old ++ spec.arms_faults counts.now scope.old (syntax.arms (map arm_tree all.now.items) syntax.no_arm)) }
    ensures same { OnOk result (scope.new ≡ scope.old) }
{
    'all: for x in all {
        arm(scope, counts, found, x)?;
    }
    Ok(())
}

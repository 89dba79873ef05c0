//! The faults of expressions.

ghost use Rattle.std.specs.Prelude.{◌≡◌, ◌-◌, ◌++◌, ◌==◌, true, false, OnOk, length, map, drop};
ghost use Rattle.cse_syntax_tree.specs.First.{expr_token};
ghost use Rattle.cse_syntax_tree.specs.Tree as syntax;
ghost use Rattle.cse_syntax_tree.specs.Tree.{written, expr, exprs, operations, operation_tree};
ghost use Rattle.cse_logic_names.specs.Scope as scopes;
ghost use Rattle.cse_logic_names.specs.WellTyped.{may_divide, value_of};
ghost use Rattle.cse_logic_names.specs.Walk.{is_there};
ghost use Rattle.cse_logic_faults.specs.FaultsOfExpressions as spec;
ghost use Rattle.cse_logic_faults.specs.FaultsOfStatements.{digits_faults};
ghost use Rattle.cse_logic_faults.specs.Listed.{sort};
ghost use Rattle.cse_logic_faults.specs.Operators.{operation_faults};
ghost use Rattle.cse_logic_faults.specs.Clauses.{compared_faults};

use crate::counts::Counts;
use crate::found::Found;
use crate::kind::{Kind, is_text, kind_of, text_token};
use crate::name::{bare, indexed};
use crate::set::{member, queried};
use cse_fault_numbers::{MISPLACED_DIVISION, OTHER_KIND};
use cse_logic_names::scope::Scope;
use cse_syntax_tree::{
    Expression, ExpressionKind, Function, Lexeme, Operation, Operator, is_within,
};
use std::alloc::AllocError;

/// Whether digits write a number that is at most 9,223,372,036,854,775,807.
#[tactic(auto, unfolding(cse_logic_names::specs::WellTyped::value_of))]
fn has_value(digits: Lexeme<'_>) -> bool
    ensures { result ≡ is_there (value_of (written digits.entry)) }
{
    is_within(0, 9_223_372_036_854_775_807, digits.text)
}

/// A number as digits.
pub fn digits(found: &mut Found, digits: Lexeme<'_>) -> Result<(), AllocError>
    ensures { OnOk result (found.new ≡ found.old ++ digits_faults (written digits.entry)) }
{
    found.unless(has_value(digits), OTHER_KIND, digits.token)
}

/// A text, where a number is to stand.
pub fn text(found: &mut Found, kind: Kind, token: usize) -> Result<(), AllocError>
    ensures { OnOk result (found.new ≡ found.old ++ spec.text_faults (sort kind) token) }
{
    found.unless(!is_text(kind), OTHER_KIND, token)
}

/// Two values of one kind; else the fault stands at the text.
fn kinds(
    found: &mut Found,
    left: Kind,
    earlier: usize,
    right: Kind,
    later: usize,
) -> Result<(), AllocError>
    ensures { OnOk result (found.new ≡ found.old ++ spec.kinds_faults (sort left) earlier (sort right) later) }
{
    match left {
        Kind::Unknown => found.none(),
        Kind::Number => match right {
            Kind::Unknown => found.none(),
            Kind::Number => found.none(),
            Kind::Text => found.add(OTHER_KIND, later),
        },
        Kind::Text => match right {
            Kind::Unknown => found.none(),
            Kind::Number => found.add(OTHER_KIND, earlier),
            Kind::Text => found.none(),
        },
    }
}

/// Two values that are compared.
fn both_kinds(
    scope: &Scope<'_>,
    found: &mut Found,
    left: &Expression<'_>,
    right: &Expression<'_>,
) -> Result<(), AllocError>
    ensures { OnOk result (found.new ≡ found.old ++ compared_faults scope.now left.now right.now) }
{
    let earlier = kind_of(scope, left);
    let later = kind_of(scope, right);
    kinds(found, earlier, text_token(left), later, text_token(right))
}

/// An expression. `top` tells whether it stands right inside `int`, where `/` may be its topmost operator.
#[cycle(faults)]
#[tactic(auto, unfolding(crate::specs::FaultsOfExpressions::expr_faults), using(crate::proofs::Lists::behind))]
pub fn expression(
    scope: &Scope<'_>,
    counts: &Counts,
    found: &mut Found,
    top: bool,
    x: &Expression<'_>,
) -> Result<(), AllocError>
    ensures { OnOk result (found.new ≡ found.old ++ spec.expr_faults counts.now scope.now top (expr x.now)) }
{
    match &*x.kind {
        ExpressionKind::Number(written) => digits(found, *written),
        ExpressionKind::Text(_) => found.none(),
        ExpressionKind::Special(_, _) => found.none(),
        ExpressionKind::Name(name) => bare(scope, found, *name),
        ExpressionKind::Indexed(name, arguments) => {
            numbers(scope, counts, found, arguments)?;
            indexed(scope, counts, found, *name, arguments.len())
        }
        ExpressionKind::Group(inner) => expression(scope, counts, found, false, inner),
        ExpressionKind::Apply(function, argument) => apply(
            scope, counts, found, *function, argument,
        ),
        ExpressionKind::Query(query, name) => queried(scope, found, *query, *name),
        ExpressionKind::InValueSet(item, set) => member(scope, found, *item, *set),
        ExpressionKind::Minus(operand) => number(scope, counts, found, false, operand),
        ExpressionKind::Not(operand) => number(scope, counts, found, false, operand),
        ExpressionKind::Compare(left, _, right) => {
            expression(scope, counts, found, false, left)?;
            expression(scope, counts, found, false, right)?;
            both_kinds(scope, found, left, right)
        }
        ExpressionKind::Chain(first, others) => {
            number(scope, counts, found, false, first)?;
            operations_in(scope, counts, found, top, others)
        }
    }
}

/// A number.
#[cycle(faults)]
#[tactic(auto, using(crate::proofs::Lists::behind))]
pub fn number(
    scope: &Scope<'_>,
    counts: &Counts,
    found: &mut Found,
    top: bool,
    x: &Expression<'_>,
) -> Result<(), AllocError>
    ensures { OnOk result (found.new ≡ found.old ++ spec.number_faults counts.now scope.now top (expr x.now)) }
{
    expression(scope, counts, found, top, x)?;
    text(found, kind_of(scope, x), text_token(x))
}

/// `int` or `special`.
#[cycle(faults)]
#[tactic(auto, unfolding(crate::specs::FaultsOfExpressions::expr_faults))]
fn apply(
    scope: &Scope<'_>,
    counts: &Counts,
    found: &mut Found,
    function: Function,
    x: &Expression<'_>,
) -> Result<(), AllocError>
    ensures { OnOk result (found.new ≡ found.old ++ spec.expr_faults counts.now scope.now false (syntax.Apply function (expr x.now))) }
{
    match function {
        Function::Int => number(scope, counts, found, true, x),
        Function::Special => number(scope, counts, found, false, x),
    }
}

/// Numbers, one after the other.
#[cycle(faults)]
pub fn numbers(
    scope: &Scope<'_>,
    counts: &Counts,
    found: &mut Found,
    all: &Vec<Expression<'_>>,
) -> Result<(), AllocError>
    ensures { OnOk result (found.new ≡ found.old ++ spec.numbers_faults counts.now scope.now (exprs (map expr all.now.items))) }
{
    'all: for x in all {
        number(scope, counts, found, false, x)?;
    }
    Ok(())
}

/// Whether an operator may stand here: `/` is the topmost one of what stands in `int`.
fn may_stand(top: bool, operator: Operator, is_last: bool) -> bool
    ensures { result ≡ may_divide top operator is_last }
{
    match operator {
        Operator::Divide => top && is_last,
        _ => true,
    }
}

/// An operator and its operand.
#[cycle(faults)]
#[tactic(auto, using(crate::proofs::Lists::behind))]
fn operation(
    scope: &Scope<'_>,
    counts: &Counts,
    found: &mut Found,
    top: bool,
    x: &Operation<'_>,
    is_last: bool,
) -> Result<(), AllocError>
    ensures { OnOk result (found.new ≡ found.old ++ operation_faults counts.now scope.now top (operation_tree x.now) is_last) }
{
    found.unless(
        may_stand(top, x.operator, is_last),
        MISPLACED_DIVISION,
        x.token(),
    )?;
    number(scope, counts, found, false, &x.operand)
}

/// Operators with their operands.
#[cycle(faults)]
fn operations_in(
    scope: &Scope<'_>,
    counts: &Counts,
    found: &mut Found,
    top: bool,
    all: &Vec<Operation<'_>>,
) -> Result<(), AllocError>
    ensures { OnOk result (found.new ≡ found.old ++ spec.operations_faults counts.now scope.now top (operations (map operation_tree all.now.items))) }
{
    let mut left = all.len();
    'all: for x in all {
        left = left.saturating_sub(1);
        operation(scope, counts, found, top, x, left == 0)?;
    }
    Ok(())
}

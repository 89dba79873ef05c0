//! Expressions: from trees of syntax to typed ones.

ghost use Rattle.std.specs.Prelude.{◌≡◌, ◌&&◌, ◌≤◌, ◌==◌, MatchOption, IfSome, true, false, map, length, Some, None, IfOk, slice_get};
ghost use Rattle.std.specs.Option.{option_map};
ghost use Rattle.cse_syntax_tree.specs.Leaf as leaf;
ghost use Rattle.cse_syntax_tree.specs.Leaf.{is_within, MOST};
ghost use Rattle.cse_syntax_tree.specs.Tree as syntax;
ghost use Rattle.cse_syntax_tree.specs.Tree.{written, expr, operations as operations_of, operation_tree as parsed};
ghost use Rattle.cse_logic_tree.specs.Typed as typed;
ghost use Rattle.cse_logic_tree.specs.Typed.{number, operations, operation_tree};
ghost use Rattle.cse_logic_names.specs.WellTyped.{may_call, value_of, may_divide, dimensions_of};
ghost use Rattle.cse_logic_expressions.specs.Judge as spec;
ghost use Rattle.cse_logic_expressions.specs.Judge.{judged, judge, judge_operations, as_number, is_sound, indexed, queried, bare, compared, is_count};
ghost use Rattle.cse_logic_names.specs.Walk.{is_there, joined, only_if};
ghost use Rattle.cse_logic_expressions.specs.Clauses.{all_judged, by_name, by_name_with, call_judged, cell_judged, item_judged_at, numbers_made};

use crate::assign::count_of;
use crate::call::{has_dimensions, may_call};
use crate::deck::queried;
use crate::item::{field_at, item, sole};
use crate::judged::Judged;
use crate::list::{both_hold, decremented, keep};
use crate::made::{number_judged, words_judged};
use crate::operator::{chained, compared, grouped, int, is_special, minus, negated};
use crate::set::member;
use cse_logic_names::meaning::Meaning;
use cse_logic_names::scope::{Scope, kind_and_owner, own_result};
use cse_logic_tree::{Field, Number, NumberKind, Operation, Variable, WordsKind};
use cse_syntax_tree::{
    Expression, ExpressionKind, Function, Lexeme, Operation as Parsed, Operator, number_of,
};
use cse_value::shape::ItemKind;
use std::alloc::{AllocError, Global};

/// What a name without parentheses is.
fn bare<'a>(alloc: Global, scope: &Scope<'_>, name: Lexeme<'a>) -> Result<Judged<'a>, AllocError>
    ensures { IfOk result (λ r. judged r ≡ by_name bare scope.now name.entry) }
{
    match scope.meant(name) {
        Some(Meaning::Variable(variable)) => {
            number_judged(alloc, NumberKind::Variable(name, variable))
        }
        Some(Meaning::Text(global)) => words_judged(alloc, WordsKind::Global(name, global)),
        Some(Meaning::Array(_)) => Ok(Judged::Number(None)),
        Some(Meaning::Function(function)) => {
            result_of(alloc, name, own_result(scope.routine, function))
        }
        Some(Meaning::Item(number)) => item(alloc, scope, name, number),
        _ => Ok(Judged::Unknown),
    }
}

/// The result of the function in which its name stands; elsewhere the name is unknown.
fn result_of<'a>(
    alloc: Global,
    name: Lexeme<'a>,
    own: Option<Variable>,
) -> Result<Judged<'a>, AllocError>
    ensures { IfOk result (λ r. judged r ≡ spec.result_judged (written name.entry) own) }
{
    match own {
        None => Ok(Judged::Unknown),
        Some(variable) => number_judged(alloc, NumberKind::Variable(name, variable)),
    }
}

/// The number that digits write.
#[tactic(auto, using(crate::proofs::Expressions::within_most))]
pub fn written_number(digits: &str) -> Option<u64>
    ensures value { MatchOption result (is_within 0 MOST digits.now ≡ false) (λ v. (is_within 0 MOST digits.now ≡ true) × (v ≡ leaf.number_of digits.now)) }
    ensures most { IfSome result (λ v. v ≤ 9223372036854775807) }
{
    number_of(digits)
}

/// A literal.
#[tactic(auto, unfolding(cse_logic_names::specs::WellTyped::value_of))]
fn literal<'a>(alloc: Global, digits: Lexeme<'a>) -> Result<Judged<'a>, AllocError>
    ensures { IfOk result (λ r. judged r ≡ spec.AsNumber (option_map (typed.Constant (written digits.entry)) (value_of (written digits.entry)))) }
{
    match written_number(digits.text) {
        None => Ok(Judged::Number(None)),
        Some(value) => number_judged(alloc, NumberKind::Literal(digits, value as i64)),
    }
}

/// A number, or none.
fn number_in<'a>(x: Judged<'a>) -> Option<Number<'a>>
    ensures { option_map number result ≡ as_number (judged x.entry) }
{
    match x {
        Judged::Number(x) => x,
        _ => None,
    }
}

/// What an expression is. `top` tells whether it stands right inside `int`, where `/` may be its topmost operator.
#[cycle(judge)]
#[tactic(auto, unfolding(crate::specs::Judge::judge))]
pub fn expression<'a>(
    alloc: Global,
    scope: &Scope<'_>,
    top: bool,
    x: &Expression<'a>,
) -> Result<Judged<'a>, AllocError>
    ensures { IfOk result (λ r. judged r ≡ judge scope.now top (expr x.now)) }
{
    match &*x.kind {
        ExpressionKind::Number(digits) => literal(alloc, *digits),
        ExpressionKind::Text(text) => words_judged(alloc, WordsKind::Literal(*text)),
        ExpressionKind::Special(token, value) => {
            number_judged(alloc, NumberKind::Special(*token, *value))
        }
        ExpressionKind::Name(name) => bare(alloc, scope, *name),
        ExpressionKind::Indexed(name, arguments) => indexed(alloc, scope, *name, arguments),
        ExpressionKind::Group(inner) => {
            let inner = expression(alloc, scope, false, inner)?;
            grouped(alloc, inner)
        }
        ExpressionKind::Apply(function, argument) => { apply(alloc, scope, *function, argument) }
        ExpressionKind::Query(query, name) => queried(alloc, scope, *query, *name),
        ExpressionKind::InValueSet(item, set) => member(alloc, scope, *item, *set),
        ExpressionKind::Minus(operand) => {
            let operand = value(alloc, scope, false, operand)?;
            minus(alloc, operand)
        }
        ExpressionKind::Not(operand) => {
            let operand = value(alloc, scope, false, operand)?;
            negated(alloc, operand)
        }
        ExpressionKind::Compare(left, relation, right) => {
            let earlier = expression(alloc, scope, false, left)?;
            let later = expression(alloc, scope, false, right)?;
            compared(alloc, *relation, earlier, later)
        }
        ExpressionKind::Chain(first, others) => {
            let start = value(alloc, scope, false, first)?;
            chain(alloc, scope, top, start, others)
        }
    }
}

/// A number, or none.
#[cycle(judge)]
pub fn value<'a>(
    alloc: Global,
    scope: &Scope<'_>,
    top: bool,
    x: &Expression<'a>,
) -> Result<Option<Number<'a>>, AllocError>
    ensures { IfOk result (λ r. option_map number r ≡ as_number (judge scope.now top (expr x.now))) }
{
    let found = expression(alloc, scope, top, x)?;
    Ok(number_in(found))
}

/// `int` or `special`.
#[cycle(judge)]
#[tactic(auto, unfolding(crate::specs::Judge::judge))]
fn apply<'a>(
    alloc: Global,
    scope: &Scope<'_>,
    function: Function,
    x: &Expression<'a>,
) -> Result<Judged<'a>, AllocError>
    ensures { IfOk result (λ r. judged r ≡ judge scope.now false (syntax.Apply function (expr x.now))) }
{
    match function {
        Function::Int => {
            let inner = value(alloc, scope, true, x)?;
            int(alloc, inner)
        }
        Function::Special => {
            let inner = value(alloc, scope, false, x)?;
            is_special(alloc, inner)
        }
    }
}

/// What a name with subscripts or arguments is. They are judged only where the name may have them.
#[cycle(judge)]
fn indexed<'a>(
    alloc: Global,
    scope: &Scope<'_>,
    name: Lexeme<'a>,
    arguments: &Vec<Expression<'a>>,
) -> Result<Judged<'a>, AllocError>
    ensures { IfOk result (λ r. judged r ≡ by_name_with indexed scope.now name.entry arguments.now.items) }
{
    match scope.meant(name) {
        Some(Meaning::Variable(_)) => Ok(Judged::Number(None)),
        Some(Meaning::Text(_)) => Ok(Judged::Words(None)),
        Some(Meaning::Array(array)) => cell(alloc, scope, name, array, arguments),
        Some(Meaning::Function(function)) => call(alloc, scope, name, function, arguments),
        Some(Meaning::Item(item)) => item_at(alloc, scope, name, item, arguments),
        _ => Ok(Judged::Unknown),
    }
}

/// A cell of an array, where it has so many dimensions.
#[cycle(judge)]
fn cell<'a>(
    alloc: Global,
    scope: &Scope<'_>,
    name: Lexeme<'a>,
    array: usize,
    subscripts: &Vec<Expression<'a>>,
) -> Result<Judged<'a>, AllocError>
    ensures { IfOk result (λ r. judged r ≡ cell_judged scope.now name.entry array subscripts.now.items) }
{
    if !has_dimensions(scope, count_of(subscripts), array) {
        return Ok(Judged::Number(None));
    }
    match all_values(alloc, scope, subscripts)? {
        None => Ok(Judged::Number(None)),
        Some(subscripts) => number_judged(alloc, NumberKind::cell(name, array, subscripts)),
    }
}

/// A call of a function, where it may be called with so many arguments.
#[cycle(judge)]
fn call<'a>(
    alloc: Global,
    scope: &Scope<'_>,
    name: Lexeme<'a>,
    function: usize,
    arguments: &Vec<Expression<'a>>,
) -> Result<Judged<'a>, AllocError>
    ensures { IfOk result (λ r. judged r ≡ call_judged scope.now name.entry function arguments.now.items) }
{
    if !may_call(scope, count_of(arguments), function) {
        return Ok(Judged::Number(None));
    }
    match all_values(alloc, scope, arguments)? {
        None => Ok(Judged::Number(None)),
        Some(arguments) => number_judged(alloc, NumberKind::call(name, function, arguments)),
    }
}

/// A numeric item with a subscript.
#[cycle(judge)]
fn number_item_at<'a>(
    alloc: Global,
    scope: &Scope<'_>,
    name: Lexeme<'a>,
    field: Option<Field>,
    subscripts: &Vec<Expression<'a>>,
) -> Result<Judged<'a>, AllocError>
    ensures { IfOk result (λ r. judged r ≡ spec.AsNumber (joined (typed.ItemAt (written name.entry)) field
        (spec.sole (all_judged scope.now subscripts.now.items)))) }
{
    let Some(field) = field else {
        return Ok(Judged::Number(None));
    };
    match sole(all_values(alloc, scope, subscripts)?) {
        None => Ok(Judged::Number(None)),
        Some(place) => number_judged(alloc, NumberKind::ItemAt(name, field, place)),
    }
}

/// A text item with a subscript.
#[cycle(judge)]
fn text_item_at<'a>(
    alloc: Global,
    scope: &Scope<'_>,
    name: Lexeme<'a>,
    field: Option<Field>,
    subscripts: &Vec<Expression<'a>>,
) -> Result<Judged<'a>, AllocError>
    ensures { IfOk result (λ r. judged r ≡ spec.AsWords (joined (typed.TextItemAt (written name.entry)) field
        (spec.sole (all_judged scope.now subscripts.now.items)))) }
{
    let Some(field) = field else {
        return Ok(Judged::Words(None));
    };
    match sole(all_values(alloc, scope, subscripts)?) {
        None => Ok(Judged::Words(None)),
        Some(place) => words_judged(alloc, WordsKind::ItemAt(name, field, place)),
    }
}

/// An item with subscripts.
#[cycle(judge)]
fn item_at<'a>(
    alloc: Global,
    scope: &Scope<'_>,
    name: Lexeme<'a>,
    item: u16,
    subscripts: &Vec<Expression<'a>>,
) -> Result<Judged<'a>, AllocError>
    ensures { IfOk result (λ r. judged r ≡ item_judged_at scope.now name.entry item subscripts.now.items) }
{
    match kind_and_owner(scope.dictionary, item) {
        Some((ItemKind::Number, owner)) => {
            let field = field_at(scope, item, owner);
            number_item_at(alloc, scope, name, field, subscripts)
        }
        Some((ItemKind::Text, owner)) => {
            let field = field_at(scope, item, owner);
            text_item_at(alloc, scope, name, field, subscripts)
        }
        _ => Ok(Judged::Unknown),
    }
}

/// Numbers, or none where one isn't sound.
#[cycle(judge)]
pub fn all_values<'a>(
    alloc: Global,
    scope: &Scope<'_>,
    inner: &Vec<Expression<'a>>,
) -> Result<Option<Vec<Number<'a>>>, AllocError>
    ensures { IfOk result (λ r. numbers_made r ≡ all_judged scope.now inner.now.items) }
{
    let mut found = Vec::new(alloc);
    let mut is_sound = true;
    'all: for x in inner {
        let next = value(alloc, scope, false, x)?;
        let is_there = keep(&mut found, next)?;
        is_sound = both_hold(is_sound, is_there);
    }
    if is_sound { Ok(Some(found)) } else { Ok(None) }
}

/// What the operators behind a first operand make of it.
#[cycle(judge)]
fn chain<'a>(
    alloc: Global,
    scope: &Scope<'_>,
    top: bool,
    first: Option<Number<'a>>,
    others: &Vec<Parsed<'a>>,
) -> Result<Judged<'a>, AllocError>
    ensures { IfOk result (λ r. judged r
        ≡ spec.AsNumber (joined typed.Chain (option_map number first.entry) (judge_operations scope.now top (operations_of (map parsed others.now.items))))) }
{
    let others = all_operations(alloc, scope, top, others)?;
    chained(alloc, first, others)
}

/// Whether an operator may stand here.
fn may_stand(top: bool, operator: Operator, is_last: bool) -> bool
    ensures { result ≡ may_divide top operator is_last }
{
    match operator {
        Operator::Divide => { top && is_last }
        _ => true,
    }
}

fn operation<'a>(
    operator: Operator,
    may_stand: bool,
    operand: Option<Number<'a>>,
) -> Option<Operation<'a>>
    ensures { option_map operation_tree result ≡ only_if may_stand (option_map (λ x. (operator, x)) (option_map number operand.entry)) }
{
    if !may_stand {
        return None;
    }
    match operand {
        None => None,
        Some(operand) => Some(Operation { operator, operand }),
    }
}

/// One operator and its operand.
#[cycle(judge)]
fn one_operation<'a>(
    alloc: Global,
    scope: &Scope<'_>,
    top: bool,
    x: &Parsed<'a>,
    is_last: bool,
) -> Result<Option<Operation<'a>>, AllocError>
    ensures { IfOk result (λ r. option_map operation_tree r ≡ spec.judge_operation scope.now top (parsed x.now) is_last) }
{
    let may_stand = may_stand(top, x.operator, is_last);
    let operand = value(alloc, scope, false, &x.operand)?;
    Ok(operation(x.operator, may_stand, operand))
}

/// Operators with their operands, or none where one isn't sound.
#[cycle(judge)]
fn all_operations<'a>(
    alloc: Global,
    scope: &Scope<'_>,
    top: bool,
    others: &Vec<Parsed<'a>>,
) -> Result<Option<Vec<Operation<'a>>>, AllocError>
    ensures { IfOk result (λ r. option_map (λ v. operations (map operation_tree v.items)) r
        ≡ judge_operations scope.now top (operations_of (map parsed others.now.items))) }
{
    let mut found = Vec::new(alloc);
    let mut is_sound = true;
    let mut left = others.len();
    'all: for x in others {
        left = decremented(left);
        let next = one_operation(alloc, scope, top, x, left == 0)?;
        let is_there = keep(&mut found, next)?;
        is_sound = both_hold(is_sound, is_there);
    }
    if is_sound { Ok(Some(found)) } else { Ok(None) }
}

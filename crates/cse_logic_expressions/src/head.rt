//! The heads of loops, and literals.

ghost use Rattle.std.specs.Prelude.{◌≡◌, Some, None};
ghost use Rattle.std.specs.Option.{option_map};
ghost use Rattle.cse_syntax_tree.specs.Tree as syntax;
ghost use Rattle.cse_syntax_tree.specs.Tree.{written};
ghost use Rattle.cse_logic_tree.specs.Typed as typed;
ghost use Rattle.cse_logic_names.specs.Scope as scope_of;
ghost use Rattle.cse_logic_names.specs.WellTyped.{step_of, value_of};
ghost use Rattle.cse_logic_expressions.specs.JudgeStatement as spec;
ghost use Rattle.cse_logic_expressions.specs.JudgeStatement.{limit_pair, limits_of, with_step};
ghost use Rattle.cse_logic_names.specs.Walk.{joined};

use crate::assign::free_variable;
use crate::expression::written_number;
use crate::set::record_of;
use cse_logic_names::meaning::Meaning;
use cse_logic_names::scope::Scope;
use cse_logic_tree::{Counting, Limit, Variable, Whole};
use cse_syntax_tree::{Counting as Parsed, Lexeme, Limit as ParsedLimit, Literal};

/// The variable of a loop: a numeric global or a parameter.
fn loop_variable(scope: &Scope<'_>, name: Lexeme<'_>) -> Option<Variable>
    ensures { result ≡ scope_of.loop_variable scope.now (written name.entry) }
{
    match scope.meant(name) {
        Some(Meaning::Variable(variable)) => Some(variable),
        _ => None,
    }
}

fn head(variable: Option<Variable>, over: Option<u8>) -> Option<(Variable, u8)>
    ensures { result ≡ joined spec.head variable over }
{
    match variable {
        None => None,
        Some(variable) => match over {
            None => None,
            Some(over) => Some((variable, over)),
        },
    }
}

/// The variable and the record of a `for`.
pub fn for_head(
    scope: &Scope<'_>,
    variable: Lexeme<'_>,
    record_name: Lexeme<'_>,
) -> Option<(Variable, u8)>
    ensures { result ≡ spec.for_head scope.now (written variable.entry) (written record_name.entry) }
{
    let free = free_variable(scope, loop_variable(scope, variable));
    head(free, record_of(scope, record_name))
}

/// A literal with its value.
#[tactic(auto, unfolding(cse_logic_names::specs::WellTyped::value_of))]
pub fn whole<'a>(x: Literal<'a>) -> Option<Whole<'a>>
    ensures { option_map typed.whole result ≡ spec.whole_judged (syntax.literal x.entry) }
{
    match written_number(x.digits.text) {
        None => None,
        Some(value) => {
            let value = value as i64;
            Some(Whole {
                literal: x,
                value: if x.is_negative { -value } else { value },
            })
        }
    }
}

/// Where a `do` begins or ends.
fn limit<'a>(scope: &Scope<'_>, x: ParsedLimit<'a>) -> Option<Limit<'a>>
    ensures { option_map typed.limit result ≡ spec.limit_judged scope.now (syntax.limit x.entry) }
{
    match x {
        ParsedLimit::Literal(literal) => match whole(literal) {
            None => None,
            Some(value) => Some(Limit::Literal(value)),
        },
        ParsedLimit::Count(count, name) => match record_of(scope, name) {
            None => None,
            Some(over) => Some(Limit::Count(count, name, over)),
        },
    }
}

fn both_limits<'a>(from: Option<Limit<'a>>, to: Option<Limit<'a>>) -> Option<(Limit<'a>, Limit<'a>)>
    ensures { option_map limits_of result ≡ joined limit_pair (option_map typed.limit from.entry) (option_map typed.limit to.entry) }
{
    match from {
        None => None,
        Some(from) => match to {
            None => None,
            Some(to) => Some((from, to)),
        },
    }
}

fn limits<'a>(scope: &Scope<'_>, x: Parsed<'a>) -> Option<(Limit<'a>, Limit<'a>)>
    ensures { option_map limits_of result
        ≡ joined limit_pair (spec.limit_judged scope.now (syntax.limit x.entry.from)) (spec.limit_judged scope.now (syntax.limit x.entry.to)) }
{
    both_limits(limit(scope, x.from), limit(scope, x.to))
}

/// What each turn of a `do` adds.
#[tactic(auto, unfolding(cse_logic_names::specs::WellTyped::value_of))]
fn step(by: Option<Lexeme<'_>>) -> Option<i64>
    ensures { result ≡ step_of (option_map written by.entry) }
{
    match by {
        None => Some(1),
        Some(digits) => match written_number(digits.text) {
            None => None,
            Some(value) => Some(value as i64),
        },
    }
}

fn stepped(variable: Option<Variable>, step: Option<i64>) -> Option<(Variable, i64)>
    ensures { result ≡ joined with_step variable step }
{
    match variable {
        None => None,
        Some(variable) => match step {
            None => None,
            Some(step) => Some((variable, step)),
        },
    }
}

/// The variable of a `do`, and what each turn adds.
fn variable_and_step(scope: &Scope<'_>, x: Parsed<'_>) -> Option<(Variable, i64)>
    ensures { result ≡ joined with_step (spec.free_variable scope.now.loops (scope_of.loop_variable scope.now (written x.entry.variable)))
        (step_of (option_map written x.entry.by)) }
{
    let free = free_variable(scope, loop_variable(scope, x.variable));
    stepped(free, step(x.by))
}

fn counting_of<'a>(
    x: Parsed<'a>,
    variable: Option<(Variable, i64)>,
    limits: Option<(Limit<'a>, Limit<'a>)>,
) -> Option<Counting<'a>>
    ensures { option_map typed.counting result ≡ joined (spec.counting_of (syntax.counting x.entry)) variable (option_map limits_of limits.entry) }
{
    match variable {
        None => None,
        Some((variable, step)) => match limits {
            None => None,
            Some((from, to)) => Some(Counting {
                name: x.variable,
                variable,
                from,
                again: x.again,
                to,
                by: x.by,
                step,
            }),
        },
    }
}

/// The head of a `do`.
pub fn counting<'a>(scope: &Scope<'_>, x: Parsed<'a>) -> Option<Counting<'a>>
    ensures { option_map typed.counting result ≡ spec.counting_judged scope.now (syntax.counting x.entry) }
{
    counting_of(x, variable_and_step(scope, x), limits(scope, x))
}

//! How many instructions statements have. What is above a million is told as a million and one.

ghost use Rattle.std.specs.Prelude.{◌≡◌, ◌+◌, ◌≤◌, min, map};
ghost use Rattle.std.specs.Option.{option_map};
ghost use Rattle.cse_logic_tree.specs.Typed.{which, argument, counting, limit, statement, block, arms, arm_tree, otherwise_tree, number};
ghost use Rattle.cse_compile.specs.Setting.{setting};
ghost use Rattle.cse_compile.specs.Wide as wide;
ghost use Rattle.cse_compile.specs.Statements as spec;

use crate::decks::{deepest, picks_size};
use crate::setting::Setting;
use crate::sizes::{TOO_LONG, behind, indexes_size, number_size, numbers_size, plus, words_size};
use cse_logic_tree::{Argument, Arm, Counting, Found, Limit, Statement, StatementKind, Which};
use cse_syntax_tree::{Count, Jump};

/// A jump over so many instructions: none over nothing.
pub fn jump_size(count: usize) -> usize
    ensures { result ≡ wide.jump_size count }
{
    if count == 0 { 0 } else { 1 }
}

/// Indexes that are dropped behind a statement.
pub fn drops_size(count: usize) -> usize
    requires { count ≤ 1000001 }
    ensures { result ≡ spec.drops_size count }
{
    jump_size(count) + count
}

/// How many instructions tell which occurrence is meant; 1,000,001 stands for more too.
pub fn which_size(x: &Which) -> usize
    ensures { result ≡ min (spec.which_size (which x.now)) 1000001 }
{
    match x {
        Which::Here(Found::Loop | Found::Event) => 1,
        Which::Here(Found::First) => 2,
        Which::At(place) => plus(number_size(place), 1),
    }
}

/// How many instructions an argument has; 1,000,001 stands for more too.
pub fn argument_size(x: &Argument) -> usize
    ensures { result ≡ min (spec.argument_size (argument x.now)) 1000001 }
{
    match x {
        Argument::Number(value) => number_size(value),
        Argument::Words(value) => words_size(value),
    }
}

/// How many instructions arguments have together; 1,000,001 stands for more too.
#[tactic(auto, unfolding(crate::specs::Statements::arguments_size))]
pub fn arguments_size(xs: &Vec<Argument>) -> usize
    ensures { result ≡ min (spec.arguments_size (map argument xs.now.items)) 1000001 }
{
    let mut size = 0usize;
    'all: for x in xs {
        size = plus(size, argument_size(x));
    }
    size
}

/// A limit that is known before the run.
pub fn known(s: &Setting, x: &Limit) -> Option<i64>
    ensures { result ≡ spec.known (setting s.now).records (limit x.now) }
{
    match x {
        Limit::Literal(whole) => Some(whole.value),
        Limit::Count(Count::MaxOcc, _, of) => Some(s.most_occurrences(*of) as i64),
        Limit::Count(Count::TotOcc, _, _) => None,
    }
}

/// The head of a `do`.
pub fn head_size(s: &Setting, x: &Counting) -> usize
    ensures { result ≡ spec.head_size (setting s.now).records (counting x.now) }
{
    match (known(s, &x.from), known(s, &x.to)) {
        (Some(_), Some(_)) => 3,
        _ => 9,
    }
}

/// How many instructions `exit` has.
pub fn exit_size(s: &Setting) -> usize
    ensures { result ≡ spec.exit_size (setting s.now) }
{
    match s.result_at {
        None => 1,
        Some(_) => 2,
    }
}

/// How many instructions a jump has.
pub fn jump_code_size(s: &Setting, jump: Jump) -> usize
    ensures { result ≡ spec.jump_code_size (setting s.now) jump }
{
    match jump {
        Jump::Break | Jump::Next => 1,
        Jump::Exit => exit_size(s),
    }
}

/// A condition, the statements that it guards, and what stands behind them.
pub fn guard_size(condition: usize, body: usize, others: usize) -> usize
    requires first { condition ≤ 1000001 }
    requires second { body ≤ 1000001 }
    requires third { others ≤ 1000001 }
    ensures { result ≡ min (spec.guard_size condition body others) 1000001 }
{
    (condition + 1 + body + jump_size(others) + others).min(TOO_LONG)
}

/// How many instructions a statement has; 1,000,001 stands for more too.
#[cycle(block_size)]
#[tactic(auto, unfolding(crate::specs::Statements::statement_size))]
pub fn statement_size(s: &Setting, x: &Statement) -> usize
    ensures { result ≡ min (spec.statement_size (setting s.now) (statement x.now)) 1000001 }
{
    match &*x.kind {
        StatementKind::Empty => 0,
        StatementKind::Set(_, _, value) => plus(number_size(value), 1),
        StatementKind::SetText(_, _, value) => plus(words_size(value), 1),
        StatementKind::SetItem(_, _, which, value) | StatementKind::Impute(_, _, which, value) => {
            plus(which_size(which), plus(number_size(value), 1))
        }
        StatementKind::SetTextItem(_, _, which, value) => {
            plus(which_size(which), plus(words_size(value), 1))
        }
        StatementKind::SetCell(_, _, subscripts, value) => {
            let drops = drops_size(behind(subscripts)).min(TOO_LONG);
            plus(
                indexes_size(subscripts),
                plus(number_size(value), plus(drops, 1)),
            )
        }
        StatementKind::Call(_, _, arguments) => plus(numbers_size(arguments), 2),
        StatementKind::If(first, others, otherwise) => match otherwise {
            None => guard_size(
                number_size(&first.condition),
                block_size(s, &first.body),
                arms_size(s, others, 0),
            ),
            Some(body) => guard_size(
                number_size(&first.condition),
                block_size(s, &first.body),
                arms_size(s, others, block_size(s, body)),
            ),
        },
        StatementKind::For(_, _, _, _, body) => plus(block_size(s, body), 5),
        StatementKind::Do(head, body) => plus(head_size(s, head), plus(block_size(s, body), 6)),
        StatementKind::Jump(_, jump) => jump_code_size(s, *jump),
        StatementKind::PutDeck(_, _, picks, value) => {
            let drops = drops_size(deepest(picks)).min(TOO_LONG);
            plus(picks_size(picks), plus(number_size(value), plus(drops, 1)))
        }
        StatementKind::ErrMsg(_, _, values, _) => plus(arguments_size(values), 1),
    }
}

/// How many instructions statements have together; 1,000,001 stands for more too.
#[cycle(block_size)]
#[tactic(auto, unfolding(crate::specs::Statements::block_size))]
pub fn block_size(s: &Setting, xs: &Vec<Statement>) -> usize
    ensures { result ≡ min (spec.block_size (setting s.now) (block xs.now.items)) 1000001 }
{
    let mut size = 0usize;
    'all: for x in xs {
        size = plus(size, statement_size(s, x));
    }
    size
}

/// Arms, with so many instructions behind them.
#[cycle(block_size)]
pub fn arms_size(s: &Setting, others: &Vec<Arm>, last: usize) -> usize
    requires { last ≤ 1000001 }
    ensures { result ≡ min (spec.all_arms_size (setting s.now) (map arm_tree others.now.items) last) 1000001 }
{
    let mut size = last;
    let mut left = others.len();
    'all: while left > 0 {
        left -= 1;
        let arm = &others[left];
        size = guard_size(number_size(&arm.condition), block_size(s, &arm.body), size);
    }
    size
}

/// What stands behind the arms of an `if`.
#[tactic(auto, unfolding(crate::specs::Statements::arms_size))]
pub fn otherwise_size(s: &Setting, body: &Option<Vec<Statement>>) -> usize
    ensures { result ≡ min (spec.arms_size (setting s.now) (otherwise_tree body.now)) 1000001 }
{
    match body {
        None => 0,
        Some(body) => block_size(s, body),
    }
}

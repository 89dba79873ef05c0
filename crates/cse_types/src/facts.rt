//! What statements use: whether they need a case, and the globals that they may assign.

ghost use Rattle.std.specs.Prelude.{◌≡◌, ◌∷◌, ◌++◌, map, slice_get, Some, OnOk, IfOk, true};
ghost use Rattle.cse_logic_tree.specs.Typed as typed;
ghost use Rattle.cse_logic_tree.specs.Typed.{operation_tree};
ghost use Rattle.cse_logic_names.specs.Uses as spec;
ghost use Rattle.cse_types.specs.Gather.{gather, with_call, with_use, facts_from};

use cse_logic_names::names::Globals;
use cse_logic_names::scope::Facts;
use cse_logic_tree::{
    Argument, Arm, Counting, Limit, Number, NumberKind, Operation, Statement, StatementKind,
    Variable, Which, Words, WordsKind,
};
use std::alloc::{AllocError, Global};

/// What is known so far.
#[derive(Drop)]
pub struct Gathered {
    /// Whether it names a record or an item, or uses a hot deck.
    pub needs_case: bool,
    /// The globals that are assigned, here or in a function that is called.
    pub assigned: Globals,
}

/// A record or an item is named, or a hot deck is used.
fn case(functions: &[Option<Facts>], gathered: &mut Gathered)
    ensures { gathered.new ≡ with_use functions.now gathered.old spec.TheCase }
{
    gathered.needs_case = true;
}

/// Another function is called.
fn call(
    functions: &[Option<Facts>],
    gathered: &mut Gathered,
    function: usize,
) -> Result<(), AllocError>
    ensures { OnOk result (gathered.new ≡ with_call gathered.old (slice_get functions.now function)) }
{
    match functions.get(function) {
        None => Ok(()),
        Some(facts) => match facts {
            None => Ok(()),
            Some(facts) => {
                if facts.needs_case {
                    gathered.needs_case = true;
                }
                gathered.assigned.add_all(&facts.assigned)
            }
        },
    }
}

/// A variable is assigned, or is that of a loop.
#[tactic(auto, unfolding(crate::specs::Gather::gather))]
fn assigned(
    functions: &[Option<Facts>],
    gathered: &mut Gathered,
    variable: Variable,
) -> Result<(), AllocError>
    ensures { OnOk result (gathered.new ≡ gather functions.now gathered.old (spec.assigns variable)) }
{
    match variable {
        Variable::Global(global) => gathered.assigned.add(global),
        Variable::Parameter(_) => Ok(()),
        Variable::Result => Ok(()),
    }
}

#[cycle(gather)]
#[tactic(auto, unfolding(crate::specs::Gather::gather), using(crate::proofs::Gathering::gather_both))]
fn number(
    x: &Number<'_>,
    functions: &[Option<Facts>],
    gathered: &mut Gathered,
) -> Result<(), AllocError>
    ensures { OnOk result (gathered.new ≡ gather functions.now gathered.old (spec.uses (typed.number x.now))) }
{
    match &*x.kind {
        NumberKind::Literal(_, _) | NumberKind::Special(_, _) | NumberKind::Variable(_, _) => Ok(
            (),
        ),
        NumberKind::Item(_, _)
        | NumberKind::Deck(_, _, _)
        | NumberKind::TotOcc(_, _)
        | NumberKind::MaxOcc(_, _)
        | NumberKind::CurOcc(_, _, _)
        | NumberKind::InSet(_, _, _, _) => {
            case(functions, gathered);
            Ok(())
        }
        NumberKind::ItemAt(_, _, place) => {
            case(functions, gathered);
            number(place, functions, gathered)
        }
        NumberKind::Cell(_, _, subscripts) => numbers(subscripts, functions, gathered),
        NumberKind::Call(_, function, arguments) => {
            call(functions, gathered, *function)?;
            numbers(arguments, functions, gathered)
        }
        NumberKind::Group(inner)
        | NumberKind::Int(inner)
        | NumberKind::IsSpecial(inner)
        | NumberKind::Minus(inner)
        | NumberKind::Not(inner) => number(inner, functions, gathered),
        NumberKind::Compare(left, _, right) => {
            number(left, functions, gathered)?;
            number(right, functions, gathered)
        }
        NumberKind::CompareTexts(left, _, right) => {
            words(left, functions, gathered)?;
            words(right, functions, gathered)
        }
        NumberKind::Chain(first, others) => {
            number(first, functions, gathered)?;
            operations(others, functions, gathered)
        }
    }
}

#[cycle(gather)]
#[tactic(auto, unfolding(crate::specs::Gather::gather))]
fn words(
    x: &Words<'_>,
    functions: &[Option<Facts>],
    gathered: &mut Gathered,
) -> Result<(), AllocError>
    ensures { OnOk result (gathered.new ≡ gather functions.now gathered.old (spec.uses_words (typed.words x.now))) }
{
    match &*x.kind {
        WordsKind::Literal(_) => Ok(()),
        WordsKind::Global(_, _) => Ok(()),
        WordsKind::Item(_, _) => {
            case(functions, gathered);
            Ok(())
        }
        WordsKind::ItemAt(_, _, place) => {
            case(functions, gathered);
            number(place, functions, gathered)
        }
        WordsKind::Group(inner) => words(inner, functions, gathered),
    }
}

#[cycle(gather)]
fn numbers(
    all: &Vec<Number<'_>>,
    functions: &[Option<Facts>],
    gathered: &mut Gathered,
) -> Result<(), AllocError>
    ensures { OnOk result (gathered.new ≡ gather functions.now gathered.old (spec.uses_all (typed.numbers (map typed.number all.now.items)))) }
{
    'all: for x in all {
        number(x, functions, gathered)?;
    }
    Ok(())
}

#[cycle(gather)]
fn operations(
    all: &Vec<Operation<'_>>,
    functions: &[Option<Facts>],
    gathered: &mut Gathered,
) -> Result<(), AllocError>
    ensures { OnOk result (gathered.new ≡ gather functions.now gathered.old (spec.uses_operations (typed.operations (map operation_tree all.now.items)))) }
{
    'all: for x in all {
        number(&x.operand, functions, gathered)?;
    }
    Ok(())
}

#[tactic(auto, unfolding(crate::specs::Gather::gather))]
fn which(
    x: &Which<'_>,
    functions: &[Option<Facts>],
    gathered: &mut Gathered,
) -> Result<(), AllocError>
    ensures { OnOk result (gathered.new ≡ gather functions.now gathered.old (spec.uses_which (typed.which x.now))) }
{
    match x {
        Which::Here(_) => Ok(()),
        Which::At(place) => number(place, functions, gathered),
    }
}

/// A number is put into an item.
#[tactic(auto, unfolding(crate::specs::Gather::gather), using(crate::proofs::Gathering::gather_both))]
fn into_item(
    place: &Which<'_>,
    value: &Number<'_>,
    functions: &[Option<Facts>],
    gathered: &mut Gathered,
) -> Result<(), AllocError>
    ensures { OnOk result (gathered.new
        ≡ gather functions.now gathered.old (spec.TheCase ∷ (spec.uses_which (typed.which place.now) ++ spec.uses (typed.number value.now)))) }
{
    case(functions, gathered);
    which(place, functions, gathered)?;
    number(value, functions, gathered)
}

/// A text is put into an item.
#[tactic(auto, unfolding(crate::specs::Gather::gather), using(crate::proofs::Gathering::gather_both))]
fn text_into_item(
    place: &Which<'_>,
    value: &Words<'_>,
    functions: &[Option<Facts>],
    gathered: &mut Gathered,
) -> Result<(), AllocError>
    ensures { OnOk result (gathered.new
        ≡ gather functions.now gathered.old (spec.TheCase ∷ (spec.uses_which (typed.which place.now) ++ spec.uses_words (typed.words value.now)))) }
{
    case(functions, gathered);
    which(place, functions, gathered)?;
    words(value, functions, gathered)
}

fn argument(
    x: &Argument<'_>,
    functions: &[Option<Facts>],
    gathered: &mut Gathered,
) -> Result<(), AllocError>
    ensures { OnOk result (gathered.new ≡ gather functions.now gathered.old (spec.uses_argument (typed.argument x.now))) }
{
    match x {
        Argument::Number(value) => number(value, functions, gathered),
        Argument::Words(value) => words(value, functions, gathered),
    }
}

fn arguments(
    all: &Vec<Argument<'_>>,
    functions: &[Option<Facts>],
    gathered: &mut Gathered,
) -> Result<(), AllocError>
    ensures { OnOk result (gathered.new ≡ gather functions.now gathered.old (spec.uses_arguments (map typed.argument all.now.items))) }
{
    'all: for x in all {
        argument(x, functions, gathered)?;
    }
    Ok(())
}

#[tactic(auto, unfolding(crate::specs::Gather::gather))]
fn limit(x: &Limit<'_>, functions: &[Option<Facts>], gathered: &mut Gathered)
    ensures { gathered.new ≡ gather functions.now gathered.old (spec.uses_limit (typed.limit x.now)) }
{
    match x {
        Limit::Literal(_) => {}
        Limit::Count(_, _, _) => case(functions, gathered),
    }
}

/// What the head of a loop that counts uses.
#[tactic(auto, using(crate::proofs::Gathering::gather_both))]
fn head(
    x: &Counting<'_>,
    functions: &[Option<Facts>],
    gathered: &mut Gathered,
) -> Result<(), AllocError>
    ensures { OnOk result (gathered.new ≡ gather functions.now (gather functions.now (gather functions.now gathered.old (spec.assigns x.now.variable))
        (spec.uses_limit (typed.limit x.now.from))) (spec.uses_limit (typed.limit x.now.to))) }
{
    assigned(functions, gathered, x.variable)?;
    limit(&x.from, functions, gathered);
    limit(&x.to, functions, gathered);
    Ok(())
}

#[cycle(statements)]
#[tactic(auto, unfolding(crate::specs::Gather::gather), using(crate::proofs::Gathering::gather_both))]
fn statement(
    x: &Statement<'_>,
    functions: &[Option<Facts>],
    gathered: &mut Gathered,
) -> Result<(), AllocError>
    ensures { OnOk result (gathered.new ≡ gather functions.now gathered.old (spec.uses_of (typed.statement x.now))) }
{
    match &*x.kind {
        StatementKind::Empty | StatementKind::Jump(_, _) => Ok(()),
        StatementKind::Set(_, variable, value) => {
            assigned(functions, gathered, *variable)?;
            number(value, functions, gathered)
        }
        StatementKind::SetText(_, _, value) => words(value, functions, gathered),
        StatementKind::SetItem(_, _, place, value) | StatementKind::Impute(_, _, place, value) => {
            into_item(place, value, functions, gathered)
        }
        StatementKind::SetTextItem(_, _, place, value) => {
            text_into_item(place, value, functions, gathered)
        }
        StatementKind::SetCell(_, _, subscripts, value) => {
            numbers(subscripts, functions, gathered)?;
            number(value, functions, gathered)
        }
        StatementKind::Call(_, function, values) => {
            call(functions, gathered, *function)?;
            numbers(values, functions, gathered)
        }
        StatementKind::If(first, others, otherwise) => {
            number(&first.condition, functions, gathered)?;
            block(&first.body, functions, gathered)?;
            arms(others, functions, gathered)?;
            match otherwise {
                None => Ok(()),
                Some(body) => block(body, functions, gathered),
            }
        }
        StatementKind::For(_, variable, _, _, body) => {
            case(functions, gathered);
            assigned(functions, gathered, *variable)?;
            block(body, functions, gathered)
        }
        StatementKind::Do(counting, body) => {
            head(counting, functions, gathered)?;
            block(body, functions, gathered)
        }
        StatementKind::PutDeck(_, _, _, value) => {
            case(functions, gathered);
            number(value, functions, gathered)
        }
        StatementKind::ErrMsg(_, _, values, _) => arguments(values, functions, gathered),
    }
}

/// What statements use, behind what was known before.
#[cycle(statements)]
pub fn block(
    all: &Vec<Statement<'_>>,
    functions: &[Option<Facts>],
    gathered: &mut Gathered,
) -> Result<(), AllocError>
    ensures { OnOk result (gathered.new ≡ gather functions.now gathered.old (spec.uses_block (typed.block all.now.items))) }
{
    'all: for x in all {
        statement(x, functions, gathered)?;
    }
    Ok(())
}

/// One `elseif`.
#[cycle(statements)]
#[tactic(auto, using(crate::proofs::Gathering::gather_both))]
fn arm(x: &Arm<'_>, functions: &[Option<Facts>], gathered: &mut Gathered) -> Result<(), AllocError>
    ensures { OnOk result (gathered.new ≡ gather functions.now (gather functions.now gathered.old (spec.uses (typed.arm_tree x.now).0))
        (spec.uses_block (typed.arm_tree x.now).1)) }
{
    number(&x.condition, functions, gathered)?;
    block(&x.body, functions, gathered)
}

/// Each `elseif`, without the `else`.
#[cycle(statements)]
fn arms(
    all: &Vec<Arm<'_>>,
    functions: &[Option<Facts>],
    gathered: &mut Gathered,
) -> Result<(), AllocError>
    ensures { OnOk result (gathered.new ≡ gather functions.now gathered.old (spec.uses_arms (typed.arms (map typed.arm_tree all.now.items) typed.no_arm))) }
{
    'all: for x in all {
        arm(x, functions, gathered)?;
    }
    Ok(())
}

/// What is known of a function that has ended, after those before it: its parameters are so many.
#[tactic(auto, using(crate::proofs::Gathering::gathered_facts))]
pub fn facts_of(
    body: &Vec<Statement<'_>>,
    alloc: Global,
    functions: &[Option<Facts>],
    parameters: usize,
) -> Result<Facts, AllocError>
    ensures { IfOk result (λ f. f ≡ facts_from functions.now parameters (typed.block body.now.items)) }
{
    let mut gathered = Gathered {
        needs_case: false,
        assigned: Globals::new(alloc),
    };
    block(body, functions, &mut gathered)?;
    Ok(Facts {
        parameters,
        needs_case: gathered.needs_case,
        assigned: gathered.assigned,
    })
}

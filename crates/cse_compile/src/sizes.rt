//! How many instructions expressions have. What is above a million is told as a million and one.

ghost use Rattle.std.specs.Prelude.{◌≡◌, ◌+◌, ◌≤◌, min, map, length};
ghost use Rattle.cse_logic_tree.specs.Typed.{number, words, operations, operation_tree};
ghost use Rattle.cse_compile.specs.Expressions as spec;
ghost use Rattle.cse_compile.specs.Clauses.{all_numbers};

use crate::decks::{deck_size, picks_size};
use cse_logic_tree::{Found, Number, NumberKind, Operation, Present, Words, WordsKind};

/// What a size is told as that is above a million.
pub const TOO_LONG: usize = 1000001;

/// A sum of sizes.
pub fn plus(a: usize, b: usize) -> usize
    requires first { a ≤ 1000001 }
    requires second { b ≤ 1000001 }
    ensures { result ≡ min (a + b) 1000001 }
{
    (a + b).min(TOO_LONG)
}

/// How many instructions tell the occurrence that is found.
pub fn here_size(found: Found) -> usize
    ensures { result ≡ spec.here_size found }
{
    match found {
        Found::Loop | Found::Event => 2,
        Found::First => 5,
    }
}

/// How many instructions tell an item that is there.
pub fn present_size(item: Present) -> usize
    ensures { result ≡ spec.present_size item }
{
    match item {
        Present::Id(_) => 1,
        Present::Here(_, found) => here_size(found),
    }
}

/// All subscripts but the first.
#[tactic(auto, using(crate::proofs::Lists::behind_is))]
pub fn behind(xs: &Vec<Number>) -> usize
    ensures { result ≡ min (spec.behind (all_numbers xs.now.items)) 1000001 }
{
    xs.len().saturating_sub(1).min(TOO_LONG)
}

/// How many instructions a number has; 1,000,001 stands for more too.
#[cycle(size)]
#[tactic(auto, unfolding(crate::specs::Expressions::number_size))]
pub fn number_size(x: &Number) -> usize
    ensures { result ≡ min (spec.number_size (number x.now)) 1000001 }
{
    match &*x.kind {
        NumberKind::Literal(_, _) | NumberKind::Special(_, _) | NumberKind::Variable(_, _) => 1,
        NumberKind::Item(_, item) => present_size(*item),
        NumberKind::ItemAt(_, _, place) => plus(number_size(place), 4),
        NumberKind::Cell(_, _, subscripts) => plus(
            indexes_size(subscripts),
            plus(behind(subscripts), 3),
        ),
        NumberKind::Call(_, _, arguments) => plus(numbers_size(arguments), 1),
        NumberKind::Group(inner) | NumberKind::Int(inner) => number_size(inner),
        NumberKind::IsSpecial(inner) | NumberKind::Minus(inner) | NumberKind::Not(inner) => {
            plus(number_size(inner), 1)
        }
        NumberKind::Deck(_, _, picks) => plus(picks_size(picks), deck_size(picks)),
        NumberKind::TotOcc(_, _) | NumberKind::MaxOcc(_, _) => 1,
        NumberKind::CurOcc(_, _, found) => here_size(*found),
        NumberKind::InSet(_, item, _, _) => present_size(*item) + 1,
        NumberKind::Compare(x, _, y) => plus(number_size(x), plus(number_size(y), 1)),
        NumberKind::CompareTexts(x, _, y) => plus(words_size(x), plus(words_size(y), 1)),
        NumberKind::Chain(first, others) => plus(number_size(first), operations_size(others)),
    }
}

/// How many instructions a text has; 1,000,001 stands for more too.
#[cycle(size)]
#[tactic(auto, unfolding(crate::specs::Expressions::words_size))]
pub fn words_size(x: &Words) -> usize
    ensures { result ≡ min (spec.words_size (words x.now)) 1000001 }
{
    match &*x.kind {
        WordsKind::Literal(_) | WordsKind::Global(_, _) => 1,
        WordsKind::Item(_, item) => present_size(*item),
        WordsKind::ItemAt(_, _, place) => plus(number_size(place), 4),
        WordsKind::Group(inner) => words_size(inner),
    }
}

/// One after the other.
#[cycle(size)]
#[tactic(auto, unfolding(crate::specs::Expressions::numbers_size))]
pub fn numbers_size(xs: &Vec<Number>) -> usize
    ensures { result ≡ min (spec.numbers_size (all_numbers xs.now.items)) 1000001 }
{
    let mut size = 0usize;
    'all: for x in xs {
        size = plus(size, number_size(x));
    }
    size
}

/// As indexes.
#[cycle(size)]
#[tactic(auto, unfolding(crate::specs::Expressions::indexes_size))]
pub fn indexes_size(xs: &Vec<Number>) -> usize
    ensures { result ≡ min (spec.indexes_size (all_numbers xs.now.items)) 1000001 }
{
    let mut size = 0usize;
    'all: for x in xs {
        size = plus(size, plus(number_size(x), 1));
    }
    size
}

/// How many instructions operations have; 1,000,001 stands for more too.
#[cycle(size)]
#[tactic(auto, unfolding(crate::specs::Expressions::operations_size))]
pub fn operations_size(xs: &Vec<Operation>) -> usize
    ensures { result ≡ min (spec.operations_size (operations (map operation_tree xs.now.items))) 1000001 }
{
    let mut size = 0usize;
    'all: for x in xs {
        size = plus(size, plus(number_size(&x.operand), 1));
    }
    size
}

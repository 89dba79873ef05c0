//! Hot decks, and the functions of one name.

ghost use Rattle.std.specs.Prelude.{◌≡◌, true, map, slice_get, Some, None, IfOk};
ghost use Rattle.std.specs.Option.{option_map};
ghost use Rattle.cse_syntax_tree.specs.Tree.{written};
ghost use Rattle.cse_logic_tree.specs.Typed as typed;
ghost use Rattle.cse_logic_tree.specs.Typed.{dimension};
ghost use Rattle.cse_logic_names.specs.Scope.{meant};
ghost use Rattle.cse_logic_expressions.specs.Judge as spec;
ghost use Rattle.cse_logic_expressions.specs.Judge.{judged};
ghost use Rattle.cse_logic_names.specs.Walk.{is_there};
ghost use Rattle.cse_logic_expressions.specs.Clauses.{by_name};

use crate::item::number_present;
use crate::judged::Judged;
use crate::list::{both_hold, keep};
use crate::made::number_judged;
use crate::set::{current, max_occ, record_of, tot_occ, whole_set};
use cse_logic_names::meaning::Meaning;
use cse_logic_names::scope::{Scope, has_case};
use cse_logic_tree::{Dimension, NumberKind, Pick, Present};
use cse_syntax_tree::{Lexeme, Query};
use std::alloc::{AllocError, Global};

/// The present value's place of a set's item.
fn set_present(scope: &Scope<'_>, item: Option<u16>) -> Option<Present>
    ensures { result ≡ spec.set_present scope.now item }
{
    match item {
        None => None,
        Some(item) => number_present(scope, item),
    }
}

fn picked(set: u16, has_leftover: bool, item: Option<Present>) -> Option<Pick>
    ensures { result ≡ option_map (spec.pick set has_leftover) item }
{
    match item {
        None => None,
        Some(item) => Some(Pick {
            item,
            set,
            has_leftover,
        }),
    }
}

/// What picks an index of a hot deck in one direction.
fn pick(scope: &Scope<'_>, direction: &Dimension<'_>) -> Option<Pick>
    ensures { result ≡ spec.dimension_pick scope.now (dimension direction.now) }
{
    match direction {
        Dimension::Number(_, _) => None,
        Dimension::Set(_, set, has_leftover, _) => {
            let present = set_present(scope, whole_set(scope.dictionary, *set));
            picked(*set, *has_leftover, present)
        }
    }
}

/// What picks the indexes of a hot deck.
fn all_picks(
    alloc: Global,
    scope: &Scope<'_>,
    directions: &Vec<Dimension<'_>>,
) -> Result<Option<Vec<Pick>>, AllocError>
    ensures { IfOk result (λ r. option_map (λ v. v.items) r ≡ spec.picks_for scope.now (map dimension directions.now.items)) }
{
    let mut found = Vec::new(alloc);
    let mut is_sound = true;
    'all: for x in directions {
        let next = pick(scope, x);
        let is_there = keep(&mut found, next)?;
        is_sound = both_hold(is_sound, is_there);
    }
    if is_sound { Ok(Some(found)) } else { Ok(None) }
}

/// What picks a cell of this array, if it is a hot deck and there is a case.
pub fn picks(
    alloc: Global,
    scope: &Scope<'_>,
    array: usize,
) -> Result<Option<Vec<Pick>>, AllocError>
    ensures { IfOk result (λ r. option_map (λ v. v.items) r ≡ spec.picks_of scope.now (slice_get scope.now.arrays array)) }
{
    match scope.arrays.get(array) {
        Some(Some(directions)) if has_case(scope.routine) => all_picks(alloc, scope, directions),
        _ => Ok(None),
    }
}

fn deck<'a>(
    alloc: Global,
    scope: &Scope<'_>,
    name: Lexeme<'a>,
    array: usize,
) -> Result<Judged<'a>, AllocError>
    ensures { IfOk result (λ r. judged r
        ≡ spec.AsNumber (option_map (typed.Deck (written name.entry) array) (spec.picks_of scope.now (slice_get scope.now.arrays array)))) }
{
    match picks(alloc, scope, array)? {
        None => Ok(Judged::Number(None)),
        Some(picks) => number_judged(alloc, NumberKind::Deck(name, array, picks)),
    }
}

/// The value of a hot deck, where there is a case.
fn deck_of<'a>(alloc: Global, scope: &Scope<'_>, name: Lexeme<'a>) -> Result<Judged<'a>, AllocError>
    ensures { IfOk result (λ r. judged r ≡ spec.AsNumber (by_name spec.deck_of scope.now name.entry)) }
{
    match scope.meant(name) {
        Some(Meaning::Array(array)) => deck(alloc, scope, name, array),
        _ => Ok(Judged::Number(None)),
    }
}

/// A function of one name, where there is a case.
pub fn queried<'a>(
    alloc: Global,
    scope: &Scope<'_>,
    query: Query,
    name: Lexeme<'a>,
) -> Result<Judged<'a>, AllocError>
    ensures { IfOk result (λ r. judged r ≡ spec.AsNumber (spec.queried scope.now query (written name.entry) (meant scope.now (written name.entry)))) }
{
    match query {
        Query::GetDeck => deck_of(alloc, scope, name),
        Query::TotOcc => tot_occ(alloc, name, record_of(scope, name)),
        Query::MaxOcc => max_occ(alloc, name, record_of(scope, name)),
        Query::CurOcc => current(alloc, scope, name, record_of(scope, name)),
    }
}

//! The faults of value sets, records and hot decks.

ghost use Rattle.std.specs.Prelude.{◌≡◌, ◌<◌, ◌≤◌, ◌++◌, Some, None, IfSome, OnOk, length, map, nat_eq, position, slice_get};
ghost use Rattle.std.specs.List.{list_all};
ghost use Rattle.std.specs.Option.{option_map};
ghost use Rattle.cse_syntax_tree.specs.Tree.{written};
ghost use Rattle.cse_logic_tree.specs.Typed.{dimension};
ghost use Rattle.cse_logic_names.specs.Scope as scopes;
ghost use Rattle.cse_logic_names.specs.WellTyped as well;
ghost use Rattle.cse_logic_faults.specs.FaultsOfExpressions as spec;
ghost use Rattle.cse_logic_faults.specs.Decks as decks;
ghost use Rattle.cse_logic_faults.specs.Clauses.{looked_for_faults};

use crate::found::Found;
use crate::name::{is_found, is_present, number_item};
use cse_dict::Dictionary;
use cse_fault_numbers::{OPAQUE_ITEM, OTHER_KIND, PARTIAL_SET, UNKNOWN_NAME, UNUSABLE_HERE};
use cse_logic_names::meaning::Meaning;
use cse_logic_names::scope::{Scope, has_case, kind_and_owner};
use cse_logic_tree::Dimension;
use cse_syntax_tree::{Lexeme, Query};
use cse_value::shape::{ItemKind, SetShape};
use std::alloc::AllocError;

// ---- sets

/// The item of a set.
fn item_kind(dictionary: &Dictionary, set: u16) -> Option<ItemKind>
    ensures { result ≡ spec.set_item_kind dictionary.now (slice_get dictionary.now.sets set) }
{
    match dictionary.shape().sets.get(set as usize) {
        None => None,
        Some(set) => match kind_and_owner(dictionary, set.item) {
            None => None,
            Some((kind, _)) => Some(kind),
        },
    }
}

fn is_whole(dictionary: &Dictionary, set: u16) -> bool
    ensures { result ≡ spec.is_whole (slice_get dictionary.now.sets set) }
{
    match dictionary.shape().sets.get(set as usize) {
        None => false,
        Some(set) => !set.partial,
    }
}

/// A set's item of this kind.
fn of_kind(found: &mut Found, token: usize, kind: Option<ItemKind>) -> Result<(), AllocError>
    ensures { OnOk result (found.new ≡ found.old ++ spec.set_kind_faults token kind) }
{
    match kind {
        None => found.add(OTHER_KIND, token),
        Some(kind) => match kind {
            ItemKind::Opaque => found.add(OPAQUE_ITEM, token),
            ItemKind::Number => found.none(),
            ItemKind::Text => found.add(OTHER_KIND, token),
        },
    }
}

/// A whole set of a numeric item.
#[tactic(auto, using(crate::proofs::Lists::behind))]
fn number_set(
    dictionary: &Dictionary,
    found: &mut Found,
    token: usize,
    set: u16,
) -> Result<(), AllocError>
    ensures { OnOk result (found.new ≡ found.old ++ spec.number_set_faults dictionary.now token (slice_get dictionary.now.sets set)) }
{
    found.unless(is_whole(dictionary, set), PARTIAL_SET, token)?;
    of_kind(found, token, item_kind(dictionary, set))
}

/// What a name means is such a set.
pub fn set(
    dictionary: &Dictionary,
    found: &mut Found,
    token: usize,
    meaning: Option<Meaning>,
) -> Result<(), AllocError>
    ensures { OnOk result (found.new ≡ found.old ++ spec.set_faults dictionary.now token meaning) }
{
    match meaning {
        Some(Meaning::Set(set)) => number_set(dictionary, found, token, set),
        _ => found.add(UNKNOWN_NAME, token),
    }
}

fn place_among(sets: &[SetShape], item: u16) -> Option<usize>
    ensures place { result ≡ position (λ x. nat_eq x.item item) sets.now }
    ensures there { IfSome result (λ n. n < length sets.now) }
{
    sets.iter().position(|set| set.item == item)
}

/// Where the first set of an item stands.
fn place_of_set(dictionary: &Dictionary, item: u16) -> Option<usize>
    ensures place { result ≡ well.first_set dictionary.now item }
    ensures there { IfSome result (λ n. n ≤ 10000) }
{
    place_among(&dictionary.shape().sets, item)
}

/// What the set that an item is looked for in means: the one that is named, or the item's first.
fn set_meant(scope: &Scope<'_>, item: u16, set_name: Option<Lexeme<'_>>) -> Option<Meaning>
    ensures { result ≡ well.set_meant scope.now item (option_map written set_name.entry) }
{
    match set_name {
        None => match place_of_set(scope.dictionary, item) {
            None => None,
            Some(place) => Some(Meaning::Set(place as u16)),
        },
        Some(name) => scope.meant(name),
    }
}

fn set_token(name: Lexeme<'_>, set_name: Option<Lexeme<'_>>) -> usize
    ensures { result ≡ spec.set_token (written name.entry) (option_map written set_name.entry) }
{
    match set_name {
        None => name.token,
        Some(set_name) => set_name.token,
    }
}

fn named_set(
    scope: &Scope<'_>,
    found: &mut Found,
    set_name: Option<Lexeme<'_>>,
) -> Result<(), AllocError>
    ensures { OnOk result (found.new ≡ found.old ++ spec.named_set_faults scope.now (option_map written set_name.entry)) }
{
    match set_name {
        None => found.none(),
        Some(name) => set(scope.dictionary, found, name.token, scope.meant(name)),
    }
}

/// An item that is looked for in a set.
#[tactic(auto, using(crate::proofs::Lists::behind))]
pub fn member(
    scope: &Scope<'_>,
    found: &mut Found,
    name: Lexeme<'_>,
    set_name: Option<Lexeme<'_>>,
) -> Result<(), AllocError>
    ensures { OnOk result (found.new ≡ found.old ++ looked_for_faults scope.now name.entry set_name.entry) }
{
    match scope.meant(name) {
        Some(Meaning::Item(item)) => {
            number_item(scope, found, name.token, item)?;
            let meaning = set_meant(scope, item, set_name);
            set(scope.dictionary, found, set_token(name, set_name), meaning)
        }
        _ => {
            found.add(UNKNOWN_NAME, name.token)?;
            named_set(scope, found, set_name)
        }
    }
}

// ---- records

fn is_record(meaning: Option<Meaning>) -> bool
    ensures { result ≡ spec.is_record meaning }
{
    match meaning {
        Some(Meaning::Record(_)) => true,
        _ => false,
    }
}

/// A record, where there is a case.
#[tactic(auto, using(crate::proofs::Lists::behind))]
pub fn record_named(
    scope: &Scope<'_>,
    found: &mut Found,
    name: Lexeme<'_>,
) -> Result<(), AllocError>
    ensures { OnOk result (found.new ≡ found.old ++ spec.record_faults scope.now name.entry.token (scopes.meant scope.now (written name.entry))) }
{
    found.unless(is_record(scope.meant(name)), UNKNOWN_NAME, name.token)?;
    found.unless(has_case(scope.routine), UNUSABLE_HERE, name.token)
}

fn is_known(scope: &Scope<'_>, meaning: Option<Meaning>) -> bool
    ensures { result ≡ spec.is_known scope.now meaning }
{
    match meaning {
        Some(Meaning::Record(record)) => is_found(scope, record),
        _ => true,
    }
}

/// A record whose occurrence is known; the fault 49 stands at the word two tokens before.
#[tactic(auto, using(crate::proofs::Lists::behind))]
fn current(scope: &Scope<'_>, found: &mut Found, name: Lexeme<'_>) -> Result<(), AllocError>
    ensures { OnOk result (found.new ≡ found.old ++ spec.current_faults scope.now name.entry.token (scopes.meant scope.now (written name.entry))) }
{
    let meaning = scope.meant(name);
    found.unless(is_record(meaning), UNKNOWN_NAME, name.token)?;
    let word = name.token.saturating_sub(2);
    found.unless(
        has_case(scope.routine) && is_known(scope, meaning),
        UNUSABLE_HERE,
        word,
    )
}

// ---- hot decks

fn whole_set(dictionary: &Dictionary, set: u16) -> Option<u16>
    ensures { result ≡ well.whole_set (slice_get dictionary.now.sets set) }
{
    match dictionary.shape().sets.get(set as usize) {
        None => None,
        Some(set) => { if set.partial { None } else { Some(set.item) } }
    }
}

fn is_numeric_present(scope: &Scope<'_>, item: u16) -> bool
    ensures { result ≡ spec.is_numeric_present scope.now (scopes.kind_and_owner scope.now.dictionary item) }
{
    match kind_and_owner(scope.dictionary, item) {
        None => false,
        Some((kind, owner)) => match kind {
            ItemKind::Opaque => false,
            ItemKind::Number => is_present(scope, owner),
            ItemKind::Text => false,
        },
    }
}

fn is_picked(scope: &Scope<'_>, item: Option<u16>) -> bool
    ensures { result ≡ spec.is_picked scope.now item }
{
    match item {
        None => false,
        Some(item) => is_numeric_present(scope, item),
    }
}

fn is_set(direction: &Dimension<'_>) -> bool
    ensures { result ≡ decks.is_set (dimension direction.now) }
{
    match direction {
        Dimension::Number(_, _) => false,
        Dimension::Set(_, _, _, _) => true,
    }
}

fn is_pick(scope: &Scope<'_>, direction: &Dimension<'_>) -> bool
    ensures { result ≡ decks.is_pick scope.now (dimension direction.now) }
{
    match direction {
        Dimension::Number(_, _) => true,
        Dimension::Set(_, set, _, _) => is_picked(scope, whole_set(scope.dictionary, *set)),
    }
}

fn are_sets(directions: &[Dimension<'_>]) -> bool
    ensures { result ≡ list_all (λ x. decks.is_set (dimension x)) directions.now }
{
    directions.iter().all(|x| is_set(x))
}

/// Whether each dimension is a set.
#[tactic(auto, using(crate::proofs::DeckLaws::deck_made))]
fn is_deck(directions: &[Dimension<'_>]) -> bool
    ensures { result ≡ spec.is_deck (map dimension directions.now) }
{
    are_sets(directions)
}

fn are_picks(scope: &Scope<'_>, directions: &[Dimension<'_>]) -> bool
    ensures { result ≡ list_all (λ x. decks.is_pick scope.now (dimension x)) directions.now }
{
    directions.iter().all(|x| is_pick(scope, x))
}

/// Whether the item of each set has an occurrence.
fn are_picked(scope: &Scope<'_>, directions: &[Dimension<'_>]) -> bool
    ensures { result ≡ spec.are_picked scope.now (map dimension directions.now) }
{
    are_picks(scope, directions)
}

/// What picks a cell of an array of these dimensions.
#[tactic(auto, using(crate::proofs::Lists::behind))]
fn picks(
    scope: &Scope<'_>,
    found: &mut Found,
    token: usize,
    directions: &[Dimension<'_>],
) -> Result<(), AllocError>
    ensures { OnOk result (found.new ≡ found.old ++ spec.picks_faults scope.now token (Some (Some (map dimension directions.now)))) }
{
    found.unless(is_deck(directions), UNKNOWN_NAME, token)?;
    let is_sound = has_case(scope.routine) && are_picked(scope, directions);
    found.unless(is_sound, UNUSABLE_HERE, token.saturating_sub(2))
}

/// What stands there is no array.
#[tactic(auto, using(crate::proofs::Lists::behind))]
fn no_deck(scope: &Scope<'_>, found: &mut Found, token: usize) -> Result<(), AllocError>
    ensures { OnOk result (found.new ≡ found.old ++ spec.picks_faults scope.now token None) }
{
    found.add(UNKNOWN_NAME, token)?;
    found.unless(
        has_case(scope.routine),
        UNUSABLE_HERE,
        token.saturating_sub(2),
    )
}

/// A hot deck; the word of its function or statement stands two tokens before.
pub fn deck(scope: &Scope<'_>, found: &mut Found, name: Lexeme<'_>) -> Result<(), AllocError>
    ensures { OnOk result (found.new ≡ found.old ++ spec.deck_faults scope.now name.entry.token (scopes.meant scope.now (written name.entry))) }
{
    match scope.meant(name) {
        Some(Meaning::Array(array)) => array_deck(scope, found, name.token, array),
        _ => no_deck(scope, found, name.token),
    }
}

fn array_deck(
    scope: &Scope<'_>,
    found: &mut Found,
    token: usize,
    array: usize,
) -> Result<(), AllocError>
    ensures { OnOk result (found.new ≡ found.old ++ spec.picks_faults scope.now token (slice_get scope.now.arrays array)) }
{
    match scope.arrays.get(array) {
        None => no_deck(scope, found, token),
        Some(directions) => match directions {
            None => found.unless(
                has_case(scope.routine),
                UNUSABLE_HERE,
                token.saturating_sub(2),
            ),
            Some(directions) => picks(scope, found, token, directions),
        },
    }
}

/// A function of one name.
pub fn queried(
    scope: &Scope<'_>,
    found: &mut Found,
    query: Query,
    name: Lexeme<'_>,
) -> Result<(), AllocError>
    ensures { OnOk result (found.new ≡ found.old ++ spec.query_faults scope.now query name.entry.token (scopes.meant scope.now (written name.entry))) }
{
    match query {
        Query::GetDeck => deck(scope, found, name),
        Query::TotOcc => record_named(scope, found, name),
        Query::MaxOcc => record_named(scope, found, name),
        Query::CurOcc => current(scope, found, name),
    }
}

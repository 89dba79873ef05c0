//! Value sets, records and hot decks in expressions.

ghost use Rattle.std.specs.Prelude.{◌≡◌, ◌<◌, ◌≤◌, length, IfOk, IfSome, nat_eq, position, slice_get, Some, None};
ghost use Rattle.std.specs.Option.{option_map};
ghost use Rattle.cse_syntax_tree.specs.Tree.{written};
ghost use Rattle.cse_logic_tree.specs.Typed as typed;
ghost use Rattle.cse_logic_names.specs.Scope.{meant};
ghost use Rattle.cse_logic_names.specs.WellTyped as well;
ghost use Rattle.cse_logic_expressions.specs.Judge as spec;
ghost use Rattle.cse_logic_expressions.specs.Judge.{judged};
ghost use Rattle.cse_logic_names.specs.Walk.{joined};

use crate::item::number_present;
use crate::judged::Judged;
use crate::made::number_judged;
use cse_dict::Dictionary;
use cse_logic_names::meaning::Meaning;
use cse_logic_names::scope::{Scope, has_case, kind_and_owner};
use cse_logic_tree::{NumberKind, Present};
use cse_syntax_tree::Lexeme;
use cse_value::shape::{ItemKind, SetShape};
use std::alloc::{AllocError, Global};

/// The item of a whole set.
pub fn whole_set(dictionary: &Dictionary, set: u16) -> Option<u16>
    ensures { result ≡ well.whole_set (slice_get dictionary.now.sets set) }
{
    match dictionary.shape().sets.get(set as usize) {
        None => None,
        Some(set) => { if set.partial { None } else { Some(set.item) } }
    }
}

fn kind_of(dictionary: &Dictionary, item: Option<u16>) -> Option<ItemKind>
    ensures { result ≡ well.kind_of dictionary.now item }
{
    match item {
        None => None,
        Some(item) => match kind_and_owner(dictionary, item) {
            None => None,
            Some((kind, _)) => Some(kind),
        },
    }
}

/// The kind of the item of a whole set.
#[tactic(auto, unfolding(cse_logic_names::specs::WellTyped::set_kind))]
fn set_kind(dictionary: &Dictionary, set: u16) -> Option<ItemKind>
    ensures { result ≡ well.set_kind dictionary.now set }
{
    kind_of(dictionary, whole_set(dictionary, set))
}

/// Whether this is a whole set of a numeric item.
pub fn is_number_set(scope: &Scope<'_>, set: u16) -> bool
    ensures { result ≡ spec.is_number_kind (well.set_kind scope.now.dictionary set) }
{
    matches!(set_kind(scope.dictionary, set), Some(ItemKind::Number))
}

fn place_among(sets: &[SetShape], item: u16) -> Option<usize>
    ensures place { result ≡ position (λ x. nat_eq x.item item) sets.now }
    ensures there { IfSome result (λ n. n < length sets.now) }
{
    sets.iter().position(|set| set.item == item)
}

/// Where the first set of an item stands.
fn place_of_set(dictionary: &Dictionary, item: u16) -> Option<usize>
    ensures place { result ≡ well.first_set dictionary.now item }
    ensures there { IfSome result (λ n. n ≤ 10000) }
{
    place_among(&dictionary.shape().sets, item)
}

/// The first set of an item.
fn first_set(dictionary: &Dictionary, item: u16) -> Option<u16>
    ensures { result ≡ well.first_set dictionary.now item }
{
    match place_of_set(dictionary, item) {
        None => None,
        Some(place) => Some(place as u16),
    }
}

/// What the set that an item is looked for in means: the one that is named, or the item's first.
fn set_meant(scope: &Scope<'_>, item: u16, set_name: Option<Lexeme<'_>>) -> Option<Meaning>
    ensures { result ≡ well.set_meant scope.now item (option_map written set_name.entry) }
{
    match set_name {
        None => match first_set(scope.dictionary, item) {
            None => None,
            Some(set) => Some(Meaning::Set(set)),
        },
        Some(name) => scope.meant(name),
    }
}

/// The number of the whole set of a numeric item that is meant.
pub fn number_set(scope: &Scope<'_>, meaning: Option<Meaning>) -> Option<u16>
    ensures { result ≡ spec.number_set scope.now meaning }
{
    match meaning {
        Some(Meaning::Set(set)) if is_number_set(scope, set) => Some(set),
        _ => None,
    }
}

fn in_set<'a>(
    alloc: Global,
    name: Lexeme<'a>,
    set_name: Option<Lexeme<'a>>,
    item: Option<Present>,
    set: Option<u16>,
) -> Result<Judged<'a>, AllocError>
    ensures { IfOk result (λ r. judged r ≡ spec.AsNumber (joined (spec.in_set (written name.entry) (option_map written set_name.entry)) item set)) }
{
    match item {
        None => Ok(Judged::Number(None)),
        Some(item) => match set {
            None => Ok(Judged::Number(None)),
            Some(set) => number_judged(alloc, NumberKind::InSet(name, item, set_name, set)),
        },
    }
}

/// Whether an item's value is in a set.
pub fn member<'a>(
    alloc: Global,
    scope: &Scope<'_>,
    name: Lexeme<'a>,
    set_name: Option<Lexeme<'a>>,
) -> Result<Judged<'a>, AllocError>
    ensures { IfOk result (λ r. judged r
        ≡ spec.AsNumber (spec.member scope.now (written name.entry) (option_map written set_name.entry) (meant scope.now (written name.entry)))) }
{
    match scope.meant(name) {
        Some(Meaning::Item(item)) => {
            let present = number_present(scope, item);
            let set = number_set(scope, set_meant(scope, item, set_name));
            in_set(alloc, name, set_name, present, set)
        }
        _ => Ok(Judged::Number(None)),
    }
}

/// The record that a name means, where there is a case.
pub fn record_of(scope: &Scope<'_>, name: Lexeme<'_>) -> Option<u8>
    ensures { result ≡ spec.record_of scope.now (meant scope.now (written name.entry)) }
{
    match scope.meant(name) {
        Some(Meaning::Record(found)) if has_case(scope.routine) => Some(found),
        _ => None,
    }
}

/// `curocc` of a record, where an occurrence is meant.
pub fn current<'a>(
    alloc: Global,
    scope: &Scope<'_>,
    name: Lexeme<'a>,
    over: Option<u8>,
) -> Result<Judged<'a>, AllocError>
    ensures { IfOk result (λ r. judged r ≡ spec.AsNumber (spec.current scope.now (written name.entry) over)) }
{
    match over {
        None => Ok(Judged::Number(None)),
        Some(over) => match scope.found(u16::from(over)) {
            None => Ok(Judged::Number(None)),
            Some(found) => number_judged(alloc, NumberKind::CurOcc(name, over, found)),
        },
    }
}

/// `totocc` of a record.
pub fn tot_occ<'a>(
    alloc: Global,
    name: Lexeme<'a>,
    over: Option<u8>,
) -> Result<Judged<'a>, AllocError>
    ensures { IfOk result (λ r. judged r ≡ spec.AsNumber (option_map (typed.TotOcc (written name.entry)) over)) }
{
    match over {
        None => Ok(Judged::Number(None)),
        Some(over) => number_judged(alloc, NumberKind::TotOcc(name, over)),
    }
}

/// `maxocc` of a record.
pub fn max_occ<'a>(
    alloc: Global,
    name: Lexeme<'a>,
    over: Option<u8>,
) -> Result<Judged<'a>, AllocError>
    ensures { IfOk result (λ r. judged r ≡ spec.AsNumber (option_map (typed.MaxOcc (written name.entry)) over)) }
{
    match over {
        None => Ok(Judged::Number(None)),
        Some(over) => number_judged(alloc, NumberKind::MaxOcc(name, over)),
    }
}

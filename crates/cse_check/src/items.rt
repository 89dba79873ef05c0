//! Statements about items and their dictionary.

use crate::cursor::characters;
use crate::sets::is_among;
use crate::spot::Spot;
use crate::token::{Role, Sort, Token};
use cse_dict::Dictionary;
use cse_value::Num;
use cse_value::shape::ItemKind;

/// What is put into an item: the place of its first token, behind that of the statement.
#[derive(Clone, Copy)]
struct Put {
    item: u16,
    value: usize,
    /// What stands behind a value of one token.
    end: Role,
}

/// The item of a name.
pub fn item_of(dictionary: &Dictionary, name: &[u8]) -> Option<u16> {
    match str::from_utf8(name) {
        Ok(name) => dictionary.find_item(name),
        Err(_) => None,
    }
}

/// Whether a statement may begin here.
fn begins_statement(spot: &Spot<'_>) -> bool {
    match spot.role_before(1) {
        Role::Semicolon | Role::Then | Role::Else | Role::Do => true,
        Role::Event | Role::Close => true,
        _ => spot.role_before(2) == Role::Proc,
    }
}

/// What is put into an item here, by `X = ..` or `impute(X, ..)`.
fn put_of(dictionary: &Dictionary, spot: &Spot<'_>) -> Option<Put> {
    let is_impute = spot.is(0, b"impute") && spot.is(3, b",");
    if !is_impute && !(spot.is(1, b"=") && begins_statement(spot)) {
        return None;
    }
    let (name, value, end) = if is_impute {
        (2, 4, Role::Close)
    } else {
        (0, 2, Role::Semicolon)
    };
    match item_of(dictionary, spot.word(name)) {
        Some(item) => Some(Put { item, value, end }),
        None => None,
    }
}

/// Whether the value of so many tokens is all that is put there.
fn ends_with(spot: &Spot<'_>, put: &Put, count: usize) -> bool {
    spot.role(put.value.saturating_add(count)) == put.end
}

/// How many columns a number takes.
fn width_of(number: i64) -> u64 {
    let mut width = if number < 0 { 2u64 } else { 1 };
    let mut rest = number.unsigned_abs();
    for _ in 0..20 {
        if rest >= 10 {
            rest /= 10;
            width = width.saturating_add(1);
        }
    }
    width
}

/// How many columns the literal takes that is put there; 0 where there is none.
fn literal_width(spot: &Spot<'_>, put: &Put, kind: ItemKind) -> u64 {
    match (kind, spot.number(put.value), spot.ahead(put.value)) {
        (ItemKind::Number, Some((number, count)), _) if ends_with(spot, put, count) => {
            width_of(number)
        }
        (ItemKind::Text, _, Some(token)) if token.sort == Sort::Text && ends_with(spot, put, 1) => {
            characters(token.of(spot.text)).saturating_sub(2)
        }
        _ => 0,
    }
}

/// Whether a literal doesn't fit its item.
fn is_too_wide(dictionary: &Dictionary, spot: &Spot<'_>, put: &Put) -> bool {
    match dictionary.shape().items.get(usize::from(put.item)) {
        Some(item) => literal_width(spot, put, item.kind) > u64::from(item.len),
        None => false,
    }
}

/// Whether `missing` is written to an item that has no code for it.
fn lacks_code(dictionary: &Dictionary, spot: &Spot<'_>, put: &Put) -> bool {
    spot.is(put.value, b"missing")
        && ends_with(spot, put, 1)
        && usize::from(put.item) < dictionary.shape().items.len()
        && dictionary.code(put.item).is_none()
}

/// Whether the first set of an item has no 0.
fn has_no_zero(dictionary: &Dictionary, item: u16) -> bool {
    let sets = dictionary.shape().sets.as_slice();
    for set in 0..sets.len() {
        if sets[set].item == item {
            return dictionary.row_of(set as u16, Num::Whole(0)).is_none();
        }
    }
    false
}

/// Whether a cell is imputed that may be 0, where the item has no 0. These arrays have no starting list.
fn may_impute_zero(dictionary: &Dictionary, spot: &Spot<'_>, put: &Put, empty: &[&[u8]]) -> bool {
    spot.is(put.value, b"getdeck")
        && is_among(empty, spot.word(put.value.saturating_add(2)))
        && has_no_zero(dictionary, put.item)
}

/// The number of the warning about what is put into an item here, if there is one.
pub fn of_item(dictionary: &Dictionary, spot: &Spot<'_>, empty: &[&[u8]]) -> Option<u8> {
    let Some(put) = put_of(dictionary, spot) else {
        return None;
    };
    if spot.is(put.value, spot.word(0)) && ends_with(spot, &put, 1) {
        Some(101)
    } else if is_too_wide(dictionary, spot, &put) {
        Some(102)
    } else if may_impute_zero(dictionary, spot, &put, empty) {
        Some(106)
    } else if lacks_code(dictionary, spot, &put) {
        Some(107)
    } else {
        None
    }
}

/// The record of an item, if it may have several occurrences.
fn record_of(dictionary: &Dictionary, name: &[u8]) -> Option<u8> {
    let Some(item) = item_of(dictionary, name) else {
        return None;
    };
    let shape = dictionary.shape();
    let Some(item) = shape.items.get(usize::from(item)) else {
        return None;
    };
    match shape.records.get(usize::from(item.owner)) {
        Some(record) if record.max_records > 1 => Some(item.owner),
        _ => None,
    }
}

/// Whether a word means the occurrence of the event.
fn means_own(text: &[u8], token: &Token) -> bool {
    token.is(text, b"curocc") || token.is(text, b"getdeck") || token.is(text, b"putdeck")
}

/// Whether the procedure of an item names other occurrences of its record alone.
pub fn names_others(dictionary: &Dictionary, text: &[u8], own: &[Token]) -> bool {
    let [_, name, body @ ..] = own else {
        return false;
    };
    let Some(record) = record_of(dictionary, name.of(text)) else {
        return false;
    };
    let mut is_in_loop = false;
    let mut has_others = false;
    for place in 1..body.len() {
        let (token, next) = (&body[place - 1], &body[place]);
        match token.role {
            Role::For => is_in_loop = true,
            Role::EndDo => is_in_loop = false,
            Role::Other if record_of(dictionary, token.of(text)) == Some(record) => {
                if !is_in_loop && next.role != Role::Open {
                    return false;
                }
                has_others = true;
            }
            _ if means_own(text, token) => return false,
            _ => {}
        }
    }
    has_others
}

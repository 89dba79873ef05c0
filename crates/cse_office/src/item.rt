//! An item in two lines, side by side.

ghost use Rattle.std.specs.Prelude.{◌≡◌, ◌<◌, ◌+◌, ◌^◌, ◌==◌, ◌&&◌, true, length, get_or, nat_lt};
ghost use Rattle.cse_case.specs.Bytes.{columns_lent};
ghost use Rattle.cse_case.specs.Seen.{is_of};
ghost use Rattle.cse_value.specs.Occurrences.{most_occurrences};
ghost use Rattle.cse_office.specs.Changes.{DifferWithin, differ, is_changed, is_changed_own};

use crate::part::{Part, is_outside};
use cse_case::Columns;
use cse_value::shape::{ItemShape, RecordShape};

/// A column, by its place from 0: a blank past the last.
#[inline(always)]
pub fn column_at(columns: Columns<'_>, place: usize) -> char
    ensures { result ≡ get_or (columns_lent columns.entry) place 32 }
{
    if place < columns.len() {
        columns.at(place)
    } else {
        ' '
    }
}

/// Whether both have a byte at a place, and it is the same one, and ASCII.
#[inline(always)]
pub(crate) fn is_same_byte(before: &[u8], after: &[u8], place: usize) -> bool
    ensures within { result ≡ true → place < length before.now }
    ensures within_after { result ≡ true → place < length after.now }
    ensures ascii { result ≡ true → get_or before.now place 0 < 128 }
    ensures same { result ≡ true → get_or before.now place 0 ≡ get_or after.now place 0 }
{
    if before.len() <= place {
        return false;
    }
    if after.len() <= place {
        return false;
    }
    if before[place] >= 128 {
        return false;
    }
    before[place] == after[place]
}

/// Whether a column is the same one. Bytes that are the same, and ASCII, are the columns there; all else is looked at.
#[inline(always)]
fn is_same_column(before: Columns<'_>, after: Columns<'_>, place: usize) -> bool
    ensures { result ≡ (get_or (columns_lent before.entry) place 32 == get_or (columns_lent after.entry) place 32) }
{
    if is_same_byte(before.bytes, after.bytes, place) {
        return true;
    }
    column_at(before, place) == column_at(after, place)
}

/// Whether one of so many columns from a place on is another one.
fn differ(before: Columns<'_>, after: Columns<'_>, first: usize, len: usize) -> bool
    requires { first + len < 2 ^ 63 }
    ensures { result ≡ differ first len (columns_lent before.entry) (columns_lent after.entry) }
{
    'columns: for i in 0..len {
        if !is_same_column(before, after, first + i) {
            return true;
        }
    }
    false
}

/// Whether an item is changed.
pub fn is_changed(item: &ItemShape, before: Columns<'_>, after: Columns<'_>) -> bool
    ensures { result ≡ is_changed item.now (columns_lent before.entry) (columns_lent after.entry) }
{
    let first = (item.start as usize).saturating_sub(1);
    differ(before, after, first, item.len as usize)
}

/// Whether an item is one of the owner's that is changed.
pub fn is_changed_own(
    item: &ItemShape,
    owner: usize,
    before: Columns<'_>,
    after: Columns<'_>,
) -> bool
    ensures { result ≡ is_changed_own owner item.now (columns_lent before.entry) (columns_lent after.entry) }
{
    item.owner as usize == owner && is_changed(item, before, after)
}

/// The same, where lines are known to differ in a part alone.
#[inline(always)]
pub fn is_changed_own_in(
    item: &ItemShape,
    owner: usize,
    part: Part,
    before: Columns<'_>,
    after: Columns<'_>,
) -> bool
    requires { DifferWithin part.first part.end (columns_lent before) (columns_lent after) }
    ensures { result ≡ is_changed_own owner item.now (columns_lent before.entry) (columns_lent after.entry) }
{
    if is_outside(item, part) {
        return false;
    }
    is_changed_own(item, owner, before, after)
}

/// Whether a line is one of the record's, and the next of so many at most.
#[inline(always)]
pub fn is_next(number: Option<u16>, owner: usize, seen: u16, most: u16) -> bool
    ensures { result ≡ (is_of owner number && nat_lt seen most) }
{
    match number {
        Some(number) => number as usize == owner && seen < most,
        None => false,
    }
}

/// The most occurrences of a record; 0 where there is no such record.
pub fn most_of(records: &[RecordShape], owner: usize) -> u16
    ensures { result ≡ most_occurrences records.now owner }
{
    match records.get(owner) {
        Some(record) => record.max_records,
        None => 0,
    }
}

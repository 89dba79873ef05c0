//! How often each item is changed, and with that the counts of all items. How often an item occurs hangs on its owner alone: so the
//! lines of each record are counted, and items are looked at only where two lines differ.

ghost use Rattle.std.specs.Prelude.{◌≡◌, ◌<◌, ◌≤◌, ◌+◌, ◌^◌, ℕ, None, true, cond, count_by, length, slice_index_or, take};
ghost use Rattle.cse_case.specs.Bytes.{columns_lent};
ghost use Rattle.cse_case.specs.Field.{item_at};
ghost use Rattle.cse_case.specs.Seen.{places_from as own_places};
ghost use Rattle.cse_office.specs.Changes.{AreChanges, AreLikes, first_apart, is_changed_own, is_changed_own_at, no_count, times_of, types_of, with_changes};

use crate::alike::is_known_like;
use crate::count::Count;
use crate::item::{is_changed_own_in, is_next, most_of};
use crate::lines::RunLines;
use crate::part::differing;
use cse_case::Columns;
use cse_value::shape::{ID_OWNER, ItemShape, RecordShape};

/// Counts one change more at a place, if there is one.
#[inline(always)]
fn add_change(counts: &mut [Count], n: usize, is_changed: bool)
    requires there { n < length counts.old }
    requires few { is_changed ≡ true → (slice_index_or counts.old n no_count).changed + 1 < 2 ^ 64 }
    ensures len { length counts.new ≡ length counts.old }
    ensures here { slice_index_or counts.new n no_count ≡ with_changes (slice_index_or counts.old n no_count) (cond is_changed 1 0) }
    ensures others { (k : ℕ) → (k ≡ n → ⊥) → slice_index_or counts.new k no_count ≡ slice_index_or counts.old k no_count }
{
    if !is_changed {
        return;
    }
    counts[n] = Count {
        occurrences: counts[n].occurrences,
        changed: counts[n].changed + 1,
    };
}

/// Counts the changes of an owner's items in two lines.
fn add_line(
    items: &[ItemShape],
    owner: usize,
    before: Columns<'_>,
    after: Columns<'_>,
    counts: &mut [Count],
)
    requires counts { length counts.old ≡ length items.now }
    requires few { (n : ℕ) → n < length items.now → (item_at items.now n).owner ≡ owner
        → (slice_index_or counts.old n no_count).changed + 1 < 2 ^ 64 }
    ensures len { length counts.new ≡ length counts.old }
    ensures each { (n : ℕ) → n < length items.now → slice_index_or counts.new n no_count ≡ with_changes (slice_index_or counts.old n no_count)
        (cond (is_changed_own owner (item_at items.now n) (columns_lent before.entry) (columns_lent after.entry)) 1 0) }
{
    let part = differing(before, after);
    'items: for n in 0..items.len() {
        let is_changed = is_changed_own_in(&items[n], owner, part, before, after);
        add_change(counts, n, is_changed);
    }
}

/// Counts them in the lines at a place. Lines that are known to be alike have none.
fn add_place(
    items: &[ItemShape],
    owner: usize,
    likes: &[bool],
    before: &RunLines,
    after: &RunLines,
    place: usize,
    counts: &mut [Count],
)
    requires likes { AreLikes likes.now before.now after.now }
    requires before { place < length before.now }
    requires after { place < length after.now }
    requires counts { length counts.old ≡ length items.now }
    requires few { (n : ℕ) → n < length items.now → (item_at items.now n).owner ≡ owner
        → (slice_index_or counts.old n no_count).changed + 1 < 2 ^ 64 }
    ensures len { length counts.new ≡ length counts.old }
    ensures each { (n : ℕ) → n < length items.now → slice_index_or counts.new n no_count ≡ with_changes (slice_index_or counts.old n no_count)
        (cond (is_changed_own_at owner (item_at items.now n) before.now after.now place) 1 0) }
{
    if is_known_like(likes, before, after, place) {
        return;
    }
    add_line(
        items,
        owner,
        before.columns(place),
        after.columns(place),
        counts,
    );
}

/// Counts them in the lines of a record, of which so many are seen at most.
fn add_record(
    items: &[ItemShape],
    owner: usize,
    most: u16,
    likes: &[bool],
    before: &RunLines,
    after: &RunLines,
    counts: &mut [Count],
)
    requires likes { AreLikes likes.now before.now after.now }
    requires as_many { length before.now ≡ length after.now }
    requires counts { length counts.old ≡ length items.now }
    requires few { (n : ℕ) → n < length items.now → (item_at items.now n).owner ≡ owner
        → (slice_index_or counts.old n no_count).changed + length before.now < 2 ^ 64 }
    ensures len { length counts.new ≡ length counts.old }
    ensures occurrences { (n : ℕ) → n < length items.now
        → (slice_index_or counts.new n no_count).occurrences ≡ (slice_index_or counts.old n no_count).occurrences }
    ensures changed { (n : ℕ) → n < length items.now → (slice_index_or counts.new n no_count).changed ≡ (slice_index_or counts.old n no_count).changed
        + count_by (is_changed_own_at owner (item_at items.now n) before.now after.now) (take most (own_places 0 owner (types_of before.now))) }
    ensures few { (n : ℕ) → n < length items.now
        → (slice_index_or counts.new n no_count).changed ≤ (slice_index_or counts.old n no_count).changed + length before.now }
{
    let mut seen = 0u16;
    'lines: for place in 0..before.len() {
        if is_next(before.record(place), owner, seen, most) {
            add_place(items, owner, likes, before, after, place, counts);
            seen += 1;
        }
    }
}

/// Counts how often each item is changed in two runs whose lines all pair up. So no id item is.
pub fn add_changes(
    records: &[RecordShape],
    items: &[ItemShape],
    likes: &[bool],
    before: &RunLines,
    after: &RunLines,
    counts: &mut [Count],
)
    requires likes { AreLikes likes.now before.now after.now }
    requires pairs { first_apart items.now 0 before.now after.now ≡ None }
    requires as_many { length before.now ≡ length after.now }
    requires counts { length counts.old ≡ length items.now }
    requires few { (n : ℕ) → n < length items.now → (slice_index_or counts.old n no_count).changed + length before.now < 2 ^ 64 }
    ensures len { length counts.new ≡ length counts.old }
    ensures each { AreChanges records.now items.now before.now after.now counts.old counts.new }
    ensures few { (n : ℕ) → n < length items.now
        → (slice_index_or counts.new n no_count).changed ≤ (slice_index_or counts.old n no_count).changed + length before.now }
{
    'records: for owner in 0..records.len() {
        let most = most_of(records, owner);
        add_record(items, owner, most, likes, before, after, counts);
    }
}

/// How often the items of an owner occur, where so many lines of each record are seen, of so many in all.
fn times_of(seen: &[u64], lines: u64, owner: u8) -> u64
    ensures { result ≡ times_of seen.now lines owner }
{
    if owner == ID_OWNER {
        return lines;
    }
    let place = owner as usize;
    if place < seen.len() { seen[place] } else { 0 }
}

/// Writes how often each item occurs, where so many lines of each record are seen, of so many in all.
pub fn put_occurrences(items: &[ItemShape], seen: &[u64], lines: u64, counts: &mut [Count])
    requires counts { length counts.old ≡ length items.now }
    ensures len { length counts.new ≡ length counts.old }
    ensures each { (n : ℕ) → n < length items.now → slice_index_or counts.new n no_count ≡ record {
      occurrences = times_of seen.now lines (item_at items.now n).owner;
      changed = (slice_index_or counts.old n no_count).changed;
    } }
{
    'items: for n in 0..items.len() {
        counts[n] = Count {
            occurrences: times_of(seen, lines, items[n].owner),
            changed: counts[n].changed,
        };
    }
}

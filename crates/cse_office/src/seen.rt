//! How many lines of each record are seen.

ghost use Rattle.std.specs.Prelude.{◌≡◌, ◌≤◌, ◌<◌, ◌+◌, ◌^◌, ℕ, length, slice_index_or, take};
ghost use Rattle.cse_case.specs.Seen.{places_from as own_places};
ghost use Rattle.cse_office.specs.Changes.{AreSeen, seen_of, types_of};

use crate::item::{is_next, most_of};
use crate::lines::RunLines;
use cse_value::shape::RecordShape;

/// How many lines of a record are seen, of so many at most.
fn seen_lines(owner: usize, most: u16, lines: &RunLines) -> u64
    ensures is { result ≡ length (take most (own_places 0 owner (types_of lines.now))) }
    ensures few { result ≤ length lines.now }
{
    let mut seen = 0u16;
    'lines: for place in 0..lines.len() {
        if is_next(lines.record(place), owner, seen, most) {
            seen += 1;
        }
    }
    u64::from(seen)
}

/// How many lines of a record are seen.
fn seen_of(records: &[RecordShape], number: usize, lines: &RunLines) -> u64
    ensures is { result ≡ seen_of records.now number lines.now }
    ensures few { result ≤ length lines.now }
{
    seen_lines(number, most_of(records, number), lines)
}

/// Counts how many lines of each record are seen in a run, and adds it to what was counted.
pub fn add_seen(records: &[RecordShape], lines: &RunLines, seen: &mut [u64])
    requires len { length seen.old ≡ length records.now }
    requires few { (n : ℕ) → slice_index_or seen.old n 0 + length lines.now < 2 ^ 64 }
    ensures len { length seen.new ≡ length seen.old }
    ensures each { AreSeen records.now lines.now seen.old seen.new }
    ensures few { (n : ℕ) → slice_index_or seen.new n 0 ≤ slice_index_or seen.old n 0 + length lines.now }
{
    'records: for number in 0..records.len() {
        seen[number] += seen_of(records, number, lines);
    }
}

//! Two files, side by side.

ghost use Rattle.std.specs.Prelude.{true, ◌≡◌, ◌<◌, ◌≤◌, ◌+◌, ◌*◌, ◌^◌, None, IfErr, IfOk, OnOk, length, replicate};
ghost use Rattle.cse_dict.specs.Dictionary.{shape_of};
ghost use Rattle.cse_office.specs.Changes.{AreAlike, AreChanges, AreFew, AreLikes, AreSeen, first_apart, no_count};
ghost use Rattle.cse_office.specs.Readers.{IsNew};
ghost use Rattle.cse_office.specs.Files.{IfApart, IfSeenApart, IsApartIn, IsCompared, Stops, StopsSeen};

use crate::alike::{MOST_KNOWN, are_alike};
use crate::count::Count;
use crate::fault::{CompareFault, SeenFault};
use crate::lines::RunLines;
use crate::pair::first_apart;
use crate::seen::add_seen;
use crate::sums::{add_changes, put_occurrences};
use crate::watch::{Blind, Watch};
use cse_case::{Run, RunReader};
use cse_dict::Dictionary;
use cse_value::Input;
use cse_value::shape::{ItemShape, RecordShape};
use std::alloc::{AllocError, Global};

/// So many counts of nothing.
fn no_counts(alloc: Global, len: usize) -> Result<Vec<Count>, AllocError>
    ensures { IfOk result (λ counts. counts.items ≡ replicate len no_count) }
{
    let none = Count {
        occurrences: 0,
        changed: 0,
    };
    let mut counts = Vec::new(alloc);
    counts.resize(len, none)?;
    Ok(counts)
}

/// So many numbers 0.
fn no_numbers(alloc: Global, len: usize) -> Result<Vec<u64>, AllocError>
    ensures { IfOk result (λ numbers. numbers.items ≡ replicate len 0) }
{
    let mut numbers = Vec::new(alloc);
    numbers.resize(len, 0)?;
    Ok(numbers)
}

/// Counts the next runs of both files, which are known to be alike or not, if all their lines pair up, and adds to what was counted
/// how many lines of each record are seen, and how often each item is changed. So many lines stand before them. Tells how many lines
/// they have.
fn add_runs(
    records: &[RecordShape],
    items: &[ItemShape],
    before: &RunLines,
    after: &RunLines,
    likes: &[bool],
    is_alike: bool,
    lines: u64,
    seen: &mut [u64],
    counts: &mut [Count],
) -> Result<u64, CompareFault>
    requires likes { AreLikes likes.now before.now after.now }
    requires alike { is_alike ≡ true → AreAlike before.now after.now }
    requires seen { length seen.old ≡ length records.now }
    requires counts { length counts.old ≡ length items.now }
    requires room { lines + length before.now ≤ 2 ^ 40 * 65536 }
    requires few { AreFew seen.old counts.old lines }
    ensures len_seen { length seen.new ≡ length seen.old }
    ensures len { length counts.new ≡ length counts.old }
    ensures lines { IfOk result (λ n. n ≡ length before.now) }
    ensures as_many { OnOk result (length before.now ≡ length after.now) }
    ensures pairs { OnOk result (first_apart items.now 0 before.now after.now ≡ None) }
    ensures seen { OnOk result (AreSeen records.now before.now seen.old seen.new) }
    ensures changes { OnOk result (AreChanges records.now items.now before.now after.now counts.old counts.new) }
    ensures few { OnOk result (AreFew seen.new counts.new (lines + length before.now)) }
    ensures apart { IfErr result (IfApart (IsApartIn items.now before.now after.now lines)) }
{
    let len = before.len() as u64;
    if is_alike {
        add_seen(records, before, seen);
        return Ok(len);
    }
    if let Some(place) = first_apart(items, likes, before, after) {
        let line = lines + place as u64 + 1;
        return Err(CompareFault::Apart { line });
    }
    add_changes(records, items, likes, before, after, counts);
    add_seen(records, before, seen);
    Ok(len)
}

/// Counts the next runs of both files, as `add_runs` does, and lets the watcher see them.
fn see_lines<W: Watch>(
    records: &[RecordShape],
    items: &[ItemShape],
    before: &RunLines,
    after: &RunLines,
    lines: u64,
    seen: &mut [u64],
    counts: &mut [Count],
    watcher: &mut W,
) -> Result<u64, SeenFault<W::Fault>>
    requires seen { length seen.old ≡ length records.now }
    requires counts { length counts.old ≡ length items.now }
    requires room { lines + length before.now ≤ 2 ^ 40 * 65536 }
    requires few { AreFew seen.old counts.old lines }
    ensures len_seen { length seen.new ≡ length seen.old }
    ensures len { length counts.new ≡ length counts.old }
    ensures lines { IfOk result (λ n. n ≡ length before.now) }
    ensures pairs { OnOk result (first_apart items.now 0 before.now after.now ≡ None) }
    ensures seen { OnOk result (AreSeen records.now before.now seen.old seen.new) }
    ensures changes { OnOk result (AreChanges records.now items.now before.now after.now counts.old counts.new) }
    ensures few { OnOk result (AreFew seen.new counts.new (lines + length before.now)) }
    ensures apart { IfErr result (IfSeenApart (IsApartIn items.now before.now after.now lines)) }
{
    let mut likes = [false; MOST_KNOWN];
    let is_alike = are_alike(before, after, &mut likes);
    match add_runs(
        records, items, before, after, &likes, is_alike, lines, seen, counts,
    ) {
        Err(fault) => Err(SeenFault::Compare(fault)),
        Ok(len) => match watcher.see_runs(before, after, &likes, is_alike) {
            Err(fault) => Err(SeenFault::Seen(fault)),
            Ok(()) => Ok(len),
        },
    }
}

/// Counts the next runs of both files, and lets the watcher see them, as `see_lines` does. Then their memory goes back to the
/// readers.
fn see_runs<W: Watch>(
    records: &[RecordShape],
    items: &[ItemShape],
    before: Run,
    after: Run,
    lines: u64,
    seen: &mut [u64],
    counts: &mut [Count],
    watcher: &mut W,
    reader: &mut RunReader<'_>,
    other: &mut RunReader<'_>,
) -> Result<u64, SeenFault<W::Fault>>
    requires some { 0 < length before.lines }
    requires some_after { 0 < length after.lines }
    requires seen { length seen.old ≡ length records.now }
    requires counts { length counts.old ≡ length items.now }
    requires room { lines + length before.lines ≤ 2 ^ 40 * 65536 }
    requires few { AreFew seen.old counts.old lines }
    ensures len_seen { length seen.new ≡ length seen.old }
    ensures len { length counts.new ≡ length counts.old }
    ensures lines { IfOk result (λ n. n ≡ length before.lines) }
    ensures pairs { OnOk result (first_apart items.now 0 before.lines after.lines ≡ None) }
    ensures seen { OnOk result (AreSeen records.now before.lines seen.old seen.new) }
    ensures changes { OnOk result (AreChanges records.now items.now before.lines after.lines counts.old counts.new) }
    ensures few { OnOk result (AreFew seen.new counts.new (lines + length before.lines)) }
    ensures apart { IfErr result (IfSeenApart (IsApartIn items.now before.lines after.lines lines)) }
    ensures reader { reader.new ≡ reader.old }
    ensures other { other.new ≡ other.old }
{
    let Some(before) = RunLines::of(before) else {
        unreachable!();
    };
    let Some(after) = RunLines::of(after) else {
        unreachable!();
    };
    let outcome = see_lines(
        records, items, &before, &after, lines, seen, counts, watcher,
    );
    reader.take_back(before.into_room());
    other.take_back(after.into_room());
    outcome
}

/// Counts the runs of both files, by new readers and from counts of nothing, as `compare_seen` tells it.
fn count_runs<R: Input, S: Input, W: Watch>(
    records: &[RecordShape],
    items: &[ItemShape],
    read: &mut R,
    written: &mut S,
    watcher: &mut W,
    reader: &mut RunReader<'_>,
    other: &mut RunReader<'_>,
    seen: &mut [u64],
    counts: &mut [Count],
) -> Result<(), SeenFault<W::Fault>>
    requires reader { IsNew reader.old }
    requires other { IsNew other.old }
    requires same { other.old.dictionary ≡ reader.old.dictionary }
    requires records { records.now ≡ (shape_of reader.old.dictionary).records }
    requires items { items.now ≡ (shape_of reader.old.dictionary).items }
    requires seen { seen.old ≡ replicate (length records.now) 0 }
    requires counts { counts.old ≡ replicate (length items.now) no_count }
    ensures ok { OnOk result
        (IsCompared reader.old.dictionary (R.given read.old) (R.given read.new) (S.given written.old) (S.given written.new) counts.new) }
    ensures stops { IfErr result
        (StopsSeen reader.old.dictionary (R.given read.old) (R.given read.new) (S.given written.old) (S.given written.new)) }
{
    let mut lines = 0u64;
    'runs: loop {
        match reader.next(read) {
            Err(error) => return Err(SeenFault::Compare(CompareFault::Data(error))),
            Ok(None) => match other.next(written) {
                Err(error) => return Err(SeenFault::Compare(CompareFault::Out(error))),
                Ok(None) => {
                    put_occurrences(items, seen, lines, counts);
                    return Ok(());
                }
                Ok(Some(_)) => {
                    let line = lines + 1;
                    return Err(SeenFault::Compare(CompareFault::Apart { line }));
                }
            },
            Ok(Some(before)) => match other.next(written) {
                Err(error) => return Err(SeenFault::Compare(CompareFault::Out(error))),
                Ok(None) => {
                    let line = lines + 1;
                    return Err(SeenFault::Compare(CompareFault::Apart { line }));
                }
                Ok(Some(after)) => {
                    let added = see_runs(
                        records, items, before, after, lines, seen, counts, watcher, reader, other,
                    );
                    match added {
                        Ok(len) => lines += len,
                        Err(fault) => return Err(fault),
                    }
                }
            },
        }
    }
}

/// Counts each item in a file that was read and one that was written in its place, as `compare` does, and lets a watcher see
/// each two runs whose lines pair up, once they are counted. Its own fault stops the comparison.
pub fn compare_seen<R: Input, S: Input, W: Watch>(
    alloc: Global,
    dictionary: &Dictionary,
    read: &mut R,
    written: &mut S,
    watcher: &mut W,
) -> Result<Vec<Count>, SeenFault<W::Fault>>
    ensures ok { IfOk result
        (λ counts. IsCompared dictionary.now (R.given read.old) (R.given read.new) (S.given written.old) (S.given written.new) counts.items) }
    ensures stops { IfErr result (StopsSeen dictionary.now (R.given read.old) (R.given read.new) (S.given written.old) (S.given written.new)) }
{
    let shape = dictionary.shape();
    let mut counts = no_counts(alloc, shape.items.len())?;
    let mut seen = no_numbers(alloc, shape.records.len())?;
    let mut reader = RunReader::new(alloc, dictionary);
    let mut other = RunReader::new(alloc, dictionary);
    let outcome = count_runs(
        &shape.records,
        &shape.items,
        read,
        written,
        watcher,
        &mut reader,
        &mut other,
        &mut seen,
        &mut counts,
    );
    match outcome {
        Ok(()) => Ok(counts),
        Err(fault) => Err(fault),
    }
}

/// Counts each item in a file that was read and one that was written in its place, line beside line: how often it occurs,
/// and how often it is changed. Both are read once, and a run of each is held.
pub fn compare<R: Input, S: Input>(
    alloc: Global,
    dictionary: &Dictionary,
    read: &mut R,
    written: &mut S,
) -> Result<Vec<Count>, CompareFault>
    ensures ok { IfOk result
        (λ counts. IsCompared dictionary.now (R.given read.old) (R.given read.new) (S.given written.old) (S.given written.new) counts.items) }
    ensures stops { IfErr result (Stops dictionary.now (R.given read.old) (R.given read.new) (S.given written.old) (S.given written.new)) }
{
    match compare_seen(alloc, dictionary, read, written, &mut Blind) {
        Ok(counts) => Ok(counts),
        Err(SeenFault::Compare(fault)) => Err(fault),
        Err(SeenFault::Seen(never)) => match never {},
    }
}

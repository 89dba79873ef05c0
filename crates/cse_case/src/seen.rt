//! Which lines of a run are seen, and as which occurrence of their record.

ghost use Rattle.std.specs.Prelude.{◌≡◌, ◌≤◌, ◌<◌, ◌+◌, ◌++◌, ◌∷◌, [], ◌^◌, ℕ, List, Option, IfOk, IfSome, OnOk, map, replicate, take, length, slice_index, true, false};
ghost use Rattle.cse_case.specs.Seen.{is_of, places_from, unseen_after, unseen_of};
ghost use Rattle.cse_case.specs.Table.{AreCounts, AreSeen, AreSpans, IsTable, first_at, type_at, types_in};
ghost use Rattle.cse_case.specs.Found.{GoesOnWith, IsFound, IsLonger};

use crate::Line;
use cse_dict::Unseen;
use cse_value::shape::RecordShape;
use std::alloc::{AllocError, Global};

/// The occurrences of a record: where they begin in the table, and how many there are.
#[derive(Clone, Copy)]
pub struct OccurrenceSpan {
    pub start: usize,
    pub count: u16,
}

/// Counts a line among those of its record, or tells why it is unseen.
fn count_line(records: &[RecordShape], counts: &mut [u16], line: Option<u16>) -> Option<Unseen>
    requires { length counts.old ≡ length records.now }
    ensures why { (before : List (Option ℕ)) → AreCounts records.now before counts.old → result ≡ unseen_after records.now before line }
    ensures counts { (before : List (Option ℕ)) → AreCounts records.now before counts.old → AreCounts records.now (before ++ line ∷ []) counts.new }
{
    let Some(record) = line else {
        return Some(Unseen::Unknown);
    };
    let record = record as usize;
    if record < records.len() && counts[record] < records[record].max_records {
        counts[record] += 1;
        return None;
    }
    Some(Unseen::Extra)
}

/// Counts how many occurrences each record has, in place of what was counted before, and lists the unseen
/// lines, in place of others; the first of all lines has this number.
fn count_lines(
    unseen: &mut Vec<(u64, Unseen)>,
    counts: &mut Vec<u16>,
    records: &[RecordShape],
    lines: &[Line],
    number: u64,
) -> Result<(), AllocError>
    requires { number + length lines.now < 2 ^ 64 }
    ensures counts { OnOk result (AreCounts records.now (types_in lines.now) counts.new.items) }
    ensures unseen { OnOk result (unseen.new.items ≡ unseen_of records.now number (types_in lines.now)) }
{
    counts.clear();
    counts.resize(records.len(), 0)?;
    unseen.clear();
    'lines: for i in 0..lines.len() {
        match count_line(records, counts, lines[i].record_number) {
            Some(why) => unseen.push((number + i as u64, why))?,
            None => {}
        }
    }
    Ok(())
}

/// Whether the line is one of the record's.
fn is_of(number: usize, line: Option<u16>) -> bool
    ensures { result ≡ is_of number line }
{
    match line {
        Some(own) => own as usize == number,
        None => false,
    }
}

/// Adds where the first lines of a record begin.
fn place_record(
    firsts: &mut Vec<usize>,
    lines: &[Line],
    number: usize,
    count: u16,
) -> Result<(), AllocError>
    ensures { OnOk result (firsts.new.items ≡ firsts.old.items ++ map (first_at lines.now) (take count (places_from 0 number (types_in lines.now)))) }
{
    let mut left = count;
    'lines: for line in lines {
        if left == 0 {
            return Ok(());
        }
        if is_of(number, line.record_number) {
            firsts.push(line.first)?;
            left -= 1;
        }
    }
    Ok(())
}

/// Lists where the occurrences of each record begin, in place of others.
fn place_lines(
    spans: &mut Vec<OccurrenceSpan>,
    firsts: &mut Vec<usize>,
    lines: &[Line],
    counts: &[u16],
) -> Result<(), AllocError>
    requires { (r : ℕ) → r < length counts.now → slice_index counts.now r ≤ length (places_from 0 r (types_in lines.now)) }
    ensures size { OnOk result (length spans.new.items ≡ length counts.now) }
    ensures spans { OnOk result (AreSpans lines.now counts.now firsts.new.items spans.new.items) }
{
    spans.clear();
    firsts.clear();
    'records: for number in 0..counts.len() {
        let start = firsts.len();
        let count = counts[number];
        place_record(firsts, lines, number, count)?;
        spans.push(OccurrenceSpan { start, count })?;
    }
    Ok(())
}

/// What a line is found to be in the table of its run.
pub enum Found {
    /// An occurrence that follows those of its record, and so are the lines behind it up to this place.
    Occurrences(usize),
    /// No occurrence.
    Unseen(Unseen),
    /// An occurrence with lines of other records between it and those of its own.
    Apart,
}

/// Adds an occurrence, which begins at this column, to the span of its record, where that stands at the end
/// of the list. Tells whether it does.
fn add_occurrence(
    span: &mut OccurrenceSpan,
    firsts: &mut Vec<usize>,
    first: usize,
) -> Result<bool, AllocError>
    requires few { span.old.count < 65535 }
    requires fits { span.old.start + span.old.count ≤ length firsts.old.items }
    ensures { IfOk result (λ added. added ≡ true → IsLonger span.old first firsts.old.items firsts.new.items span.new) }
{
    if span.count == 0 {
        span.start = firsts.len();
    }
    if span.start + span.count as usize != firsts.len() {
        return Ok(false);
    }
    firsts.push(first)?;
    span.count += 1;
    Ok(true)
}

/// Adds the lines from a place on that are of this record, as long as there may be more of it, to its span,
/// which stands at the end of the list. Tells where they end.
fn add_following(
    span: &mut OccurrenceSpan,
    firsts: &mut Vec<usize>,
    lines: &[Line],
    place: usize,
    number: u16,
    most: u16,
) -> Result<usize, AllocError>
    requires fits { span.old.start + span.old.count ≡ length firsts.old.items }
    ensures goes { IfOk result (λ next. GoesOnWith number most lines.now place span.old firsts.old.items next span.new firsts.new.items) }
    ensures whole { IfOk result (λ next. next < length lines.now → span.new.count < most → is_of number (type_at lines.now next) ≡ false) }
{
    let mut next = place;
    'lines: while next < lines.len() && span.count < most {
        let line = &lines[next];
        if !is_of(number as usize, line.record_number) {
            return Ok(next);
        }
        firsts.push(line.first)?;
        span.count += 1;
        next += 1;
    }
    Ok(next)
}

/// Adds a line to the occurrences of its record, if it is one and follows them, with those behind it.
fn see_line(
    spans: &mut Vec<OccurrenceSpan>,
    firsts: &mut Vec<usize>,
    records: &[RecordShape],
    lines: &[Line],
    place: usize,
) -> Result<Found, AllocError>
    requires place { place < length lines.now }
    requires seen { AreSeen records.now lines.now place firsts.old.items spans.old.items }
    ensures { IfOk result (IsFound records.now lines.now place firsts.new.items spans.new.items) }
{
    let line = &lines[place];
    let Some(number) = line.record_number else {
        return Ok(Found::Unseen(Unseen::Unknown));
    };
    let record = number as usize;
    if record < records.len() {
        let most = records[record].max_records;
        let span = spans[record];
        if span.count < most {
            let own = &mut spans[record];
            if !add_occurrence(own, firsts, line.first)? {
                return Ok(Found::Apart);
            }
            let next = add_following(own, firsts, lines, place + 1, number, most)?;
            return Ok(Found::Occurrences(next));
        }
    }
    Ok(Found::Unseen(Unseen::Extra))
}

/// No occurrences of each record.
fn clear_spans(spans: &mut Vec<OccurrenceSpan>, count: usize) -> Result<(), AllocError>
    ensures { OnOk result (spans.new.items ≡ replicate count (record { start = 0; count = 0 })) }
{
    if spans.len() != count {
        spans.clear();
        return spans.resize(count, OccurrenceSpan { start: 0, count: 0 });
    }
    'spans: for i in 0..spans.len() {
        spans[i] = OccurrenceSpan { start: 0, count: 0 };
    }
    Ok(())
}

/// Fills the table of a run whose lines follow one another record by record, and tells whether they do. The
/// first line has this number.
fn see_lines(
    spans: &mut Vec<OccurrenceSpan>,
    firsts: &mut Vec<usize>,
    unseen: &mut Vec<(u64, Unseen)>,
    records: &[RecordShape],
    lines: &[Line],
    number: u64,
) -> Result<bool, AllocError>
    requires { number + length lines.now < 2 ^ 64 }
    ensures table { IfOk result (λ whole. whole ≡ true → IsTable records.now lines.now firsts.new.items spans.new.items) }
    ensures unseen { IfOk result (λ whole. whole ≡ true → unseen.new.items ≡ unseen_of records.now number (types_in lines.now)) }
{
    clear_spans(spans, records.len())?;
    firsts.clear();
    unseen.clear();
    let mut place = 0;
    'lines: while place < lines.len() {
        match see_line(spans, firsts, records, lines, place)? {
            Found::Occurrences(next) => place = next,
            Found::Unseen(why) => {
                unseen.push((number + place as u64, why))?;
                place += 1;
            }
            Found::Apart => return Ok(false),
        }
    }
    Ok(true)
}

/// The seen and unseen lines of a run: the spans of its records, where the lines of their occurrences begin
/// among its columns, and the unseen lines with their numbers in the file. The id columns of the run lie with
/// them.
#[derive(Drop)]
pub struct Table {
    pub spans: Vec<OccurrenceSpan>,
    pub firsts: Vec<usize>,
    pub unseen: Vec<(u64, Unseen)>,
    pub ids: Vec<char>,
}

impl Table {
    /// A table of nothing, which takes no memory.
    pub fn new(alloc: Global) -> Table {
        Table {
            spans: Vec::new(alloc),
            firsts: Vec::new(alloc),
            unseen: Vec::new(alloc),
            ids: Vec::new(alloc),
        }
    }
}

/// Fills a table anew with a run's lines, of which the first has this number, and leaves the ids. Most runs have
/// the lines of each record together, and are gone through once. For the others the lines are counted first, anew
/// in the memory that the counts have.
pub fn fill_table(
    table: &mut Table,
    counts: &mut Vec<u16>,
    records: &[RecordShape],
    lines: &[Line],
    number: u64,
) -> Result<(), AllocError>
    requires { number + length lines.now < 2 ^ 64 }
    ensures table { OnOk result (IsTable records.now lines.now table.new.firsts.items table.new.spans.items) }
    ensures unseen { OnOk result (table.new.unseen.items ≡ unseen_of records.now number (types_in lines.now)) }
    ensures ids { OnOk result (table.new.ids.items ≡ table.old.ids.items) }
{
    let Table {
        spans,
        firsts,
        unseen,
        ids: _,
    } = table;
    if see_lines(spans, firsts, unseen, records, lines, number)? {
        return Ok(());
    }
    count_lines(unseen, counts, records, lines, number)?;
    place_lines(spans, firsts, lines, counts)
}

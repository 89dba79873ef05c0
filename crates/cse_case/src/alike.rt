//! Lines like the one before them: as long, with the same end, and the same up to the least width of a line.

ghost use Rattle.std.specs.Prelude.{◌≡◌, ◌≤◌, ◌+◌, ◌++◌, ◌∷◌, [], drop, length, take, true, false};
ghost use Rattle.std.specs.List.{flat_map};
ghost use Rattle.cse_case.specs.Alike.{GathersOn, IsLastOf, IsLike, laid_run, line_like};
ghost use Rattle.cse_case.specs.NamedColumns.{padded};
ghost use Rattle.cse_case.specs.Laid.{IsLaid, laid_lines};
ghost use Rattle.cse_case.specs.Line.{before_end, end_bytes};
ghost use Rattle.cse_case.specs.Written.{written_line};

use crate::columns::{number_of_four, piece};
use crate::cut::split_end;
use crate::decode::MOST_COLUMNS;
use crate::filled::Filled;
use crate::line::{Ending, Line};
use crate::take::MOST_LINES;

/// Whether four bytes are these.
#[inline(always)]
fn are_four(a: &[u8], b: &[u8]) -> bool
    requires left { length a.now ≡ 4 }
    requires right { length b.now ≡ 4 }
    ensures { result ≡ true → a.now ≡ b.now }
{
    number_of_four(a) == number_of_four(b)
}

/// Whether bytes begin as these.
fn begins_as(bytes: &[u8], others: &[u8]) -> bool
    requires { length others.now ≤ length bytes.now }
    ensures { result ≡ true → take (length others.now) bytes.now ≡ others.now }
{
    let mut at = 0;
    'fours: while 4 <= others.len() - at {
        if !are_four(&bytes[at..at + 4], &others[at..at + 4]) {
            return false;
        }
        at += 4;
    }
    'bytes: for i in at..others.len() {
        if bytes[i] != others[i] {
            return false;
        }
    }
    true
}

/// Appends a line, if it is like the last one, and there is room.
fn push_like(
    columns: &mut Filled,
    lines: &mut Vec<Line>,
    last: Line,
    width: usize,
    line: &[u8],
) -> bool
    requires lies { last.first + last.width ≤ length columns.old }
    requires wide { width ≤ last.len }
    requires fits { last.len ≤ last.width }
    requires whole { length line.now ≡ last.len + length (end_bytes last.ending) }
    ensures like { result ≡ true → IsLike (take width (drop last.first columns.old)) last line.now }
    ensures columns { result ≡ true → columns.new ≡ columns.old ++ padded last.width (before_end line.now) }
    ensures lines { result ≡ true → lines.new.items ≡ lines.old.items ++ line_like last (length columns.old) ∷ [] }
    ensures same_columns { result ≡ false → columns.new ≡ columns.old }
    ensures same_lines { result ≡ false → lines.new.items ≡ lines.old.items }
{
    let (_, ending) = split_end(line);
    if ending != last.ending {
        return false;
    }
    let text = &line[..last.len];
    if !begins_as(text, piece(columns.columns().bytes(), last.first, width)) {
        return false;
    }
    let first = columns.len();
    if !columns.push_plain(text, last.width) {
        return false;
    }
    if lines.push(Line { first, ..last }).is_err() {
        columns.truncate(first);
        return false;
    }
    true
}

/// Appends the first of the bytes that are lines like the last one, which they follow. Tells how many
/// bytes.
pub fn push_lines(
    columns: &mut Filled,
    lines: &mut Vec<Line>,
    last: Line,
    width: usize,
    bytes: &[u8],
) -> usize
    requires laid { IsLaid 0 columns.old lines.old.items }
    requires last { IsLastOf lines.old.items last }
    ensures fits { result ≤ length bytes.now }
    ensures laid { IsLaid 0 columns.new lines.new.items }
    ensures written { flat_map written_line (laid_lines columns.new lines.new.items)
        ≡ flat_map written_line (laid_lines columns.old lines.old.items) ++ take result bytes.now }
    ensures more { GathersOn width columns.old lines.old.items bytes.now columns.new lines.new.items (drop result bytes.now) }
    ensures keeps_columns { take (length columns.old) columns.new ≡ columns.old }
    ensures keeps_lines { take (length lines.old.items) lines.new.items ≡ lines.old.items }
{
    let mut last = last;
    let mut at = 0;
    if last.len < width || last.len > MOST_COLUMNS || last.ending == Ending::FileEnd {
        return 0;
    }
    let len = last.len + last.ending.bytes().len();
    if bytes.len() < len || bytes[len - 1] != b'\n' {
        return 0;
    }
    'lines: while lines.len() < MOST_LINES && len <= bytes.len() - at {
        let first = columns.len();
        if !push_like(columns, lines, last, width, piece(bytes, at, len)) {
            return at;
        }
        last = Line { first, ..last };
        at += len;
    }
    at
}

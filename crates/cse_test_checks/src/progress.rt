//! Rows that were worked by hand: the bytes of a data file, and how many of its lines that ended begin a case. What counts them is
//! under no clause, so each rule has a row, whose bytes come at once, and one by one.

use cse_command_parts::counted_cases::Cases;
use cse_dict::Dictionary;
use std::alloc::Global;

/// Two id items, with two columns between them.
const IDS: &str =
    "[Dictionary]\nName=D\nRecordTypeStart=1\nRecordTypeLen=1\n[Level]\nName=L\n[IdItems]\n[Item]\nName=PART\nStart=6\nLen=1\n[Item]\nName=HH\nStart=2\nLen=2\n[Record]\nName=PERSON\nRecordTypeValue='P'\nRecordLen=9\n[Item]\nName=SEX\nStart=4\nLen=1\n";

/// The bytes of a file, and how many lines begin a case. In order:
/// - nothing, a line, and one that has not ended;
/// - columns between and behind those of id items, and the record type;
/// - other ids, ids that come back, and the last id item alone;
/// - the mark, which is a column elsewhere than at the front;
/// - shorter lines, which have blanks past their end, and ends of lines of both kinds;
/// - characters beyond ASCII, each of which is one column;
/// - empty lines.
const ROWS: &str = "\
|0#\
P01ab2\n|1#\
P01ab2|0#\
P01ab2\nP01cd2 more\nX01ab2\n|1#\
P01ab2\nP02ab2\nP01ab2\n|3#\
P01ab2\nP01ab3\n|2#\
\u{feff}P01ab2\nP01ab2\n|1#\
P01ab2\n\u{feff}P01ab2\n|2#\
P01\r\nP01   \nP01\n|1#\
P01ab\r\nP01ab \n|1#\
P0\u{e9}ab2\nP0\u{e9}\u{20ac}\u{1f600}2\nP0eab2\n|2#\
\n\r\n      \nP01ab2\n|2";

/// How many cases begin in pieces of at most so many bytes, and one at least; none where memory lacks.
fn begun_in(alloc: Global, dictionary: &Dictionary, bytes: &[u8], most: usize) -> Option<u64> {
    let mut cases = Cases::new(alloc, dictionary).ok()?;
    let mut begun = 0u64;
    for piece in bytes.chunks(most.max(1)) {
        begun = begun.saturating_add(cases.see(piece).ok()?);
    }
    Some(begun)
}

/// Whether a row comes out as it says.
fn is_counted(alloc: Global, dictionary: &Dictionary, row: &str) -> bool {
    let (text, wanted) = row.split_once('|').unwrap_or((row, ""));
    let wanted = wanted.parse::<u64>().ok();
    let whole = begun_in(alloc, dictionary, text.as_bytes(), 64);
    let pieces = begun_in(alloc, dictionary, text.as_bytes(), 1);
    wanted.is_some() & (whole == wanted) & (pieces == wanted)
}

/// How many of the rows come out as they say.
fn right_rows(alloc: Global) -> usize {
    let Ok(dictionary) = Dictionary::read(alloc, IDS.as_bytes()) else {
        return 0;
    };
    let mut right = 0usize;
    for row in ROWS.split('#') {
        right = right.saturating_add(usize::from(is_counted(alloc, &dictionary, row)));
    }
    right
}

/// Whether all cases are counted as they should be.
pub(crate) fn are_right(alloc: Global) -> bool {
    right_rows(alloc) == 12
}

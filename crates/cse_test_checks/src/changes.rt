//! Rows that were worked by hand: two files, and what is told of them. A comparison that gives up is refused by no clause, so each
//! way through it has a row.

use cse_dict::Dictionary;
use cse_office::{CompareFault, Count, compare};
use cse_value::Reads;
use std::alloc::Global;

/// Two persons at most. DECADE lies over the first column of AGE.
const AGES: &str =
    "[Dictionary]\nName=D\nRecordTypeStart=1\nRecordTypeLen=1\n[Level]\nName=L\n[IdItems]\n[Item]\nName=HH\nStart=2\nLen=3\n[Record]\nName=PERSON\nRecordTypeValue='P'\nRecordLen=9\nMaxRecords=2\n[Item]\nName=SEX\nStart=5\nLen=1\n[Item]\nName=AGE\nStart=7\nLen=3\n[Item]\nName=DECADE\nItemType=SubItem\nStart=7\nLen=1\n";

/// The file of a name, or the file that is this text.
fn file_of(name: &str) -> &[u8] {
    match name {
        // two persons, a line of no record, and a person too many
        "HOUSE" => b"P0011 035\nP0012 030\nX001 abc\nP0011 007\n",
        // two households
        "TOWN" => b"P0011 035\nP0012 030\nP0021 040\n",
        // a byte that begins no character, in lines
        "SECOND" => b"P0011 035\n\xff\n",
        "THIRD" => b"P0011 035\nP0021 040\n\xff\n",
        _ => name.as_bytes(),
    }
}

/// What stands before a sign in a text, and what stands behind it; the text and nothing where it has no such sign.
fn cut(text: &str, sign: char) -> (&str, &str) {
    text.split_once(sign).unwrap_or((text, ""))
}

/// The number that these digits are; the greatest where they are none.
fn number(digits: &str) -> u64 {
    digits.parse::<u64>().unwrap_or(u64::MAX)
}

/// Two files, and how often HH, SEX, AGE and DECADE are there and changed; or what a fault is of, the file that was read, the
/// one that was written, or both, and its line. In order:
/// - nothing, and the same;
/// - one item on one line, and on each line;
/// - an item that lies over another, and columns of one alone;
/// - unseen lines, and a column of no item;
/// - the last line has no LF, ends of lines, the mark;
/// - longer lines than their record, and two shorter ones;
/// - a character beyond ASCII is one column;
/// - two households: each has its own occurrences;
/// - lines that are no pairs: none beside one (four rows), of another record, with other ids, in another place;
/// - faulty lines.
const ROWS: &str = "\
||0 0 0 0 0 0 0 0#\
HOUSE|HOUSE|4 0 2 0 2 0 2 0#\
HOUSE|P0011 035\nP0011 030\nX001 abc\nP0011 007\n|4 0 2 1 2 0 2 0#\
HOUSE|P0012 035\nP0011 030\nX001 abc\nP0011 007\n|4 0 2 2 2 0 2 0#\
HOUSE|P0011 135\nP0012 030\nX001 abc\nP0011 007\n|4 0 2 0 2 1 2 1#\
HOUSE|P0011 036\nP0012 041\nX001 abc\nP0011 007\n|4 0 2 0 2 2 2 0#\
HOUSE|P0011 035\nP0012 030\nX001 xyz\nP0012 107\n|4 0 2 0 2 0 2 0#\
HOUSE|P0011x035\nP0012 030\nX001 abc\nP0011 007\n|4 0 2 0 2 0 2 0#\
P0011 035\nP0012 030|P0011 035\r\nP0012 031\n|2 0 2 0 2 1 2 0#\
\u{feff}P0011 035\n|P0011 035|1 0 1 0 1 0 1 0#\
P0011 035\n|P0011 035 more\n|1 0 1 0 1 0 1 0#\
P0011\n|P0011    \n|1 0 1 0 1 0 1 0#\
P0011\n|P0011 0\n|1 0 1 0 1 1 1 1#\
P0011 035\n|P001\u{e9} 035\n|1 0 1 1 1 0 1 0#\
TOWN|P0012 035\nP0012 030\nP0022 140\n|3 0 3 2 3 1 3 1#\
P0011 035\nP0012 030|P0011 035\n|both 2#\
P0011 035\n|P0011 035\nP0012 030|both 2#\
TOWN|P0011 035\nP0012 030\n|both 3#\
P0011 035\nP0012 030\n|TOWN|both 3#\
P0011 035\nP0012 030\n|P0011 035\nX0012 030\n|both 2#\
TOWN|P0011 035\nP0012 030\nP0031 040\n|both 3#\
TOWN|P0011 035\nP0021 040\nP0012 030\n|both 2#\
THIRD|P0011 035\nP0021 040\n|read 3#\
P0011 035\nP0021 040\n|SECOND|written 2";

/// Whether items are there and changed so often.
fn are_counted(counts: &[Count], wanted: &str) -> bool {
    let mut rest = wanted;
    for count in counts {
        let (occurrences, others) = cut(rest, ' ');
        let (changed, others) = cut(others, ' ');
        if count.occurrences != number(occurrences) || count.changed != number(changed) {
            return false;
        }
        rest = others;
    }
    rest.is_empty()
}

/// Whether a fault is of this, and on this line.
fn is_fault(of: &str, line: u64, wanted: &str) -> bool {
    let (wanted_of, wanted_line) = cut(wanted, ' ');
    (of == wanted_of) & (line == number(wanted_line))
}

/// Whether of two files this is told.
fn is_told(
    alloc: Global,
    dictionary: &Dictionary,
    before: &[u8],
    after: &[u8],
    wanted: &str,
) -> bool {
    let mut read = Reads::new(before);
    let mut written = Reads::new(after);
    match compare(alloc, dictionary, &mut read, &mut written) {
        Ok(counts) => are_counted(&counts, wanted),
        Err(CompareFault::Data(error)) => is_fault("read", error.line, wanted),
        Err(CompareFault::Out(error)) => is_fault("written", error.line, wanted),
        Err(CompareFault::Apart { line }) => is_fault("both", line, wanted),
        Err(CompareFault::Memory) => false,
    }
}

/// Whether a row comes out as it says.
fn is_compared(alloc: Global, dictionary: &Dictionary, row: &str) -> bool {
    let (before, rest) = cut(row, '|');
    let (after, wanted) = cut(rest, '|');
    is_told(alloc, dictionary, file_of(before), file_of(after), wanted)
}

/// How many of the rows come out as they say.
fn right_rows(alloc: Global) -> usize {
    let Ok(dictionary) = Dictionary::read(alloc, AGES.as_bytes()) else {
        return 0;
    };
    let mut right = 0usize;
    for row in ROWS.split('#') {
        right = right.saturating_add(usize::from(is_compared(alloc, &dictionary, row)));
    }
    right
}

/// Whether all comparisons tell what they should.
pub(crate) fn are_right(alloc: Global) -> bool {
    right_rows(alloc) == 24
}

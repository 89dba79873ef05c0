//! Where a byte of a text is: its line and its column.

ghost use Rattle.std.specs.Prelude.{◌≡◌, ◌<◌, ◌≤◌, ◌+◌, if◌then◌else◌, length};
ghost use Rattle.std.specs.List.{count_by};
ghost use Rattle.cse_syntax.specs.Place as spec;

use crate::lexer::{characters, past_mark};

/// A line and a column, both from 1. Only LF ends a line; each character is a column, but a byte order mark at the front
/// is none. What a `u32` can't hold is its greatest.
#[derive(Clone, Copy, PartialEq, Eq)]
pub struct Position {
    pub line: u32,
    pub column: u32,
}

fn smaller(a: usize, b: usize) -> usize
    ensures value { result ≡ spec.smaller a b }
    ensures within { result ≤ b }
{
    if a < b { a } else { b }
}

/// The bytes of a text before a place, without the mark.
fn before(text: &str, place: usize) -> &[u8]
    ensures { result.now ≡ spec.before text.now place }
{
    let front = past_mark(text);
    let end = smaller(place.saturating_sub(text.len() - front.len()), front.len());
    &front.as_bytes()[..end]
}

/// How many lines end in these bytes.
fn lines(bytes: &[u8]) -> usize
    ensures { result ≡ count_by spec.is_line_end bytes.now }
{
    let mut count = 0;
    'bytes: for i in 0..bytes.len() {
        if bytes[i] == b'\n' {
            count += 1;
        }
    }
    count
}

/// Where the last line begins, behind this byte.
fn next_start(start: usize, i: usize, byte: u8) -> usize
    requires { i < usize.MAX }
    ensures { result ≡ (if spec.is_line_end byte then i + 1 else start) }
{
    if byte == b'\n' { i + 1 } else { start }
}

/// Where the last line begins.
fn line_start(bytes: &[u8]) -> usize
    ensures value { result ≡ spec.start_from 0 0 bytes.now }
    ensures within { result ≤ length bytes.now }
{
    let mut start = 0;
    for (i, byte) in bytes.iter().enumerate() {
        start = next_start(start, i, *byte);
    }
    start
}

/// The next number, or the greatest that fits.
fn next(n: usize) -> u32
    ensures { result ≡ spec.cut (n + 1) }
{
    if n < 4_294_967_295 {
        n as u32 + 1
    } else {
        u32::MAX
    }
}

/// Where this byte of a text is.
pub fn position_of(text: &str, place: usize) -> Position
    ensures line { result.line ≡ spec.cut (spec.line_of text.now place) }
    ensures column { result.column ≡ spec.cut (spec.column_of text.now place) }
{
    let bytes = before(text, place);
    let start = line_start(bytes);
    let line = next(lines(bytes));
    let column = next(characters(&bytes[start..]));
    Position { line, column }
}

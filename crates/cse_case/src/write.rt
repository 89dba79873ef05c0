//! How the lines of a run are written: each as its columns without trailing blanks past its length in the
//! file, and its own end.

ghost use Rattle.std.specs.Prelude.{◌≡◌, ◌≤◌, ◌+◌, ◌-◌, ◌*◌, ◌++◌, length, take, encode_utf8, encode_utf8_all, true};
ghost use Rattle.std.specs.List.{flat_map};
ghost use Rattle.cse_value.specs.Gathering.{behind, Puts};
ghost use Rattle.cse_case.specs.Bytes.{columns_lent};
ghost use Rattle.cse_case.specs.Laid.{IsLaid, laid_line, laid_lines};
ghost use Rattle.cse_case.specs.Line.{end_bytes};
ghost use Rattle.cse_case.specs.Written.{kept_columns, mark_bytes, written_line};

use crate::field::line_columns;
use crate::{Columns, Ending, Line};
use cse_value::{Gatherer, Output};

/// How many columns are encoded at a time, at most.
const PART: usize = 127;

/// Room for the bytes of a part, four for each column at most, and of a line's end.
const ROOM: usize = 512;

/// The columns without the blanks at their end past the first `len`.
fn kept(columns: Columns<'_>, len: usize) -> Columns<'_>
    requires { len ≤ length (columns_lent columns) }
    ensures { columns_lent result ≡ kept_columns len (columns_lent columns.entry) }
{
    let mut n = columns.len();
    'blanks: while n > len && columns.at(n - 1) == ' ' {
        n -= 1;
    }
    columns.part(0, n)
}

/// Writes the byte of each column, and tells whether all columns are ASCII. It tests none by itself, so that
/// the compiler takes many at once.
fn write_ascii(columns: Columns<'_>, bytes: &mut [u8]) -> bool
    requires { length (columns_lent columns) ≤ length bytes.old }
    ensures { result ≡ true → take (length (columns_lent columns.entry)) bytes.new ≡ encode_utf8_all (columns_lent columns.entry) }
{
    let ascii = columns.bytes;
    let mut bits = 0u8;
    'columns: for (i, byte) in ascii.iter().enumerate() {
        bytes[i] = *byte;
        bits |= *byte;
    }
    bits < 128
}

/// Writes a column in UTF-8, and tells how many bytes it takes.
fn write_column(column: char, bytes: &mut [u8]) -> usize
    requires { 4 ≤ length bytes.old }
    ensures few { result ≤ 4 }
    ensures bytes { take result bytes.new ≡ encode_utf8 column }
{
    let code = column as u32;
    if code < 128 {
        bytes[0] = code as u8;
        return 1;
    }
    let mut room = [0; 4];
    let text = column.encode_utf8(&mut room).as_bytes();
    bytes[..text.len()].copy_from_slice(text);
    text.len()
}

/// Writes columns in UTF-8 one by one, and tells how many bytes they take.
fn write_utf8(columns: Columns<'_>, bytes: &mut [u8]) -> usize
    requires { length (columns_lent columns) * 4 ≤ length bytes.old }
    ensures few { result ≤ length (columns_lent columns.entry) * 4 }
    ensures bytes { take result bytes.new ≡ encode_utf8_all (columns_lent columns.entry) }
{
    let mut n = 0;
    'columns: for i in 0..columns.len() {
        n += write_column(columns.at(i), &mut bytes[n..]);
    }
    n
}

/// Writes columns in UTF-8, and tells how many bytes they take.
fn write_columns(columns: Columns<'_>, bytes: &mut [u8]) -> usize
    requires { length (columns_lent columns) * 4 ≤ length bytes.old }
    ensures few { result ≤ length (columns_lent columns.entry) * 4 }
    ensures bytes { take result bytes.new ≡ encode_utf8_all (columns_lent columns.entry) }
{
    if write_ascii(columns, bytes) {
        return columns.len();
    }
    write_utf8(columns, bytes)
}

/// Writes the end of a line, and tells how many bytes it has.
fn write_end(ending: Ending, bytes: &mut [u8]) -> usize
    requires { 2 ≤ length bytes.old }
    ensures few { result ≤ 2 }
    ensures bytes { take result bytes.new ≡ end_bytes ending }
{
    match ending {
        Ending::FileEnd => 0,
        Ending::Feed => {
            bytes[0] = b'\n';
            1
        }
        Ending::ReturnFeed => {
            bytes[0] = b'\r';
            bytes[1] = b'\n';
            2
        }
    }
}

/// Puts columns in UTF-8 until only a part of them is left. Tells how many were put.
fn put_parts<W: Output>(
    gatherer: &mut Gatherer,
    out: &mut W,
    columns: Columns<'_>,
    bytes: &mut [u8; ROOM],
) -> usize
    ensures low { result ≤ length (columns_lent columns.entry) }
    ensures few { length (columns_lent columns.entry) - result ≤ 127 }
    ensures put { Puts (behind W.taken W.has_failed out.old gatherer.old) (behind W.taken W.has_failed out.new gatherer.new)
        (encode_utf8_all (take result (columns_lent columns.entry))) }
{
    let mut at = 0;
    'parts: while columns.len() - at > PART {
        let n = write_columns(columns.part(at, PART), bytes);
        gatherer.put(out, &bytes[..n]);
        at += PART;
    }
    at
}

/// Puts the last columns of a line in UTF-8, and its end.
fn put_last<W: Output>(
    gatherer: &mut Gatherer,
    out: &mut W,
    columns: Columns<'_>,
    ending: Ending,
    bytes: &mut [u8; ROOM],
)
    requires { length (columns_lent columns) ≤ 127 }
    ensures { Puts (behind W.taken W.has_failed out.old gatherer.old) (behind W.taken W.has_failed out.new gatherer.new)
        (encode_utf8_all (columns_lent columns.entry) ++ end_bytes ending) }
{
    let n = write_columns(columns, bytes);
    let end = write_end(ending, &mut bytes[n..]);
    gatherer.put(out, &bytes[..n + end]);
}

/// Puts a line that lies in these columns.
fn put_line<W: Output>(
    gatherer: &mut Gatherer,
    out: &mut W,
    columns: Columns<'_>,
    line: Line,
    bytes: &mut [u8; ROOM],
)
    requires within { line.first + line.width ≤ length (columns_lent columns) }
    requires padded { line.len ≤ line.width }
    ensures { Puts (behind W.taken W.has_failed out.old gatherer.old) (behind W.taken W.has_failed out.new gatherer.new)
        (written_line (laid_line (columns_lent columns.entry) line)) }
{
    let kept = kept(line_columns(columns, line), line.len);
    let at = put_parts(gatherer, out, kept, bytes);
    let rest = kept.part(at, kept.len() - at);
    put_last(gatherer, out, rest, line.ending, bytes);
}

/// Puts lines that lie one after the other in these columns.
pub fn put_lines<W: Output>(
    gatherer: &mut Gatherer,
    out: &mut W,
    columns: Columns<'_>,
    lines: &[Line],
)
    requires { IsLaid 0 (columns_lent columns) lines.now }
    ensures { Puts (behind W.taken W.has_failed out.old gatherer.old) (behind W.taken W.has_failed out.new gatherer.new)
        (flat_map written_line (laid_lines (columns_lent columns.entry) lines.now)) }
{
    let mut bytes = [0; ROOM];
    'lines: for line in lines {
        put_line(gatherer, out, columns, *line, &mut bytes);
    }
}

/// The bytes of the mark, where it is there.
pub fn mark(is_there: bool) -> &'static [u8]
    ensures { result.now ≡ mark_bytes is_there }
{
    if is_there { b"\xef\xbb\xbf" } else { b"" }
}

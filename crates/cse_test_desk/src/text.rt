//! Texts of rows. Each line begins with four blanks and `|`, and has its line end, LF, but one that ends with `\`.
//!
//! `\r`, `\n` and `\t` are CR, LF and a tab; `\xE9` is a byte, `\x5C` a `\`. A line that begins with `\*N ` stands there N
//! times, without these signs; `\#` in it is the number of the turn, from 0 on, and `\@` the same in two bytes, the lower one
//! first. A line that begins with `\:` is bytes, two digits each with blanks between them, and has no line end.

use crate::cut::{before, behind, parts, word_at, words};
use itoa::Buffer;

/// What a line of a text begins with, behind the end of the one before it.
const LINE: &str = "\n    |";

/// Puts a byte.
fn put_byte(into: &mut Vec<u8>, byte: u8) -> bool {
    into.push(byte).is_ok()
}

/// Puts what stands as it is.
pub fn put(into: &mut Vec<u8>, text: &str) -> bool {
    into.extend_from_slice(text.as_bytes()).is_ok()
}

fn put_number(into: &mut Vec<u8>, number: u32) -> bool {
    let mut digits = Buffer::new();
    put(into, digits.format(number))
}

fn put_short(into: &mut Vec<u8>, number: u32) -> bool {
    match u16::try_from(number) {
        Ok(number) => into.extend_from_slice(&number.to_le_bytes()).is_ok(),
        Err(_) => false,
    }
}

/// Puts the byte of two digits.
fn put_digits(into: &mut Vec<u8>, digits: &str) -> bool {
    match u8::from_str_radix(digits, 16) {
        Ok(byte) => put_byte(into, byte),
        Err(_) => false,
    }
}

/// Puts the byte of two digits, and what stands behind them.
fn put_code(into: &mut Vec<u8>, text: &str) -> bool {
    match text.split_at_checked(2) {
        Some((digits, rest)) => put_digits(into, digits) && put(into, rest),
        None => false,
    }
}

/// Puts bytes.
fn put_bytes(into: &mut Vec<u8>, bytes: &str) -> bool {
    let mut well = true;
    for place in 0..words(bytes) {
        well &= put_digits(into, word_at(bytes, place));
    }
    well
}

/// Puts what a sign behind a `\` stands for.
fn put_sign(into: &mut Vec<u8>, sign: &str, turn: u32) -> bool {
    match sign {
        "r" => put_byte(into, b'\r'),
        "n" => put_byte(into, b'\n'),
        "t" => put_byte(into, b'\t'),
        "#" => put_number(into, turn),
        "@" => put_short(into, turn),
        _ => false,
    }
}

/// Puts what stands behind a `\`.
fn put_escape(into: &mut Vec<u8>, text: &str, turn: u32) -> bool {
    match text.split_at_checked(1) {
        Some(("x", rest)) => put_code(into, rest),
        Some((sign, rest)) => put_sign(into, sign, turn) && put(into, rest),
        None => false,
    }
}

/// Puts a line without its end.
fn put_pieces(into: &mut Vec<u8>, line: &str, turn: u32) -> bool {
    let mut well = put(into, before(line, "\\"));
    let mut rest = line;
    for _ in 1..parts(line, "\\") {
        rest = behind(rest, "\\");
        well &= put_escape(into, before(rest, "\\"), turn);
    }
    well
}

/// Puts a line.
fn put_once(into: &mut Vec<u8>, line: &str, turn: u32) -> bool {
    match line.strip_suffix('\\') {
        Some(line) => put_pieces(into, line, turn),
        None => put_pieces(into, line, turn) && put_byte(into, b'\n'),
    }
}

/// Puts a line once for each turn.
fn put_turns(into: &mut Vec<u8>, times: u32, line: &str) -> bool {
    let mut well = true;
    for turn in 0..times {
        well &= put_once(into, line, turn);
    }
    well
}

/// Puts what stands between two places once more.
fn put_again(into: &mut Vec<u8>, start: usize, end: usize) -> bool {
    start <= end && end <= into.len() && into.extend_from_within(start..end).is_ok()
}

/// Puts what stands behind a place so often in all.
fn put_same(into: &mut Vec<u8>, start: usize, times: u32) -> bool {
    let end = into.len();
    let mut well = true;
    for _ in 1..times {
        well &= put_again(into, start, end);
    }
    well
}

/// Puts a line so often. Where it names its turn nowhere it is read once.
fn put_often(into: &mut Vec<u8>, times: u32, line: &str) -> bool {
    if line.contains("\\#") || line.contains("\\@") {
        return put_turns(into, times, line);
    }
    let start = into.len();
    put_once(into, line, 0) && put_same(into, start, times)
}

/// Puts a line as often as digits say.
fn put_times(into: &mut Vec<u8>, times: &str, line: &str) -> bool {
    match times.parse::<u32>() {
        Ok(times) => put_often(into, times, line),
        Err(_) => false,
    }
}

/// Puts a line that stands there several times.
fn put_repeated(into: &mut Vec<u8>, line: &str) -> bool {
    match line.split_once(' ') {
        Some((times, line)) => put_times(into, times, line),
        None => false,
    }
}

fn put_line(into: &mut Vec<u8>, line: &str) -> bool {
    match line.split_at_checked(2) {
        Some(("\\*", rest)) => put_repeated(into, rest),
        Some(("\\:", rest)) => put_bytes(into, rest),
        _ => put_once(into, line, 0),
    }
}

/// Puts the line that a piece of a text begins with. Answers whether no indented line stands behind it.
fn put_front(into: &mut Vec<u8>, piece: &str) -> bool {
    put_line(into, before(piece, "\n")) && ends(piece)
}

/// Whether no indented line stands behind the line that a piece of a text begins with.
fn ends(piece: &str) -> bool {
    !behind(piece, "\n").starts_with(' ')
}

/// Puts the text that stands behind its first line, up to the next word. Answers whether it is one.
pub fn put_text(into: &mut Vec<u8>, lines: &str) -> bool {
    let mut well = ends(before(lines, LINE));
    let mut rest = lines;
    for _ in 1..parts(lines, LINE) {
        rest = behind(rest, LINE);
        well &= put_front(into, before(rest, LINE));
    }
    well
}

/// Puts a line, perhaps indented, with a line end.
fn put_indented(into: &mut Vec<u8>, line: &str) -> bool {
    put(into, line.trim_start()) && put_byte(into, b'\n')
}

/// How many lines a text has that has no line end behind the last.
fn count_lines(text: &str) -> usize {
    if text.is_empty() {
        0
    } else {
        parts(text, "\n")
    }
}

/// Puts lines, perhaps indented, each with a line end.
pub fn put_lines(into: &mut Vec<u8>, lines: &str) -> bool {
    let mut well = true;
    let mut rest = lines;
    for _ in 0..count_lines(lines) {
        well &= put_indented(into, before(rest, "\n"));
        rest = behind(rest, "\n");
    }
    well
}

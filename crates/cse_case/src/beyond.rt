//! Characters beyond ASCII, written over columns that hold their bytes.

ghost use Rattle.std.specs.Prelude.{◌≡◌, ◌<◌, ◌≤◌, ◌+◌, ◌-◌, ◌++◌, ◌∷◌, [], drop, length, replicate, take, true, false, IfErr, IfOk, IfSome, OnOk, OnSome};
ghost use Rattle.std.specs.Char.{IsScalar, encode_utf8};
ghost use Rattle.std.specs.Str.{IsAscii, chars, is_utf8};
ghost use Rattle.cse_case.specs.Bytes.{columns_by};
ghost use Rattle.cse_case.specs.Decoding.{Holds, IfFault};
ghost use Rattle.cse_case.specs.NamedColumns.{padded};
ghost use Rattle.cse_case.specs.Run.{with_columns};

use crate::columns::{piece, put_at};
use crate::copy::put_piece;
use crate::decode::LineStop;
use crate::fill::put_blanks;
use cse_fault_numbers::LINE_NOT_UTF8;
use std::simd::prelude::*;

/// Writes the characters of a text over the first of the columns, and tells how many there are.
fn put_chars(bytes: &mut [u8], beside: &mut [char], text: &str) -> usize
    requires bytes { length (chars text.now) ≤ length bytes.old }
    requires beside { length bytes.old ≤ length beside.old }
    ensures count { result ≡ length (chars text.now) }
    ensures len { length bytes.new ≡ length bytes.old }
    ensures room { length beside.new ≡ length beside.old }
    ensures columns { columns_by bytes.new beside.new ≡ chars text.now ++ drop (length (chars text.now)) (columns_by bytes.old beside.old) }
{
    let mut len = 0;
    'chars: for column in text.chars() {
        put_at(bytes, beside, len, column);
        len += 1;
    }
    len
}

/// The same, and blanks over the other columns.
fn put_text(bytes: &mut [u8], beside: &mut [char], text: &str) -> usize
    requires bytes { length (chars text.now) ≤ length bytes.old }
    requires beside { length bytes.old ≤ length beside.old }
    ensures count { result ≡ length (chars text.now) }
    ensures len { length bytes.new ≡ length bytes.old }
    ensures room { length beside.new ≡ length beside.old }
    ensures columns { columns_by bytes.new beside.new ≡ padded (length bytes.old) (chars text.now) }
{
    let len = put_chars(bytes, beside, text);
    let (_, rest) = bytes.split_at_mut(len);
    put_blanks(rest);
    len
}

/// The character that is written in two bytes, if they are one.
#[inline(always)]
fn char_of(lead: u8, other: u8) -> Option<char>
    ensures scalar { IfSome result (λ c. IsScalar c) }
    ensures written { IfSome result (λ c. encode_utf8 c ≡ lead ∷ other ∷ []) }
{
    if lead < 194 || 223 < lead || other < 128 || 191 < other {
        return None;
    }
    char::from_u32((lead as u32 - 192) * 64 + (other as u32 - 128))
}

/// The character at a place of a text, and how many bytes it has: one or two, or there is none.
#[inline(always)]
fn short_char(text: &[u8], at: usize) -> Option<(char, usize)>
    requires { at < length text.now }
    ensures fits { IfSome result (λ r. at + r.1 ≤ length text.now) }
    ensures some { IfSome result (λ r. 0 < r.1) }
    ensures scalar { IfSome result (λ r. IsScalar r.0) }
    ensures written { IfSome result (λ r. take (at + r.1) text.now ≡ take at text.now ++ encode_utf8 r.0) }
{
    let byte = text[at];
    if byte < 128 {
        return Some((byte as char, 1));
    }
    if text.len() - at < 2 {
        return None;
    }
    let Some(column) = char_of(byte, text[at + 1]) else {
        return None;
    };
    Some((column, 2))
}

/// Whether eight bytes are ASCII.
#[inline(always)]
fn are_ascii(text: &[u8]) -> bool
    requires { length text.now ≡ 8 }
    ensures { result ≡ true → IsAscii text.now }
{
    u8x8::from_slice(text)
        .simd_ge(u8x8::splat(128))
        .to_bitmask()
        == 0
}

/// Writes the next eight bytes of a text over the columns from a place on, if they are ASCII, and tells whether they are.
#[inline(always)]
fn put_eight(bytes: &mut [u8], len: usize, text: &[u8], at: usize) -> bool
    requires at { at ≤ length text.now }
    requires len { len ≤ at }
    requires bytes { length text.now ≤ length bytes.old }
    ensures fits { result ≡ true → at + 8 ≤ length text.now }
    ensures ascii { result ≡ true → IsAscii (take 8 (drop at text.now)) }
    ensures bytes { result ≡ true → bytes.new ≡ with_columns len (take 8 (drop at text.now)) bytes.old }
    ensures same { result ≡ false → bytes.new ≡ bytes.old }
{
    if text.len() - at < 8 || text[at] >= 128 {
        return false;
    }
    let eight = piece(text, at, 8);
    if !are_ascii(eight) {
        return false;
    }
    put_piece::<8>(&mut bytes[len..len + 8], eight);
    true
}

/// Writes the next bytes of a text over the columns from a place on, eight at once, as long as these are ASCII, and tells
/// how many.
#[inline(always)]
fn put_eights(bytes: &mut [u8], len: usize, text: &[u8], at: usize) -> usize
    requires at { at ≤ length text.now }
    requires len { len ≤ at }
    requires bytes { length text.now ≤ length bytes.old }
    ensures fits { at + result ≤ length text.now }
    ensures ascii { IsAscii (take result (drop at text.now)) }
    ensures bytes { bytes.new ≡ with_columns len (take result (drop at text.now)) bytes.old }
{
    let mut count = 0;
    'eights: while put_eight(bytes, len + count, text, at + count) {
        count += 8;
    }
    count
}

/// Writes the characters of a text over the columns from a place on, where as many bytes of it are before them, and tells
/// behind which column they end, if each has one or two bytes.
fn put_short_chars(
    bytes: &mut [u8],
    beside: &mut [char],
    text: &[u8],
    front: usize,
) -> Option<usize>
    requires front { front ≤ length text.now }
    requires ascii { IsAscii (take front text.now) }
    requires over { take front (columns_by bytes.old beside.old) ≡ take front text.now }
    requires bytes { length text.now ≤ length bytes.old }
    requires beside { length bytes.old ≤ length beside.old }
    ensures len { length bytes.new ≡ length bytes.old }
    ensures room { length beside.new ≡ length beside.old }
    ensures utf8 { OnSome result (is_utf8 text.now ≡ true) }
    ensures count { IfSome result (λ len. len ≡ length (chars text.now)) }
    ensures columns { OnSome result (columns_by bytes.new beside.new ≡ chars text.now ++ drop (length (chars text.now)) (columns_by bytes.old beside.old)) }
{
    let mut at = front;
    let mut len = front;
    'chars: while at < text.len() {
        let Some((column, size)) = short_char(text, at) else {
            return None;
        };
        put_at(bytes, beside, len, column);
        len += 1;
        at += size;
        if size == 2 {
            let count = put_eights(bytes, len, text, at);
            len += count;
            at += count;
        }
    }
    Some(len)
}

/// Writes blanks over columns: mostly over one, since most texts have one character of two bytes.
#[inline(always)]
fn put_few_blanks(columns: &mut [u8])
    ensures { columns.new ≡ replicate (length columns.old) 32 }
{
    if columns.len() == 1 {
        columns[0] = b' ';
    } else {
        put_blanks(columns);
    }
}

/// Writes blanks over the columns from a place up to another.
#[inline(always)]
fn put_blanks_between(columns: &mut [u8], first: usize, end: usize)
    requires order { first ≤ end }
    requires room { end ≤ length columns.old }
    ensures { columns.new ≡ with_columns first (replicate (end - first) 32) columns.old }
{
    put_few_blanks(&mut columns[first..end]);
}

/// How many of eight bytes stand before the first that isn't ASCII.
#[inline(always)]
fn ascii_count(text: &[u8]) -> usize
    requires { length text.now ≡ 8 }
    ensures fits { result ≤ 8 }
    ensures ascii { IsAscii (take result text.now) }
{
    let beyond = u8x8::from_slice(text).simd_ge(u8x8::splat(128));
    let count = beyond.to_bitmask().trailing_zeros() as usize;
    count.min(8)
}

/// How many bytes from the front are ASCII, as far as eight at once are looked at.
fn ascii_front(text: &[u8]) -> usize
    ensures fits { result ≤ length text.now }
    ensures ascii { IsAscii (take result text.now) }
{
    let mut at = 0;
    'eights: while 8 <= text.len() - at {
        let eight = piece(text, at, 8);
        if !are_ascii(eight) {
            return at + ascii_count(eight);
        }
        at += 8;
    }
    at
}

/// The characters of a text over columns whose bytes are its own: those in front that are ASCII stay. Tells how many
/// characters there are, if each has one or two bytes.
#[inline(never)]
fn put_short_beyond(bytes: &mut [u8], beside: &mut [char], text: &[u8]) -> Option<usize>
    requires over { bytes.old ≡ padded (length bytes.old) text.now }
    requires fits { length text.now ≤ length bytes.old }
    requires beside { length bytes.old ≤ length beside.old }
    ensures len { length bytes.new ≡ length bytes.old }
    ensures room { length beside.new ≡ length beside.old }
    ensures utf8 { OnSome result (is_utf8 text.now ≡ true) }
    ensures columns { IfSome result (λ len. Holds (columns_by bytes.new beside.new) (chars text.now) len) }
{
    let front = ascii_front(text);
    let Some(len) = put_short_chars(bytes, beside, text, front) else {
        return None;
    };
    put_blanks_between(bytes, len, text.len());
    Some(len)
}

/// The characters of a text over as many of the columns, and blanks over the others, whatever its characters
/// are.
#[inline(never)]
fn put_any(bytes: &mut [u8], beside: &mut [char], text: &[u8]) -> Result<usize, LineStop>
    requires bytes { length text.now ≤ length bytes.old }
    requires beside { length bytes.old ≤ length beside.old }
    ensures len { length bytes.new ≡ length bytes.old }
    ensures room { length beside.new ≡ length beside.old }
    ensures columns { IfOk result (λ len. Holds (columns_by bytes.new beside.new) (chars text.now) len) }
    ensures utf8 { OnOk result (is_utf8 text.now ≡ true) }
    ensures err { IfErr result (IfFault (λ number. (number ≡ 20) × (is_utf8 text.now ≡ false))) }
{
    match str::from_utf8(text) {
        Ok(text) => Ok(put_text(bytes, beside, text)),
        Err(_) => Err(LineStop::Fault(LINE_NOT_UTF8)),
    }
}

/// The characters of a text over columns whose bytes are its own. Tells how many characters there are.
#[inline(always)]
pub fn put_beyond(bytes: &mut [u8], beside: &mut [char], text: &[u8]) -> Result<usize, LineStop>
    requires over { bytes.old ≡ padded (length bytes.old) text.now }
    requires fits { length text.now ≤ length bytes.old }
    requires beside { length bytes.old ≤ length beside.old }
    ensures len { length bytes.new ≡ length bytes.old }
    ensures room { length beside.new ≡ length beside.old }
    ensures columns { IfOk result (λ len. Holds (columns_by bytes.new beside.new) (chars text.now) len) }
    ensures utf8 { OnOk result (is_utf8 text.now ≡ true) }
    ensures err { IfErr result (IfFault (λ number. (number ≡ 20) × (is_utf8 text.now ≡ false))) }
{
    match put_short_beyond(bytes, beside, text) {
        Some(len) => Ok(len),
        None => put_any(bytes, beside, text),
    }
}

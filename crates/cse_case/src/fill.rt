//! Bytes of a text and blanks, written over bytes.

ghost use Rattle.std.specs.Prelude.{◌≡◌, ◌≤◌, ◌+◌, ◌-◌, drop, length, replicate, take, true};
ghost use Rattle.cse_case.specs.Alike.{IsPlain};
ghost use Rattle.cse_case.specs.NamedColumns.{padded};
ghost use Rattle.cse_case.specs.Run.{with_columns};

use std::simd::prelude::*;

/// Writes bytes over others, and tells whether all are ASCII and none is a line feed. It
/// tests none by itself, so that the compiler takes many at once.
#[inline(never)]
fn put_plain(columns: &mut [u8], text: &[u8]) -> bool
    requires { length columns.old ≡ length text.now }
    ensures columns { columns.new ≡ text.now }
    ensures plain { result ≡ true → IsPlain text.now }
{
    let mut bits = 0u8;
    'bytes: for (i, byte) in text.iter().enumerate() {
        columns[i] = *byte;
        bits |= if *byte == b'\n' { 128 } else { *byte };
    }
    bits < 128
}

/// Writes eight bytes over others, and tells whether all are ASCII and none is a line feed.
#[inline(always)]
fn put_eight(columns: &mut [u8], text: &[u8]) -> bool
    requires columns { length columns.old ≡ 8 }
    requires text { length text.now ≡ 8 }
    ensures columns { columns.new ≡ text.now }
    ensures plain { result ≡ true → IsPlain text.now }
{
    let bytes = u8x8::from_slice(text);
    bytes.copy_to_slice(columns);
    let feeds = bytes.simd_eq(u8x8::splat(b'\n')).to_bitmask();
    let others = bytes.simd_ge(u8x8::splat(128)).to_bitmask();
    feeds | others == 0
}

/// The same of eight bytes from a place on.
#[inline(always)]
fn put_eight_at(columns: &mut [u8], text: &[u8], at: usize) -> bool
    requires fits { length columns.old ≡ length text.now }
    requires some { at + 8 ≤ length text.now }
    ensures columns { columns.new ≡ with_columns at (take 8 (drop at text.now)) columns.old }
    ensures plain { result ≡ true → IsPlain (take 8 (drop at text.now)) }
{
    put_eight(&mut columns[at..at + 8], &text[at..at + 8])
}

/// The same of eight to sixteen bytes: the last eight, and the first eight.
#[inline(always)]
fn put_two_eights(columns: &mut [u8], text: &[u8]) -> bool
    requires some { 8 ≤ length text.now }
    requires few { length text.now ≤ 16 }
    requires fits { length columns.old ≡ length text.now }
    ensures columns { columns.new ≡ text.now }
    ensures plain { result ≡ true → IsPlain text.now }
{
    let last = text.len() - 8;
    let is_end_plain = put_eight_at(columns, text, last);
    let is_front_plain = put_eight_at(columns, text, 0);
    is_end_plain & is_front_plain
}

/// The same of sixteen bytes.
#[inline(always)]
fn put_sixteen(columns: &mut [u8], text: &[u8]) -> bool
    requires columns { length columns.old ≡ 16 }
    requires text { length text.now ≡ 16 }
    ensures columns { columns.new ≡ text.now }
    ensures plain { result ≡ true → IsPlain text.now }
{
    let bytes = u8x16::from_slice(text);
    bytes.copy_to_slice(columns);
    let feeds = bytes.simd_eq(u8x16::splat(b'\n')).to_bitmask();
    let others = bytes.simd_ge(u8x16::splat(128)).to_bitmask();
    feeds | others == 0
}

/// The same of sixteen bytes from a place on.
#[inline(always)]
fn put_sixteen_at(columns: &mut [u8], text: &[u8], at: usize) -> bool
    requires fits { length columns.old ≡ length text.now }
    requires some { at + 16 ≤ length text.now }
    ensures columns { columns.new ≡ with_columns at (take 16 (drop at text.now)) columns.old }
    ensures plain { result ≡ true → IsPlain (take 16 (drop at text.now)) }
{
    put_sixteen(&mut columns[at..at + 16], &text[at..at + 16])
}

/// The same of no fewer than sixteen bytes: the last sixteen, and then sixteen by sixteen from the front.
#[inline(always)]
fn put_sixteens(columns: &mut [u8], text: &[u8]) -> bool
    requires some { 16 ≤ length text.now }
    requires fits { length columns.old ≡ length text.now }
    ensures columns { columns.new ≡ text.now }
    ensures plain { result ≡ true → IsPlain text.now }
{
    let last = text.len() - 16;
    let mut is_plain = put_sixteen_at(columns, text, last);
    let mut at = 0;
    'sixteens: while at < last {
        let is_next = put_sixteen_at(columns, text, at);
        is_plain = is_next && is_plain;
        at += 16;
    }
    is_plain
}

/// Eight blanks.
#[inline(always)]
fn put_eight_blanks(columns: &mut [u8])
    requires { length columns.old ≡ 8 }
    ensures { columns.new ≡ replicate 8 32 }
{
    'columns: for i in 0..8 {
        columns[i] = b' ';
    }
}

/// Writes blanks over columns. It is called for few lines, and isn't laid out where it is called.
#[inline(never)]
pub fn put_blanks(columns: &mut [u8])
    ensures { columns.new ≡ replicate (length columns.old) 32 }
{
    columns.fill(b' ');
}

/// Writes blanks over the columns from a place on. Where they are few, some before that place are
/// overwritten too.
#[inline(always)]
fn put_blanks_from(columns: &mut [u8], len: usize)
    requires { len ≤ length columns.old }
    ensures len { length columns.new ≡ length columns.old }
    ensures blanks { drop len columns.new ≡ replicate (length columns.old - len) 32 }
{
    let width = columns.len();
    if width - len <= 8 && 8 <= width {
        put_eight_blanks(&mut columns[width - 8..]);
    } else {
        let (_, rest) = columns.split_at_mut(len);
        put_blanks(rest);
    }
}

/// Writes bytes over the first of the columns, and blanks over the others.
#[inline(always)]
pub fn put_line(columns: &mut [u8], text: &[u8]) -> bool
    requires { length text.now ≤ length columns.old }
    ensures columns { columns.new ≡ padded (length columns.old) text.now }
    ensures plain { result ≡ true → IsPlain text.now }
{
    put_blanks_from(columns, text.len());
    let (front, _) = columns.split_at_mut(text.len());
    if text.len() < 8 {
        put_plain(front, text)
    } else if text.len() < 16 {
        put_two_eights(front, text)
    } else {
        put_sixteens(front, text)
    }
}

//! Bytes, and what stands beside them, written over as many.
//!
//! Most of these are few. They are taken in two pieces of a fixed size that overlap, the last ones and then the first ones, which
//! takes less than a call.

ghost use Rattle.std.specs.Prelude.{◌≡◌, ◌≤◌, ◌+◌, drop, length, take, vec_capacity};
ghost use Rattle.cse_case.specs.Bytes.{reaching};
ghost use Rattle.cse_case.specs.Run.{with_columns};

use crate::columns::put_bytes;
use std::simd::Simd;

/// Writes N bytes over others.
#[inline(always)]
pub fn put_piece<const N: usize>(bytes: &mut [u8], text: &[u8])
    requires bytes { length bytes.old ≡ N }
    requires text { length text.now ≡ N }
    ensures { bytes.new ≡ text.now }
{
    Simd::<u8, N>::from_slice(text).copy_to_slice(bytes);
}

/// Writes N bytes over those at the same place.
#[inline(always)]
fn put_piece_at<const N: usize>(bytes: &mut [u8], text: &[u8], at: usize)
    requires fits { length bytes.old ≡ length text.now }
    requires some { at + N ≤ length text.now }
    ensures { bytes.new ≡ with_columns at (take N (drop at text.now)) bytes.old }
{
    put_piece::<N>(&mut bytes[at..at + N], &text[at..at + N]);
}

/// Writes N to twice as many bytes over as many.
#[inline(always)]
fn put_ends<const N: usize>(bytes: &mut [u8], text: &[u8])
    requires fits { length bytes.old ≡ length text.now }
    requires some { N ≤ length text.now }
    requires few { length text.now ≤ N + N }
    ensures { bytes.new ≡ text.now }
{
    let last = text.len() - N;
    put_piece_at::<N>(bytes, text, last);
    put_piece_at::<N>(bytes, text, 0);
}

/// Writes bytes over as many.
#[inline(always)]
pub fn put_copy(bytes: &mut [u8], text: &[u8])
    requires { length bytes.old ≡ length text.now }
    ensures { bytes.new ≡ text.now }
{
    let len = text.len();
    if len < 8 || 64 < len {
        bytes.copy_from_slice(text);
    } else if len <= 16 {
        put_ends::<8>(bytes, text);
    } else if len <= 32 {
        put_ends::<16>(bytes, text);
    } else {
        put_ends::<32>(bytes, text);
    }
}

/// Writes eight characters over those at the same place.
#[inline(always)]
fn put_eight_at(beside: &mut [char], there: &[char], at: usize)
    requires fits { length beside.old ≡ length there.now }
    requires some { at + 8 ≤ length there.now }
    ensures { beside.new ≡ with_columns at (take 8 (drop at there.now)) beside.old }
{
    beside[at..at + 8].copy_from_slice(&there[at..at + 8]);
}

/// Writes eight to sixteen characters over as many.
#[inline(always)]
fn put_two_eights(beside: &mut [char], there: &[char])
    requires fits { length beside.old ≡ length there.now }
    requires some { 8 ≤ length there.now }
    requires few { length there.now ≤ 16 }
    ensures { beside.new ≡ there.now }
{
    let last = there.len() - 8;
    put_eight_at(beside, there, last);
    put_eight_at(beside, there, 0);
}

/// Writes characters over as many.
#[inline(always)]
fn put_characters(beside: &mut [char], there: &[char])
    requires { length beside.old ≡ length there.now }
    ensures { beside.new ≡ there.now }
{
    let len = there.len();
    if len < 8 || 16 < len {
        beside.copy_from_slice(there);
    } else {
        put_two_eights(beside, there);
    }
}

/// Writes so many characters over those from a place on.
#[inline(always)]
fn put_characters_at(beside: &mut Vec<char>, first: usize, len: usize, there: &[char])
    requires room { first + len ≤ length beside.old.items }
    requires there { len ≤ length there.now }
    ensures items { beside.new.items ≡ with_columns first (take len there.now) beside.old.items }
    ensures capacity { vec_capacity beside.new ≡ vec_capacity beside.old }
{
    put_characters(&mut beside[first..first + len], &there[..len]);
}

/// Writes bytes as characters over those from a place on.
#[inline(always)]
fn put_bytes_at(beside: &mut Vec<char>, first: usize, bytes: &[u8])
    requires { first + length bytes.now ≤ length beside.old.items }
    ensures items { beside.new.items ≡ with_columns first bytes.now beside.old.items }
    ensures capacity { vec_capacity beside.new ≡ vec_capacity beside.old }
{
    let _ascii = put_bytes(&mut beside[first..first + bytes.len()], bytes);
}

/// Writes what stands beside bytes over as much from a place on, where it reaches as far as they do.
#[inline(always)]
fn put_all_beside(beside: &mut Vec<char>, first: usize, bytes: &[u8], there: &[char])
    requires room { first + length bytes.now ≤ length beside.old.items }
    requires wide { length bytes.now ≤ length there.now }
    ensures items { beside.new.items ≡ with_columns first (take (length bytes.now) (reaching bytes.now there.now)) beside.old.items }
    ensures capacity { vec_capacity beside.new ≡ vec_capacity beside.old }
{
    put_characters_at(beside, first, bytes.len(), there);
}

/// The same, where it doesn't: the bytes themselves stand behind it.
#[inline(never)]
fn put_some_beside(beside: &mut Vec<char>, first: usize, bytes: &[u8], there: &[char])
    requires room { first + length bytes.now ≤ length beside.old.items }
    requires few { length there.now ≤ length bytes.now }
    ensures items { beside.new.items ≡ with_columns first (take (length bytes.now) (reaching bytes.now there.now)) beside.old.items }
    ensures capacity { vec_capacity beside.new ≡ vec_capacity beside.old }
{
    let len = there.len();
    put_characters_at(beside, first, len, there);
    put_bytes_at(beside, first + len, &bytes[len..]);
}

/// Writes what stands beside bytes over as much from a place on. Where nothing stands there, it is the byte itself.
#[inline(never)]
pub fn put_beside(beside: &mut Vec<char>, first: usize, bytes: &[u8], there: &[char])
    requires { first + length bytes.now ≤ length beside.old.items }
    ensures items { beside.new.items ≡ with_columns first (take (length bytes.now) (reaching bytes.now there.now)) beside.old.items }
    ensures capacity { vec_capacity beside.new ≡ vec_capacity beside.old }
{
    if bytes.len() <= there.len() {
        put_all_beside(beside, first, bytes, there);
    } else {
        put_some_beside(beside, first, bytes, there);
    }
}

//! The part of two lines in which they differ. Most items lie outside it: they need no other look.

ghost use Rattle.std.specs.Prelude.{◌≡◌, ◌<◌, ◌≤◌, ◌+◌, ◌-◌, ◌⊎◌, ℕ, drop, length, take, true};
ghost use Rattle.std.specs.Str.{IsAscii};
ghost use Rattle.cse_case.specs.Bytes.{columns_lent};
ghost use Rattle.cse_office.specs.Changes.{DifferWithin, IsSameByte};

use crate::item::is_same_byte;
use cse_case::Columns;
use cse_value::shape::ItemShape;
use std::simd::prelude::*;

/// Columns, from a place to behind another.
#[derive(Clone, Copy)]
pub struct Part {
    pub first: usize,
    pub end: usize,
}

impl Part {
    /// No columns.
    pub const NONE: Part = Part {
        first: usize::MAX,
        end: 0,
    };
}

/// Sixteen bytes from a place on.
#[inline(always)]
fn sixteen(bytes: &[u8], at: usize) -> &[u8]
    requires { at + 16 ≤ length bytes.now }
    ensures { result.now ≡ take 16 (drop at bytes.now) }
{
    &bytes[at..at + 16]
}

/// Whether bytes are the same.
#[inline(always)]
fn are_same(before: &[u8], after: &[u8]) -> bool
    ensures { result ≡ true → before.now ≡ after.now }
{
    before == after
}

/// Whether sixteen bytes here and there are ASCII.
#[inline(always)]
fn are_ascii(before: &[u8], after: &[u8]) -> bool
    requires left { length before.now ≡ 16 }
    requires right { length after.now ≡ 16 }
    ensures { result ≡ true → IsAscii before.now }
{
    let bytes = u8x16::from_slice(before) | u8x16::from_slice(after);
    bytes.simd_ge(u8x16::splat(128)).to_bitmask() == 0
}

/// Whether both have the same sixteen bytes from a place on, all ASCII.
fn are_same_sixteen(before: &[u8], after: &[u8], at: usize) -> bool
    requires before { at + 16 ≤ length before.now }
    requires after { at + 16 ≤ length after.now }
    ensures { result ≡ true → (p : ℕ) → at ≤ p → p < at + 16 → IsSameByte before.now after.now p }
{
    let here = sixteen(before, at);
    let there = sixteen(after, at);
    if !are_same(here, there) {
        return false;
    }
    are_ascii(here, there)
}

/// How many bytes from the front are known to be the same, sixteen by sixteen.
fn same_sixteens(before: &[u8], after: &[u8], len: usize) -> usize
    requires before { len ≤ length before.now }
    requires after { len ≤ length after.now }
    ensures fits { result ≤ len }
    ensures same { (p : ℕ) → p < result → IsSameByte before.now after.now p }
{
    let mut place = 0usize;
    'sixteens: while 16 <= len - place {
        if !are_same_sixteen(before, after, place) {
            return place;
        }
        place += 16;
    }
    place
}

/// How many bytes from the front are known to be the same.
fn same_front(before: &[u8], after: &[u8]) -> usize
    ensures { (p : ℕ) → p < result → IsSameByte before.now after.now p }
{
    let len = before.len().min(after.len());
    let mut place = same_sixteens(before, after, len);
    'bytes: while place < len {
        if !is_same_byte(before, after, place) {
            return place;
        }
        place += 1;
    }
    place
}

/// From which place on as many bytes are known to be the same, sixteen by sixteen.
fn last_sixteens(before: &[u8], after: &[u8]) -> usize
    requires { length before.now ≡ length after.now }
    ensures fits { result ≤ length before.now }
    ensures same { (p : ℕ) → result ≤ p → p < length before.now → IsSameByte before.now after.now p }
{
    let mut end = before.len();
    'sixteens: while 16 <= end {
        if !are_same_sixteen(before, after, end - 16) {
            return end;
        }
        end -= 16;
    }
    end
}

/// From which place on as many bytes are known to be the same.
fn same_back(before: &[u8], after: &[u8]) -> usize
    requires { length before.now ≡ length after.now }
    ensures { (p : ℕ) → result ≤ p → p < length before.now → IsSameByte before.now after.now p }
{
    let mut end = last_sixteens(before, after);
    'bytes: while 0 < end {
        if !is_same_byte(before, after, end - 1) {
            return end;
        }
        end -= 1;
    }
    end
}

/// From which place on bytes are known to be the same, or none stand in either.
fn end_of(before: &[u8], after: &[u8]) -> usize
    ensures { (p : ℕ) → result ≤ p → IsSameByte before.now after.now p ⊎ ((length before.now ≤ p) × (length after.now ≤ p)) }
{
    if before.len() == after.len() {
        return same_back(before, after);
    }
    before.len().max(after.len())
}

/// A part of two lines outside which they are known to be the same.
pub fn differing(before: Columns<'_>, after: Columns<'_>) -> Part
    ensures { DifferWithin result.first result.end (columns_lent before.entry) (columns_lent after.entry) }
{
    let first = same_front(before.bytes, after.bytes);
    let end = end_of(before.bytes, after.bytes);
    Part { first, end }
}

/// Whether an item has no column in a part of a line.
#[inline(always)]
pub fn is_outside(item: &ItemShape, part: Part) -> bool
    ensures { result ≡ true → (item.now.start - 1 + item.now.len ≤ part.first) ⊎ (part.end ≤ item.now.start - 1) }
{
    let first = (item.start as usize).saturating_sub(1);
    if first + item.len as usize <= part.first {
        return true;
    }
    part.end <= first
}

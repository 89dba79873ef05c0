//! Whether columns are the same.
//!
//! Those that are compared here are few, and mostly ASCII: so their bytes are taken four at once, and then one by one, and what
//! stands beside them is looked at only where a byte isn't ASCII.

ghost use Rattle.std.specs.Prelude.{◌≡◌, ◌+◌, ◌≤◌, IfSome, drop, length, take, true};
ghost use Rattle.std.specs.Str.{IsAscii, bytes_eq};
ghost use Rattle.cse_case.specs.Bytes.{columns_lent};
ghost use Rattle.cse_case.specs.Same.{IsFront, IsSameFront, Tells};

use crate::columns::{Columns, number_of_four, piece};
use std::simd::prelude::*;

/// What bytes from the front tell of columns.
#[derive(Clone, Copy)]
enum Front {
    /// So many are the same.
    Same(usize),
    /// The columns aren't the same.
    Other,
    /// A byte isn't ASCII.
    Beyond,
}

/// Whether eight bytes, four here and four there, are ASCII.
#[inline(always)]
fn are_ascii(a: &[u8], b: &[u8]) -> bool
    requires left { length a.now ≡ 4 }
    requires right { length b.now ≡ 4 }
    ensures left { result ≡ true → IsAscii a.now }
    ensures right { result ≡ true → IsAscii b.now }
{
    let bytes = u8x4::from_slice(a) | u8x4::from_slice(b);
    bytes.simd_ge(u8x4::splat(128)).to_bitmask() == 0
}

/// What bytes tell four by four.
#[inline(always)]
fn by_fours(a: &[u8], b: &[u8]) -> Front
    requires { length a.now ≡ length b.now }
    ensures { IsFront a.now b.now result }
{
    let mut at = 0;
    'fours: while 4 <= a.len() - at {
        let left = piece(a, at, 4);
        let right = piece(b, at, 4);
        if !are_ascii(left, right) {
            return Front::Beyond;
        }
        if number_of_four(left) != number_of_four(right) {
            return Front::Other;
        }
        at += 4;
    }
    Front::Same(at)
}

/// Whether columns are the same, by their bytes from a place on, up to which these are the same, if those that tell it
/// are ASCII.
#[inline(always)]
fn told_from(a: &[u8], b: &[u8], front: usize) -> Option<bool>
    requires len { length a.now ≡ length b.now }
    requires front { IsSameFront a.now b.now front }
    ensures { IfSome result (λ same. Tells a.now b.now same) }
{
    'bytes: for i in front..a.len() {
        if a[i] | b[i] >= 128 {
            return None;
        }
        if a[i] != b[i] {
            return Some(false);
        }
    }
    Some(true)
}

/// Whether columns are the same, by their bytes, if those that tell it are ASCII.
#[inline(always)]
fn told_by(a: &[u8], b: &[u8]) -> Option<bool>
    requires { length a.now ≡ length b.now }
    ensures { IfSome result (λ same. Tells a.now b.now same) }
{
    match by_fours(a, b) {
        Front::Same(at) => told_from(a, b, at),
        Front::Other => Some(false),
        Front::Beyond => None,
    }
}

/// Whether as many columns are the same, one by one.
#[inline(never)]
fn are_same(a: Columns<'_>, b: Columns<'_>) -> bool
    requires { length (columns_lent a) ≡ length (columns_lent b) }
    ensures { result ≡ bytes_eq (columns_lent a.entry) (columns_lent b.entry) }
{
    'columns: for i in 0..a.len() {
        if a.at(i) != b.at(i) {
            return false;
        }
    }
    true
}

/// Whether so many columns from a place on are the same.
#[inline(always)]
pub fn is_same(a: Columns<'_>, b: Columns<'_>, first: usize, len: usize) -> bool
    requires left { first + len ≤ length (columns_lent a) }
    requires right { first + len ≤ length (columns_lent b) }
    ensures { result ≡ bytes_eq (take len (drop first (columns_lent a.entry))) (take len (drop first (columns_lent b.entry))) }
{
    match told_by(piece(a.bytes, first, len), piece(b.bytes, first, len)) {
        Some(same) => same,
        None => are_same(a.part(first, len), b.part(first, len)),
    }
}

//! Lists of numbers, one after the other. Memory is asked for as each number is read.

ghost use Rattle.std.specs.Prelude.{◌≡◌, FitsSigned};
ghost use Rattle.cse_image_parts.specs.Reader.{Gives, number, signed, each};

use crate::fault::ReadStop;
use crate::fields::{i64_at, u32_at};
use std::alloc::Global;

/// So many numbers of 64 bits.
pub fn i64s_at(alloc: Global, count: u32, bytes: &[u8]) -> Result<(Vec<i64>, &[u8]), ReadStop>
    ensures { Gives (λ x. (x.0.items, x.1.now)) result (each signed count bytes.now) }
{
    let mut numbers = Vec::new(alloc);
    let mut rest = bytes;
    for _ in 0..count {
        let (n, after) = i64_at(rest)?;
        numbers.push(n)?;
        rest = after;
    }
    Ok((numbers, rest))
}

/// So many numbers of 32 bits.
pub fn u32s_at(alloc: Global, count: u32, bytes: &[u8]) -> Result<(Vec<u32>, &[u8]), ReadStop>
    ensures { Gives (λ x. (x.0.items, x.1.now)) result (each (number 4) count bytes.now) }
{
    let mut numbers = Vec::new(alloc);
    let mut rest = bytes;
    for _ in 0..count {
        let (n, after) = u32_at(rest)?;
        numbers.push(n)?;
        rest = after;
    }
    Ok((numbers, rest))
}

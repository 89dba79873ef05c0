//! What is told of a device that moves few bytes in a call, or that fails.

use crate::device::Slow;
use crate::hello::HELLO;
use cse_command_images::try_image::{TryFault, try_to};
use cse_value::Writes;
use std::alloc::Global;

/// Whether it is told right that a writer took these bytes, where it takes at most so many in a call and fails at a call.
fn is_told(tried: Result<u64, TryFault>, taken: &[u8], most: usize, fails_at: u64) -> bool {
    let text = b"Hi\n2 steps\n".as_slice();
    match tried {
        Ok(steps) => steps == 2 && taken == text,
        Err(TryFault::Write) => (most == 0 || fails_at > 0) && text.starts_with(taken),
        Err(_) => false,
    }
}

/// Whether it is told right that such a writer fails, or doesn't.
fn is_failure_told(alloc: Global, most: usize, fails_at: u64) -> bool {
    let mut out = Writes::new(Slow::new(alloc, most, fails_at, 0));
    let tried = try_to(alloc, &HELLO, &mut out);
    is_told(tried, out.into_inner().taken(), most, fails_at)
}

/// How many of the first calls may fail, with this told right, where at most so many bytes are taken in a call.
fn count_told(alloc: Global, most: usize) -> u64 {
    for fails_at in 0..20 {
        if !is_failure_told(alloc, most, fails_at) {
            return fails_at;
        }
    }
    20
}

/// Whether each failure is told, where none, one or two bytes are taken in a call.
pub(crate) fn are_right(alloc: Global) -> bool {
    let mut are_right = true;
    for most in 0..3 {
        are_right &= count_told(alloc, most) == 20;
    }
    are_right
}

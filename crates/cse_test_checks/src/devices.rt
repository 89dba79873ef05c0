//! Devices: what a reader gave, and what a writer took. That a device which failed fails for good is a clause of both.

use cse_value::{Failed, Input, OutOfMemory, Output, Reads, Writes, write_all};
use std::alloc::{AllocError, Global};

/// Whether a reader gives three bytes, and then none.
fn is_read() -> bool {
    let mut input = Reads::new(b"abc".as_slice());
    let mut bytes = [0; 5];
    let first = input.read(&mut bytes);
    let second = input.read(&mut []);
    (first == Ok(3)) & (second == Ok(0)) & (bytes == *b"abc\0\0")
}

/// Whether a writer takes bytes, those of one write and those that are written whole.
fn is_taken(alloc: Global) -> bool {
    let mut out = Writes::new(Vec::new(alloc));
    let first = out.write(b"ab");
    let second = write_all(&mut out, b"cd");
    (first == Ok(2)) & (second == Ok(())) & (out.into_inner().as_slice() == b"abcd".as_slice())
}

/// Whether devices give and take what they should.
pub(crate) fn are_right(alloc: Global) -> bool {
    is_read() & is_taken(alloc) & (OutOfMemory::from(AllocError) == OutOfMemory)
}

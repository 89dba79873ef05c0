//! The first fault of a piece of logic that is read by itself.

use crate::cursor::byte_of;
use crate::found::Finding;
use crate::gathered::Gathered;
use cse_fault_numbers::WANT_OF_MEMORY;
use cse_syntax::parse;
use std::alloc::{AllocError, Global};

/// The first fault of a text.
fn fault_of(alloc: Global, text: &[u8]) -> Option<Finding> {
    let Ok(text) = str::from_utf8(text) else {
        return None;
    };
    match parse(alloc, text) {
        Ok(_) => None,
        Err(error) => Some(Finding {
            start: byte_of(
                text.as_bytes(),
                u64::from(error.line),
                u64::from(error.column),
            ),
            number: error.number,
        }),
    }
}

/// A text between two others.
fn joined(
    alloc: Global,
    before: &[u8],
    piece: &[u8],
    behind: &[u8],
) -> Result<Vec<u8>, AllocError> {
    let mut text = Gathered::new(alloc);
    for part in [before, piece, behind] {
        for byte in part {
            text.add(*byte);
        }
    }
    text.finish()
}

/// The first fault of a piece that is read between two texts. One behind it stands at its end.
pub fn fault_between(alloc: Global, before: &[u8], piece: &[u8], behind: &[u8]) -> Option<Finding> {
    let Ok(text) = joined(alloc, before, piece, behind) else {
        return Some(Finding {
            start: 0,
            number: WANT_OF_MEMORY,
        });
    };
    let Finding { start, number } = fault_of(alloc, &text)?;
    let start = start.saturating_sub(before.len()).min(piece.len());
    Some(Finding { start, number })
}

//! What is shown of the line of a place, and of its token.

use crate::cursor::{Cursor, is_start};
use crate::token::part;

/// How many bytes of a line are shown before a fault, and how many from it on.
const MOST: usize = 120;

/// How many bytes of a token are quoted.
const QUOTED: usize = 48;

/// The place, or the next one at which a character begins.
fn boundary(text: &[u8], place: usize) -> usize {
    let mut place = place;
    for byte in part(text, place, place.saturating_add(3)) {
        if is_start(*byte) {
            return place;
        }
        place = place.saturating_add(1);
    }
    place
}

/// The bytes of a token that are quoted.
pub fn quoted(text: &[u8], start: usize, end: usize) -> &[u8] {
    let most = start.saturating_add(QUOTED);
    if end <= most {
        return part(text, start, end);
    }
    part(text, start, boundary(text, most))
}

/// Where a line ends.
pub fn line_end(text: &[u8], start: usize) -> usize {
    let mut end = start;
    for byte in part(text, start, text.len()) {
        if *byte == b'\n' || *byte == b'\r' {
            return end;
        }
        end = end.saturating_add(1);
    }
    end
}

/// What is shown of the line before a place.
pub fn before<'a>(text: &'a [u8], cursor: &Cursor) -> &'a [u8] {
    let near = boundary(text, cursor.at.saturating_sub(MOST));
    part(text, near.max(cursor.line_start).min(cursor.at), cursor.at)
}

/// What is shown of it from the place on.
pub fn behind(text: &[u8], start: usize) -> &[u8] {
    let most = boundary(text, start.saturating_add(MOST)).min(text.len());
    let behind = part(text, start, most);
    part(behind, 0, line_end(behind, 0))
}

//! The lines of a text, and a text as UTF-8.

use crate::found::Finding;
use crate::gathered::Gathered;
use crate::token::part;
use cse_fault_numbers::UNREADABLE;
use cse_sections::text::is_utf8;
use std::alloc::{AllocError, Global};

/// A line of a text: its bytes from `start` up to `end`, without the sign of its end.
#[derive(Clone, Copy)]
pub struct Line {
    pub start: usize,
    pub end: usize,
}

/// How many bytes a byte order mark takes at the front.
pub fn mark_len(text: &[u8]) -> usize {
    if text.starts_with(b"\xef\xbb\xbf".as_slice()) {
        3
    } else {
        0
    }
}

/// A line that ends here, without a CR.
fn line_between(text: &[u8], start: usize, end: usize) -> Line {
    match part(text, start, end).last() {
        Some(b'\r') => Line {
            start,
            end: end.saturating_sub(1),
        },
        _ => Line { start, end },
    }
}

/// Adds the lines of a text.
fn add_lines(text: &[u8], lines: &mut Gathered<Line>) {
    let mut start = mark_len(text);
    for at in 0..text.len() {
        if text[at] == b'\n' {
            lines.add(line_between(text, start, at));
            start = at.saturating_add(1);
        }
    }
    if start < text.len() {
        lines.add(line_between(text, start, text.len()));
    }
}

/// The lines of a text.
pub fn lines_of(alloc: Global, text: &[u8]) -> Result<Vec<Line>, AllocError> {
    let mut lines = Gathered::new(alloc);
    add_lines(text, &mut lines);
    lines.finish()
}

/// The first byte beyond ASCII behind a place; the place where there is none.
fn first_beyond(bytes: &[u8], start: usize) -> usize {
    for at in 0..bytes.len() {
        if bytes[at] >= 128 {
            return start.saturating_add(at);
        }
    }
    start
}

/// Blanks in place of what is beyond ASCII.
fn blank_beyond(text: &mut [u8], start: usize, end: usize) {
    for at in start..end.min(text.len()) {
        if text[at] >= 128 {
            text[at] = b' ';
        }
    }
}

/// Blanks in place of what is no UTF-8 in a line, which is told.
fn blank_line(line: &Line, text: &mut [u8], found: &mut Gathered<Finding>) {
    let bytes = part(text, line.start, line.end);
    if !is_utf8(bytes) {
        found.add(Finding {
            start: first_beyond(bytes, line.start),
            number: UNREADABLE,
        });
        blank_beyond(text, line.start, line.end);
    }
}

/// Blanks in place of what is no UTF-8 in some lines, which are told.
fn blank_lines(lines: &[Line], text: &mut [u8], found: &mut Gathered<Finding>) {
    for line in lines {
        blank_line(line, text, found);
    }
}

/// A text without its byte order mark, and without what is no UTF-8: blanks stand there. The lines that had it are told.
pub fn as_utf8(
    alloc: Global,
    text: &[u8],
    found: &mut Gathered<Finding>,
) -> Result<Vec<u8>, AllocError> {
    let lines = lines_of(alloc, if is_utf8(text) { b"" } else { text })?;
    let mut kept = Vec::from_slice(alloc, text)?;
    blank_lines(&lines, &mut kept, found);
    blank_beyond(&mut kept, 0, mark_len(text));
    Ok(kept)
}

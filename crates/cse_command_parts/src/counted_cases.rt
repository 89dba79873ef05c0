//! How many cases begin in the bytes of a data file.

use cse_dict::Dictionary;
use cse_value::shape::{ID_OWNER, ItemShape};
use memchr::memchr_iter;
use std::alloc::{AllocError, Global};
use std::mem;

/// The most bytes that a character takes.
const CHARACTER: usize = 4;

/// What a line may have beside its columns: the byte order mark, and a carriage return.
const BESIDE: usize = 4;

/// The cases of a data file whose bytes come piece by piece. A case begins with a line whose id columns are other ones than
/// those of the line before (CSPro Users Guide, data files).
pub struct Cases {
    /// Whether a column is one of an id item, by its place from 0. Behind the last that is none stand.
    are_ids: Vec<bool>,
    /// The line that has not ended so far: the front of it that has the id columns.
    line: Vec<u8>,
    /// The id columns of a line, and those of the line before.
    ids: Vec<u8>,
    last_ids: Vec<u8>,
    /// Whether no line has ended so far.
    is_front: bool,
}

// Written out, so that one who owns it calls this drop and does not prove one for each part.
impl Drop for Cases {
    fn drop(self) {
        let Cases {
            are_ids: _are_ids,
            line: _line,
            ids: _ids,
            last_ids: _last_ids,
            is_front: _is_front,
        } = self;
    }
}

/// Notes the columns of an id item.
fn note_columns(are_ids: &mut Vec<bool>, item: &ItemShape) -> Result<(), AllocError> {
    let first = (item.start as usize).saturating_sub(1);
    let end = first.saturating_add(item.len as usize);
    if are_ids.len() < end {
        are_ids.resize(end, false)?;
    }
    for place in first..end {
        if let Some(is_id) = are_ids.get_mut(place) {
            *is_id = true;
        }
    }
    Ok(())
}

/// Whether a byte goes on with the character of the bytes before it.
fn goes_on(byte: u8) -> bool {
    byte & 0xc0 == 0x80
}

/// A line without its mark and without the carriage return at its end.
fn text_of(line: &[u8], is_front: bool) -> &[u8] {
    let text = match line {
        [0xef, 0xbb, 0xbf, text @ ..] if is_front => text,
        _ => line,
    };
    match text {
        [text @ .., b'\r'] => text,
        _ => text,
    }
}

/// Puts the id columns of a text in place of others. Past its end a line has blanks.
fn put_ids(ids: &mut Vec<u8>, are_ids: &[bool], text: &[u8]) -> Result<(), AllocError> {
    ids.clear();
    let mut columns = 0usize;
    for byte in text {
        if !goes_on(*byte) {
            if columns >= are_ids.len() {
                return Ok(());
            }
            columns = columns.saturating_add(1);
        }
        if let Some(true) = are_ids.get(columns.saturating_sub(1)) {
            ids.push(*byte)?;
        }
    }
    for is_id in are_ids.iter().skip(columns) {
        if *is_id {
            ids.push(b' ')?;
        }
    }
    Ok(())
}

impl Cases {
    /// No line has come so far.
    pub fn new(alloc: Global, dictionary: &Dictionary) -> Result<Cases, AllocError> {
        let mut are_ids = Vec::new(alloc);
        for item in &dictionary.shape().items {
            if item.owner == ID_OWNER {
                note_columns(&mut are_ids, item)?;
            }
        }
        Ok(Cases {
            are_ids,
            line: Vec::new(alloc),
            ids: Vec::new(alloc),
            last_ids: Vec::new(alloc),
            is_front: true,
        })
    }

    /// Holds bytes of the line, as long as id columns may be among them.
    fn hold(&mut self, bytes: &[u8]) -> Result<(), AllocError> {
        let most = self
            .are_ids
            .len()
            .saturating_mul(CHARACTER)
            .saturating_add(BESIDE);
        let room = most.saturating_sub(self.line.len()).min(bytes.len());
        self.line
            .extend_from_slice(bytes.get(..room).unwrap_or(bytes))
    }

    /// Ends the line. Tells whether it begins a case.
    fn end_line(&mut self) -> Result<bool, AllocError> {
        let is_front = self.is_front;
        put_ids(&mut self.ids, &self.are_ids, text_of(&self.line, is_front))?;
        self.line.clear();
        self.is_front = false;
        let is_other = is_front || self.ids.as_slice() != self.last_ids.as_slice();
        mem::swap(&mut self.ids, &mut self.last_ids);
        Ok(is_other)
    }

    /// Sees the bytes that follow. Tells how many lines that end in them begin a case.
    pub fn see(&mut self, bytes: &[u8]) -> Result<u64, AllocError> {
        let mut begun = 0u64;
        let mut first = 0usize;
        for end in memchr_iter(b'\n', bytes) {
            self.hold(bytes.get(first..end).unwrap_or(&[]))?;
            begun = begun.saturating_add(u64::from(self.end_line()?));
            first = end.saturating_add(1);
        }
        self.hold(bytes.get(first..).unwrap_or(&[]))?;
        Ok(begun)
    }
}

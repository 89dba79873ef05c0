//! The columns of a line.

use cse_case::{Columns, Lines};

/// The columns and the record of a line of a run, by its place from 0.
#[inline(always)]
pub fn line_at(lines: &Lines, place: usize) -> Option<(Columns<'_>, Option<u16>)> {
    let Some(line) = lines.lines.get(place).copied() else {
        return None;
    };
    let columns = lines.columns.columns();
    let Some(end) = line.first.checked_add(line.width) else {
        return None;
    };
    if end > columns.len() {
        return None;
    }
    Some((columns.part(line.first, line.width), line.record_number))
}

//! The tables of a terminal: columns side by side, as wide as their widest cell, by the columns that a terminal shows.

use crate::text::{Cell, Text};
use itoa::Buffer;
use unicode_segmentation::UnicodeSegmentation;
use unicode_width::UnicodeWidthStr;

/// The widest cell; what is longer is cut.
const MOST_WIDTH: usize = 40;

/// The most columns of a table.
const MOST_COLUMNS: usize = 8;

/// A table whose rows are given twice: first they are measured, and then they are written.
#[derive(Clone, Copy)]
pub struct Rows {
    widths: [usize; MOST_COLUMNS],
    pub are_measured: bool,
}

/// The front of a text that a terminal shows in `MOST_WIDTH` columns, without blanks behind it.
fn front_of(text: &str) -> &str {
    let mut len = 0usize;
    let mut width = 0usize;
    for piece in text.graphemes(true) {
        width = width.saturating_add(piece.width());
        if width > MOST_WIDTH {
            break;
        }
        len = len.saturating_add(piece.len());
    }
    match text.get(..len) {
        Some(front) => front.trim_ascii_end(),
        None => "",
    }
}

/// How many digits a number has.
fn digits_of(number: u64) -> usize {
    let mut buffer = Buffer::new();
    buffer.format(number).len()
}

/// How many characters a whole number has.
fn signed_room(number: i64) -> usize {
    digits_of(number.unsigned_abs()).saturating_add(usize::from(number < 0))
}

/// How many characters the first of columns and the last have.
fn columns_room(first: u64, count: u64) -> usize {
    let digits = digits_of(first);
    if count == 1 {
        return digits;
    }
    let last = first.saturating_add(count).saturating_sub(1);
    digits.saturating_add(digits_of(last)).saturating_add(1)
}

/// A cell as it is shown: texts are cut.
fn shown(cell: Cell<'_>) -> Cell<'_> {
    match cell {
        Cell::Text(text) => Cell::Text(front_of(text)),
        Cell::Right(text) => Cell::Right(front_of(text)),
        _ => cell,
    }
}

/// How many columns a cell takes, and whether it stands to the right.
fn room_of(cell: Cell<'_>) -> (usize, bool) {
    match cell {
        Cell::Text(text) => (text.width(), false),
        Cell::Right(text) => (text.width(), true),
        Cell::Number(number) => (digits_of(number), true),
        Cell::Percent(hundredths) => (digits_of(hundredths / 100).saturating_add(3), true),
        Cell::Signed(number) => (signed_room(number), true),
        Cell::Columns(first, count) => (columns_room(first, count), false),
        _ => (0, false),
    }
}

impl Rows {
    /// No rows.
    pub fn new() -> Rows {
        Rows {
            widths: [0; MOST_COLUMNS],
            are_measured: false,
        }
    }

    /// How many columns the widest cell of a column takes, once one of so many is measured.
    fn widest(&mut self, column: usize, width: usize) -> usize {
        match self.widths.get_mut(column) {
            Some(widest) => {
                *widest = width.max(*widest);
                *widest
            }
            None => width,
        }
    }

    /// Measures a row, or writes it once all are measured, without blanks at its end.
    pub fn row(&mut self, out: &mut Text, cells: &[Cell<'_>]) {
        let mut blanks = 0usize;
        for column in 0..cells.len() {
            let cell = shown(cells[column]);
            let (width, is_right) = room_of(cell);
            let room = self.widest(column, width).saturating_sub(width);
            let (before, behind) = if is_right { (room, 0) } else { (0, room) };
            blanks = blanks.saturating_add(before);
            if self.are_measured && width > 0 {
                put_behind(out, blanks, cell);
                blanks = 0;
            }
            blanks = blanks.saturating_add(behind).saturating_add(2);
        }
        if self.are_measured {
            out.put("\n");
        }
    }
}

/// Writes a cell behind so many blanks.
fn put_behind(out: &mut Text, blanks: usize, cell: Cell<'_>) {
    for _ in 0..blanks {
        out.put(" ");
    }
    out.put_cell(cell);
}

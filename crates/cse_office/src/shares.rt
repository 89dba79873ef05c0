//! The values of items: how often each was written by a change, and how often it stands where nothing was changed.

use crate::item::column_at;
use cse_case::Columns;
use cse_value::shape::{ID_OWNER, ItemKind, ItemShape};
use std::alloc::{AllocError, Global};

/// The cells of an item: a number of two columns, or the tens of one of three; blanks; and all else.
pub const CELLS: usize = 102;

/// The cell of blanks.
pub const BLANK: usize = 100;

/// The cell of all else.
pub const OTHER: usize = 101;

/// The most columns of an item whose values are counted.
const MOST_COLUMNS: u16 = 3;

/// How often a value was written by a change, and how often it stands unchanged.
#[derive(Clone, Copy)]
pub struct Share {
    pub imputed: u64,
    pub observed: u64,
}

/// No value.
const NONE: Share = Share {
    imputed: 0,
    observed: 0,
};

/// The shares of all cells, item by item.
pub struct Shares {
    /// Where the cells of each item begin, if it has some; none where nothing is counted.
    firsts: Vec<Option<usize>>,
    cells: Vec<Share>,
}

// Written out, so that one who owns it calls this drop and does not prove one for each part.
impl Drop for Shares {
    fn drop(self) {
        let Shares {
            firsts: _firsts,
            cells: _cells,
        } = self;
    }
}

/// Whether the values of an item are counted: those of a number of few columns that is no id item.
fn has_cells(item: &ItemShape) -> bool {
    item.kind == ItemKind::Number && item.owner != ID_OWNER && item.len <= MOST_COLUMNS
}

/// The cell of a digit behind others.
fn cell_behind(cell: usize, column: char) -> usize {
    match column {
        '0'..='9' if cell < OTHER => cell
            .saturating_mul(10)
            .saturating_add((column as usize).saturating_sub(48)),
        ' ' if cell == 0 => 0,
        _ => OTHER,
    }
}

/// The cell of the value in a line.
fn cell_of(item: &ItemShape, columns: Columns<'_>) -> usize {
    let first = (item.start as usize).saturating_sub(1);
    let mut cell = 0usize;
    let mut is_blank = true;
    for place in first..first.saturating_add(item.len as usize) {
        let column = column_at(columns, place);
        is_blank = is_blank && column == ' ';
        if place < first.saturating_add(2) {
            cell = cell_behind(cell, column);
        } else if !column.is_ascii_digit() {
            cell = OTHER;
        }
    }
    if is_blank { BLANK } else { cell }
}

impl Shares {
    /// No values so far, of items that are counted, or of none.
    pub fn new(alloc: Global, items: &[ItemShape]) -> Result<Shares, AllocError> {
        let mut firsts = Vec::new(alloc);
        let mut count = 0usize;
        for item in items {
            let has_cells = has_cells(item);
            firsts.push(if has_cells { Some(count) } else { None })?;
            count = count.saturating_add(if has_cells { CELLS } else { 0 });
        }
        let mut cells = Vec::new(alloc);
        cells.resize(count, NONE)?;
        Ok(Shares { firsts, cells })
    }

    /// Whether nothing is counted.
    pub fn is_empty(&self) -> bool {
        self.firsts.is_empty()
    }

    /// Where the cells of an item begin, if it has some.
    fn first_of(&self, item: usize) -> Option<usize> {
        self.firsts.get(item).copied().unwrap_or(None)
    }

    /// Counts the value of an item in a line that was written.
    pub fn add(&mut self, number: usize, item: &ItemShape, after: Columns<'_>, is_changed: bool) {
        let Some(first) = self.first_of(number) else {
            return;
        };
        let place = first.saturating_add(cell_of(item, after));
        if let Some(share) = self.cells.get_mut(place) {
            share.imputed = share.imputed.saturating_add(u64::from(is_changed));
            share.observed = share.observed.saturating_add(u64::from(!is_changed));
        }
    }

    /// How often the value of a cell was written by a change, and how often it stands unchanged.
    pub fn cell(&self, item: usize, cell: usize) -> Share {
        match self.first_of(item) {
            Some(first) => {
                let place = first.saturating_add(cell);
                self.cells.get(place).copied().unwrap_or(NONE)
            }
            None => NONE,
        }
    }

    /// How often this was so of all values of an item.
    pub fn sum(&self, item: usize) -> Share {
        let mut sum = NONE;
        for cell in 0..CELLS {
            let share = self.cell(item, cell);
            sum.imputed = sum.imputed.saturating_add(share.imputed);
            sum.observed = sum.observed.saturating_add(share.observed);
        }
        sum
    }
}

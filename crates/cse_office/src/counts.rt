//! Lines and cases.

use cse_value::shape::{ItemShape, Shape};
use std::alloc::{AllocError, Global};

/// The items of a record, from one to behind another; how many of its lines the run has so far, and the most that it may have.
#[derive(Clone, Copy)]
struct Lot {
    first: usize,
    end: usize,
    seen: u16,
    most: u16,
}

/// How many lines and cases two files have, and how many of them were changed.
pub struct Counts {
    lots: Vec<Lot>,
    /// All lines.
    pub lines: u64,
    /// The lines in which an item was changed.
    pub changed_lines: u64,
    /// The runs with a seen line, and those of them in which an item was changed.
    pub cases: u64,
    pub changed_cases: u64,
    has_seen: bool,
    has_changed: bool,
}

// Written out, so that one who owns it calls this drop and does not prove one for each part.
impl Drop for Counts {
    fn drop(self) {
        let Counts {
            lots: _lots,
            lines: _lines,
            changed_lines: _changed_lines,
            cases: _cases,
            changed_cases: _changed_cases,
            has_seen: _has_seen,
            has_changed: _has_changed,
        } = self;
    }
}

/// Adds an item to its record.
fn put_item(lots: &mut [Lot], owner: usize, number: usize) {
    if owner < lots.len() {
        if lots[owner].end == 0 {
            lots[owner].first = number;
        }
        lots[owner].end = number.saturating_add(1);
    }
}

/// Adds the items to their records.
fn put_items(lots: &mut [Lot], items: &[ItemShape]) {
    for number in 0..items.len() {
        put_item(lots, items[number].owner as usize, number);
    }
}

/// The items of each record, which stand together.
fn lots_of(alloc: Global, shape: &Shape) -> Result<Vec<Lot>, AllocError> {
    let mut lots = Vec::new(alloc);
    for record in &shape.records {
        lots.push(Lot {
            first: 0,
            end: 0,
            seen: 0,
            most: record.max_records,
        })?;
    }
    put_items(&mut lots, &shape.items);
    Ok(lots)
}

impl Counts {
    /// Counts of nothing.
    pub fn new(alloc: Global, shape: &Shape) -> Result<Counts, AllocError> {
        Ok(Counts {
            lots: lots_of(alloc, shape)?,
            lines: 0,
            changed_lines: 0,
            cases: 0,
            changed_cases: 0,
            has_seen: false,
            has_changed: false,
        })
    }

    /// Begins a run.
    pub fn begin_run(&mut self) {
        for record in 0..self.lots.len() {
            self.lots[record].seen = 0;
        }
        self.has_seen = false;
        self.has_changed = false;
    }

    /// Ends a run.
    pub fn end_run(&mut self) {
        self.cases = self.cases.saturating_add(u64::from(self.has_seen));
        self.changed_cases = self
            .changed_cases
            .saturating_add(u64::from(self.has_changed));
    }

    /// Counts a line. If it is seen, tells the first item of its record, the one behind the last, and its occurrence, from 1.
    pub fn see(&mut self, record: Option<u16>) -> Option<(usize, usize, u16)> {
        self.lines = self.lines.saturating_add(1);
        let Some(record) = record else {
            return None;
        };
        let Some(lot) = self.lots.get_mut(record as usize) else {
            return None;
        };
        if lot.seen >= lot.most {
            return None;
        }
        lot.seen = lot.seen.saturating_add(1);
        self.has_seen = true;
        Some((lot.first, lot.end, lot.seen))
    }

    /// How many lines of a record the run has so far that are seen.
    pub fn seen(&self, record: usize) -> u64 {
        match self.lots.get(record) {
            Some(lot) => u64::from(lot.seen),
            None => 0,
        }
    }

    /// Counts a line in which an item was changed.
    pub fn count_changed_line(&mut self) {
        self.changed_lines = self.changed_lines.saturating_add(1);
        self.has_changed = true;
    }
}

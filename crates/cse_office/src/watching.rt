//! How two files are seen, run by run, and each change as a row: the line, its ids, the item, its occurrence, and its values before
//! and after.

ghost use Rattle.std.specs.Prelude.{◌≡◌, ◌<◌, OnOk, length};
ghost use Rattle.cse_office.specs.Changes.{AreLikes};
ghost use Rattle.cse_office.specs.Files.{IsCompared};

use crate::alike::is_known_like;
use crate::all_changes::Diff;
use crate::areas::put_field;
use crate::compared::compare_seen;
use crate::fault::SeenFault;
use crate::lines::RunLines;
use crate::names::Names;
use crate::part::{Part, differing, is_outside};
use crate::sheet::{LACKS_MEMORY, Sheet};
use crate::text::{Cell, Text};
use crate::watch::Watch;
use cse_case::Columns;
use cse_dict::Dictionary;
use cse_value::shape::{ID_OWNER, ItemShape};
use cse_value::{Input, Output};
use std::alloc::Global;

/// A comparison that is under way.
pub struct Watching<'w, 'a, W> {
    names: &'w Names<'a>,
    pub diff: Diff<'a>,
    /// A row for each change, where it is asked for.
    rows: Sheet<W>,
    /// The place behind the last id item.
    ids_end: usize,
    id: Text,
    before: Text,
    after: Text,
}

// Written out, so that one who owns it calls this drop and does not prove one for each part.
impl<'w, 'a, W: Drop> Drop for Watching<'w, 'a, W> {
    fn drop(self) {
        let Watching {
            names: _names,
            diff: _diff,
            rows: _rows,
            ids_end: _ids_end,
            id: _id,
            before: _before,
            after: _after,
        } = self;
    }
}

/// The place behind the last id item.
fn ids_end(items: &[ItemShape]) -> usize {
    let mut end = 0usize;
    for number in 0..items.len() {
        if items[number].owner == ID_OWNER {
            end = number.saturating_add(1);
        }
    }
    end
}

/// Whether an item has a column in the part in which two lines differ.
#[inline(always)]
fn may_differ(items: &[ItemShape], item: usize, part: Part) -> bool {
    match items.get(item) {
        Some(shape) => !is_outside(shape, part),
        None => false,
    }
}

impl<'w, 'a, W: Output + Drop> Watching<'w, 'a, W> {
    /// Nothing is compared so far.
    pub fn new(
        alloc: Global,
        names: &'w Names<'a>,
        diff: Diff<'a>,
        rows: Sheet<W>,
    ) -> Watching<'w, 'a, W> {
        let ids_end = ids_end(&diff.shape.items);
        let mut watching = Watching {
            names,
            diff,
            rows,
            ids_end,
            id: Text::new(alloc),
            before: Text::new(alloc),
            after: Text::new(alloc),
        };
        watching.put_heading();
        watching
    }

    /// What was changed, once all rows are written, and why not all were, by its number.
    pub fn finish(self) -> (Diff<'a>, Option<u8>) {
        let Watching {
            names: _names,
            diff,
            mut rows,
            ids_end: _ids_end,
            id: _id,
            before: _before,
            after: _after,
        } = self;
        let failure = rows.finish();
        (diff, failure)
    }

    /// Writes what the columns of a row are.
    fn put_heading(&mut self) {
        self.rows.add(&[Cell::Text("line")]);
        for item in 0..self.ids_end {
            self.rows.add(&[Cell::Text(self.names.item_name(item))]);
        }
        self.rows.row(&[
            Cell::Text("item"),
            Cell::Text("occurrence"),
            Cell::Text("before"),
            Cell::Text("after"),
        ]);
    }

    /// Adds a number to the row.
    fn put_number(&mut self, number: u64) {
        self.id.clear();
        self.id.put_number(number);
        self.rows.add(&[Cell::Text(self.id.as_str())]);
    }

    /// Adds the ids of a line to the row.
    fn put_ids(&mut self, columns: Columns<'_>) {
        let shape = self.diff.shape;
        for id in 0..self.ids_end {
            if id < shape.items.len() {
                self.id.clear();
                put_field(&mut self.id, &shape.items[id], columns);
                self.rows.add(&[Cell::Text(self.id.as_str())]);
            }
        }
    }

    /// Writes a change as a row, whose values are held.
    fn put_row(&mut self, item: usize, occurrence: u16, columns: Columns<'_>) {
        self.put_number(self.diff.counts.lines);
        self.put_ids(columns);
        self.rows.add(&[Cell::Text(self.names.item_name(item))]);
        self.put_number(u64::from(occurrence));
        self.rows.add(&[Cell::Text(self.before.as_str())]);
        self.rows.row(&[Cell::Text(self.after.as_str())]);
    }

    /// Counts a change of an item, and writes it as a row.
    fn add_change(
        &mut self,
        item: usize,
        occurrence: u16,
        before: Columns<'_>,
        after: Columns<'_>,
    ) {
        if let Some(shape) = self.diff.shape.items.get(item) {
            self.before.clear();
            put_field(&mut self.before, shape, before);
            self.after.clear();
            put_field(&mut self.after, shape, after);
        }
        self.diff
            .kinds
            .add(item, self.before.as_str(), self.after.as_str());
        self.diff.areas.count_change(item);
        if self.rows.is_asked() {
            self.put_row(item, occurrence, before);
        }
    }

    /// Compares a line with the one beside it, which is known to be the same or not.
    fn add_line(
        &mut self,
        record: Option<u16>,
        is_same: bool,
        before: Columns<'_>,
        after: Columns<'_>,
    ) {
        let Some((first, end, occurrence)) = self.diff.counts.see(record) else {
            return;
        };
        if is_same && self.diff.shares.is_empty() {
            return;
        }
        let part = if is_same {
            Part::NONE
        } else {
            differing(before, after)
        };
        let shape = self.diff.shape;
        let sees_all = !self.diff.shares.is_empty();
        let mut changes = 0u64;
        for item in first..end {
            if (sees_all || may_differ(&shape.items, item, part))
                && self.diff.see_item(item, part, before, after)
            {
                self.add_change(item, occurrence, before, after);
                changes = changes.saturating_add(1);
            }
        }
        if changes > 0 {
            self.diff.counts.count_changed_line();
            self.diff.areas.count_changed(changes);
        }
    }

    /// Compares a run with the one beside it, line by line, but for one that is known to be the same.
    fn add_runs(&mut self, before: &RunLines, after: &RunLines, likes: &[bool], is_alike: bool)
        requires likes { AreLikes likes.now before.now after.now }
        requires as_many { length before.now ≡ length after.now }
    {
        if is_alike && self.diff.shares.is_empty() {
            for place in 0..before.len() {
                self.diff.counts.see(before.record(place));
            }
            return;
        }
        for place in 0..before.len() {
            self.add_line(
                before.record(place),
                is_known_like(likes, before, after, place),
                before.columns(place),
                after.columns(place),
            );
        }
    }

    /// Why the comparison can't go on, by its number: want of memory, or rows that are not written.
    fn failure(&self) -> Option<u8> {
        if self.before.has_given_up() || self.after.has_given_up() || self.id.has_given_up() {
            return Some(LACKS_MEMORY);
        }
        if self.diff.kinds.lacks_memory || self.diff.areas.lacks_memory() {
            return Some(LACKS_MEMORY);
        }
        self.rows.failure()
    }
}

impl<'w, 'a, W: Output + Drop> Watch for Watching<'w, 'a, W> {
    type Fault = u8;

    fn see_runs(
        &mut self,
        before: &RunLines,
        after: &RunLines,
        likes: &[bool],
        is_alike: bool,
    ) -> Result<(), u8> {
        self.diff.counts.begin_run();
        if before.len() > 0 {
            let shape = self.diff.shape;
            self.diff.areas.enter(&shape.items, before.columns(0));
        }
        self.add_runs(before, after, likes, is_alike);
        self.diff.end_run(before.len());
        match self.failure() {
            Some(number) => Err(number),
            None => Ok(()),
        }
    }
}

/// Compares two files. Both are read once, and a run of each is held.
pub fn compare_watched<R: Input, S: Input, W: Output + Drop>(
    alloc: Global,
    dictionary: &Dictionary,
    read: &mut R,
    written: &mut S,
    watching: &mut Watching<'_, '_, W>,
) -> Result<(), SeenFault<u8>>
    ensures counts { OnOk result (IsCompared dictionary.now (R.given read.old) (R.given read.new)
        (S.given written.old) (S.given written.new) watching.new.diff.items.items) }
{
    match compare_seen(alloc, dictionary, read, written, watching) {
        Ok(items) => {
            watching.diff.items = items;
            Ok(())
        }
        Err(fault) => Err(fault),
    }
}

//! What was changed.

ghost use Rattle.std.specs.Prelude.{◌≡◌, slice_index_or};
ghost use Rattle.cse_office.specs.Changes.{no_count};

use crate::areas::{Area, Areas, SEEN};
use crate::count::Count;
use crate::counts::Counts;
use crate::item::is_changed;
use crate::kinds::Kinds;
use crate::names::Names;
use crate::part::{Part, is_outside};
use crate::shares::Shares;
use cse_case::Columns;
use cse_value::shape::{ItemShape, Shape};
use std::alloc::{AllocError, Global};

/// What was changed, so far.
pub struct Diff<'a> {
    pub shape: &'a Shape,
    /// How often each item occurs, and how often it was changed, by number.
    pub items: Vec<Count>,
    /// Lines and cases.
    pub(crate) counts: Counts,
    pub(crate) kinds: Kinds,
    pub(crate) areas: Areas,
    /// The values of items, where they are asked for.
    pub(crate) shares: Shares,
}

// Written out, so that one who owns it calls this drop and does not prove one for each part.
impl<'a> Drop for Diff<'a> {
    fn drop(self) {
        let Diff {
            shape: _shape,
            items: _items,
            counts: _counts,
            kinds: _kinds,
            areas: _areas,
            shares: _shares,
        } = self;
    }
}

impl<'a> Diff<'a> {
    /// Nothing is compared so far. Areas are told apart by id items, and the values of items are counted where they are asked for.
    pub fn new(
        alloc: Global,
        shape: &'a Shape,
        by: Vec<usize>,
        has_shares: bool,
    ) -> Result<Diff<'a>, AllocError> {
        let counts = Counts::new(alloc, shape)?;
        let items: &[ItemShape] = if has_shares { &shape.items } else { &[] };
        let shares = Shares::new(alloc, items)?;
        Ok(Diff {
            shape,
            items: Vec::new(alloc),
            counts,
            kinds: Kinds::new(alloc),
            areas: Areas::new(alloc, by),
            shares,
        })
    }

    /// How often an item occurs, and how often it was changed, by its number.
    #[tactic(auto, using(std::proofs::lemmas::List::get_or_past))]
    pub fn count_of(&self, item: usize) -> Count
        ensures { result ≡ slice_index_or self.now.items.items item no_count }
    {
        if item < self.items.len() {
            self.items[item]
        } else {
            Count {
                occurrences: 0,
                changed: 0,
            }
        }
    }

    /// How often an item occurs in an area, and how often it was changed there.
    pub fn count_in(&self, area: usize, item: usize) -> Count {
        let occurrences = match self.shape.items.get(item) {
            Some(shape) => self
                .areas
                .times(area, SEEN.saturating_add(shape.owner as usize)),
            None => 0,
        };
        Count {
            occurrences,
            changed: self.areas.times(area, item),
        }
    }

    /// All kinds of changes, by item, and of each item the most frequent first, as `Kinds::sorted` has them.
    pub fn kinds(&self) -> Result<Vec<(u64, u64, &[u8])>, AllocError> {
        self.kinds.sorted()
    }

    /// Whether areas are told apart.
    pub(crate) fn has_areas(&self) -> bool {
        !self.areas.items.is_empty()
    }

    /// All areas that have lines, by their values; the one of all others is the first.
    pub fn areas(&self, names: &Names<'_>) -> Result<Vec<Area>, AllocError> {
        self.areas.told(names)
    }

    /// Ends a run of so many lines, and counts them and those of each record in their area.
    pub(crate) fn end_run(&mut self, lines: usize) {
        self.counts.end_run();
        if !self.has_areas() {
            return;
        }
        self.areas.count_lines(lines as u64);
        for record in 0..self.shape.records.len() {
            self.areas.count_seen(record, self.counts.seen(record));
        }
    }

    /// Looks at an item of two lines, which differ in a part alone. Tells whether it is changed.
    pub(crate) fn see_item(
        &mut self,
        item: usize,
        part: Part,
        before: Columns<'_>,
        after: Columns<'_>,
    ) -> bool {
        let Some(shape) = self.shape.items.get(item) else {
            return false;
        };
        let changed = !is_outside(shape, part) && is_changed(shape, before, after);
        self.shares.add(item, shape, after, changed);
        changed
    }
}

//! A case: the lines of one run, read by a dictionary.

ghost use Rattle.std.specs.Prelude.{◌≡◌, ◌<◌, ◌≤◌, ◌+◌, ◌^◌, ℕ, Some, drop, length, take, IfOk};
ghost use Rattle.std.specs.Bool.{OnTrue, OnFalse};
ghost use Rattle.cse_value.specs.declared.shape.ItemKind.TheVariants.{Number as ANumber, Opaque as AnOpaque, Text as AText};
ghost use Rattle.cse_value.specs.Writing.{WritesAll, FailsAtErr};
ghost use Rattle.cse_value.specs.Gathering.{behind, Puts};
ghost use Rattle.cse_dict.specs.Sound.{IsSound};
ghost use Rattle.cse_case.specs.Run.{line_at, written_run};
ghost use Rattle.cse_case.specs.Seen.{is_case};
ghost use Rattle.cse_case.specs.Field.{IsItem, item_at};
ghost use Rattle.cse_case.specs.ItemEntry.{IsFor, IsThere, entry_columns};
ghost use Rattle.cse_case.specs.Bytes.{columns_lent};
ghost use Rattle.cse_case.specs.Own.{HoldsItems, IsSpanOf};

use crate::field::{
    ItemEntry, Part, columns_from, field_of, line_columns, whole_field, write_field,
};
use crate::items::Items;
use crate::number::{number_in, number_in_columns};
use crate::seen::{Table, fill_table};
use crate::span::ItemSpan;
use crate::text::text_of;
use crate::write::{mark, put_lines};
use crate::{Columns, Lines, Run};
use cse_dict::Unseen;
use cse_value::shape::{ID_OWNER, ItemKind, ItemShape};
use cse_value::{Failed, Gatherer, Num, Output, Text};
use std::alloc::AllocError;
use std::marker::Model;

/// A case: consecutive lines with equal id columns (CSPro Users Guide, data files), with the occurrences of
/// its records.
///
/// Occurrences count from 1, and records and items have the numbers of the dictionary. No call takes
/// memory.
pub struct Case<'a> {
    items: Items<'a>,
    /// The lines, their bytes as they came, and their columns.
    kept: Box<Lines>,
    /// Whether a line was written into.
    is_set: bool,
    marked: bool,
    first_line: u64,
    /// Its occurrences and its ids.
    table: Box<Table>,
}

impl<'a> Model for Case<'a> {
    ghost use Rattle.std.specs.Prelude.{List, ℕ};
    ghost use Rattle.cse_case.specs.Laid.{laid_lines};
    ghost use Rattle.cse_case.specs.Case.{CaseText};
    ghost use Rattle.cse_case.specs.Kept.{IsKept};

    ghost Value = { CaseText };

    ghost view = { λ c. record {
      dictionary = c.items;
      ids = c.table.value.ids.items;
      run = record { lines = laid_lines c.kept.value.columns c.kept.value.lines.items; marked = c.marked; first_line = c.first_line };
    } };

    ghost invariant = { λ c. IsKept c.items c.kept.value.columns c.kept.value.lines.items c.kept.value.bytes c.is_set c.first_line c.table.value.firsts.items c.table.value.spans.items c.table.value.unseen.items };
}

// Written out, so that a crate that owns a case calls this drop and does not prove one for each part.
impl<'a> Drop for Case<'a> {
    fn drop(self) {
        let Case {
            items: _items,
            kept: _kept,
            is_set: _is_set,
            marked: _marked,
            first_line: _first_line,
            table: _table,
        } = self;
    }
}

impl<'a> Case<'a> {
    ghost use Rattle.cse_case.specs.Case.{IsOccurrence, columns_at, items_of, number_at, place_of, places_of, records_of, text_at, types_of, unseen_lines, with_item, with_number, with_text};
    ghost use Rattle.cse_case.specs.Fit.{IsFit, line_width};
    ghost use Rattle.cse_case.specs.Own.{HoldsItems};

    /// The case of a run, of which the id columns lie with the table. Its occurrences are counted in `counts`, and its table
    /// is filled anew.
    pub(crate) fn new(
        items: Items<'a>,
        counts: &mut Vec<u16>,
        table: Box<Table>,
        run: Run,
    ) -> Result<Case<'a>, AllocError>
        requires some { 0 < length run.lines }
        requires wide { (place : ℕ) → place < length run.lines → length (line_at run place).columns ≡ line_width items (line_at run place) }
        requires few { run.first_line + length run.lines < 2 ^ 64 }
        ensures { IfOk result (λ c. c ≡ record { dictionary = items.entry; ids = table.value.ids.items; run = run }) }
    {
        let (kept, marked, first_line) = run.into_parts();
        let Some(kept) = kept else {
            unreachable!();
        };
        let mut table = table;
        fill_table(
            &mut table,
            counts,
            &items.dictionary().shape().records,
            &kept.lines,
            first_line,
        )?;
        Ok(Case {
            items,
            kept,
            is_set: false,
            marked,
            first_line,
            table,
        })
    }

    /// What it lies in, which is no longer needed: its table, and its lines with their columns.
    pub(crate) fn into_room(self) -> (Box<Table>, Box<Lines>) {
        let Case {
            items: _,
            kept,
            is_set: _,
            marked: _,
            first_line: _,
            table,
        } = self;
        (table, kept)
    }

    /// Whether the run has a line that is an occurrence of a record.
    pub fn is_case(&self) -> bool
        ensures { result ≡ is_case (records_of self.now) (types_of self.now.run.lines) }
    {
        self.table.unseen.len() < self.kept.lines.len()
    }

    /// How many lines the run has: one at least. The case fits its dictionary.
    pub fn lines(&self) -> u64
        ensures lines { result ≡ length self.now.run.lines }
        ensures fits { IsFit self.now }
    {
        self.kept.lines.len() as u64
    }

    /// The lines that are no occurrence, each with its number in the file.
    pub fn unseen(&self) -> &[(u64, Unseen)]
        ensures { result.now ≡ unseen_lines self.now }
    {
        &self.table.unseen
    }

    /// The columns of the id items, in the order of the dictionary, as the first line had them.
    pub fn ids(&self) -> &[char]
        ensures { result.now ≡ self.now.ids }
    {
        &self.table.ids
    }

    /// How many occurrences a record has.
    pub fn occurrences(&self, number: u16) -> u16
        requires { number < length (records_of self.now) }
        ensures { result ≡ length (places_of self.now number) }
    {
        let span = self.table.spans[number as usize];
        span.count
    }

    /// Whether a record has such an occurrence.
    pub fn has_occurrence(&self, number: u16, occurrence: u16) -> bool
        ensures there { OnTrue result (number < length (records_of self.now)) }
        ensures occurrence { OnTrue result (IsOccurrence self.now number occurrence) }
        ensures none { OnFalse result (number < length (records_of self.now) → IsOccurrence self.now number occurrence → ⊥) }
    {
        let records = &self.items.dictionary().shape().records;
        (number as usize) < records.len()
            && 0 < occurrence
            && occurrence <= self.occurrences(number)
    }

    /// Whether an item belongs to this record (to none: 255) and has this kind.
    pub fn has_item(&self, owner: u16, kind: ItemKind, item: u16) -> bool
        ensures item { OnTrue result (IsItem (items_of self.now) owner kind item) }
        ensures none { OnFalse result (IsItem (items_of self.now) owner kind item → ⊥) }
    {
        let items = &self.items.dictionary().shape().items;
        if item as usize >= items.len() {
            return false;
        }
        let found = self.item(item);
        u16::from(found.owner) == owner && found.kind == kind
    }

    /// An item of the dictionary, which is sound.
    fn item(&self, item: u16) -> &ItemShape
        requires { item < length (items_of self.now) }
        ensures item { result.now ≡ item_at (items_of self.now) item }
        ensures sound { IsSound self.now.dictionary }
    {
        &self.items.dictionary().shape().items[item as usize]
    }

    /// The columns of an item in the line at a place.
    fn columns_at(&self, place: usize, item: u16) -> Columns<'_>
        requires place { place < length self.now.run.lines }
        requires item { item < length (items_of self.now) }
        ensures columns { columns_lent result ≡ columns_at self.now place item }
        ensures number { (item_at (items_of self.now) item).kind ≡ ANumber → length (columns_lent result) ≤ 15 }
        ensures text { (item_at (items_of self.now) item).kind ≡ AText → length (columns_lent result) ≤ 255 }
    {
        let line = self.kept.lines[place];
        field_of(
            self.item(item),
            line_columns(self.kept.columns.columns(), line),
        )
    }

    /// The columns of an item in an occurrence of its record: the line has them all.
    #[inline(always)]
    fn own_part(&self, number: u16, occurrence: u16, item: u16) -> Part<'_>
        requires there { number < length (records_of self.now) }
        requires occurrence { IsOccurrence self.now number occurrence }
        requires item { item < length (items_of self.now) }
        requires owns { (item_at (items_of self.now) item).owner ≡ number }
        ensures within { result.start + result.len ≤ length (columns_lent result.columns) }
        ensures columns { take result.len (drop result.start (columns_lent result.columns)) ≡ columns_at self.now (place_of self.now number occurrence) item }
        ensures whole { result.len ≡ (item_at (items_of self.now) item).len }
        ensures some { 0 < result.len }
        ensures number { (item_at (items_of self.now) item).kind ≡ ANumber → result.len ≤ 15 }
        ensures text { (item_at (items_of self.now) item).kind ≡ AText → result.len ≤ 255 }
    {
        let span = self.table.spans[number as usize];
        let first = self.table.firsts[span.start + occurrence as usize - 1];
        whole_field(self.item(item), self.kept.columns.columns(), first)
    }

    /// The columns that begin with the line of an occurrence: each item of its record has all its columns there,
    /// counted from the first one of the line.
    #[inline(always)]
    pub fn line(&self, number: u16, occurrence: u16) -> Columns<'_>
        requires there { number < length (records_of self.now) }
        requires occurrence { IsOccurrence self.now number occurrence }
        ensures { HoldsItems self.now number occurrence (columns_lent result) }
    {
        let _shape = self.items.dictionary().shape();
        let span = self.table.spans[number as usize];
        let first = self.table.firsts[span.start + occurrence as usize - 1];
        columns_from(self.kept.columns.columns(), first)
    }

    /// The number in an item's columns, in the line at a place.
    #[tactic(auto, unfolding(crate::specs::Case::number_at))]
    fn number_at(&self, place: usize, item: u16) -> Num
        requires place { place < length self.now.run.lines }
        requires item { item < length (items_of self.now) }
        requires number { (item_at (items_of self.now) item).kind ≡ ANumber }
        ensures { result ≡ number_at self.now place item }
    {
        number_in_columns(
            self.columns_at(place, item),
            self.items.dictionary().code(item),
        )
    }

    /// The number of an item in an occurrence of its record.
    #[inline(always)]
    #[tactic(auto, unfolding(crate::specs::Case::number_at))]
    pub fn get_num(&self, number: u16, occurrence: u16, item: u16) -> Num
        requires occurrence { IsOccurrence self.now number occurrence }
        requires item { IsItem (items_of self.now) number ANumber item }
        ensures { result ≡ number_at self.now (place_of self.now number occurrence) item }
    {
        let own = self.own_part(number, occurrence, item);
        number_in(own.columns, own.start, own.len, &self.items, item)
    }

    /// The number of an item in an occurrence of its record, of which the line is at hand (`line`), with the columns of the
    /// item looked up before.
    #[inline(always)]
    #[tactic(auto, unfolding(crate::specs::Case::number_at))]
    pub fn number_in_line(
        &self,
        number: u16,
        occurrence: u16,
        span: &ItemSpan,
        line: Columns<'_>,
    ) -> Num
        requires item { IsItem (items_of self.now) number ANumber span.now.item }
        requires span { IsSpanOf (items_of self.now) span.now }
        requires line { HoldsItems self.now number occurrence (columns_lent line) }
        ensures { result ≡ number_at self.now (place_of self.now number occurrence) span.now.item }
    {
        let _item = self.item(span.item);
        number_in(
            line,
            span.start as usize,
            span.len as usize,
            &self.items,
            span.item,
        )
    }

    /// The columns of a text item in an occurrence of its record, where they stand: at most 255.
    #[tactic(auto, unfolding(crate::specs::Case::text_at))]
    pub fn text_columns(&self, number: u16, occurrence: u16, item: u16) -> Columns<'_>
        requires occurrence { IsOccurrence self.now number occurrence }
        requires item { IsItem (items_of self.now) number AText item }
        ensures columns { columns_lent result ≡ text_at self.now (place_of self.now number occurrence) item }
        ensures few { length (columns_lent result) ≤ 255 }
    {
        let own = self.own_part(number, occurrence, item);
        own.columns.part(own.start, own.len)
    }

    /// The text of an item in an occurrence of its record: all its columns.
    pub fn get_text(&self, number: u16, occurrence: u16, item: u16) -> Text
        requires occurrence { IsOccurrence self.now number occurrence }
        requires item { IsItem (items_of self.now) number AText item }
        ensures { result.items ≡ text_at self.now (place_of self.now number occurrence) item }
    {
        text_of(self.text_columns(number, occurrence, item))
    }

    /// The number of an id item, which is read from the first line.
    pub fn id_num(&self, item: u16) -> Num
        requires item { IsItem (items_of self.now) ID_OWNER ANumber item }
        ensures { result ≡ number_at self.now 0 item }
    {
        let _lines = self.lines();
        self.number_at(0, item)
    }

    /// The columns of a text id item in the first line, where they stand: at most 255.
    #[tactic(auto, unfolding(crate::specs::Case::text_at))]
    pub fn id_columns(&self, item: u16) -> Columns<'_>
        requires item { IsItem (items_of self.now) ID_OWNER AText item }
        ensures columns { columns_lent result ≡ text_at self.now 0 item }
        ensures few { length (columns_lent result) ≤ 255 }
    {
        let _lines = self.lines();
        self.columns_at(0, item)
    }

    /// The text of an id item, which is read from the first line: all its columns.
    pub fn id_text(&self, item: u16) -> Text
        requires item { IsItem (items_of self.now) ID_OWNER AText item }
        ensures { result.items ≡ text_at self.now 0 item }
    {
        text_of(self.id_columns(item))
    }

    /// Writes into an item of an occurrence of its record: the line has all its columns.
    #[inline(always)]
    fn set(&mut self, number: u16, occurrence: u16, item: u16, entry: ItemEntry<'_>)
        requires there { number < length (records_of self.old) }
        requires occurrence { IsOccurrence self.old number occurrence }
        requires item { item < length (items_of self.old) }
        requires owns { (item_at (items_of self.old) item).owner ≡ number }
        requires known { (item_at (items_of self.old) item).kind ≡ AnOpaque → ⊥ }
        requires entry { IsThere entry }
        requires kind { IsFor entry (item_at (items_of self.old) item).kind }
        ensures { self.new ≡ with_item self.old (place_of self.old number occurrence) item (entry_columns entry.entry (item_at (items_of self.old) item).len) }
    {
        let span = self.table.spans[number as usize];
        let first = self.table.firsts[span.start + occurrence as usize - 1];
        let shape = *self.item(item);
        self.is_set = true;
        write_field(&mut self.kept.columns, first, &shape, entry);
    }

    /// Writes a number into an item of an occurrence of its record, and changes nothing else.
    #[inline(never)]
    #[tactic(auto, unfolding(crate::specs::Case::with_number))]
    pub fn set_num(&mut self, number: u16, occurrence: u16, item: u16, value: Num)
        requires occurrence { IsOccurrence self.old number occurrence }
        requires item { IsItem (items_of self.old) number ANumber item }
        ensures changed { self.new ≡ with_number self.old number occurrence item value }
        ensures fits { IsFit self.new }
    {
        let entry = ItemEntry::Number {
            value,
            dictionary: self.items.dictionary(),
            item,
        };
        self.set(number, occurrence, item, entry);
        let _lines = self.lines();
    }

    /// Writes a text into an item of an occurrence of its record, cut to its columns or padded with
    /// blanks, and changes nothing else.
    #[inline(never)]
    #[tactic(auto, unfolding(crate::specs::Case::with_text))]
    pub fn set_text(&mut self, number: u16, occurrence: u16, item: u16, text: &Text)
        requires occurrence { IsOccurrence self.old number occurrence }
        requires item { IsItem (items_of self.old) number AText item }
        ensures changed { self.new ≡ with_text self.old number occurrence item text.now.items }
        ensures fits { IsFit self.new }
    {
        self.set(number, occurrence, item, ItemEntry::Words(text));
        let _lines = self.lines();
    }

    /// Puts the lines of the run into a buffer before a device: their bytes, where no line was written into.
    pub fn put_to<W: Output>(&self, gatherer: &mut Gatherer, out: &mut W)
        ensures { Puts (behind W.taken W.has_failed out.old gatherer.old) (behind W.taken W.has_failed out.new gatherer.new) (written_run self.now.run) }
    {
        gatherer.put(out, mark(self.marked));
        if self.is_set {
            put_lines(gatherer, out, self.kept.columns.columns(), &self.kept.lines);
        } else {
            gatherer.put(out, self.kept.bytes.as_slice());
        }
    }

    /// Writes the lines of the run: each as its columns without trailing blanks past its length in the
    /// file, and its own end. A line that was not written into is written as it came. At the front of the
    /// file the mark stands before it, where it was there. An error is 71 of a run.
    pub fn write_to<W: Output>(&self, out: &mut W) -> Result<(), Failed>
        ensures bytes { WritesAll result (W.taken out.old) (W.taken out.new) (written_run self.now.run) }
        ensures failed { FailsAtErr result (W.has_failed out.old) (W.has_failed out.new) }
    {
        let mut gatherer = Gatherer::new();
        self.put_to(&mut gatherer, out);
        gatherer.finish(out)
    }
}

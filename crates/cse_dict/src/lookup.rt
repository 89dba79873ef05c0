//! What a dictionary tells, without memory.
ghost use Rattle.std.specs.Prelude.{◌≡◌, ◌<◌, ◌≤◌, length, position, IfSome};
ghost use Rattle.std.specs.Option.{option_copied};
ghost use Rattle.std.specs.Str.{bytes_eq};
ghost use Rattle.cse_value.specs.Shape.{shape_lists};
ghost use Rattle.cse_dict.specs.Rows.{HasFewRows};
ghost use Rattle.cse_dict.specs.Sound.{IsSound};
ghost use Rattle.cse_dict.specs.Dictionary.{IsSmall, code_at, item_name_at, item_names, number_named, number_of_type, record_name_at, record_names, row_in, rows_at, set_name_at, set_names, shape_of, spans_at, zero_fill_at};

use crate::dictionary::Dictionary;
use crate::parts::{Record, Set};
use crate::small::row_of_whole;
use cse_value::number::Num;
use cse_value::shape::Shape;

/// Where the first record of this type stands.
fn place_of_type(records: &[Record], columns: &[char]) -> Option<usize>
    ensures { result ≡ position (λ r. bytes_eq r.record_type columns.now) records.now }
{
    records
        .iter()
        .position(|record| record.record_type.as_slice() == columns)
}

/// The row of the first pair that contains the number.
fn row_among(set: &Set, number: Num) -> Option<u32>
    ensures { result ≡ row_in number set.now.spans }
{
    match number {
        Num::Whole(whole) => row_of_whole(&set.small, &set.spans, set.is_ascending, whole),
        Num::NotAppl | Num::Missing | Num::Undef => None,
    }
}

/// The same, which is a row of the set.
fn row_in(set: &Set, number: Num) -> Option<u32>
    ensures row { result ≡ row_in number set.now.spans }
    ensures there { IfSome result (λ r. r < set.now.shape.rows) }
{
    let _ = &set.shape;
    row_among(set, number)
}

impl Dictionary {
    /// The name of the dictionary, in upper case.
    pub fn name(&self) -> &str
        ensures { result.now ≡ self.now.name }
    {
        self.name.as_str()
    }

    /// The name of the level, in upper case.
    pub fn level_name(&self) -> &str
        ensures { result.now ≡ self.now.level_name }
    {
        self.level_name.as_str()
    }

    /// The first column of the record type, counted from 1, and how many it has; 0 and 0 where it has
    /// none.
    pub fn type_columns(&self) -> (u32, u32)
        ensures { result ≡ (self.now.type_columns.start, self.now.type_columns.len) }
    {
        (self.type_columns.start, self.type_columns.len)
    }

    /// The records, items and sets, as a program must know them. Whoever has a dictionary has a sound one.
    pub fn shape(&self) -> &Shape
        ensures shape { shape_lists result.now ≡ shape_of self.now }
        ensures small { IsSmall self.now }
        ensures sound { IsSound self.now }
        ensures rows { HasFewRows self.now }
    {
        &self.shape
    }

    /// The number of the record with this type, the columns of the record type padded with blanks.
    pub fn record_of(&self, columns: &[char]) -> Option<u16>
        ensures record { result ≡ number_of_type columns.now self.now }
        ensures there { IfSome result (λ n. n < length self.now.records) }
    {
        let place = place_of_type(&self.records, columns)?;
        Some(place as u16)
    }

    /// The number of the record with this name, in any letter case.
    pub fn find_record(&self, name: &str) -> Option<u16>
        ensures record { result ≡ number_named name.now (record_names self.now) }
        ensures there { IfSome result (λ n. n < length self.now.records) }
    {
        self.record_places.find(name)
    }

    /// The number of the item with this name, in any letter case.
    pub fn find_item(&self, name: &str) -> Option<u16>
        ensures item { result ≡ number_named name.now (item_names self.now) }
        ensures there { IfSome result (λ n. n < length self.now.items) }
    {
        self.item_places.find(name)
    }

    /// The number of the value set with this name, in any letter case.
    pub fn find_set(&self, name: &str) -> Option<u16>
        ensures set { result ≡ number_named name.now (set_names self.now) }
        ensures there { IfSome result (λ n. n < length self.now.sets) }
    {
        self.set_places.find(name)
    }

    /// The name of a record, in upper case.
    pub fn record_name(&self, number: u16) -> &str
        requires { number < length self.now.records }
        ensures { result.now ≡ record_name_at self.now number }
    {
        self.records[number as usize].name.as_str()
    }

    /// The name of an item, in upper case.
    pub fn item_name(&self, item: u16) -> &str
        requires { item < length self.now.items }
        ensures { result.now ≡ item_name_at self.now item }
    {
        self.items[item as usize].name.as_str()
    }

    /// The name of a value set, in upper case.
    pub fn set_name(&self, set: u16) -> &str
        requires { set < length self.now.sets }
        ensures { result.now ≡ set_name_at self.now set }
    {
        self.sets[set as usize].name.as_str()
    }

    /// The code of `missing` of an item (own key `EditMissing`), which only numbers that aren't opaque
    /// have.
    pub fn code(&self, item: u16) -> Option<i64>
        requires { item < length self.now.items }
        ensures { result ≡ code_at self.now item }
    {
        let item = &self.items[item as usize];
        item.code
    }

    /// Whether an item is written with zeros in front.
    pub fn zero_fill(&self, item: u16) -> bool
        requires { item < length self.now.items }
        ensures { result ≡ zero_fill_at self.now item }
    {
        let item = &self.items[item as usize];
        item.zero_fill
    }

    /// The row of a number in a value set, counted from 0: the first row with a pair that contains it.
    /// Special values have none. Where the pairs of the set ascend, as CSPro writes them, the search
    /// takes as many steps as their number has binary digits; else it goes over them in order.
    pub fn row_of(&self, set: u16, number: Num) -> Option<u32>
        requires { set < length self.now.sets }
        ensures row { result ≡ row_in number (spans_at self.now set) }
        ensures there { IfSome result (λ r. r < rows_at self.now set) }
    {
        row_in(&self.sets[set as usize], number)
    }
}

/// A line that is no occurrence of its run.
#[derive(Clone, Copy)]
pub enum Unseen {
    /// Its record type is no record's.
    Unknown,
    /// It is past the most occurrences of its record.
    Extra,
}

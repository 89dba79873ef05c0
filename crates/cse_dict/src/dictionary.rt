//! A dictionary, and how it is read.
ghost use Rattle.std.specs.Prelude.{◌≡◌, ℕ, ◌≤◌, length, [], ◌∷◌, None, map, find, unwrap_or, OnOk, IfOk, IfErr};
ghost use Rattle.cse_value.specs.Shape.{shape_lists};
ghost use Rattle.cse_sections.specs.Sections.{sections_of};
ghost use Rattle.std.specs.Option.{option_copied};
ghost use Rattle.std.specs.String.{string_bytes};
ghost use Rattle.cse_dict.specs.Faults.{faults_of, is_level, note_all};
ghost use Rattle.cse_dict.specs.Fields.{type_columns_of};
ghost use Rattle.cse_dict.specs.Reading.{IsAnswer, IsNoted, text_faults};
ghost use Rattle.cse_dict.specs.Kept.{IsKept};
ghost use Rattle.cse_dict.specs.Rows.{HasFewRows};
ghost use Rattle.cse_dict.specs.Sound.{IsSound};
ghost use Rattle.cse_dict.specs.Context.{covered_by, no_context};
ghost use Rattle.cse_dict.specs.Dictionary.{DictionaryText, IsSmall, dictionary_of, items_from, level_name_of, name_at, no_columns, places_from};

use crate::context::covered_by;
use crate::fault::DictError;
use crate::field::{Columns, type_columns_of};
use crate::parts::{Item, Record, Set, items_of, name_at, records_of, sets_of};
use crate::places::{Places, item_places, record_places, set_places};
use crate::record_type::type_len_of;
use crate::whole::{is_level, least_fault, read_len};
use cse_fault_numbers::DICTIONARY_NOT_UTF8;
use cse_sections::sections::{Section, sections_of};
use cse_sections::text::is_utf8;
use cse_value::shape::{ItemShape, RecordShape, SetShape, Shape};
use std::alloc::{AllocError, Global};
use std::marker::Model;

/// A dictionary: the names of its file and level, the columns of the record type, and its records,
/// items and value sets, each numbered from 0 in order of appearance.
pub struct Dictionary {
    pub(crate) name: String,
    pub(crate) level_name: String,
    pub(crate) type_columns: Columns,
    pub(crate) records: Vec<Record>,
    pub(crate) items: Vec<Item>,
    pub(crate) sets: Vec<Set>,
    pub(crate) record_places: Places,
    pub(crate) item_places: Places,
    pub(crate) set_places: Places,
    pub(crate) shape: Shape,
}

impl Model for Dictionary {
    ghost Value = { DictionaryText };

    ghost view = { λ d. record {
      name = string_bytes d.name;
      level_name = string_bytes d.level_name;
      type_columns = d.type_columns;
      records = d.records.items;
      items = d.items.items;
      sets = d.sets.items;
    } };

    ghost invariant = { λ d. IsKept (record {
      name = string_bytes d.name;
      level_name = string_bytes d.level_name;
      type_columns = d.type_columns;
      records = d.records.items;
      items = d.items.items;
      sets = d.sets.items;
    }) d.record_places d.item_places d.set_places (shape_lists d.shape) };
}

// Written out, so that a crate that owns a dictionary calls this drop and does not prove one for each part.
impl Drop for Dictionary {
    fn drop(self) {
        let Dictionary {
            name: _name,
            level_name: _level_name,
            type_columns: _type_columns,
            records: _records,
            items: _items,
            sets: _sets,
            record_places: _record_places,
            item_places: _item_places,
            set_places: _set_places,
            shape: _shape,
        } = self;
    }
}

/// The shapes of records.
fn record_shapes(alloc: Global, records: &[Record]) -> Result<Vec<RecordShape>, AllocError>
    ensures { IfOk result (λ v. v.items ≡ map (λ r. r.shape) records.now) }
{
    let mut shapes = Vec::new(alloc);
    'records: for record in records {
        shapes.push(record.shape)?;
    }
    Ok(shapes)
}

/// The shapes of items.
fn item_shapes(alloc: Global, items: &[Item]) -> Result<Vec<ItemShape>, AllocError>
    ensures { IfOk result (λ v. v.items ≡ map (λ i. i.shape) items.now) }
{
    let mut shapes = Vec::new(alloc);
    'items: for item in items {
        shapes.push(item.shape)?;
    }
    Ok(shapes)
}

/// The shapes of value sets.
fn set_shapes(alloc: Global, sets: &[Set]) -> Result<Vec<SetShape>, AllocError>
    ensures { IfOk result (λ v. v.items ≡ map (λ s. s.shape) sets.now) }
{
    let mut shapes = Vec::new(alloc);
    'sets: for set in sets {
        shapes.push(set.shape)?;
    }
    Ok(shapes)
}

/// The first level.
fn level_of<'s, 'a>(read: &'s [Section<'a>]) -> Option<&'s Section<'a>>
    ensures { option_copied result ≡ find is_level read.now }
{
    read.iter().find(|section| is_level(section))
}

/// The name of the level.
#[tactic(auto, unfolding(crate::specs::Dictionary::level_name_of))]
fn level_name_of(alloc: Global, read: &[Section<'_>]) -> Result<String, AllocError>
    ensures { IfOk result (λ s. string_bytes s ≡ level_name_of read.now) }
{
    match level_of(read) {
        Some(level) => name_at(alloc, level),
        None => Ok(String::new(alloc)),
    }
}

/// The columns of the record type, or 0 and 0.
fn type_columns_or_none(first: &Section<'_>) -> Columns
    ensures { result ≡ unwrap_or (type_columns_of first.now) no_columns }
{
    match type_columns_of(first) {
        Some(columns) => columns,
        None => Columns { start: 0, len: 0 },
    }
}

/// The shapes of all.
fn shape_of(
    alloc: Global,
    records: &[Record],
    items: &[Item],
    sets: &[Set],
) -> Result<Shape, AllocError>
    ensures { IfOk result (λ shape. shape_lists shape ≡ record {
      records = map (λ r. r.shape) records.now;
      items = map (λ i. i.shape) items.now;
      sets = map (λ s. s.shape) sets.now;
    }) }
{
    let records = record_shapes(alloc, records)?;
    let items = item_shapes(alloc, items)?;
    let sets = set_shapes(alloc, sets)?;
    Ok(Shape {
        records,
        items,
        sets,
    })
}

/// What stands at the names of records, items and value sets.
fn places_of(
    alloc: Global,
    records: &[Record],
    items: &[Item],
    sets: &[Set],
) -> Result<(Places, Places, Places), AllocError>
    requires records { length records.now ≤ 200 }
    requires items { length items.now ≤ 10000 }
    requires sets { length sets.now ≤ 10000 }
    ensures { IfOk result (λ p. p ≡ (
      places_from [] 0 (map (λ r. r.name) records.now),
      places_from [] 0 (map (λ i. i.name) items.now),
      places_from [] 0 (map (λ s. s.name) sets.now),
    )) }
{
    let records = record_places(alloc, records)?;
    let items = item_places(alloc, items)?;
    let sets = set_places(alloc, sets)?;
    Ok((records, items, sets))
}

/// A dictionary of its parts. What can fail is asked of two functions, since each exit drops all parts.
fn dictionary_with(
    alloc: Global,
    names: (String, String),
    type_columns: Columns,
    records: Vec<Record>,
    items: Vec<Item>,
    sets: Vec<Set>,
) -> Result<Dictionary, AllocError>
    requires sound { IsSound (record {
      name = string_bytes names.0;
      level_name = string_bytes names.1;
      type_columns = type_columns;
      records = records.items;
      items = items.items;
      sets = sets.items;
    }) }
    requires rows { HasFewRows (record {
      name = string_bytes names.0;
      level_name = string_bytes names.1;
      type_columns = type_columns;
      records = records.items;
      items = items.items;
      sets = sets.items;
    }) }
    ensures { IfOk result (λ d. d ≡ record {
      name = string_bytes names.0;
      level_name = string_bytes names.1;
      type_columns = type_columns;
      records = records.items;
      items = items.items;
      sets = sets.items;
    }) }
{
    let shape = shape_of(alloc, &records, &items, &sets)?;
    let (record_places, item_places, set_places) = places_of(alloc, &records, &items, &sets)?;
    let (name, level_name) = names;
    Ok(Dictionary {
        name,
        level_name,
        type_columns,
        records,
        items,
        sets,
        record_places,
        item_places,
        set_places,
        shape,
    })
}

/// The names of the dictionary and of its level.
fn names_of(
    alloc: Global,
    first: &Section<'_>,
    read: &[Section<'_>],
) -> Result<(String, String), AllocError>
    ensures { IfOk result (λ names. (string_bytes names.0 ≡ name_at first.now) × (string_bytes names.1 ≡ level_name_of read.now)) }
{
    let name = name_at(alloc, first)?;
    let level_name = level_name_of(alloc, read)?;
    Ok((name, level_name))
}

/// The items of the sections behind the first one.
fn items_behind(
    alloc: Global,
    first: &Section<'_>,
    read: &[Section<'_>],
) -> Result<Vec<Item>, AllocError>
    ensures { IfOk result (λ v. v.items ≡ items_from (covered_by first.now read.now) no_context read.now) }
{
    let covered = covered_by(alloc, first, read)?;
    items_of(alloc, &covered, read)
}

/// The dictionary of a first section and those behind it.
#[tactic(auto, unfolding(crate::specs::Dictionary::dictionary_of, crate::specs::Faults::read_part))]
fn dictionary_behind(
    alloc: Global,
    first: &Section<'_>,
    rest: &[Section<'_>],
) -> Result<Dictionary, AllocError>
    requires sound { IsSound (dictionary_of (first.now ∷ rest.now)) }
    requires rows { HasFewRows (dictionary_of (first.now ∷ rest.now)) }
    ensures { IfOk result (λ d. d ≡ dictionary_of (first.now ∷ rest.now)) }
{
    let read = &rest[..read_len(rest)];
    let names = names_of(alloc, first, read)?;
    let type_columns = type_columns_or_none(first);
    let records = records_of(alloc, type_len_of(first), read)?;
    let items = items_behind(alloc, first, read)?;
    let sets = sets_of(alloc, read)?;
    dictionary_with(alloc, names, type_columns, records, items, sets)
}

/// The dictionary of sections without a fault.
fn dictionary_of(alloc: Global, sections: &[Section<'_>]) -> Result<Dictionary, AllocError>
    requires { faults_of sections.now ≡ [] }
    ensures { IfOk result (λ d. d ≡ dictionary_of sections.now) }
{
    let [first, rest @ ..] = sections else {
        unreachable!();
    };
    dictionary_behind(alloc, first, rest)
}

/// Want of memory.
const WANT_OF_MEMORY: DictError = DictError {
    number: cse_fault_numbers::WANT_OF_MEMORY,
    line: 0,
};

/// The sections of a text without a fault, or its least fault.
#[tactic(auto, unfolding(crate::specs::Reading::text_faults))]
fn sound_sections(alloc: Global, text: &[u8]) -> Result<Vec<Section<'_>>, DictError>
    ensures sections { IfOk result (λ v. v.items ≡ sections_of text.now) }
    ensures sound { OnOk result (note_all None (text_faults text.now) ≡ None) }
    ensures fault { IfErr result (λ error. IsNoted (text_faults text.now) error) }
{
    if !is_utf8(text) {
        return Err(DictError {
            number: DICTIONARY_NOT_UTF8,
            line: 0,
        });
    }
    let Ok(sections) = sections_of(alloc, text) else {
        return Err(WANT_OF_MEMORY);
    };
    match least_fault(alloc, &sections) {
        Ok(None) => Ok(sections),
        Ok(Some(fault)) => Err(fault),
        Err(_) => Err(WANT_OF_MEMORY),
    }
}

impl Dictionary {
    /// The dictionary of a text, or the least of its faults by line and then by number; want of memory
    /// is 90.
    pub fn read(alloc: Global, text: &[u8]) -> Result<Dictionary, DictError>
        ensures dictionary { IfOk result (λ d. d ≡ dictionary_of (sections_of text.now)) }
        ensures sound { OnOk result (text_faults text.now ≡ []) }
        ensures small { IfOk result (λ d. IsSmall d) }
        ensures fault { IfErr result (λ error. IsAnswer text.now error) }
    {
        let sections = match sound_sections(alloc, text) {
            Ok(sections) => sections,
            Err(error) => return Err(error),
        };
        match dictionary_of(alloc, &sections) {
            Ok(dictionary) => Ok(dictionary),
            Err(_) => Err(WANT_OF_MEMORY),
        }
    }
}

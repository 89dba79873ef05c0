//! A dictionary with its text: names, and what stands at the keys of its sections, as `Label`, of which the first language is told.

ghost use Rattle.std.specs.Prelude.{◌<◌, IfSome, length};

use crate::spelled::{first_language, label_of_row, label_of_text, text_of, value_at};
use cse_dict::Dictionary;
use cse_sections::number::whole_of;
use cse_sections::sections::{Section, sections_of};
use cse_sections::text::{is_same, trimmed};
use cse_value::number::Num;
use std::alloc::{AllocError, Global};

/// A dictionary, the sections of its text, and where its records and items stand among these. These are numbered from 0 in order
/// of appearance.
pub struct Names<'a> {
    pub dictionary: &'a Dictionary,
    pub sections: Vec<Section<'a>>,
    records: Vec<usize>,
    items: Vec<usize>,
}

// Written out, so that one who owns it calls this drop and does not prove one for each part.
impl<'a> Drop for Names<'a> {
    fn drop(self) {
        let Names {
            dictionary: _dictionary,
            sections: _sections,
            records: _records,
            items: _items,
        } = self;
    }
}

/// Finds where the sections with a heading stand. Answers whether memory lacks.
fn find_places(places: &mut Vec<usize>, sections: &[Section<'_>], heading: &[u8]) -> bool {
    let mut lacks_memory = false;
    for place in 0..sections.len() {
        let section = &sections[place];
        if is_same(section.heading, heading) {
            lacks_memory |= places.push(place).is_err();
        }
    }
    lacks_memory
}

/// Whether a section is a value set.
pub fn is_set(section: &Section<'_>) -> bool {
    is_same(section.heading, b"ValueSet")
}

/// The first value set, if no item stands before it.
fn set_before_item<'s, 'a>(sections: &'s [Section<'a>]) -> Option<&'s Section<'a>> {
    for section in sections {
        if is_set(section) {
            return Some(section);
        }
        if is_same(section.heading, b"Item") {
            return None;
        }
    }
    None
}

impl<'a> Names<'a> {
    /// The names and labels of a dictionary with its text.
    pub fn read(
        alloc: Global,
        dictionary: &'a Dictionary,
        text: &'a [u8],
    ) -> Result<Names<'a>, AllocError> {
        let mut names = Names {
            dictionary,
            sections: sections_of(alloc, text)?,
            records: Vec::new(alloc),
            items: Vec::new(alloc),
        };
        if names.find_all() {
            return Err(AllocError);
        }
        Ok(names)
    }

    /// Finds where records and items stand. Answers whether memory lacks.
    fn find_all(&mut self) -> bool {
        find_places(&mut self.records, &self.sections, b"Record")
            || find_places(&mut self.items, &self.sections, b"Item")
    }

    /// What stands at a key of the section that one of these places has.
    fn value_in(&self, places: &[usize], number: usize, key: &[u8]) -> &'a [u8] {
        let place = places.get(number).copied().unwrap_or(usize::MAX);
        match self.sections.get(place) {
            Some(section) => value_at(section, key),
            None => b"",
        }
    }

    /// The name of a record.
    pub fn record_name(&self, number: usize) -> &'a str {
        match u16::try_from(number) {
            Ok(record) if number < self.dictionary.shape().records.len() => {
                self.dictionary.record_name(record)
            }
            _ => "",
        }
    }

    /// The name of an item.
    pub fn item_name(&self, number: usize) -> &'a str {
        match u16::try_from(number) {
            Ok(item) if number < self.dictionary.shape().items.len() => {
                self.dictionary.item_name(item)
            }
            _ => "",
        }
    }

    /// The name of a value set.
    pub fn set_name(&self, number: usize) -> &'a str {
        match u16::try_from(number) {
            Ok(set) if number < self.dictionary.shape().sets.len() => self.dictionary.set_name(set),
            _ => "",
        }
    }

    /// The label of a record.
    pub fn record_label(&self, number: usize) -> &'a str {
        first_language(self.value_in(&self.records, number, b"Label"))
    }

    /// The label of an item.
    pub fn item_label(&self, number: usize) -> &'a str {
        first_language(self.value_in(&self.items, number, b"Label"))
    }

    /// What stands at another key of a record.
    pub fn record_key(&self, number: usize, key: &[u8]) -> &'a str {
        text_of(self.value_in(&self.records, number, key))
    }

    /// What stands at another key of an item.
    pub fn item_key(&self, number: usize, key: &[u8]) -> &'a [u8] {
        self.value_in(&self.items, number, key)
    }

    /// The first value set of an item, which stands behind it.
    pub fn first_set(&self, item: usize) -> Option<&Section<'a>> {
        let place = match self.items.get(item) {
            Some(place) => place.saturating_add(1),
            None => usize::MAX,
        };
        match self.sections.get(place..) {
            Some(sections) => set_before_item(sections),
            None => None,
        }
    }

    /// The number of a value set.
    pub fn set_number(&self, section: &Section<'_>) -> Option<u16>
        ensures { IfSome result (λ number. number < length self.now.dictionary.now.sets) }
    {
        self.dictionary
            .find_set(text_of(value_at(section, b"Name")))
    }

    /// The row of a number in a value set.
    fn row_in(&self, section: &Section<'_>, number: i64) -> Option<usize> {
        let Some(set) = self.set_number(section) else {
            return None;
        };
        match self.dictionary.row_of(set, Num::Whole(number)) {
            Some(row) => Some(row as usize),
            None => None,
        }
    }

    /// The label of a value of an item in its first value set: of a number, of blanks, or of a text.
    pub fn value(&self, item: usize, value: &str) -> &'a str {
        let Some(set) = self.first_set(item) else {
            return "";
        };
        let text = trimmed(value.as_bytes());
        match whole_of(text) {
            Some(number) => match self.row_in(set, number) {
                Some(row) => label_of_row(set, row),
                None => "",
            },
            None => label_of_text(set, text),
        }
    }
}

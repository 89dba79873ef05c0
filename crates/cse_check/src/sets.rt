//! Value sets of which a row stands for blanks: a blank is in no set here.

use crate::gathered::Gathered;
use crate::items::item_of;
use crate::spot::Spot;
use crate::token::Role;
use cse_dict::Dictionary;
use cse_sections::sections::{Section, sections_of};
use cse_sections::text::is_same;
use std::alloc::{AllocError, Global};

/// Whether a name is one of these, in any letter case.
pub fn is_among(names: &[&[u8]], name: &[u8]) -> bool {
    for place in 0..names.len() {
        if names[place].eq_ignore_ascii_case(name) {
            return true;
        }
    }
    false
}

/// Whether there is a quote before the label of a value.
fn has_quote(value: &[u8]) -> bool {
    for byte in value {
        match *byte {
            b'\'' => return true,
            b';' => return false,
            _ => {}
        }
    }
    false
}

/// The name of a set, if a value of it is quoted.
fn add_blank<'a>(section: &Section<'a>, names: &mut Gathered<&'a [u8]>) {
    let mut name: &'a [u8] = b"";
    for place in 0..section.entries.len() {
        let entry = &section.entries[place];
        if is_same(entry.key, b"Name") {
            name = entry.value;
        } else if is_same(entry.key, b"Value") && has_quote(entry.value) {
            names.add(name);
            return;
        }
    }
}

/// Adds the sets that have a quoted value.
fn add_blanks<'a>(sections: &[Section<'a>], names: &mut Gathered<&'a [u8]>) {
    for place in 0..sections.len() {
        let section = &sections[place];
        if is_same(section.heading, b"ValueSet") {
            add_blank(section, names);
        }
    }
}

/// The sets of a dictionary's text that have a quoted value. On a numeric item these are blanks.
pub fn blank_sets(alloc: Global, text: &[u8]) -> Result<Vec<&[u8]>, AllocError> {
    let sections = sections_of(alloc, text)?;
    let mut names = Gathered::new(alloc);
    add_blanks(&sections, &mut names);
    names.finish()
}

/// The name of an item's first set.
fn first_set<'a>(dictionary: &'a Dictionary, name: &[u8]) -> &'a [u8] {
    let Some(item) = item_of(dictionary, name) else {
        return b"";
    };
    let sets = dictionary.shape().sets.as_slice();
    for set in 0..sets.len() {
        if sets[set].item == item {
            return dictionary.set_name(set as u16).as_bytes();
        }
    }
    b""
}

/// Whether a set with a row of blanks is named here, or meant as the first one of an item.
pub fn is_blank(dictionary: &Dictionary, spot: &Spot<'_>, blank: &[&[u8]]) -> bool {
    if blank.is_empty() || spot.role(0) != Role::Other {
        return false;
    }
    if spot.was(2, b"invalueset") && spot.role(1) == Role::Close {
        return is_among(blank, first_set(dictionary, spot.word(0)));
    }
    is_among(blank, spot.word(0))
}

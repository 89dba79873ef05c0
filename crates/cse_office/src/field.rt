//! What stands in the fields of an item: blanks, an unreadable value, the code of `missing`, a value of its first set or
//! another one.

use crate::item::column_at;
use crate::names::Names;
use cse_case::Columns;
use cse_dict::Dictionary;
use cse_value::number::Num;
use cse_value::read_num;
use cse_value::shape::{ItemKind, ItemShape};
use std::alloc::{AllocError, Global};

/// How many there are, and the line of the first.
#[derive(Clone, Copy)]
pub struct Found {
    pub count: u64,
    pub first: u64,
}

impl Found {
    /// None.
    pub const NONE: Found = Found { count: 0, first: 0 };

    /// One more, at a line.
    pub fn add(&mut self, line: u64) {
        if self.count == 0 {
            self.first = line;
        }
        self.count = self.count.saturating_add(1);
    }
}

/// What a field is.
#[derive(Clone, Copy)]
pub enum FieldKind {
    /// Blanks alone.
    Blank = 0,
    /// A value that can't be read as a number.
    Default = 1,
    /// The code of `missing`.
    Missing = 2,
    /// A number that the first set of the item doesn't have.
    Outside = 3,
    /// All else.
    Plain = 4,
    /// Not looked up so far.
    Unknown = 5,
}

/// What bytes spell.
#[derive(Clone, Copy)]
enum Content {
    /// Blanks alone.
    Blank,
    /// Digits, with blanks around them or none.
    Number(u64),
    /// All else.
    Other,
}

/// The most columns of an item of which each number is looked up once.
const MOST_KEPT: u16 = 3;

/// How many bytes of one column are looked up once each, from the blank on.
const BYTES_KEPT: usize = 96;

/// The most columns of a number.
const MOST_DIGITS: usize = 15;

/// An item, and what was found in its fields.
pub struct Field {
    /// Its number in the dictionary.
    pub item: usize,
    place: usize,
    end: usize,
    len: usize,
    is_number: bool,
    code: Option<i64>,
    /// The first value set, where that is whole and has rows.
    set: Option<u16>,
    /// What each byte of one column is from the blank on, or each number of two or three, once it was looked up; none of an item
    /// with more.
    kinds: Vec<FieldKind>,
    /// How many fields are of each kind but plain.
    found: [Found; 6],
}

// Written out, so that one who owns it calls this drop and does not prove one for each part.
impl Drop for Field {
    fn drop(self) {
        let Field {
            item: _item,
            place: _place,
            end: _end,
            len: _len,
            is_number: _is_number,
            code: _code,
            set: _set,
            kinds: _kinds,
            found: _found,
        } = self;
    }
}

/// The first value set of an item, where that is whole and has rows.
fn whole_set(names: &Names<'_>, item: usize) -> Option<u16> {
    let Some(set) = names.first_set(item) else {
        return None;
    };
    let Some(number) = names.set_number(set) else {
        return None;
    };
    let Some(shape) = names.dictionary.shape().sets.get(number as usize) else {
        return None;
    };
    if shape.partial || shape.rows == 0 {
        return None;
    }
    Some(number)
}

/// The code of `missing` of an item.
fn code_of(names: &Names<'_>, item: usize) -> Option<i64> {
    match names.dictionary.find_item(names.item_name(item)) {
        Some(number) => names.dictionary.code(number),
        None => None,
    }
}

/// How many bytes of one column, or numbers of so many columns, are looked up once each.
fn most_kept(len: u16) -> usize {
    match len {
        1 => BYTES_KEPT,
        2..=MOST_KEPT => 10usize.saturating_pow(u32::from(len)),
        _ => 0,
    }
}

/// The digit that a byte is; 10 or more where it is none.
#[inline(always)]
fn digit_of(byte: u8) -> u8 {
    byte.wrapping_sub(b'0')
}

/// The byte at a place: a blank past the last.
#[inline(always)]
fn byte_at(bytes: &[u8], place: usize) -> u8 {
    match bytes.get(place) {
        Some(byte) => *byte,
        None => b' ',
    }
}

/// What one byte spells.
#[inline(always)]
fn content_of_one(byte: u8) -> Content {
    let digit = digit_of(byte);
    if digit < 10 {
        Content::Number(u64::from(digit))
    } else if byte == b' ' {
        Content::Blank
    } else {
        Content::Other
    }
}

/// What two bytes spell.
#[inline(always)]
fn content_of_two(tens: u8, ones: u8) -> Content {
    let high = digit_of(tens);
    let low = digit_of(ones);
    if low >= 10 {
        return if ones == b' ' {
            content_of_one(tens)
        } else {
            Content::Other
        };
    }
    if high < 10 {
        Content::Number(u64::from(high) * 10 + u64::from(low))
    } else if tens == b' ' {
        Content::Number(u64::from(low))
    } else {
        Content::Other
    }
}

/// What bytes spell. A number has at most 15 columns, so it is told as it is; more digits are told as some number.
#[inline(always)]
fn content_of(bytes: &[u8]) -> Content {
    let mut number = 0u64;
    let mut has_digit = false;
    let mut has_ended = false;
    for byte in bytes {
        let digit = digit_of(*byte);
        if *byte == b' ' {
            has_ended = has_digit;
        } else if has_ended || digit >= 10 {
            return Content::Other;
        } else {
            number = number.wrapping_mul(10).wrapping_add(u64::from(digit));
            has_digit = true;
        }
    }
    if has_digit {
        Content::Number(number)
    } else {
        Content::Blank
    }
}

/// Whether bytes are blanks alone.
#[inline(always)]
fn is_blank(bytes: &[u8]) -> bool {
    for byte in bytes {
        if *byte != b' ' {
            return false;
        }
    }
    true
}

/// The bytes from a place to an end, as far as there are some.
#[inline(always)]
fn bytes_of(bytes: &[u8], place: usize, end: usize) -> &[u8] {
    match bytes.get(place..end) {
        Some(field) => field,
        None => {
            let first = place.min(bytes.len());
            &bytes[first..]
        }
    }
}

/// Whether a value set has a row of a number.
fn has_row(dictionary: &Dictionary, set: u16, number: i64) -> bool {
    (set as usize) < dictionary.shape().sets.len()
        && dictionary.row_of(set, Num::Whole(number)).is_some()
}

/// What is kept of an item, of which nothing is looked up so far.
fn kinds_of(alloc: Global, shape: &ItemShape) -> Result<Vec<FieldKind>, AllocError> {
    let count = match shape.kind {
        ItemKind::Number => most_kept(shape.len),
        _ => 0,
    };
    let mut kinds = Vec::new(alloc);
    kinds.resize(count, FieldKind::Unknown)?;
    Ok(kinds)
}

impl Field {
    /// How the fields of an item are looked at.
    pub fn new(
        alloc: Global,
        names: &Names<'_>,
        item: usize,
        shape: &ItemShape,
    ) -> Result<Field, AllocError> {
        let kinds = kinds_of(alloc, shape)?;
        let place = (shape.start as usize).saturating_sub(1);
        Ok(Field {
            item,
            place,
            end: place.saturating_add(shape.len as usize),
            len: shape.len as usize,
            is_number: shape.kind == ItemKind::Number,
            code: code_of(names, item),
            set: whole_set(names, item),
            kinds,
            found: [Found::NONE; 6],
        })
    }

    /// How many fields are of a kind; of plain ones none is counted.
    pub fn found(&self, kind: FieldKind) -> Found {
        self.found
            .get(kind as u8 as usize)
            .copied()
            .unwrap_or(Found::NONE)
    }

    /// What a number is, looked up.
    fn kind_of_whole(&self, dictionary: &Dictionary, number: i64) -> FieldKind {
        match self.set {
            _ if self.code == Some(number) => FieldKind::Missing,
            Some(set) if !has_row(dictionary, set, number) => FieldKind::Outside,
            _ => FieldKind::Plain,
        }
    }

    /// What digits are, looked up.
    fn kind_of_digits(&self, dictionary: &Dictionary, number: u64) -> FieldKind {
        match i64::try_from(number) {
            Ok(number) => self.kind_of_whole(dictionary, number),
            Err(_) => FieldKind::Default,
        }
    }

    /// What was looked up at a place.
    #[inline(always)]
    fn known_at(&self, place: usize) -> Option<FieldKind> {
        match self.kinds.get(place) {
            Some(FieldKind::Unknown) | None => None,
            Some(kind) => Some(*kind),
        }
    }

    /// Keeps what was looked up at a place, if there is room.
    #[inline(always)]
    fn keep_at(&mut self, place: usize, kind: FieldKind) {
        if let Some(kept) = self.kinds.get_mut(place) {
            *kept = kind;
        }
    }

    /// What digits are. Those of two and three columns are looked up once.
    #[inline(always)]
    fn kind_of_number(&mut self, dictionary: &Dictionary, number: u64) -> FieldKind {
        if let Some(kind) = self.known_at(number as usize) {
            return kind;
        }
        let kind = self.kind_of_digits(dictionary, number);
        self.keep_at(number as usize, kind);
        kind
    }

    /// What a field of one column is, looked up.
    fn kind_of_one(&self, dictionary: &Dictionary, columns: Columns<'_>, byte: u8) -> FieldKind {
        match content_of_one(byte) {
            Content::Blank => FieldKind::Blank,
            Content::Number(number) => self.kind_of_digits(dictionary, number),
            Content::Other => self.read(dictionary, columns),
        }
    }

    /// What a field of one column is. Each byte is looked up once.
    #[inline(always)]
    fn kind_of_byte(&mut self, dictionary: &Dictionary, columns: Columns<'_>) -> FieldKind {
        let byte = byte_at(columns.bytes, self.place);
        let place = byte.wrapping_sub(b' ') as usize;
        if let Some(kind) = self.known_at(place) {
            return kind;
        }
        let kind = self.kind_of_one(dictionary, columns, byte);
        self.keep_at(place, kind);
        kind
    }

    /// What the field of a number is, read as the machine reads it.
    fn read(&self, dictionary: &Dictionary, columns: Columns<'_>) -> FieldKind {
        let mut text = [' '; MOST_DIGITS];
        for i in 0..self.len.min(MOST_DIGITS) {
            text[i] = column_at(columns, self.place.saturating_add(i));
        }
        match read_num(&text, self.code) {
            Num::Whole(number) => self.kind_of_whole(dictionary, number),
            Num::Missing => FieldKind::Missing,
            Num::NotAppl => FieldKind::Blank,
            Num::Undef => FieldKind::Default,
        }
    }

    /// What the bytes of a line spell in the field of a number of two columns or more.
    #[inline(always)]
    fn content(&self, bytes: &[u8]) -> Content {
        if self.len != 2 {
            return content_of(bytes_of(bytes, self.place, self.end));
        }
        content_of_two(
            byte_at(bytes, self.place),
            byte_at(bytes, self.place.saturating_add(1)),
        )
    }

    /// What the field of a line is.
    #[inline(always)]
    fn kind_of(&mut self, dictionary: &Dictionary, columns: Columns<'_>) -> FieldKind {
        if !self.is_number {
            let is_blank = is_blank(bytes_of(columns.bytes, self.place, self.end));
            return if is_blank {
                FieldKind::Blank
            } else {
                FieldKind::Plain
            };
        }
        if self.len == 1 {
            return self.kind_of_byte(dictionary, columns);
        }
        match self.content(columns.bytes) {
            Content::Blank => FieldKind::Blank,
            Content::Number(number) => self.kind_of_number(dictionary, number),
            Content::Other => self.read(dictionary, columns),
        }
    }

    /// Looks at the field of a line.
    #[inline(always)]
    pub fn look(&mut self, dictionary: &Dictionary, columns: Columns<'_>, line: u64) {
        let kind = self.kind_of(dictionary, columns);
        if matches!(kind, FieldKind::Plain) {
            return;
        }
        if let Some(found) = self.found.get_mut(kind as u8 as usize) {
            found.add(line);
        }
    }
}

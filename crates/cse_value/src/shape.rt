//! The shape of a dictionary: what a program must know of its records, items and value sets.
//!
//! A dictionary has a shape, and so has a compiled program: the one runs only with the other where
//! the shapes are equal. Records, items and sets are numbered from 0 in order of appearance.

/// The owner of an item that identifies the case and stands on each line.
pub const ID_OWNER: u8 = 255;

/// A record of the dictionary.
#[derive(Clone, Copy, PartialEq, Eq)]
pub struct RecordShape {
    /// How many occurrences a case may have.
    pub max_records: u16,
    /// The columns of a line of the record.
    pub record_len: u32,
}

/// What the logic may do with an item.
#[derive(Clone, Copy, PartialEq, Eq)]
pub enum ItemKind {
    /// Carried, and named by no logic.
    Opaque = 0,
    /// Read and written as a number.
    Number = 1,
    /// Read and written as a text.
    Text = 2,
}

/// An item of the dictionary.
#[derive(Clone, Copy, PartialEq, Eq)]
pub struct ItemShape {
    /// The number of its record, or `ID_OWNER` for an id item.
    pub owner: u8,
    pub kind: ItemKind,
    /// How many columns it has.
    pub len: u16,
    /// Its first column, from 1.
    pub start: u32,
}

/// A value set of the dictionary.
#[derive(Clone, Copy, PartialEq, Eq)]
pub struct SetShape {
    /// The number of the item that it belongs to.
    pub item: u16,
    /// How many rows it has.
    pub rows: u16,
    /// A row has a pair that is no pair of numbers: the set picks no cell of a deck.
    pub partial: bool,
}

/// The records, items and sets of a dictionary.
#[derive(Drop)]
pub struct Shape {
    pub records: Vec<RecordShape>,
    pub items: Vec<ItemShape>,
    pub sets: Vec<SetShape>,
}

//! What the check of a dictionary's text has seen.
use crate::context::Context;
use crate::names::{Names, Types};

/// The names, the record types, the counts and the pairs so far.
#[derive(Drop)]
pub struct Seen {
    pub names: Names,
    pub types: Types,
    pub context: Context,
    pub pairs: u32,
}

/// The rows of a set and the pairs of the dictionary so far, up to one past their limits.
#[derive(Clone, Copy)]
pub struct Filled {
    pub rows: u16,
    pub pairs: u32,
}

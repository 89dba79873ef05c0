//! What code depends on besides its tree.

ghost use Rattle.std.specs.Prelude.{◌≡◌};
ghost use Rattle.cse_value.specs.Occurrences as spec;
ghost use Rattle.cse_compile.specs.Setting.{setting, size_at, result_local as local_of_result};

use cse_image_parts::entries::Array;
use cse_value::shape::RecordShape;

/// The dictionary's records, the program's arrays, and in a function the local of its result.
#[derive(Clone, Copy)]
pub struct Setting<'a> {
    pub records: &'a [RecordShape],
    pub arrays: &'a [Array],
    pub result_at: Option<usize>,
}

/// The innermost loop around: where its turn ends, and its `END`.
#[derive(Clone, Copy, PartialEq, Eq)]
pub struct Loop {
    pub turn_end: usize,
    pub end: usize,
}

impl Setting<'_> {
    /// The most occurrences of a record; 0 where there is no such record.
    pub fn most_occurrences(&self, of: u8) -> u16
        ensures { result ≡ spec.most_occurrences (setting self.now).records of }
    {
        match self.records.get(of as usize) {
            Some(record) => record.max_records,
            None => 0,
        }
    }

    /// The size of an array in a direction, counted from 0; 0 where it has none.
    pub fn size_at(&self, array: usize, direction: usize) -> u16
        ensures { result ≡ size_at (setting self.now) array direction }
    {
        match self.arrays.get(array) {
            Some(array) => match array.dimensions.get(direction) {
                Some(size) => *size,
                None => 0,
            },
            None => 0,
        }
    }

    /// The local of the function's result.
    pub fn result_local(&self) -> usize
        ensures { result ≡ local_of_result (setting self.now) }
    {
        match self.result_at {
            Some(result) => result,
            None => 0,
        }
    }
}

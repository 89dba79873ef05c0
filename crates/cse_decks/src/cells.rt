//! The cells of an array.

ghost use Rattle.std.specs.Prelude.{◌≡◌, ◌<◌, length, Some, slice_get, slice_set};

use cse_value::Num;
use std::marker::Model;

/// The cells of one array, the last index fastest.
#[derive(Drop)]
pub struct ArrayCells {
    pub values: Vec<Num>,
}

impl Model for ArrayCells {
    ghost use Rattle.std.specs.Prelude.{List};
    ghost use Rattle.cse_value.specs.declared.number.Num.{Num as ANum};

    ghost Value = { List ANum };

    ghost view = { λ a. a.values.items };
}

impl ArrayCells {
    /// How many cells there are.
    pub fn len(&self) -> usize
        ensures { result ≡ length self.now }
    {
        self.values.len()
    }

    /// The cells.
    pub fn as_slice(&self) -> &[Num]
        ensures { result.now ≡ self.now }
    {
        &self.values
    }

    /// The cell at a place.
    pub fn get(&self, place: usize) -> Num
        requires { place < length self.now }
        ensures { slice_get self.now place ≡ Some result }
    {
        self.values[place]
    }

    /// Puts a value into the cell at a place.
    pub fn set(&mut self, place: usize, value: Num)
        requires { place < length self.old }
        ensures { self.new ≡ slice_set self.old place value }
    {
        self.values[place] = value;
    }
}

//! The store: globals, and the cells of arrays.

ghost use Rattle.std.specs.Prelude.{◌≡◌, ◌<◌, Some, IsSome, IfOk, length};
ghost use Rattle.cse_image_parts.specs.Image.{Image};
ghost use Rattle.cse_decks.specs.Store.{ArraysFit, StoreFits, first_kept, number_at, text_at, cells_of, with_global, with_cell, rewritten};
ghost use Rattle.std.specs.Prelude.{slice_get, slice_set, [], is_some};
ghost use Rattle.std.specs.List.{slice_index_or};

use crate::cells::ArrayCells;
use crate::global::{GlobalValue, is_number, is_text, number_of, put_number, put_words, text_of};
use crate::starting::{first_arrays, first_globals};
use cse_image::{Code, Program};
use cse_value::{Num, OutOfMemory, Text};
use std::alloc::Global;
use std::marker::Model;

/// What a program keeps over the whole run: the values of its globals, and the cells of its arrays, the
/// last index fastest.
pub struct Store {
    globals: Vec<GlobalValue>,
    arrays: Vec<ArrayCells>,
}

impl Model for Store {
    ghost use Rattle.cse_decks.specs.Store.{Kept};

    ghost Value = { Kept };

    ghost view = { λ s. record { globals = s.globals.items; arrays = s.arrays.items } };

    ghost use Rattle.cse_decks.specs.Store.{ArraysFit};

    ghost invariant = { λ s. ArraysFit s.arrays.items };
}

impl Drop for Store {
    fn drop(self) {
        let Store {
            globals: _globals,
            arrays: _arrays,
        } = self;
    }
}

impl Store {
    /// What the program starts with: numbers at 0, texts blank, and arrays with their declared cells and
    /// then 0.
    #[tactic(auto, unfolding(crate::specs::Store::first_kept))]
    pub fn new<C: Code>(alloc: Global, program: &Program<C>) -> Result<Store, OutOfMemory>
        ensures first { IfOk result (λ s. s ≡ first_kept program.now) }
        ensures fits { IfOk result (λ s. StoreFits program.now s) }
    {
        let tables = program.tables();
        let globals = first_globals(alloc, &tables.globals)?;
        let arrays = first_arrays(alloc, &tables.arrays)?;
        Ok(Store { globals, arrays })
    }

    /// Whether there is such a global and it is a number. Takes no memory.
    pub fn is_number(&self, g: usize) -> bool
        ensures { result ≡ is_some (number_at self.now g) }
    {
        is_number(&self.globals, g)
    }

    /// Whether there is such a global and it is a text. Takes no memory.
    pub fn is_text(&self, g: usize) -> bool
        ensures { result ≡ is_some (text_at self.now g) }
    {
        is_text(&self.globals, g)
    }

    /// How many cells an array has; 0 where it isn't there. Takes no memory.
    pub fn size(&self, array: usize) -> usize
        ensures { result ≡ length (cells_of self.now array) }
    {
        size_of(&self.arrays, array)
    }

    /// The number of a global. Takes no memory.
    pub fn num(&self, g: usize) -> Num
        requires { IsSome (number_at self.now g) }
        ensures { number_at self.now g ≡ Some result }
    {
        number_of(&self.globals, g)
    }

    /// Puts a number into a global of numbers. Takes no memory.
    pub fn set_num(&mut self, g: usize, value: Num)
        requires { IsSome (number_at self.old g) }
        ensures put { self.new ≡ with_global self.old g (GlobalValue.Number value) }
        ensures fits { (x : Image) → StoreFits x self.old → StoreFits x self.new }
    {
        put_number(&mut self.globals, g, value);
    }

    /// The text of a global, which has its declared length. Takes no memory.
    pub fn text(&self, g: usize) -> &Text
        requires { IsSome (text_at self.now g) }
        ensures { text_at self.now g ≡ Some result.now.items }
    {
        text_of(&self.globals, g)
    }

    /// Puts a text into a global of texts, cut or padded with blanks to the global's length. Takes no
    /// memory.
    pub fn set_text(&mut self, g: usize, text: &Text)
        requires { IsSome (text_at self.old g) }
        ensures put { (d : GlobalValue) → self.new ≡ with_global self.old g (rewritten text.now.items (slice_index_or self.old.globals g d)) }
        ensures fits { (x : Image) → StoreFits x self.old → StoreFits x self.new }
    {
        put_words(&mut self.globals, g, text);
    }

    /// The cell of an array at a place from 0. Takes no memory.
    pub fn cell(&self, array: usize, place: usize) -> Num
        requires { place < length (cells_of self.now array) }
        ensures { slice_get (cells_of self.now array) place ≡ Some result }
    {
        cell_in(&self.arrays, array, place)
    }

    /// Puts a number into the cell of an array at a place from 0. Takes no memory.
    pub fn set_cell(&mut self, array: usize, place: usize, value: Num)
        requires { place < length (cells_of self.old array) }
        ensures put { self.new ≡ with_cell self.old array place value }
        ensures fits { (x : Image) → StoreFits x self.old → StoreFits x self.new }
    {
        put_cell(&mut self.arrays, array, place, value);
    }
}

impl Store {
    /// The store of these values.
    pub(crate) fn with(globals: Vec<GlobalValue>, arrays: Vec<ArrayCells>) -> Store
        requires { ArraysFit arrays.items }
        ensures { result ≡ record { globals = globals.items; arrays = arrays.items } }
    {
        Store { globals, arrays }
    }

    /// The values of the globals, and the cells of the arrays.
    pub(crate) fn into_parts(self) -> (Vec<GlobalValue>, Vec<ArrayCells>)
        ensures globals { result.0.items ≡ self.globals }
        ensures arrays { result.1.items ≡ self.arrays }
    {
        let Store { globals, arrays } = self;
        (globals, arrays)
    }

    /// The cells of all arrays.
    pub(crate) fn cells(&self) -> &[ArrayCells]
        ensures cells { result.now ≡ self.now.arrays }
        ensures fit { ArraysFit self.now.arrays }
    {
        &self.arrays
    }
}

fn size_of(arrays: &[ArrayCells], array: usize) -> usize
    ensures { result ≡ length (slice_index_or arrays.now array []) }
{
    if array >= arrays.len() {
        return 0;
    }
    arrays[array].len()
}

fn cell_in(arrays: &[ArrayCells], array: usize, place: usize) -> Num
    requires { place < length (slice_index_or arrays.now array []) }
    ensures { slice_get (slice_index_or arrays.now array []) place ≡ Some result }
{
    arrays[array].get(place)
}

pub(crate) fn put_cell(arrays: &mut Vec<ArrayCells>, array: usize, place: usize, value: Num)
    requires { place < length (slice_index_or arrays.old.items array []) }
    ensures { arrays.new.items ≡ slice_set arrays.old.items array (slice_set (slice_index_or arrays.old.items array []) place value) }
{
    arrays[array].set(place, value);
}

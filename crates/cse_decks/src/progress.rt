//! How far a deck text is read.

ghost use Rattle.std.specs.Prelude.{◌≡◌, ◌<◌, ◌+◌, ◌++◌, map, position, slice_get, length, IfOk, OnOk, take};
ghost use Rattle.std.specs.List.{flat_map, slice_index_or};
ghost use Rattle.std.specs.Str.{bytes_eq};
ghost use Rattle.cse_image_parts.specs.Image.{array_lists};
ghost use Rattle.cse_decks.specs.Deck.{size_word, array_line};
ghost use Rattle.cse_decks.specs.Loading.{Reads, due_at, is_open, opened, opening, Tells, array_read, cell_read, heading_read, opening_read, line_read, lacking, is_done};
ghost use Rattle.cse_decks.specs.Loading.{cell_of as value_of};
ghost use Rattle.std.specs.Prelude.{[], ◌≤◌, IsTrue};
ghost use Rattle.cse_decks.specs.Inside.{CellInside};
ghost use Rattle.std.specs.String.{string_bytes};

use crate::cells::ArrayCells;
use crate::due::Due;
use crate::error::DeckStop;
use crate::lines::{cell_of, is_array_line, word};
use crate::store::put_cell;
use cse_fault_numbers::{BAD_DECK_LINE, BAD_DECK_VALUE, OTHER_DECK_SIZES, UNKNOWN_ARRAY};
use cse_image::Array;
use itoa::Buffer;
use std::alloc::{AllocError, Global};
use std::marker::Model;

/// What is due next, the cells so far, and which arrays came.
#[derive(Drop)]
pub struct Progress {
    pub due: Due,
    pub arrays: Vec<ArrayCells>,
    pub came: Vec<bool>,
}

impl Model for Progress {
    ghost use Rattle.std.specs.Prelude.{◌≡◌, length};
    ghost use Rattle.cse_decks.specs.Loading.{Reading};

    ghost Value = { Reading };

    ghost view = { λ p. record { due = p.due; arrays = p.arrays.items; came = p.came.items } };

    ghost use Rattle.cse_decks.specs.Inside.{IsInside};

    ghost invariant = { λ p. IsInside p.due p.arrays.items p.came.items };
}

/// A cell that is due, if there is a cell at this place.
fn due_at(array: usize, place: usize, count: usize) -> Due
    ensures { result ≡ due_at array place count }
{
    if place < count {
        Due::Cell(array, place)
    } else {
        Due::Opening
    }
}

/// The line before an array's cells.
#[tactic(auto, unfolding(crate::specs::Deck::array_line))]
fn own_line(alloc: Global, array: &Array) -> Result<Vec<u8>, AllocError>
    ensures { IfOk result (λ v. v.items ≡ array_line (array_lists array.now)) }
{
    let mut line = Vec::from_slice(alloc, b"ARRAY ")?;
    line.extend_from_slice(array.name.as_bytes())?;
    add_sizes(&mut line, &array.dimensions)?;
    Ok(line)
}

/// Adds the sizes of an array.
fn add_sizes(line: &mut Vec<u8>, sizes: &[u16]) -> Result<(), AllocError>
    ensures { OnOk result (line.new.items ≡ line.old.items ++ flat_map size_word sizes.now) }
{
    'sizes: for size in sizes {
        add_size(line, *size)?;
    }
    Ok(())
}

/// Adds a size.
fn add_size(line: &mut Vec<u8>, size: u16) -> Result<(), AllocError>
    ensures { OnOk result (line.new.items ≡ line.old.items ++ size_word size) }
{
    line.push(b' ')?;
    line.extend_from_slice(Buffer::new().format(size).as_bytes())
}

/// The number of the array of this name.
fn array_named(arrays: &[Array], name: &[u8]) -> Option<usize>
    ensures { result ≡ position (λ a. bytes_eq a.name name.now) (map array_lists arrays.now) }
{
    place_named(arrays, name)
}

fn place_named(arrays: &[Array], name: &[u8]) -> Option<usize>
    ensures { result ≡ position (λ a. bytes_eq (string_bytes a.name) name.now) arrays.now }
{
    arrays.iter().position(|a| a.name.as_bytes() == name)
}

impl Progress {
    /// Reads a line of an array.
    fn open(&mut self, alloc: Global, i: usize, array: &Array, line: &[u8]) -> Result<(), DeckStop>
        ensures { Reads result (opened self.old i line.now (array_lists array.now)) self.new }
    {
        let due = match opening(alloc, &self.arrays, &self.came, i, array, line) {
            Ok(due) => due,
            Err(stop) => return Err(stop),
        };
        self.came[i] = true;
        self.due = due;
        Ok(())
    }

    /// Reads the line of an array that it names.
    #[tactic(auto, unfolding(crate::specs::Loading::array_read))]
    fn read_array(&mut self, alloc: Global, arrays: &[Array], line: &[u8]) -> Result<(), DeckStop>
        requires { 6 ≤ length line.now }
        ensures { Reads result (array_read (map array_lists arrays.now) self.old line.now) self.new }
    {
        let Some(i) = array_named(arrays, word(&line[6..])) else {
            return Err(DeckStop::Fault(UNKNOWN_ARRAY));
        };
        let Some(array) = arrays.get(i) else {
            return Err(DeckStop::Fault(UNKNOWN_ARRAY));
        };
        self.open(alloc, i, array, line)
    }

    /// Reads the line of a cell.
    fn read_cell(&mut self, array: usize, place: usize, line: &[u8]) -> Result<(), DeckStop>
        requires { place < length (slice_index_or self.old.arrays array []) }
        ensures { Reads result (cell_read self.old array place (value_of line.now)) self.new }
    {
        let Some(value) = cell_of(line) else {
            return Err(DeckStop::Fault(BAD_DECK_VALUE));
        };
        let count = self.arrays[array].len();
        put_cell(&mut self.arrays, array, place, value);
        self.due = due_at(array, place + 1, count);
        Ok(())
    }

    /// Reads the heading.
    fn read_heading(&mut self, line: &[u8]) -> Result<(), DeckStop>
        ensures { Reads result (heading_read self.old line.now) self.new }
    {
        if line != b"CSEB DECKS 1".as_slice() {
            return Err(DeckStop::Fault(BAD_DECK_LINE));
        }
        self.due = Due::Opening;
        Ok(())
    }

    /// Reads the line of an array, or the end.
    fn read_opening(&mut self, alloc: Global, arrays: &[Array], line: &[u8]) -> Result<(), DeckStop>
        ensures { Reads result (opening_read (map array_lists arrays.now) self.old line.now) self.new }
    {
        if line == b"END".as_slice() {
            self.due = Due::Nothing;
            return Ok(());
        }
        if !is_array_line(line) {
            return Err(DeckStop::Fault(BAD_DECK_LINE));
        }
        self.read_array(alloc, arrays, line)
    }

    /// Reads a line.
    #[tactic(auto, unfolding(crate::specs::Loading::line_read))]
    pub fn read_line(
        &mut self,
        alloc: Global,
        arrays: &[Array],
        line: &[u8],
    ) -> Result<(), DeckStop>
        ensures { Reads result (line_read (map array_lists arrays.now) self.old line.now) self.new }
    {
        match self.due {
            Due::Cell(array, place) => self.read_cell(array, place, line),
            Due::Heading => self.read_heading(line),
            Due::Opening => self.read_opening(alloc, arrays, line),
            Due::Nothing => Err(DeckStop::Fault(BAD_DECK_LINE)),
        }
    }

    /// The number of a line that lacks, or has no LF.
    pub fn lacking(&self) -> u8
        ensures { result ≡ lacking self.now.due }
    {
        match self.due {
            Due::Cell(_, _) => 51,
            _ => 50,
        }
    }

    /// The cells.
    pub fn into_arrays(self) -> Vec<ArrayCells>
        ensures { result.items ≡ self.arrays }
    {
        let Progress {
            due: _,
            arrays,
            came: _,
        } = self;
        arrays
    }

    /// Whether nothing is due.
    pub fn is_done(&self) -> bool
        ensures { result ≡ is_done self.now.due }
    {
        matches!(self.due, Due::Nothing)
    }
}

/// Whether the array has not come yet.
#[tactic(auto, using(crate::proofs::InsideLaws::open_there))]
fn is_open(came: &[bool], i: usize) -> bool
    ensures value { result ≡ is_open came.now i }
    ensures there { IsTrue result → i < length came.now }
{
    match came.get(i) {
        Some(came) => !*came,
        None => false,
    }
}

/// What is due after a line of an array.
#[tactic(auto, unfolding(crate::specs::Loading::opening))]
fn opening(
    alloc: Global,
    arrays: &[ArrayCells],
    came: &[bool],
    i: usize,
    array: &Array,
    line: &[u8],
) -> Result<Due, DeckStop>
    requires { length came.now ≡ length arrays.now }
    ensures value { Tells result (opening arrays.now came.now i line.now (array_lists array.now)) }
    ensures there { OnOk result (i < length came.now) }
    ensures inside { IfOk result (CellInside arrays.now) }
{
    let own = match own_line(alloc, array) {
        Ok(own) => own,
        Err(_) => return Err(DeckStop::Memory),
    };
    if line != own.as_slice() {
        return Err(DeckStop::Fault(OTHER_DECK_SIZES));
    }
    if !array.saved {
        return Err(DeckStop::Fault(UNKNOWN_ARRAY));
    }
    if !is_open(came, i) {
        return Err(DeckStop::Fault(UNKNOWN_ARRAY));
    }
    Ok(first_due(arrays, i))
}

/// What is due before the first cell of an array.
fn first_due(arrays: &[ArrayCells], i: usize) -> Due
    requires { i < length arrays.now }
    ensures value { result ≡ due_at i 0 (length (slice_index_or arrays.now i [])) }
    ensures inside { CellInside arrays.now result }
{
    due_at(i, 0, arrays[i].len())
}

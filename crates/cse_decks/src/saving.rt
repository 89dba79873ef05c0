//! The cells of saved arrays, written as text.

ghost use Rattle.std.specs.Prelude.{◌≡◌, Ok, map, length};
ghost use Rattle.std.specs.List.{flat_map};
ghost use Rattle.cse_value.specs.Writing.{WritesAll, FailsAtErr};
ghost use Rattle.cse_image_parts.specs.Image.{array_lists};
ghost use Rattle.cse_decks.specs.Store.{StoreFits};
ghost use Rattle.cse_decks.specs.Deck.{size_word, cell_line, array_line, saved_block, blocks, deck_text};
ghost use Rattle.cse_decks.specs.DeckText.{saved_kept};
ghost use Rattle.cse_decks.specs.Loading.{loaded};
ghost use Rattle.cse_value.specs.Gathering.{behind, line, Puts};

use crate::cells::ArrayCells;
use crate::store::Store;
use cse_image::{Array, Code, Program};
use cse_value::{Failed, Gatherer, Num, Output, show_num};
use itoa::Buffer;

/// Writes the text that keeps the saved arrays of a store (own): a heading, for each saved array a line with
/// its name and sizes and a line for each cell, the last index fastest, and an end. `load` reads it as the
/// saved cells. Takes no memory.
pub fn save<C: Code, W: Output>(
    program: &Program<C>,
    store: &Store,
    out: &mut W,
) -> Result<(), Failed>
    requires { StoreFits program.now store.now }
    ensures loads { loaded program.now (deck_text program.now store.now) ≡ Ok (saved_kept program.now store.now) }
    ensures bytes { WritesAll result (W.taken out.old) (W.taken out.new) (deck_text program.now store.now) }
    ensures failed { FailsAtErr result (W.has_failed out.old) (W.has_failed out.new) }
{
    let tables = program.tables();
    let mut gatherer = Gatherer::new();
    gatherer.put_line(out, b"CSEB DECKS 1");
    put_blocks(&mut gatherer, out, &tables.arrays, store.cells());
    gatherer.put_line(out, b"END");
    gatherer.finish(out)
}

/// Puts the lines of all saved arrays.
fn put_blocks<W: Output>(
    gatherer: &mut Gatherer,
    out: &mut W,
    arrays: &[Array],
    cells: &[ArrayCells],
)
    requires { length arrays.now ≡ length cells.now }
    ensures { Puts (behind W.taken W.has_failed out.old gatherer.old) (behind W.taken W.has_failed out.new gatherer.new)
        (blocks (map array_lists arrays.now) cells.now) }
{
    'arrays: for i in 0..arrays.len() {
        put_saved(gatherer, out, &arrays[i], cells[i].as_slice());
    }
}

/// Puts the lines of an array, if it is saved.
fn put_saved<W: Output>(gatherer: &mut Gatherer, out: &mut W, array: &Array, cells: &[Num])
    ensures { Puts (behind W.taken W.has_failed out.old gatherer.old) (behind W.taken W.has_failed out.new gatherer.new)
        (saved_block (array_lists array.now) cells.now) }
{
    if !array.saved {
        return;
    }
    put_array_line(gatherer, out, array);
    put_cells(gatherer, out, cells);
}

/// Puts the line before an array's cells.
fn put_array_line<W: Output>(gatherer: &mut Gatherer, out: &mut W, array: &Array)
    ensures { Puts (behind W.taken W.has_failed out.old gatherer.old) (behind W.taken W.has_failed out.new gatherer.new)
        (line (array_line (array_lists array.now))) }
{
    gatherer.put(out, b"ARRAY ");
    gatherer.put(out, array.name.as_bytes());
    put_sizes(gatherer, out, &array.dimensions);
    gatherer.put(out, b"\n");
}

/// Puts the sizes of an array.
fn put_sizes<W: Output>(gatherer: &mut Gatherer, out: &mut W, sizes: &[u16])
    ensures { Puts (behind W.taken W.has_failed out.old gatherer.old) (behind W.taken W.has_failed out.new gatherer.new) (flat_map size_word sizes.now) }
{
    'sizes: for size in sizes {
        put_size(gatherer, out, *size);
    }
}

/// Puts a size.
fn put_size<W: Output>(gatherer: &mut Gatherer, out: &mut W, size: u16)
    ensures { Puts (behind W.taken W.has_failed out.old gatherer.old) (behind W.taken W.has_failed out.new gatherer.new) (size_word size) }
{
    gatherer.put(out, b" ");
    gatherer.put(out, Buffer::new().format(size).as_bytes());
}

/// Puts the lines of cells.
fn put_cells<W: Output>(gatherer: &mut Gatherer, out: &mut W, cells: &[Num])
    ensures { Puts (behind W.taken W.has_failed out.old gatherer.old) (behind W.taken W.has_failed out.new gatherer.new) (flat_map cell_line cells.now) }
{
    'cells: for cell in cells {
        gatherer.put_line(out, show_num(*cell).as_str().as_bytes());
    }
}

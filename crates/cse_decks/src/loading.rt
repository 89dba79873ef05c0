//! The cells of saved arrays, read from text.

ghost use Rattle.std.specs.Prelude.{◌≡◌, map, Ok, IfOk};
ghost use Rattle.cse_image_parts.specs.Image.{array_lists};
ghost use Rattle.cse_decks.specs.Store.{Kept, ArraysFit, StoreFits};
ghost use Rattle.cse_decks.specs.DeckText.{IsDeckText, IsStore};
ghost use Rattle.cse_decks.specs.FirstFault.{TellsFirstFault};
ghost use Rattle.cse_decks.specs.Loading.{Answers, read_text, loaded};

use crate::cells::ArrayCells;
use crate::due::Due;
use crate::error::{DeckError, DeckStop, error_at};
use crate::lines::line_end;
use crate::progress::Progress;
use crate::store::Store;
use cse_image::{Array, Code, Program};
use std::alloc::Global;

/// The store that a program starts with, with the cells that stand in the text. The text is a heading,
/// blocks of saved arrays, each array at most once and in any order, and an end, as `save` writes it. Else
/// the first line that is wrong, with its number.
pub fn load<C: Code>(alloc: Global, program: &Program<C>, text: &[u8]) -> Result<Store, DeckError>
    ensures exact { Answers (λ s. s) result (loaded program.now text.now) }
    ensures fits { IfOk result (λ s. StoreFits program.now s) }
    ensures deck_text { IfOk result (λ s. IsDeckText program.now text.now s) }
    ensures every_deck_text { (s : Kept) → IsDeckText program.now text.now s → IsStore s result }
    ensures first_fault { TellsFirstFault program.now text.now result }
{
    let tables = program.tables();
    load_with(alloc, program, &tables.arrays, text)
}

/// The same, with the program's arrays.
#[tactic(auto, unfolding(crate::specs::Loading::loaded))]
fn load_with<C: Code>(
    alloc: Global,
    program: &Program<C>,
    declared: &[Array],
    text: &[u8],
) -> Result<Store, DeckError>
    requires same { map array_lists declared.now ≡ program.now.lists.arrays }
    requires held { (s : Kept) → loaded program.now text.now ≡ Ok s → ArraysFit s.arrays }
    ensures exact { Answers (λ s. s) result (loaded program.now text.now) }
    ensures fits { IfOk result (λ s. StoreFits program.now s) }
{
    let first = match Store::new(alloc, program) {
        Ok(first) => first,
        Err(_) => return Err(error_at(DeckStop::Memory, 0)),
    };
    let (globals, arrays) = first.into_parts();
    let came = match vec![in alloc; false; arrays.len()] {
        Ok(came) => came,
        Err(_) => return Err(error_at(DeckStop::Memory, 0)),
    };
    let due = Due::Heading;
    match read_text(alloc, declared, Progress { due, arrays, came }, text) {
        Ok(arrays) => Ok(Store::with(globals, arrays)),
        Err(error) => Err(error),
    }
}

/// Reads all lines.
fn read_text(
    alloc: Global,
    arrays: &[Array],
    mut progress: Progress,
    text: &[u8],
) -> Result<Vec<ArrayCells>, DeckError>
    ensures { Answers (λ v. v.items) result (read_text (map array_lists arrays.now) progress 1 text.now) }
{
    let mut rest = text;
    let mut line = 1u64;
    'lines: while let Some(end) = line_end(rest) {
        match progress.read_line(alloc, arrays, &rest[..end]) {
            Ok(()) => {}
            Err(stop) => return Err(error_at(stop, line)),
        }
        rest = &rest[end + 1..];
        line += 1;
    }
    if !rest.is_empty() || !progress.is_done() {
        return Err(error_at(DeckStop::Fault(progress.lacking()), line));
    }
    Ok(progress.into_arrays())
}

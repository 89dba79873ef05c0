//! From texts to texts.

ghost use Rattle.std.specs.Prelude.{◌≡◌, IfOk, IfErr};
ghost use Rattle.std.specs.Option.{option_copied};
ghost use Rattle.cse_meaning.specs.Build.{IsBuilt};
ghost use Rattle.cse_image.specs.Spelling.{StandFor};
ghost use Rattle.cse_batch_parts.specs.RunClauses.{contents, failures};
ghost use Rattle.cse_decks.specs.Store.{StoreFits};
ghost use Rattle.cse_edit.specs.Edit.{Edits, EditsWhole, EditStops, IsNoStartOf, IsStartOf, Stops, devices};

use crate::fault::EditFault;
use crate::laws::batches_mean;
use crate::texts::Texts;
use cse_batch::{Totals, run};
use cse_decks::{Store, load};
use cse_dict::Dictionary;
use cse_image::{Code, Program};
use cse_meaning::build;
use cse_value::{Input, Output};
use cse_verify::{Verified, check_image};
use std::alloc::Global;

/// The number of a want of memory.
const MEMORY: u8 = cse_fault_numbers::WANT_OF_MEMORY;

/// The store that a program starts with: a new one, or that which the text of the hot decks says, where there is one. The
/// faults are that of its first faulty line (`Decks`) and want of memory.
pub fn starting_store<C: Code>(
    alloc: Global,
    program: &Program<C>,
    decks: Option<&[u8]>,
) -> Result<Store, EditFault>
    ensures fits { IfOk result (λ s. StoreFits program.now s) }
    ensures store { IfOk result (IsStartOf program.now (option_copied decks.entry)) }
    ensures fault { IfErr result (IsNoStartOf program.now (option_copied decks.entry)) }
{
    let Some(text) = decks else {
        return match Store::new(alloc, program) {
            Ok(store) => Ok(store),
            Err(_) => Err(EditFault::Memory),
        };
    };
    match load(alloc, program, text) {
        Ok(store) => Ok(store),
        Err(error) if error.number == MEMORY => Err(EditFault::Memory),
        Err(error) => Err(EditFault::Decks(error)),
    }
}

/// Runs a program that the texts are built to.
fn edit_verified<C: Code, R: Input, O: Output, L: Output, F: Output, D: Output>(
    alloc: Global,
    verified: &Verified<'_, C>,
    texts: &Texts<'_>,
    image: &[u8],
    input: &mut R,
    out: &mut O,
    listing: &mut L,
    frequencies: &mut F,
    decks: &mut D,
) -> Result<Totals, EditFault>
    requires built { IsBuilt verified.now.dictionary texts.now.logic.now texts.now.messages.now texts.now.order.now image.now }
    requires stands { StandFor verified.now.image image.now }
    ensures whole { IfOk result (λ totals. Edits verified.now.dictionary texts.now.logic.now texts.now.messages.now texts.now.order.now
        (option_copied texts.now.decks)
        (devices (R.given input.old) (R.given input.new)
        (contents (O.taken out.old) (L.taken listing.old) (F.taken frequencies.old) (D.taken decks.old))
        (contents (O.taken out.new) (L.taken listing.new) (F.taken frequencies.new) (D.taken decks.new)))
        totals) }
    ensures stops { IfErr result (λ fault. Stops verified.now.dictionary texts.now.logic.now texts.now.messages.now texts.now.order.now
        (option_copied texts.now.decks)
        (devices (R.given input.old) (R.given input.new)
        (contents (O.taken out.old) (L.taken listing.old) (F.taken frequencies.old) (D.taken decks.old))
        (contents (O.taken out.new) (L.taken listing.new) (F.taken frequencies.new) (D.taken decks.new)))
        (failures (O.has_failed out.new) (L.has_failed listing.new) (F.has_failed frequencies.new) (D.has_failed decks.new)) fault) }
{
    batches_mean(verified);
    let store = match starting_store(alloc, verified.program(), texts.decks) {
        Ok(store) => store,
        Err(fault) => return Err(fault),
    };
    match run(
        alloc,
        verified,
        store,
        input,
        out,
        listing,
        frequencies,
        decks,
    ) {
        Ok(totals) => Ok(totals),
        Err(fault) => Err(EditFault::Run(fault)),
    }
}

/// Builds the texts for a dictionary, and runs them.
fn edit_with<R: Input, O: Output, L: Output, F: Output, D: Output>(
    alloc: Global,
    dictionary: &Dictionary,
    texts: &Texts<'_>,
    input: &mut R,
    out: &mut O,
    listing: &mut L,
    frequencies: &mut F,
    decks: &mut D,
) -> Result<Totals, EditFault>
    ensures whole { IfOk result (λ totals. Edits dictionary.now texts.now.logic.now texts.now.messages.now texts.now.order.now
        (option_copied texts.now.decks)
        (devices (R.given input.old) (R.given input.new)
        (contents (O.taken out.old) (L.taken listing.old) (F.taken frequencies.old) (D.taken decks.old))
        (contents (O.taken out.new) (L.taken listing.new) (F.taken frequencies.new) (D.taken decks.new)))
        totals) }
    ensures stops { IfErr result (λ fault. Stops dictionary.now texts.now.logic.now texts.now.messages.now texts.now.order.now
        (option_copied texts.now.decks)
        (devices (R.given input.old) (R.given input.new)
        (contents (O.taken out.old) (L.taken listing.old) (F.taken frequencies.old) (D.taken decks.old))
        (contents (O.taken out.new) (L.taken listing.new) (F.taken frequencies.new) (D.taken decks.new)))
        (failures (O.has_failed out.new) (L.has_failed listing.new) (F.has_failed frequencies.new) (D.has_failed decks.new)) fault) }
{
    let image = match build(alloc, dictionary, texts.logic, texts.messages, texts.order) {
        Ok(image) => image,
        Err(fault) => return Err(EditFault::Logic(fault)),
    };
    let Ok(verified) = check_image(alloc, dictionary, &image) else {
        return Err(EditFault::Memory);
    };
    edit_verified(
        alloc,
        &verified,
        texts,
        &image,
        input,
        out,
        listing,
        frequencies,
        decks,
    )
}

/// Edits a data file by the texts of an office: reads and checks the dictionary, the message file, the order file and
/// the logic, makes the program, reads the hot decks, and runs it. It is what `compile` and then `run` do, with no file
/// between.
///
/// `Ok` comes only where the end of the input was read and no line is faulty. Then each output was given its text of the
/// batch that the logic means, over what was read: the lines, the listing, the frequencies, the hot decks (`whole`). Else
/// the fault of the first text at fault is told, and nothing was read or written; or that of the run, and each output was
/// given a front of its text (`stops`). Want of memory is 90.
pub fn edit<R: Input, O: Output, L: Output, F: Output, D: Output>(
    alloc: Global,
    texts: &Texts<'_>,
    input: &mut R,
    out: &mut O,
    listing: &mut L,
    frequencies: &mut F,
    decks: &mut D,
) -> Result<Totals, EditFault>
    ensures whole { IfOk result (λ totals. EditsWhole texts.now.dictionary.now texts.now.logic.now texts.now.messages.now texts.now.order.now
        (option_copied texts.now.decks)
        (devices (R.given input.old) (R.given input.new)
        (contents (O.taken out.old) (L.taken listing.old) (F.taken frequencies.old) (D.taken decks.old))
        (contents (O.taken out.new) (L.taken listing.new) (F.taken frequencies.new) (D.taken decks.new)))
        totals) }
    ensures stops { IfErr result (λ fault. EditStops texts.now.dictionary.now texts.now.logic.now texts.now.messages.now texts.now.order.now
        (option_copied texts.now.decks)
        (devices (R.given input.old) (R.given input.new)
        (contents (O.taken out.old) (L.taken listing.old) (F.taken frequencies.old) (D.taken decks.old))
        (contents (O.taken out.new) (L.taken listing.new) (F.taken frequencies.new) (D.taken decks.new)))
        (failures (O.has_failed out.new) (L.has_failed listing.new) (F.has_failed frequencies.new) (D.has_failed decks.new)) fault) }
{
    match Dictionary::read(alloc, texts.dictionary) {
        Ok(dictionary) => edit_with(
            alloc,
            &dictionary,
            texts,
            input,
            out,
            listing,
            frequencies,
            decks,
        ),
        Err(error) => Err(EditFault::Dictionary(error)),
    }
}

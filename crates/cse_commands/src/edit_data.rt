//! `edit`: logic over a data file, from the files of its words to those of its outputs.

ghost use Rattle.std.specs.Prelude.{◌≡◌, IfOk, IfErr};
ghost use Rattle.std.specs.Option.{option_copied};
ghost use Rattle.cse_image.specs.Spelling.{StandFor};
ghost use Rattle.cse_meaning.specs.Build.{IsBuilt};
ghost use Rattle.cse_decks.specs.Store.{StoreFits};
ghost use Rattle.cse_edit.specs.Edit.{IsRead, IsStartOf};
ghost use Rattle.cse_commands.specs.Edited.{AreEditPaths, EditsFiles, EditsFrom, EditsTexts};
ghost use Rattle.cse_commands.specs.Ran.{AreOpened, AreOpenedFrom};
ghost use Rattle.cse_command_parts.specs.Told.{told_by};
ghost use Rattle.cse_command_parts.specs.Allowed.{KeepsToSteps};
ghost use Rattle.cse_command_parts.specs.Stops.{HasNumber, IsNotOpened};
ghost use Rattle.cse_command_parts.specs.Halts.{StopsFrom, StopsWithin};
ghost use Rattle.cse_commands.specs.EditHalts.{StopsBuilt, StopsEdit, StopsStart};
ghost use Rattle.cse_verify.specs.EventBound.{case_bound};

use crate::edited::EditedFiles;
use crate::ran::{Ran, RanFrom};
use crate::run_image::{allow_steps, keep_decks, run_over};
use cse_command_images::compile_image::image_of;
use cse_command_parts::apart::{see_apart, uses_of_edit};
use cse_command_parts::fault::Fault;
use cse_command_parts::files::{MOST_DECKS, bytes_of, bytes_where_there, text_of};
use cse_command_parts::outcome::Stop;
use cse_command_parts::plan::{EditPaths, RunPaths};
use cse_command_parts::texts::{dict_file, logic_files};
use cse_decks::Store;
use cse_dict::Dictionary;
use cse_edit::{EditFault, batches_mean, starting_store};
use cse_fault_numbers::WANT_OF_MEMORY;
use cse_image::Code;
use cse_value::{Input, Output, Reads, Writes};
use cse_verify::{Verified, check_image};
use std::rt::Files;

/// Runs logic over a data file, and answers what came of it, with each file that was opened: `compile` and then `run`,
/// with no image between.
///
/// No file is opened unless those that are written are apart from the others. The dictionary is read and checked; then
/// logic, the messages and the edit order are read, one after the other, and checked; then the deck file, if it is named
/// and there. The data file and the outputs are opened behind these, in the order of the words. What `run_files` says of
/// steps, of a sync, of the deck file and of late faults holds here. Faults are those of the dictionary (10 to 18);
/// of the messages (30, 35), the order (40) and the logic (30 to 35, 40 to 49, 64, 67); of the deck file (50 to 53) and
/// the data (20 to 22); 70 to 72 of files and devices; and want of memory (90).
pub fn edit_files<'a, R: Files + AllocGlobal>(
    rt: &R,
    paths: &EditPaths<'a>,
) -> Result<EditedFiles<'a, R::File>, Stop>
    // Each file was opened by its path, and the deck file took the deck text.
    ensures paths { IfOk result (AreEditPaths (told_by (⟦<Reads<R::File> as Input>⟧.given)
        (⟦<Writes<R::File> as Output>⟧.taken) (⟦<Writes<R::File> as Output>⟧.has_failed)) paths.now) }
    // The outputs took what the logic means over the data, by what the files of the texts gave.
    ensures edits { IfOk result (EditsFiles (told_by (⟦<Reads<R::File> as Input>⟧.given)
        (⟦<Writes<R::File> as Output>⟧.taken) (⟦<Writes<R::File> as Output>⟧.has_failed))) }
    // Why there is no edit: two files are one; or, in order, the first file that was not opened, not read or not accepted.
    ensures stops { IfErr result (StopsEdit (⟦<Reads<R::File> as Input>⟧.given) paths.now) }
{
    see_apart(rt, &uses_of_edit(rt.alloc(), paths)?)?;
    let vetted = dict_file(rt, paths.run.dict)?;
    let texts = logic_files(rt, paths.logic, paths.messages, paths.order)?;
    let run = edit_with(
        rt,
        vetted.file.bytes(),
        &vetted.dictionary,
        texts.logic.bytes(),
        text_of(&texts.messages),
        text_of(&texts.order),
        &paths.run,
    )?;
    let (logic, messages, order) = texts.into_parts();
    Ok(EditedFiles {
        dict: vetted.into_file(),
        logic,
        messages,
        order,
        run,
    })
}

/// The same by the texts.
fn edit_with<'a, R: Files + AllocGlobal>(
    rt: &R,
    text: &[u8],
    dictionary: &Dictionary,
    logic: &[u8],
    messages: &[u8],
    order: &[u8],
    paths: &RunPaths<'a>,
) -> Result<RanFrom<'a, R::File>, Stop>
    requires read { IsRead text.now dictionary.now }
    ensures paths { IfOk result (AreOpenedFrom (told_by (⟦<Reads<R::File> as Input>⟧.given)
        (⟦<Writes<R::File> as Output>⟧.taken) (⟦<Writes<R::File> as Output>⟧.has_failed)) paths.now) }
    ensures edits { IfOk result (EditsFrom (told_by (⟦<Reads<R::File> as Input>⟧.given)
        (⟦<Writes<R::File> as Output>⟧.taken) (⟦<Writes<R::File> as Output>⟧.has_failed)) text.now logic.now messages.now order.now) }
    ensures stops { IfErr result (StopsBuilt (⟦<Reads<R::File> as Input>⟧.given) paths.now dictionary.now logic.now messages.now order.now) }
{
    let image = image_of(rt.alloc(), dictionary, logic, messages, order)?;
    match check_image(rt.alloc(), dictionary, &image) {
        Ok(verified) => edit_within(rt, &verified, text, logic, messages, order, &image, paths),
        Err(fault) => Err(Stop::Refused(Fault::of_check(fault))),
    }
}

/// The same with the program that the texts are built to, unless a case of it may take more steps than are allowed.
pub fn edit_within<'a, R: Files + AllocGlobal, C: Code>(
    rt: &R,
    verified: &Verified<'_, C>,
    text: &[u8],
    logic: &[u8],
    messages: &[u8],
    order: &[u8],
    image: &[u8],
    paths: &RunPaths<'a>,
) -> Result<RanFrom<'a, R::File>, Stop>
    requires read { IsRead text.now verified.now.dictionary }
    requires built { IsBuilt verified.now.dictionary logic.now messages.now order.now image.now }
    requires stands { StandFor verified.now.image image.now }
    // It is refused exactly where the bound of a case is above what is allowed.
    ensures bounded { KeepsToSteps paths.now.case_steps (case_bound verified.now.image) result }
    ensures paths { IfOk result (AreOpenedFrom (told_by (⟦<Reads<R::File> as Input>⟧.given)
        (⟦<Writes<R::File> as Output>⟧.taken) (⟦<Writes<R::File> as Output>⟧.has_failed)) paths.now) }
    ensures edits { IfOk result (EditsFrom (told_by (⟦<Reads<R::File> as Input>⟧.given)
        (⟦<Writes<R::File> as Output>⟧.taken) (⟦<Writes<R::File> as Output>⟧.has_failed)) text.now logic.now messages.now order.now) }
    // Why there is no edit.
    ensures stops { IfErr result (StopsWithin (⟦<Reads<R::File> as Input>⟧.given) paths.now verified.now (StopsStart verified.now.image)) }
{
    allow_steps(paths.case_steps, verified.case_steps())?;
    edit_verified(rt, verified, text, logic, messages, order, image, paths)
}

/// The edit by a program.
fn edit_verified<'a, R: Files + AllocGlobal, C: Code>(
    rt: &R,
    verified: &Verified<'_, C>,
    text: &[u8],
    logic: &[u8],
    messages: &[u8],
    order: &[u8],
    image: &[u8],
    paths: &RunPaths<'a>,
) -> Result<RanFrom<'a, R::File>, Stop>
    requires read { IsRead text.now verified.now.dictionary }
    requires built { IsBuilt verified.now.dictionary logic.now messages.now order.now image.now }
    requires stands { StandFor verified.now.image image.now }
    ensures paths { IfOk result (AreOpenedFrom (told_by (⟦<Reads<R::File> as Input>⟧.given)
        (⟦<Writes<R::File> as Output>⟧.taken) (⟦<Writes<R::File> as Output>⟧.has_failed)) paths.now) }
    ensures edits { IfOk result (EditsFrom (told_by (⟦<Reads<R::File> as Input>⟧.given)
        (⟦<Writes<R::File> as Output>⟧.taken) (⟦<Writes<R::File> as Output>⟧.has_failed)) text.now logic.now messages.now order.now) }
    ensures fault { IfErr result HasNumber }
    ensures stops { IfErr result (StopsFrom (⟦<Reads<R::File> as Input>⟧.given) paths.now (StopsStart verified.now.image)) }
{
    let decks = bytes_where_there(rt, paths.decks, MOST_DECKS)?;
    let ran = edit_texts(
        rt,
        verified,
        text,
        logic,
        messages,
        order,
        bytes_of(&decks),
        image,
        paths,
    )?;
    let kept = keep_decks(rt, paths.decks, &ran);
    Ok(RanFrom { decks, ran, kept })
}

/// Runs the program that a dictionary, logic, messages and an edit order are built to over the data file to the files of
/// the outputs, from the store of the hot decks, and gathers the deck text. The files are opened where there is such a
/// store, in the order of the words. `Err` tells why there is none, or that a file can't be opened.
pub fn edit_texts<'a, R: Files + AllocGlobal, C: Code>(
    rt: &R,
    verified: &Verified<'_, C>,
    text: &[u8],
    logic: &[u8],
    messages: &[u8],
    order: &[u8],
    decks: Option<&[u8]>,
    image: &[u8],
    paths: &RunPaths<'a>,
) -> Result<Ran<'a, R::File>, Stop>
    requires read { IsRead text.now verified.now.dictionary }
    requires built { IsBuilt verified.now.dictionary logic.now messages.now order.now image.now }
    requires stands { StandFor verified.now.image image.now }
    // The files were opened by these paths.
    ensures paths { IfOk result (AreOpened paths.now) }
    // Of a whole edit each file took its text of the batch that the logic means, and of any other a front of it.
    ensures took { IfOk result (EditsTexts (told_by (⟦<Reads<R::File> as Input>⟧.given)
        (⟦<Writes<R::File> as Output>⟧.taken) (⟦<Writes<R::File> as Output>⟧.has_failed)) text.now logic.now messages.now order.now (option_copied decks.entry)) }
    ensures fault { IfErr result HasNumber }
    ensures told { IfOk result (λ ran. IfErr ran.told HasNumber) }
    // There is no store to begin with; or there is one, and a file can't be opened.
    ensures stops { IfErr result (StopsStart verified.now.image (option_copied decks.entry)) }
{
    match starting_store(rt.alloc(), verified.program(), decks) {
        Ok(store) => edit_over(
            rt, verified, store, text, logic, messages, order, decks, image, paths,
        ),
        Err(EditFault::Decks(error)) => Err(Stop::Refused(Fault::of_decks(error))),
        Err(_) => Err(Stop::of_number(WANT_OF_MEMORY)),
    }
}

/// The same from a store.
fn edit_over<'a, R: Files + AllocGlobal, C: Code>(
    rt: &R,
    verified: &Verified<'_, C>,
    store: Store,
    text: &[u8],
    logic: &[u8],
    messages: &[u8],
    order: &[u8],
    decks: Option<&[u8]>,
    image: &[u8],
    paths: &RunPaths<'a>,
) -> Result<Ran<'a, R::File>, Stop>
    requires read { IsRead text.now verified.now.dictionary }
    requires built { IsBuilt verified.now.dictionary logic.now messages.now order.now image.now }
    requires stands { StandFor verified.now.image image.now }
    requires starts { IsStartOf verified.now.image (option_copied decks) store }
    requires fits { StoreFits verified.now.image store }
    ensures paths { IfOk result (AreOpened paths.now) }
    ensures took { IfOk result (EditsTexts (told_by (⟦<Reads<R::File> as Input>⟧.given)
        (⟦<Writes<R::File> as Output>⟧.taken) (⟦<Writes<R::File> as Output>⟧.has_failed)) text.now logic.now messages.now order.now (option_copied decks.entry)) }
    ensures fault { IfErr result HasNumber }
    ensures told { IfOk result (λ ran. IfErr ran.told HasNumber) }
    ensures not_opened { IfErr result IsNotOpened }
{
    batches_mean(verified);
    run_over(rt, verified, store, paths)
}

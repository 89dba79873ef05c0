//! `run`: an image over a data file, from the files of its words to those of its outputs.

ghost use Rattle.std.specs.Prelude.{◌≡◌, [], None, Ok, IfOk, IfErr, IfSome, IfNone, option_map};
ghost use Rattle.cse_verify.specs.EventBound.{case_bound};
ghost use Rattle.cse_decks.specs.Store.{Kept, StoreFits, first_kept};
ghost use Rattle.cse_decks.specs.DeckText.{IsDeckText};
ghost use Rattle.cse_batch_parts.specs.RunClauses.{RunsWhole, contents, failures};
ghost use Rattle.cse_command_parts.specs.Stops.{HasNumber, IsMemory, IsNotOpened, IsStoreOf, TellsDeckFault, TellsUnwritten};
ghost use Rattle.cse_commands.specs.Telling.{TellsRunFault};
ghost use Rattle.cse_command_parts.specs.Halts.{StopsFrom, StopsImage, StopsRun, StopsStore, StopsWithin};
ghost use Rattle.cse_commands.specs.Ran.{AreOpened, AreOpenedFrom, AreRunPaths, AreUnsynced, KeepsText, RunsFiles, RunsFrom, RunsImage, RunsStore};
ghost use Rattle.cse_command_parts.specs.Told.{told_by};
ghost use Rattle.cse_command_parts.specs.Allowed.{KeepsToSteps, steps_allowed};

use crate::ran::{Ran, RanFiles, RanFrom, RanImage};
use crate::telling::of_run;
use cse_batch::{Totals, run};
use cse_command_parts::apart::{see_apart, uses_of_run};
use cse_command_parts::fault::Fault;
use cse_command_parts::files::{
    MOST_DECKS, MOST_IMAGE, bytes_of, bytes_where_there, created, file_bytes, opened, write_file,
};
use cse_command_parts::outcome::Stop;
use cse_command_parts::plan::RunPaths;
use cse_command_parts::texts::dict_file;
use cse_decks::{Store, load};
use cse_dict::Dictionary;
use cse_fault_numbers::WANT_OF_MEMORY;
use cse_files::{OpenedOutput, Replaced};
use cse_image::{Code, Program};
use cse_value::{Gathered, Input, Output, Reads, Writes};
use cse_verify::{Verified, check_image};
use std::alloc::Global;
use std::fs::OpenFile;
use std::io::Write;
use std::rt::Files;

/// Runs an image over a data file, and answers what came of it, with each file that was opened.
///
/// No file is opened unless those that are written are apart from the others. The dictionary, the image and the deck
/// file, if it is named and there, are read and checked one after the other; then the data file and the outputs are
/// opened, in the order of the words. An image whose cases may take too many steps is refused before the deck file is
/// read. After a run without fault the outputs are synced, if that is asked, and the deck file is written, whole or not at
/// all. Faults are those of the dictionary (10 to 18), the image (60 to 69), the deck file (50 to 53) and the data (20 to
/// 22); 70 to 72 of files and devices; and want of memory (90). One that comes after the data file and the outputs were
/// opened is told beside these.
pub fn run_files<'a, R: Files + AllocGlobal>(
    rt: &R,
    paths: &RunPaths<'a>,
) -> Result<RanFiles<'a, R::File>, Stop>
    // Each file was opened by its path, and the deck file took the deck text.
    ensures paths { IfOk result (AreRunPaths (told_by (⟦<Reads<R::File> as Input>⟧.given)
        (⟦<Writes<R::File> as Output>⟧.taken) (⟦<Writes<R::File> as Output>⟧.has_failed)) paths.now) }
    // What the files gave is a dictionary, an image and decks that go together; and the outputs took what comes of these and the data.
    ensures runs { IfOk result (RunsFiles (told_by (⟦<Reads<R::File> as Input>⟧.given)
        (⟦<Writes<R::File> as Output>⟧.taken) (⟦<Writes<R::File> as Output>⟧.has_failed))) }
    // Why there is no run: two files are one; or, in order, the first file that was not opened, not read or not accepted.
    ensures stops { IfErr result (StopsRun (⟦<Reads<R::File> as Input>⟧.given) paths.now) }
{
    see_apart(rt, &uses_of_run(rt.alloc(), paths)?)?;
    let vetted = dict_file(rt, paths.dict)?;
    let program = run_with(rt, &vetted.dictionary, paths)?;
    Ok(RanFiles {
        dict: vetted.into_file(),
        program,
    })
}

/// The same with the dictionary.
fn run_with<'a, R: Files + AllocGlobal>(
    rt: &R,
    dictionary: &Dictionary,
    paths: &RunPaths<'a>,
) -> Result<RanImage<'a, R::File>, Stop>
    ensures image { IfOk result (λ ran. ran.image.input.path.now ≡ paths.now.image.now) }
    ensures paths { IfOk result (λ ran. AreOpenedFrom (told_by (⟦<Reads<R::File> as Input>⟧.given)
        (⟦<Writes<R::File> as Output>⟧.taken) (⟦<Writes<R::File> as Output>⟧.has_failed)) paths.now ran.run) }
    ensures runs { IfOk result (RunsImage (told_by (⟦<Reads<R::File> as Input>⟧.given)
        (⟦<Writes<R::File> as Output>⟧.taken) (⟦<Writes<R::File> as Output>⟧.has_failed)) dictionary.now) }
    ensures stops { IfErr result (StopsImage (⟦<Reads<R::File> as Input>⟧.given) paths.now dictionary.now) }
{
    let image = file_bytes(rt, paths.image, MOST_IMAGE)?;
    let run = match check_image(rt.alloc(), dictionary, image.bytes()) {
        Ok(verified) => run_within(rt, &verified, paths)?,
        Err(fault) => return Err(Stop::Refused(Fault::of_check(fault))),
    };
    Ok(RanImage { image, run })
}

/// The same with the program, unless a case of it may take more steps than are allowed.
pub fn run_within<'a, R: Files + AllocGlobal, C: Code>(
    rt: &R,
    verified: &Verified<'_, C>,
    paths: &RunPaths<'a>,
) -> Result<RanFrom<'a, R::File>, Stop>
    // It is refused exactly where the bound of a case is above what is allowed.
    ensures bounded { KeepsToSteps paths.now.case_steps (case_bound verified.now.image) result }
    ensures paths { IfOk result (AreOpenedFrom (told_by (⟦<Reads<R::File> as Input>⟧.given)
        (⟦<Writes<R::File> as Output>⟧.taken) (⟦<Writes<R::File> as Output>⟧.has_failed)) paths.now) }
    ensures runs { IfOk result (RunsFrom (told_by (⟦<Reads<R::File> as Input>⟧.given)
        (⟦<Writes<R::File> as Output>⟧.taken) (⟦<Writes<R::File> as Output>⟧.has_failed)) verified.now) }
    // Why there is no run.
    ensures stops { IfErr result (StopsWithin (⟦<Reads<R::File> as Input>⟧.given) paths.now verified.now (StopsStore verified.now.image)) }
{
    allow_steps(paths.case_steps, verified.case_steps())?;
    run_verified(rt, verified, paths)
}

/// Refuses a bound of a case that is above what is allowed.
pub fn allow_steps(allowed: Option<u64>, steps: u64) -> Result<(), Stop>
    ensures { result ≡ steps_allowed allowed steps }
{
    match allowed {
        Some(allowed) if steps > allowed => Err(Stop::TooManySteps(steps, allowed)),
        _ => Ok(()),
    }
}

/// The run of a program.
fn run_verified<'a, R: Files + AllocGlobal, C: Code>(
    rt: &R,
    verified: &Verified<'_, C>,
    paths: &RunPaths<'a>,
) -> Result<RanFrom<'a, R::File>, Stop>
    ensures paths { IfOk result (AreOpenedFrom (told_by (⟦<Reads<R::File> as Input>⟧.given)
        (⟦<Writes<R::File> as Output>⟧.taken) (⟦<Writes<R::File> as Output>⟧.has_failed)) paths.now) }
    ensures runs { IfOk result (RunsFrom (told_by (⟦<Reads<R::File> as Input>⟧.given)
        (⟦<Writes<R::File> as Output>⟧.taken) (⟦<Writes<R::File> as Output>⟧.has_failed)) verified.now) }
    ensures fault { IfErr result HasNumber }
    ensures stops { IfErr result (StopsFrom (⟦<Reads<R::File> as Input>⟧.given) paths.now (StopsStore verified.now.image)) }
{
    let decks = bytes_where_there(rt, paths.decks, MOST_DECKS)?;
    let store = store_of(rt.alloc(), verified.program(), bytes_of(&decks))?;
    let ran = run_over(rt, verified, store, paths)?;
    let kept = keep_decks(rt, paths.decks, &ran);
    Ok(RanFrom { decks, ran, kept })
}

/// Of a whole run, syncs the outputs that are to be, and writes the deck text to the deck file, if one is named.
pub fn keep_decks<'a, R: Files + AllocGlobal>(
    rt: &R,
    path: Option<&'a str>,
    ran: &Ran<'_, R::File>,
) -> Result<Option<Replaced<'a, R::File>>, Stop>
    // The deck file took the deck text.
    ensures kept { KeepsText (told_by (⟦<Reads<R::File> as Input>⟧.given)
        (⟦<Writes<R::File> as Output>⟧.taken) (⟦<Writes<R::File> as Output>⟧.has_failed)) (option_map (λ p. p.now) path.entry) ran.now.told result }
    ensures quiet { AreUnsynced ran.now → path.entry ≡ None → IfOk ran.now.told (λ told. result ≡ Ok None) }
{
    let decks = match &ran.told {
        Ok((_, decks)) => decks,
        Err(stop) => return Err(*stop),
    };
    see_synced(&ran.out)?;
    see_synced(&ran.listing)?;
    see_synced(&ran.frequencies)?;
    match path {
        Some(path) => Ok(Some(write_file(rt, path, decks.bytes())?)),
        None => Ok(None),
    }
}

/// Sees that the disk has what an output took, if that is asked: 71 where it has not.
fn see_synced<F: Write + OpenFile>(output: &OpenedOutput<'_, F>) -> Result<(), Stop>
    ensures fault { IfErr result TellsUnwritten }
    ensures unsynced { output.now.same ≡ None → result ≡ Ok tt }
{
    match output.sync() {
        Ok(()) => Ok(()),
        Err(fault) => Err(Stop::of_write(fault)),
    }
}

/// The store with the cells of a deck text, or a new one. A deck text of the program is refused by want of memory
/// alone, and another text by its first faulty line.
pub fn store_of<C: Code>(
    alloc: Global,
    program: &Program<C>,
    text: Option<&[u8]>,
) -> Result<Store, Stop>
    ensures fits { IfOk result (λ s. StoreFits program.now s) }
    ensures first { IfNone text.entry (IfOk result (λ s. s ≡ first_kept program.now)) }
    ensures loaded { IfSome text.entry (λ t. IfOk result (λ s. IsDeckText program.now t.now s)) }
    ensures lacks_memory { IfNone text.entry (IfErr result IsMemory) }
    ensures every_deck_text { IfSome text.entry (λ t. (s : Kept) → IsDeckText program.now t.now s → IsStoreOf s result) }
    ensures refused { IfSome text.entry (λ t. IfErr result (TellsDeckFault program.now t.now)) }
{
    let Some(text) = text else {
        return match Store::new(alloc, program) {
            Ok(store) => Ok(store),
            Err(_) => Err(Stop::of_number(WANT_OF_MEMORY)),
        };
    };
    store_said(alloc, program, text)
}

/// The store that a deck text says.
fn store_said<C: Code>(alloc: Global, program: &Program<C>, text: &[u8]) -> Result<Store, Stop>
    ensures fits { IfOk result (λ s. StoreFits program.now s) }
    ensures loaded { IfOk result (λ s. IsDeckText program.now text.now s) }
    ensures every_deck_text { (s : Kept) → IsDeckText program.now text.now s → IsStoreOf s result }
    ensures refused { IfErr result (TellsDeckFault program.now text.now) }
{
    match load(alloc, program, text) {
        Ok(store) => Ok(store),
        Err(error) => Err(Stop::Refused(Fault::of_decks(error))),
    }
}

/// Runs the program over the data file to the files of the outputs, and gathers the deck text. The files are
/// opened in the order of the words; `Err` tells that one can't be opened.
pub fn run_over<'a, R: Files + AllocGlobal, C: Code>(
    rt: &R,
    verified: &Verified<'_, C>,
    store: Store,
    paths: &RunPaths<'a>,
) -> Result<Ran<'a, R::File>, Stop>
    requires { StoreFits verified.now.image store }
    // The files were opened by these paths.
    ensures paths { IfOk result (AreOpened paths.now) }
    // Of a whole run each file took its text of the batch, and of any other a front of it.
    ensures took { IfOk result (RunsStore (told_by (⟦<Reads<R::File> as Input>⟧.given)
        (⟦<Writes<R::File> as Output>⟧.taken) (⟦<Writes<R::File> as Output>⟧.has_failed)) verified.now store) }
    ensures not_opened { IfErr result IsNotOpened }
    ensures fault { IfErr result HasNumber }
    ensures told { IfOk result (λ ran. IfErr ran.told HasNumber) }
{
    let mut input = opened(rt, paths.data)?;
    let mut out = created(rt, paths.out, paths.sync)?;
    let mut listing = created(rt, paths.list, paths.sync)?;
    let mut frequencies = created(rt, paths.freq, paths.sync)?;
    let told = run_on(
        rt.alloc(),
        verified,
        store,
        &mut input.device,
        &mut out.device,
        &mut listing.device,
        &mut frequencies.device,
    );
    Ok(Ran {
        told,
        input,
        out,
        listing,
        frequencies,
    })
}

/// Runs the program over the bytes of a device to those of three, and gathers the deck text. A deck text that
/// memory has no place for is want of memory (90).
pub fn run_on<C: Code, R: Input, O: Output, L: Output, F: Output>(
    alloc: Global,
    verified: &Verified<'_, C>,
    store: Store,
    input: &mut R,
    out: &mut O,
    listing: &mut L,
    frequencies: &mut F,
) -> Result<(Totals, Gathered), Stop>
    requires { StoreFits verified.now.image store }
    // The texts, the gathered one too, are those of the batch over all bytes of the input.
    ensures whole { IfOk result (λ ran. RunsWhole verified.now store (R.given input.old) (R.given input.new)
        (contents (O.taken out.old) (L.taken listing.old) (F.taken frequencies.old) []) (contents (O.taken out.new) (L.taken listing.new) (F.taken frequencies.new) ran.1.bytes.items) ran.0) }
    // A stop tells the fault of such a run, but where memory had no place for the deck text.
    ensures stopped { IfErr result (TellsRunFault verified.now store (R.given input.old) (R.given input.new)
        (contents (O.taken out.old) (L.taken listing.old) (F.taken frequencies.old)) (contents (O.taken out.new) (L.taken listing.new) (F.taken frequencies.new))
        (failures (O.has_failed out.new) (L.has_failed listing.new) (F.has_failed frequencies.new))) }
{
    let mut decks = Gathered::new(alloc);
    let ran = run(
        alloc,
        verified,
        store,
        input,
        out,
        listing,
        frequencies,
        &mut decks,
    );
    match ran {
        Ok(totals) => Ok((totals, decks)),
        Err(_) if decks.has_failed() => Err(Stop::of_number(WANT_OF_MEMORY)),
        Err(fault) => Err(Stop::Refused(of_run(fault))),
    }
}

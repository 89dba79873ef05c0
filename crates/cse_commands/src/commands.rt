//! From the words of the command line to what is done.

ghost use Rattle.cse_commands.specs.Does.{CarriesOut, Does, DoesEdit, DoesUnlessMemory};
ghost use Rattle.cse_command_parts.specs.Told.{told_by};

use crate::edit_data::edit_files;
use crate::edited::EditedFiles;
pub use crate::running::run_and_tell;
use crate::running::tell_totals;
pub use cse_command_images::compile_telling::compile_and_tell;
pub use cse_command_images::trying::{try_and_tell, try_file};
use cse_command_parts::outcome::Stop;
use cse_command_parts::plan::{Command, EditPaths, PlanFault, plan};
use cse_command_parts::telling::tell_version;
pub use cse_command_parts::verifying::{verify_and_tell, verify_files};
use cse_fault_numbers::{WANT_OF_MEMORY, WRITE_FAILED};
use cse_value::{Input, Output, Reads, Writes};
use std::env;
use std::io::{self, BufWriter, ErrorKind, Write};
use std::rt::{Env, Files};

/// Does what the words ask for.
pub fn carry_out<R: Env + Files + Print + AllocGlobal>(rt: &R) -> Result<(), Stop>
    // The words ask for no command, or memory lacks; else it is done.
    ensures { CarriesOut (told_by (⟦<Reads<R::File> as Input>⟧.given)
        (⟦<Writes<R::File> as Output>⟧.taken) (⟦<Writes<R::File> as Output>⟧.has_failed)) result }
{
    let given = match words_given(rt) {
        Ok(given) => given,
        Err(error) if error.kind() == ErrorKind::OutOfMemory => {
            return Err(Stop::of_number(WANT_OF_MEMORY));
        }
        Err(_) => return Err(Stop::Usage),
    };
    let Ok(words) = given.iter().map(|word| word.as_str()).collect(rt.alloc()) else {
        return Err(Stop::of_number(WANT_OF_MEMORY));
    };
    let words: Vec<&str> = words;
    do_asked(rt, &words)
}

/// Does what these words ask for.
fn do_asked<R: Files + Print + AllocGlobal>(rt: &R, words: &[&str]) -> Result<(), Stop>
    ensures { CarriesOut (told_by (⟦<Reads<R::File> as Input>⟧.given)
        (⟦<Writes<R::File> as Output>⟧.taken) (⟦<Writes<R::File> as Output>⟧.has_failed)) result }
{
    match plan(rt.alloc(), words) {
        Ok(command) => do_and_flush(rt, command),
        Err(PlanFault::Usage) => Err(Stop::Usage),
        Err(PlanFault::Memory) => Err(Stop::of_number(WANT_OF_MEMORY)),
    }
}

/// The words after the program's name.
fn words_given<R: Env + AllocGlobal>(rt: &R) -> io::Result<Vec<String>> {
    let mut words = Vec::new(rt.alloc());
    for word in env::args(rt)?.skip(1) {
        words.push(word)?;
    }
    Ok(words)
}

/// Does a command, and sees that what it printed went out.
fn do_and_flush<R: Files + Print + AllocGlobal>(rt: &R, command: Command<'_>) -> Result<(), Stop>
    ensures { DoesUnlessMemory (told_by (⟦<Reads<R::File> as Input>⟧.given)
        (⟦<Writes<R::File> as Output>⟧.taken) (⟦<Writes<R::File> as Output>⟧.has_failed)) command.entry result }
{
    let Ok(buffer) = BufWriter::new(rt.alloc(), io::writer(rt)) else {
        return Err(Stop::of_number(WANT_OF_MEMORY));
    };
    let mut out = Writes::new(buffer);
    match do_command(rt, command, &mut out) {
        Ok(()) => {}
        Err(stop) => return Err(stop),
    }
    match out.into_inner().flush() {
        Ok(()) => Ok(()),
        Err(_) => Err(Stop::of_number(WRITE_FAILED)),
    }
}

/// Does a command.
fn do_command<R: Files + AllocGlobal, W: Output>(
    rt: &R,
    command: Command<'_>,
    out: &mut W,
) -> Result<(), Stop>
    ensures { Does (told_by (⟦<Reads<R::File> as Input>⟧.given)
        (⟦<Writes<R::File> as Output>⟧.taken) (⟦<Writes<R::File> as Output>⟧.has_failed)) command.entry result (W.taken out.old) (W.taken out.new) }
{
    match command {
        Command::Try { image } => try_and_tell(rt, image, out),
        Command::Verify { dict, image } => verify_and_tell(rt, dict, image, out),
        Command::Compile(paths) => compile_and_tell(rt, &paths, out),
        Command::Run(paths) => run_and_tell(rt, &paths, out),
        Command::Edit(paths) => edit_and_tell(rt, &paths, out),
        Command::Version => tell_version(out),
    }
}

/// `edit`, and what it counted.
pub fn edit_and_tell<R: Files + AllocGlobal, W: Output>(
    rt: &R,
    paths: &EditPaths<'_>,
    out: &mut W,
) -> Result<(), Stop>
    ensures { DoesEdit (told_by (⟦<Reads<R::File> as Input>⟧.given)
        (⟦<Writes<R::File> as Output>⟧.taken) (⟦<Writes<R::File> as Output>⟧.has_failed)) paths.now result (W.taken out.old) (W.taken out.new) }
{
    let edited = edit_files(rt, paths)?;
    let EditedFiles { run, .. } = edited;
    tell_totals(run.into_totals(), out)
}

//! The start of the program: a command is carried out, what it has not done is told, and its status answered.

ghost use Rattle.std.specs.Prelude.{◌≡◌, false};
ghost use Rattle.cse_value.specs.Device.{Appends};
ghost use Rattle.cse_value.specs.Writing.{AppendsFront, FailsAtErr, WritesAll};
ghost use Rattle.cse_command_parts.specs.Ending.{exit_status};
ghost use Rattle.cse_command_parts.specs.FaultLine.{outcome_text};
ghost use Rattle.cse_commands.specs.Program.{EndsProgram};
ghost use Rattle.cse_command_parts.specs.Told.{told_by};
ghost use Rattle.cse_commands.specs.declared.start.TheConstants.{USAGE};

use crate::commands::carry_out;
use cse_command_parts::fault::{fault_line, write_one_file, write_steps_above};
use cse_command_parts::outcome::{Stop, exit_status};
use cse_value::{Failed, Input, Output, Reads, Writes, write_all};
use std::rt::{Env, Files};

/// What is told of words that are no command.
pub const USAGE: &str = "usage: one of

  csbatch compile DICT LOGIC IMAGE [--messages F] [--order F]  reads DICT, LOGIC and each F; writes IMAGE; ends with 0, 1 or 3
  csbatch verify DICT IMAGE                                    reads DICT and IMAGE; writes no file; ends with 0, 1 or 3
  csbatch run DICT IMAGE DATA OUT LIST FREQ [--decks F] [--case-steps N] [--sync] [--quiet]
                                                               reads DICT, IMAGE, F where it is there, and DATA; writes OUT, LIST, FREQ and F; ends with 0, 1 or 3
  csbatch edit DICT LOGIC DATA OUT LIST FREQ [--messages F] [--order F] [--decks F] [--case-steps N] [--sync] [--quiet]
                                                               reads DICT, LOGIC, each F (that of --decks where it is there) and DATA; writes OUT, LIST, FREQ and the F of --decks; ends with 0, 1 or 3
  csbatch try IMAGE                                            reads IMAGE; writes no file; ends with 0, 1 or 3
  csbatch check DICT LOGIC [--messages F] [--order F] [--json] [--warnings]
                                                               reads DICT, LOGIC and each F; writes no file; ends with 0, 1 or 3
  csbatch explain N                                            reads and writes no file; ends with 0, 1 or 3
  csbatch diff DICT DATA OUT [--by ITEM[,ITEM]] [--cases F] [--html F] [--csv F]
                                                               reads DICT, DATA and OUT; writes each F; ends with 0, 1 or 3
  csbatch look DICT DATA                                       reads DICT and DATA; writes no file; ends with 0, 1 or 3
  csbatch dict DICT                                            reads DICT; writes no file; ends with 0, 1 or 3
  csbatch report DICT LIST FREQ [--html F] [--csv F]           reads DICT, LIST and FREQ; writes each F; ends with 0, 1 or 3
  csbatch show IMAGE [DICT]                                    reads IMAGE and DICT; writes no file; ends with 0, 1 or 3
  csbatch --version                                            prints the version; ends with 0 or 3

compile makes an image of logic, with its messages and its edit order. verify tells whether an image may run with a
dictionary, and how many steps it may take. run edits a data file, and begins with the hot decks of a file. edit does
what compile and then run do, with no image between. try runs what an image does before the first case, and prints its
messages. check prints all faults of logic and the files beside it, with what to write instead, and explain what a fault's
number means. diff prints what a run changed, of DATA to OUT: by item and by value, and with --by by areas, which its id
items tell apart; --cases gets a row for each change, --html the whole as a page, and --csv as a table. look prints what a
data file is, before it is edited, and ends with 1 where no line is seen or ids come back. dict prints what was read of a
dictionary, report the messages and imputations of a run, and show an image as text.
--case-steps refuses an image of which a case may take more than N steps, by the bound that verify prints. --sync waits
until the disk has OUT, LIST and FREQ. Where standard error is a terminal it is told how far DATA is read, but with --quiet.
IMAGE and the F of --decks and --html are written whole or not at all.
No file that is written may be one of the others, but a device as /dev/null.
The status is 0 where it is done, 1 where something was refused, 2 for words that are no command or of which two lead to
one file, and 3 where a file, a device or memory failed. At 1, 2 and 3 standard error tells why, in a line where the
words are a command; at 1 of check and explain, and of look for what it found, standard output does.
";

/// Does what the words ask for, tells what was not done, and answers the exit status.
pub fn carry_out_and_tell<R: Env + Files + Print + AllocGlobal, W: Output>(
    rt: &R,
    errors: &mut W,
) -> u8
    // What the words ask for came to something, whose status and whose text these are.
    ensures { EndsProgram (told_by (⟦<Reads<R::File> as Input>⟧.given)
        (⟦<Writes<R::File> as Output>⟧.taken) (⟦<Writes<R::File> as Output>⟧.has_failed))
        USAGE.now result (W.has_failed errors.new) (W.taken errors.old) (W.taken errors.new) }
{
    let outcome = carry_out(rt);
    tell(&outcome, errors)
}

/// Tells what a command came to, all of it or a front where the device fails: the fault as a line, two files that are one
/// or steps that are too many as a sentence, the usage where its words are none, and of work that is done nothing.
fn write_outcome<W: Output>(outcome: &Result<(), Stop>, errors: &mut W) -> Result<(), Failed>
    ensures bytes { WritesAll result (W.taken errors.old) (W.taken errors.new) (outcome_text USAGE.now outcome.now) }
    ensures failed { FailsAtErr result (W.has_failed errors.old) (W.has_failed errors.new) }
{
    match outcome {
        Ok(()) => Ok(()),
        Err(Stop::Usage) => write_all(errors, USAGE.as_bytes()),
        Err(Stop::OneFile(first, second)) => write_one_file(*first, *second, errors),
        Err(Stop::TooManySteps(steps, allowed)) => write_steps_above(*steps, *allowed, errors),
        Err(Stop::Refused(fault)) => fault_line(fault, errors),
    }
}

/// Tells what a command came to as a line, and the usage where its words are none; of work that is done nothing. What the
/// device doesn't take is not told. Answers the exit status.
pub fn tell<W: Output>(outcome: &Result<(), Stop>, errors: &mut W) -> u8
    ensures status { result ≡ exit_status outcome.now }
    ensures front { AppendsFront (W.taken errors.old) (W.taken errors.new) (outcome_text USAGE.now outcome.now) }
    ensures told { W.has_failed errors.new ≡ false → Appends (W.taken errors.old) (W.taken errors.new) (outcome_text USAGE.now outcome.now) }
{
    let _ = write_outcome(outcome, errors);
    exit_status(outcome)
}

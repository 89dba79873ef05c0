//! Faults as the program tells them: a line of text, and an exit status.

ghost use Rattle.std.specs.Prelude.{◌≡◌};
ghost use Rattle.std.specs.List.{flat_map};
ghost use Rattle.cse_value.specs.Writing.{WritesAll, FailsAtErr};
ghost use Rattle.cse_command_parts.specs.Ending.{code_told, fault_at, fault_in_bytes, fault_in_code, fault_in_text, fault_of_check, fault_of_verify, plain_fault, position_told, status_of};
ghost use Rattle.cse_command_parts.specs.FaultLine.{fault_text, one_file_text, steps_text, told};

use crate::printing::write_parts;
use crate::role::Role;
use crate::verify_image::VerifyFault;
use cse_decks::DeckError;
use cse_dict::DictError;
use cse_fault_numbers::{NOT_OPENED, READ_FAILED, WANT_OF_MEMORY, WRITE_FAILED};
use cse_image::ImageError;
use cse_value::{Failed, Output, write_all};
use cse_verify::{CheckFault, NONE, Refusal};
use itoa::Buffer;

/// A fault: its number, and what it tells of its place.
#[derive(Clone, Copy)]
pub struct Fault {
    pub number: u8,
    /// The line, from 1.
    pub line: Option<u64>,
    /// The column, from 1.
    pub column: Option<u64>,
    /// The byte, from 0.
    pub byte: Option<u64>,
    /// The routine, from 0.
    pub routine: Option<u64>,
    /// The place in the routine, from 0.
    pub place: Option<u64>,
}

impl Fault {
    /// A fault that tells its number alone.
    pub fn of_number(number: u8) -> Fault
        ensures { result ≡ plain_fault number }
    {
        Fault {
            number,
            line: None,
            column: None,
            byte: None,
            routine: None,
            place: None,
        }
    }

    /// A refusal; a routine and a place that stand for none are not told.
    pub fn of_refusal(refusal: Refusal) -> Fault
        ensures { result ≡ fault_in_code refusal }
    {
        Fault {
            routine: told_code(refusal.routine),
            place: told_code(refusal.at),
            ..Fault::of_number(refusal.number)
        }
    }

    /// Bytes that are no image.
    pub fn of_image(error: ImageError) -> Fault
        ensures { result ≡ fault_in_bytes error }
    {
        Fault {
            byte: Some(error.at as u64),
            ..Fault::of_number(error.number)
        }
    }

    /// A fault at a line; a line 0 is not told.
    pub fn at_line(number: u8, line: u64) -> Fault
        ensures { result ≡ fault_at number line }
    {
        Fault {
            line: told_position(line),
            ..Fault::of_number(number)
        }
    }

    /// A text that is no dictionary.
    pub fn of_dictionary(error: DictError) -> Fault
        ensures { result ≡ fault_at error.number error.line }
    {
        Fault::at_line(error.number, error.line)
    }

    /// An image that may not run.
    pub fn of_check(fault: CheckFault) -> Fault
        ensures { result ≡ fault_of_check fault }
    {
        match fault {
            CheckFault::Image(error) => Fault::of_image(error),
            CheckFault::Refused(refusal) => Fault::of_refusal(refusal),
            CheckFault::Memory => Fault::of_number(WANT_OF_MEMORY),
        }
    }

    /// A fault of logic, or of messages or an edit order beside it; a line and a column 0 are not told.
    pub fn in_text(number: u8, line: u64, column: u64) -> Fault
        ensures { result ≡ fault_in_text number line column }
    {
        Fault {
            line: told_position(line),
            column: told_position(column),
            ..Fault::of_number(number)
        }
    }

    /// A deck file that can't be loaded.
    pub fn of_decks(error: DeckError) -> Fault
        ensures { result ≡ fault_at error.number error.line }
    {
        Fault::at_line(error.number, error.line)
    }

    /// The fault of `verify`.
    pub fn of_verify(fault: &VerifyFault) -> Fault
        ensures { result ≡ fault_of_verify fault.now }
    {
        match fault {
            VerifyFault::Dict(error) => Fault::of_dictionary(*error),
            VerifyFault::Check(fault) => Fault::of_check(*fault),
            VerifyFault::Write => Fault::of_number(WRITE_FAILED),
        }
    }
}

fn told_code(number: u32) -> Option<u64>
    ensures { result ≡ code_told number }
{
    if number == NONE {
        None
    } else {
        Some(u64::from(number))
    }
}

fn told_position(position: u64) -> Option<u64>
    ensures { result ≡ position_told position }
{
    if position == 0 { None } else { Some(position) }
}

/// The exit status of a fault's number: 3 for a device, a file or memory (70, 71, 72, 90), else 1.
pub fn ending(number: u8) -> u8
    ensures { result ≡ status_of number }
{
    match number {
        READ_FAILED | WRITE_FAILED | NOT_OPENED | WANT_OF_MEMORY => 3,
        _ => 1,
    }
}

/// Writes `refused N` and what the fault tells of its place, as one line: ` line L`, ` column C`,
/// ` byte B`, ` routine R`, ` place P`. A write that fails is the only fault (71).
pub fn fault_line<W: Output>(fault: &Fault, out: &mut W) -> Result<(), Failed>
    ensures bytes { WritesAll result (W.taken out.old) (W.taken out.new) (fault_text fault.now) }
    ensures failed { FailsAtErr result (W.has_failed out.old) (W.has_failed out.new) }
{
    write_all_told(
        &[
            (b"refused ", Some(u64::from(fault.number))),
            (b" line ", fault.line),
            (b" column ", fault.column),
            (b" byte ", fault.byte),
            (b" routine ", fault.routine),
            (b" place ", fault.place),
        ],
        out,
    )?;
    write_all(out, b"\n")
}

/// Writes words with their numbers, one after the other.
fn write_all_told<W: Output>(parts: &[(&[u8], Option<u64>)], out: &mut W) -> Result<(), Failed>
    ensures bytes { WritesAll result (W.taken out.old) (W.taken out.new) (flat_map (λ part. told part.0.now part.1) parts.now) }
    ensures failed { FailsAtErr result (W.has_failed out.old) (W.has_failed out.new) }
{
    for part in parts {
        write_told(part.0, part.1, out)?;
    }
    Ok(())
}

/// Writes a word and a number, where the number is told.
fn write_told<W: Output>(word: &[u8], number: Option<u64>, out: &mut W) -> Result<(), Failed>
    ensures bytes { WritesAll result (W.taken out.old) (W.taken out.new) (told word.now number) }
    ensures failed { FailsAtErr result (W.has_failed out.old) (W.has_failed out.new) }
{
    match number {
        Some(number) => {
            let mut buffer = Buffer::new();
            write_parts(&[word, buffer.format(number).as_bytes()], out)
        }
        None => Ok(()),
    }
}

/// Writes which two words lead to one file.
pub fn write_one_file<W: Output>(first: Role, second: Role, out: &mut W) -> Result<(), Failed>
    ensures bytes { WritesAll result (W.taken out.old) (W.taken out.new) (one_file_text first second) }
    ensures failed { FailsAtErr result (W.has_failed out.old) (W.has_failed out.new) }
{
    let (first, second) = (first.word().as_bytes(), second.word().as_bytes());
    write_parts(
        &[
            b"usage: ",
            first,
            b" and ",
            second,
            b" are one file, which would be overwritten\n",
        ],
        out,
    )
}

/// Writes how many steps a case may take, and how many are allowed.
pub fn write_steps_above<W: Output>(steps: u64, allowed: u64, out: &mut W) -> Result<(), Failed>
    ensures bytes { WritesAll result (W.taken out.old) (W.taken out.new) (steps_text steps allowed) }
    ensures failed { FailsAtErr result (W.has_failed out.old) (W.has_failed out.new) }
{
    let mut first = Buffer::new();
    let mut second = Buffer::new();
    let steps = first.format(steps).as_bytes();
    let allowed = second.format(allowed).as_bytes();
    write_parts(
        &[
            b"a case may take ",
            steps,
            b" steps, above the ",
            allowed,
            b" of --case-steps\n",
        ],
        out,
    )
}

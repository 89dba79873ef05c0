//! Why a command has not done its work, and how that is told.

ghost use Rattle.std.specs.Prelude.{◌≡◌, ◌≤◌, List};
ghost use Rattle.cse_office.specs.Apart.{TellsOneFile, plain};
ghost use Rattle.cse_office.specs.declared.apart.Use.{Use};

use crate::apart::Role;
use crate::words::{Asked, Slot};
use cse_fault_numbers::{NOT_OPENED, READ_FAILED, WANT_OF_MEMORY, WRITE_FAILED};
use cse_files::{ReadFault, WriteFault};
use cse_value::{Output, write_all};
use itoa::Buffer;
use std::io::ErrorKind;

/// Where in a file a fault is.
#[derive(Clone, Copy)]
pub(crate) enum Spot {
    /// Nowhere that is told.
    Whole,
    /// The line, from 1; a line 0 is not told.
    Line(u64),
    /// The byte, from 0.
    Byte(u64),
}

/// A fault: its number, its place, and which file it is of, if that is told.
#[derive(Clone, Copy)]
pub(crate) struct Fault {
    pub number: u8,
    pub spot: Spot,
    pub slot: Option<Slot>,
}

/// Why a command has not done its work.
#[derive(Clone, Copy)]
pub(crate) enum Stop {
    /// Two words lead to one file, which would be overwritten; the earlier one first.
    OneFile(Role, Role),
    /// A fault.
    Refused(Fault),
}

impl Stop {
    /// A fault that is of no file, or tells none.
    pub(crate) fn of_number(number: u8) -> Stop
        ensures { result ≡ Stop.Refused (plain number) }
    {
        Stop::Refused(Fault {
            number,
            spot: Spot::Whole,
            slot: None,
        })
    }

    /// A fault of a file that tells no place.
    pub(crate) fn of_file(number: u8, slot: Slot) -> Stop {
        Stop::Refused(Fault {
            number,
            spot: Spot::Whole,
            slot: Some(slot),
        })
    }

    /// A fault at a line of a file.
    pub(crate) fn at_line(number: u8, line: u64, slot: Slot) -> Stop {
        Stop::Refused(Fault {
            number,
            spot: Spot::Line(line),
            slot: Some(slot),
        })
    }

    /// A fault at a byte of a file.
    pub(crate) fn at_byte(number: u8, byte: u64, slot: Slot) -> Stop {
        Stop::Refused(Fault {
            number,
            spot: Spot::Byte(byte),
            slot: Some(slot),
        })
    }

    /// Want of memory.
    pub(crate) fn of_memory() -> Stop
        ensures { (uses : List Use) → TellsOneFile uses result }
    {
        Stop::of_number(WANT_OF_MEMORY)
    }

    /// A file that can't be opened.
    pub(crate) fn of_open(kind: ErrorKind, slot: Slot) -> Stop {
        match kind {
            ErrorKind::OutOfMemory => Stop::of_file(WANT_OF_MEMORY, slot),
            _ => Stop::of_file(NOT_OPENED, slot),
        }
    }

    /// A file that was not read.
    pub(crate) fn of_read(fault: ReadFault, slot: Slot) -> Stop {
        match fault {
            ReadFault::NotOpened => Stop::of_file(NOT_OPENED, slot),
            ReadFault::NotRead => Stop::of_file(READ_FAILED, slot),
            ReadFault::Memory => Stop::of_file(WANT_OF_MEMORY, slot),
        }
    }

    /// A file that was not written.
    pub(crate) fn of_write(fault: WriteFault, slot: Slot) -> Stop {
        match fault {
            WriteFault::NotOpened => Stop::of_file(NOT_OPENED, slot),
            WriteFault::NotWritten => Stop::of_file(WRITE_FAILED, slot),
            WriteFault::Memory => Stop::of_file(WANT_OF_MEMORY, slot),
        }
    }
}

/// Writes texts, one behind the other. What the device doesn't take is not told.
fn put<W: Output>(errors: &mut W, texts: &[&str]) {
    for text in texts {
        let _ = write_all(errors, text.as_bytes());
    }
}

/// Writes words, and a number behind them.
fn put_number<W: Output>(errors: &mut W, words: &str, number: u64) {
    let mut buffer = Buffer::new();
    put(errors, &[words]);
    put(errors, &[buffer.format(number)]);
}

/// Writes the line of a fault: `refused N`, its place, and ` in PATH`, if the path is not empty. Of want of memory the number
/// alone is told.
fn put_fault<W: Output>(errors: &mut W, fault: &Fault, path: &str) {
    put_number(errors, "refused ", u64::from(fault.number));
    match fault.spot {
        _ if fault.number == WANT_OF_MEMORY => {}
        Spot::Whole | Spot::Line(0) => {}
        Spot::Line(line) => put_number(errors, " line ", line),
        Spot::Byte(byte) => put_number(errors, " byte ", byte),
    }
    if fault.number != WANT_OF_MEMORY && !path.is_empty() {
        put(errors, &[" in ", path]);
    }
    put(errors, &["\n"]);
}

/// The exit status of a fault's number: 3 for a device, a file or memory, else 1.
fn ending(number: u8) -> u8
    ensures { result ≤ 3 }
{
    match number {
        READ_FAILED | WRITE_FAILED | NOT_OPENED | WANT_OF_MEMORY => 3,
        _ => 1,
    }
}

/// Tells the usage, and answers the exit status.
pub(crate) fn tell_usage<W: Output>(usage: &str, errors: &mut W) -> u8
    ensures { result ≤ 3 }
{
    put(errors, &[usage]);
    2
}

/// Tells that memory lacks, and answers the exit status.
pub(crate) fn tell_memory<W: Output>(errors: &mut W) -> u8
    ensures { result ≤ 3 }
{
    let fault = Fault {
        number: WANT_OF_MEMORY,
        spot: Spot::Whole,
        slot: None,
    };
    put_fault(errors, &fault, "");
    ending(WANT_OF_MEMORY)
}

/// Tells why a command has not done its work, and answers the exit status: two files that are one as a sentence, and a fault as a
/// line.
pub(crate) fn tell<W: Output>(stop: Stop, asked: &Asked<'_>, errors: &mut W) -> u8
    ensures { result ≤ 3 }
{
    match stop {
        Stop::OneFile(first, second) => {
            put(
                errors,
                &[
                    "usage: ",
                    first.word(),
                    " and ",
                    second.word(),
                    " are one file, which would be overwritten\n",
                ],
            );
            2
        }
        Stop::Refused(fault) => {
            let path = match fault.slot {
                Some(slot) => asked.path(slot),
                None => "",
            };
            put_fault(errors, &fault, path);
            ending(fault.number)
        }
    }
}

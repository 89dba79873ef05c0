//! What a command comes to, and the exit status that tells it.

ghost use Rattle.std.specs.Prelude.{◌≡◌, ◌≢◌};
ghost use Rattle.std.specs.declared.io.ErrorKind.TheVariants.{OutOfMemory};
ghost use Rattle.cse_command_parts.specs.Stops.{HasNumber};
ghost use Rattle.cse_command_parts.specs.Ending.{exit_status, number_asked, number_of_read, number_of_write, plain_fault};

use crate::fault::{Fault, ending};
use crate::role::Role;
use cse_fault_numbers::{NOT_OPENED, READ_FAILED, WANT_OF_MEMORY, WRITE_FAILED};
use cse_files::{ReadFault, WriteFault};
use std::alloc::AllocError;
use std::io::ErrorKind;

/// Why a command has not done its work.
#[derive(Clone, Copy)]
pub enum Stop {
    /// The words are no command.
    Usage,
    /// Two words lead to one file, which would be overwritten; the earlier one first.
    OneFile(Role, Role),
    /// A case may take so many steps, more than the second number, which is allowed.
    TooManySteps(u64, u64),
    /// A fault.
    Refused(Fault),
}

/// What is asked of a file or a device.
#[derive(Clone, Copy)]
pub enum Asked {
    Open,
    Read,
    Write,
}

impl Stop {
    /// A fault that tells its number alone.
    pub fn of_number(number: u8) -> Stop
        ensures { result ≡ Stop.Refused (plain_fault number) }
    {
        Stop::Refused(Fault::of_number(number))
    }

    /// The fault of a call that failed: 90 for want of memory; and else 72 where a file can't be opened, 70
    /// where it is open and can't be read, as a folder, and 71 where a device takes no more.
    pub fn of_failure(asked: Asked, kind: ErrorKind) -> Stop
        ensures memory { kind ≡ OutOfMemory → result ≡ Stop.Refused (plain_fault 90) }
        ensures other { kind ≢ OutOfMemory → result ≡ Stop.Refused (plain_fault (number_asked asked)) }
        ensures fault { HasNumber result }
    {
        match kind {
            ErrorKind::OutOfMemory => Stop::of_number(WANT_OF_MEMORY),
            _ => Stop::of_number(number_asked(asked)),
        }
    }

    /// The fault of a file that was not read.
    pub fn of_read(fault: ReadFault) -> Stop
        ensures { result ≡ Stop.Refused (plain_fault (number_of_read fault)) }
    {
        match fault {
            ReadFault::NotOpened => Stop::of_number(NOT_OPENED),
            ReadFault::NotRead => Stop::of_number(READ_FAILED),
            ReadFault::Memory => Stop::of_number(WANT_OF_MEMORY),
        }
    }

    /// The fault of a file that was not written.
    pub fn of_write(fault: WriteFault) -> Stop
        ensures { result ≡ Stop.Refused (plain_fault (number_of_write fault)) }
    {
        match fault {
            WriteFault::NotOpened => Stop::of_number(NOT_OPENED),
            WriteFault::NotWritten => Stop::of_number(WRITE_FAILED),
            WriteFault::Memory => Stop::of_number(WANT_OF_MEMORY),
        }
    }
}

impl From<AllocError> for Stop {
    ghost use Rattle.cse_command_parts.specs.declared.outcome.Stop.TheVariants.{Refused};

    ghost from_gives = { λ _ stop. stop ≡ Refused (plain_fault 90) };

    fn from(_refused: AllocError) -> Stop {
        Stop::of_number(WANT_OF_MEMORY)
    }
}

/// The number of a fault by what was asked.
fn number_asked(asked: Asked) -> u8
    ensures { result ≡ number_asked asked }
{
    match asked {
        Asked::Open => NOT_OPENED,
        Asked::Read => READ_FAILED,
        Asked::Write => WRITE_FAILED,
    }
}

/// The exit status of a command: 0 where its work is done; 1 for an image whose cases may take too many steps; 2 for
/// words that are no command, or of which two lead to one file that is written; and else that of the fault's number.
pub fn exit_status(outcome: &Result<(), Stop>) -> u8
    ensures { result ≡ exit_status outcome.now }
{
    match outcome {
        Ok(()) => 0,
        Err(Stop::TooManySteps(..)) => 1,
        Err(Stop::Usage | Stop::OneFile(..)) => 2,
        Err(Stop::Refused(fault)) => ending(fault.number),
    }
}

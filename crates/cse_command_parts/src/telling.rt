//! What a command came to, printed.

ghost use Rattle.std.specs.Prelude.{◌≡◌};
ghost use Rattle.cse_command_parts.specs.declared.printing.TheConstants.{VERSION};
ghost use Rattle.cse_command_parts.specs.Printed.{version_line};
ghost use Rattle.cse_command_parts.specs.Prints.{Prints, ended, printing};

use crate::outcome::Stop;
use crate::printing::write_version;
use cse_fault_numbers::WRITE_FAILED;
use cse_value::{Failed, Output};

/// That a command has done its work, or why not. Its files are closed.
pub fn ended<T: Drop>(outcome: Result<T, Stop>) -> Result<(), Stop>
    ensures { result ≡ ended outcome }
{
    match outcome {
        Ok(_) => Ok(()),
        Err(stop) => Err(stop),
    }
}

/// `--version`.
pub fn tell_version<W: Output>(out: &mut W) -> Result<(), Stop>
    ensures { Prints (version_line VERSION.now) result (W.taken out.old) (W.taken out.new) }
{
    printed(write_version(out))
}

/// That a text was printed, or that the device failed.
pub fn printed(written: Result<(), Failed>) -> Result<(), Stop>
    ensures { result ≡ printing written }
{
    match written {
        Ok(()) => Ok(()),
        Err(Failed) => Err(Stop::of_number(WRITE_FAILED)),
    }
}

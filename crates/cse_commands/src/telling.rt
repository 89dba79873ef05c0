//! What is told of a run: what it counted, and its fault.

ghost use Rattle.std.specs.Prelude.{◌≡◌};
ghost use Rattle.cse_value.specs.Writing.{WritesAll, FailsAtErr};
ghost use Rattle.cse_command_parts.specs.Ending.{fault_at};
ghost use Rattle.cse_commands.specs.Telling.{totals_line};

use cse_batch::{RunFault, Totals};
use cse_command_parts::fault::Fault;
use cse_command_parts::printing::write_parts;
use cse_value::{Failed, Output};
use itoa::Buffer;

/// What stopped a run.
pub fn of_run(fault: RunFault) -> Fault
    ensures { result ≡ fault_at fault.number fault.line }
{
    Fault::at_line(fault.number, fault.line)
}

/// Writes what a run counted.
pub fn write_totals<W: Output>(totals: Totals, out: &mut W) -> Result<(), Failed>
    ensures bytes { WritesAll result (W.taken out.old) (W.taken out.new) (totals_line totals) }
    ensures failed { FailsAtErr result (W.has_failed out.old) (W.has_failed out.new) }
{
    let mut first = Buffer::new();
    let mut second = Buffer::new();
    let mut third = Buffer::new();
    let cases = first.format(totals.cases).as_bytes();
    let lines = second.format(totals.lines).as_bytes();
    let unseen = third.format(totals.unseen).as_bytes();
    write_parts(
        &[
            b"cases ",
            cases,
            b" lines ",
            lines,
            b" unseen ",
            unseen,
            b"\n",
        ],
        out,
    )
}

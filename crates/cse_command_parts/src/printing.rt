//! Lines for a device: the texts of messages, how many steps an event took, how many bytes an image has, and the version.

ghost use Rattle.std.specs.Prelude.{◌≡◌, [], ◌∷◌};
ghost use Rattle.std.specs.List.{flat_map};
ghost use Rattle.cse_value.specs.Writing.{WritesAll, FailsAtErr};
ghost use Rattle.cse_command_parts.specs.declared.printing.TheConstants.{VERSION};
ghost use Rattle.cse_command_parts.specs.Printed.{text_line, text_lines, compiled_line, steps_line, printed, version_line};

use cse_report::Listing;
use cse_value::{Failed, Output, write_all};
use itoa::Buffer;

/// Writes parts, one after the other.
pub fn write_parts<W: Output>(parts: &[&[u8]], out: &mut W) -> Result<(), Failed>
    ensures bytes { WritesAll result (W.taken out.old) (W.taken out.new) (flat_map (λ part. part.now) parts.now) }
    ensures failed { FailsAtErr result (W.has_failed out.old) (W.has_failed out.new) }
{
    for part in parts {
        write_all(out, part)?;
    }
    Ok(())
}

/// Writes a text on a line.
fn write_text<W: Output>(text: &str, out: &mut W) -> Result<(), Failed>
    ensures bytes { WritesAll result (W.taken out.old) (W.taken out.new) (text_line text.now) }
    ensures failed { FailsAtErr result (W.has_failed out.old) (W.has_failed out.new) }
{
    write_all(out, text.as_bytes())?;
    write_all(out, b"\n")
}

/// Writes the texts of the messages that are held, each on a line.
fn write_texts<W: Output>(listing: &Listing, out: &mut W) -> Result<(), Failed>
    ensures bytes { WritesAll result (W.taken out.old) (W.taken out.new) (text_lines listing.now.texts) }
    ensures failed { FailsAtErr result (W.has_failed out.old) (W.has_failed out.new) }
{
    let mut number = 0;
    'texts: while let Some(text) = listing.text(number) {
        write_text(text, out)?;
        number += 1;
    }
    Ok(())
}

/// Writes how many steps a run took.
fn write_steps<W: Output>(steps: u64, out: &mut W) -> Result<(), Failed>
    ensures bytes { WritesAll result (W.taken out.old) (W.taken out.new) (steps_line steps) }
    ensures failed { FailsAtErr result (W.has_failed out.old) (W.has_failed out.new) }
{
    let mut buffer = Buffer::new();
    let steps = buffer.format(steps).as_bytes();
    write_parts(&[steps, b" steps\n"], out)
}

/// Writes the texts of the messages that are held, and how many steps the run took.
pub fn print<W: Output>(listing: &Listing, steps: u64, out: &mut W) -> Result<(), Failed>
    ensures bytes { WritesAll result (W.taken out.old) (W.taken out.new) (printed listing.now.texts steps) }
    ensures failed { FailsAtErr result (W.has_failed out.old) (W.has_failed out.new) }
{
    write_texts(listing, out)?;
    write_steps(steps, out)
}

/// The version of the program, as CHANGELOG.md has it.
pub const VERSION: &str = "0.1.0";

/// Writes the version.
pub fn write_version<W: Output>(out: &mut W) -> Result<(), Failed>
    ensures bytes { WritesAll result (W.taken out.old) (W.taken out.new) (version_line VERSION.now) }
    ensures failed { FailsAtErr result (W.has_failed out.old) (W.has_failed out.new) }
{
    write_parts(&[b"csbatch ", VERSION.as_bytes(), b"\n"], out)
}

/// Writes how many bytes an image has that was made.
pub fn write_compiled<W: Output>(bytes: usize, out: &mut W) -> Result<(), Failed>
    ensures bytes { WritesAll result (W.taken out.old) (W.taken out.new) (compiled_line bytes) }
    ensures failed { FailsAtErr result (W.has_failed out.old) (W.has_failed out.new) }
{
    let mut buffer = Buffer::new();
    let bytes = buffer.format(bytes).as_bytes();
    write_parts(&[b"compiled ", bytes, b" bytes\n"], out)
}

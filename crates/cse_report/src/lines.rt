//! The lines of a listing.

ghost use Rattle.std.specs.Prelude.{◌≡◌, ◌≤◌, ◌++◌, ◌∷◌, [], OnOk, IfOk, codes, length, map};
ghost use Rattle.std.specs.Str.{encode_utf8_all};
ghost use Rattle.std.specs.Fmt.{decimal};
ghost use Rattle.cse_report.specs.MessageText.{message_text};
ghost use Rattle.cse_report.specs.Listing.{case_heading, run_heading, reason, unseen_line, message_line};
ghost use Rattle.cse_report.specs.Heading.{waiting};
ghost use Rattle.cse_report.specs.Spans.{IsText, text_at};

use crate::argument::Arg;
use crate::fill::{put_char, put_message};
use crate::spans::TextSpan;
use cse_dict::Unseen;
use itoa::Buffer;
use std::alloc::AllocError;

/// The heading that waits for the next line.
#[derive(Clone, Copy)]
pub enum Heading {
    Nothing,
    /// Of the application's preproc or postproc.
    Run,
    /// Of a run of data lines.
    Case,
}

/// Makes the heading of a run of data lines with these id columns, which stand as they are.
#[tactic(auto, unfolding(crate::specs::Listing::case_heading))]
fn make_case_heading(out: &mut Vec<u8>, ids: &[char]) -> Result<(), AllocError>
    ensures { OnOk result (out.new.items ≡ case_heading ids.now) }
{
    out.clear();
    out.extend_from_slice(b"CASE [")?;
    put_characters(out, ids)?;
    out.extend_from_slice(b"]\n")
}

/// Puts characters as they are.
fn put_characters(out: &mut Vec<u8>, characters: &[char]) -> Result<(), AllocError>
    ensures { OnOk result (out.new.items ≡ out.old.items ++ encode_utf8_all characters.now) }
{
    'characters: for character in characters {
        put_char(out, *character)?;
    }
    Ok(())
}

/// Begins with the heading that waits.
fn make_heading(out: &mut Vec<u8>, heading: Heading, ids: &[char]) -> Result<(), AllocError>
    ensures { OnOk result (out.new.items ≡ waiting heading ids.now) }
{
    out.clear();
    match heading {
        Heading::Nothing => Ok(()),
        Heading::Run => out.extend_from_slice(b"RUN\n"),
        Heading::Case => make_case_heading(out, ids),
    }
}

/// Why a line is unseen.
fn reason(what: Unseen) -> &'static [u8]
    ensures { result.now ≡ reason what }
{
    match what {
        Unseen::Unknown => b" unknown",
        Unseen::Extra => b" extra",
    }
}

/// Makes the heading that waits and the line of an unseen line.
pub fn make_unseen(
    out: &mut Vec<u8>,
    heading: Heading,
    ids: &[char],
    number: u64,
    what: Unseen,
) -> Result<(), AllocError>
    ensures { OnOk result (out.new.items ≡ waiting heading ids.now ++ unseen_line number what) }
{
    make_heading(out, heading, ids)?;
    out.extend_from_slice(b"U ")?;
    out.extend_from_slice(Buffer::new().format(number).as_bytes())?;
    out.extend_from_slice(reason(what))?;
    out.extend_from_slice(b"\n")
}

/// Begins the line of a message, up to its text.
fn make_message_start(
    out: &mut Vec<u8>,
    heading: Heading,
    ids: &[char],
    number: u32,
) -> Result<(), AllocError>
    ensures { OnOk result (out.new.items ≡ waiting heading ids.now ++ ((codes "M " ++ decimal number) ++ 32 ∷ [])) }
{
    make_heading(out, heading, ids)?;
    out.extend_from_slice(b"M ")?;
    out.extend_from_slice(Buffer::new().format(number).as_bytes())?;
    out.extend_from_slice(b" ")
}

/// Makes the heading that waits and the line of a message, and tells where its text stands.
pub fn make_message(
    out: &mut Vec<u8>,
    heading: Heading,
    ids: &[char],
    number: u32,
    text: &str,
    args: &[Arg],
) -> Result<TextSpan, AllocError>
    ensures line { OnOk result (out.new.items ≡ waiting heading ids.now ++ message_line number (message_text text.now args.now)) }
    ensures place { IfOk result (λ s. IsText out.new.items s) }
    ensures text { IfOk result (λ s. text_at out.new.items s ≡ message_text text.now args.now) }
{
    make_message_start(out, heading, ids, number)?;
    let start = out.len();
    put_message(out, text, args)?;
    let end = out.len();
    out.extend_from_slice(b"\n")?;
    Ok(TextSpan { start, end })
}

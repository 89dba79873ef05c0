//! A message file: lines `number text`, among empty lines and comments (own; CSPro Users Guide, message
//! files).

ghost use Rattle.std.specs.Prelude.{◌≡◌, ◌<◌, ◌≤◌, List, nat_eq, find, length, map, position, slice_get, Some, true, false, OnOk, MatchOption};
ghost use Rattle.std.specs.Option.{option_map};
ghost use Rattle.std.specs.String.{string_bytes};
ghost use Rattle.cse_sections.specs.Sections.{lines_of};
ghost use Rattle.cse_logic_names.specs.Texts.{AreTexts};
ghost use Rattle.cse_logic_names.specs.MessageFile.{MessageText, ReadsMessages, Takes, digit_count, file_lines, has_form, is_skipped, line_of, text_in, with_message};

use crate::error::{FileStop, TypeError, error_at};
use crate::gaps::{begins_with_gap, digit_count, without_gaps};
use cse_fault_numbers::{OUT_OF_RANGE, UNREADABLE};
use cse_image_parts::texts::{is_short_text, plain_text};
use cse_ordered::keyed::Keyed;
use cse_sections::number::number_between;
use cse_sections::sections::{after_mark, first_line};
use cse_sections::text::is_utf8;
use std::alloc::{AllocError, Global};
use std::marker::Model;

/// The greatest number of a message.
const MOST_NUMBER: u32 = 999_999_999;

/// What a line of a message file says: a number and a text.
#[derive(Drop)]
struct MessageLine<'a> {
    number: u32,
    text: &'a str,
}

impl<'a> Model for MessageLine<'a> {
    ghost Value = { MessageText };

    ghost view = { λ m. record { number = m.number; text = m.text.now } };
}

/// A line that says nothing.
#[tactic(auto, unfolding(crate::specs::MessageFile::is_skipped))]
fn is_skipped(line: &[u8]) -> bool
    ensures { result ≡ is_skipped line.now }
{
    let rest = without_gaps(line);
    line.is_empty() || rest.starts_with(b"{".as_slice()) || rest.starts_with(b"//".as_slice())
}

/// The text of a line that has the form of a message.
#[tactic(auto, unfolding(crate::specs::MessageFile::has_form))]
fn text_of(line: &[u8], digits: usize) -> Option<&str>
    requires count { digits ≡ digit_count line.now }
    requires within { digits ≤ length line.now }
    ensures { MatchOption result (has_form line.now ≡ false) (λ text. (text.now ≡ text_in line.now) × (has_form line.now ≡ true)) }
{
    if digits == 0 {
        return None;
    }
    let behind = &line[digits..];
    if !begins_with_gap(behind) {
        return None;
    }
    let text = plain_text(without_gaps(behind))?;
    if is_short_text(text) {
        Some(text)
    } else {
        None
    }
}

/// What a line says: nothing, or a message; else the number of its fault.
#[tactic(auto, unfolding(crate::specs::MessageFile::line_of))]
fn line_of(line: &[u8]) -> Result<Option<MessageLine<'_>>, u8>
    ensures { result ≡ line_of line.now }
{
    if !is_utf8(line) {
        return Err(UNREADABLE);
    }
    if is_skipped(line) {
        return Ok(None);
    }
    let digits = digit_count(line);
    let Some(text) = text_of(line, digits) else {
        return Err(UNREADABLE);
    };
    match number_between(1, MOST_NUMBER, &line[..digits]) {
        Some(number) => Ok(Some(MessageLine { number, text })),
        None => Err(OUT_OF_RANGE),
    }
}

/// The messages that were read so far, in order, each number once.
#[derive(Drop)]
struct Found {
    table: Keyed<u32, String>,
}

impl Model for Found {
    ghost Value = { List MessageText };

    ghost view = { λ f. map (λ e. record { number = e.0; text = string_bytes e.1 }) f.table };
}

impl Found {
    /// One message more; of a number that comes twice the first counts.
    fn add(&mut self, alloc: Global, message: MessageLine<'_>) -> Result<(), AllocError>
        ensures { OnOk result (self.new ≡ with_message self.old message.entry) }
    {
        if self.table.get(message.number).is_some() {
            return Ok(());
        }
        let text = String::from_str(alloc, message.text)?;
        self.table.push(message.number, text)?;
        Ok(())
    }

    /// Takes what a line says.
    fn take_line(&mut self, alloc: Global, line: &[u8]) -> Result<(), FileStop>
        ensures { Takes result self.old self.new (line_of line.now) }
    {
        match line_of(line) {
            Ok(None) => Ok(()),
            Ok(Some(message)) => match self.add(alloc, message) {
                Ok(()) => Ok(()),
                Err(_) => Err(FileStop::Memory),
            },
            Err(number) => Err(FileStop::Fault(number)),
        }
    }

    /// The messages of the lines of a text.
    #[tactic(auto, unfolding(cse_sections::specs::Sections::lines_of))]
    fn read_lines(alloc: Global, text: &[u8]) -> Result<Found, TypeError>
        ensures { ReadsMessages result (lines_of text.now) }
    {
        let mut found = Found {
            table: Keyed::new(alloc),
        };
        let mut rest = text;
        let mut number = 0u64;
        'lines: while !rest.is_empty() {
            let (line, more) = first_line(rest);
            number += 1;
            match found.take_line(alloc, line) {
                Ok(()) => {}
                Err(stop) => return Err(error_at(stop, number)),
            }
            rest = more;
        }
        Ok(found)
    }
}

/// The messages of a message file, in order, each number once.
pub struct Messages {
    table: Keyed<u32, String>,
}

// Written out, so that a crate that owns messages calls this drop and does not prove one for each part.
impl Drop for Messages {
    fn drop(self) {
        let Messages { table: _table } = self;
    }
}

impl Model for Messages {
    ghost Value = { List MessageText };

    ghost view = { λ m. map (λ e. record { number = e.0; text = string_bytes e.1 }) m.table };

    ghost invariant = { λ m. AreTexts (map (λ e. record { number = e.0; text = string_bytes e.1 }) m.table) };
}

impl Messages {
    /// The messages of a file: UTF-8, a byte order mark at its front aside; lines `number text` with a number
    /// from 1 to 999,999,999, blanks, and a text of at most 255 characters, none below U+0020; empty lines;
    /// and comments, which begin with `{` or `//`. Else the first line that is none of these (30), or whose
    /// number is out of its range (35), at its column 1; or want of memory (90).
    pub fn read(alloc: Global, text: &[u8]) -> Result<Messages, TypeError>
        ensures { ReadsMessages result (file_lines text.now) }
    {
        match Found::read_lines(alloc, after_mark(text)) {
            Ok(found) => Ok(Messages::kept(found)),
            Err(error) => Err(error),
        }
    }

    /// Those that were read of lines that have the form of a message.
    fn kept(found: Found) -> Messages
        requires { AreTexts found }
        ensures { result ≡ found }
    {
        let Found { table } = found;
        Messages { table }
    }

    /// How many there are. Whoever has messages has texts without a character below U+0020.
    pub fn count(&self) -> usize
        ensures count { result ≡ length self.now }
        ensures texts { AreTexts self.now }
    {
        self.table.len()
    }

    /// The place of the message of this number, counted from 0.
    pub fn find(&self, number: u32) -> Option<usize>
        ensures { result ≡ position (nat_eq number) (map (λ (m : MessageText). m.number) self.now) }
    {
        self.table.place_of(number)
    }

    /// The text of the message of this number.
    pub fn get(&self, number: u32) -> Option<&str>
        ensures { option_map (λ t. record { number = number; text = t.now }) result ≡ find (λ (m : MessageText). nat_eq number m.number) self.now }
    {
        match self.table.get(number) {
            None => None,
            Some(text) => Some(text.as_str()),
        }
    }

    /// The number of the message at a place.
    pub fn number(&self, place: usize) -> u32
        requires { place < length self.now }
        ensures { option_map (λ (m : MessageText). m.number) (slice_get self.now place) ≡ Some result }
    {
        self.table.at(place).0
    }

    /// The text of the message at a place.
    pub fn text(&self, place: usize) -> &str
        requires { place < length self.now }
        ensures { option_map (λ (m : MessageText). m.text) (slice_get self.now place) ≡ Some result.now }
    {
        self.table.at(place).1.as_str()
    }
}

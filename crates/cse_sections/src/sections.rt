//! The sections of a text, with the numbers of their lines.
ghost use Rattle.std.specs.Prelude.{◌≡◌, ◌<◌, ◌∷◌, length, IfOk, OnOk};
ghost use Rattle.std.specs.Option.{option_copied, option_map};
ghost use Rattle.std.specs.Str.Lines.{strip_carriage_return};
ghost use Rattle.cse_sections.specs.Sections.{EntryText, SectionText, after_mark, heading_of, lines_of, pair_of, sections_behind_mark, sections_of, with_entry, with_line};

use crate::text::{place_of, trimmed};
use std::alloc::{AllocError, Global};
use std::marker::Model;

/// A line `Key=Value`, without blanks at the ends of key and value. Lines count from 1.
#[derive(Drop)]
pub struct Entry<'a> {
    pub line: u64,
    pub key: &'a [u8],
    pub value: &'a [u8],
}

impl<'a> Model for Entry<'a> {
    ghost Value = { EntryText };

    ghost view = { λ e. record { line = e.line; key = e.key.now; value = e.value.now } };
}

/// A section: what stands in the brackets of its heading, the line of the heading, counted from 1, and
/// its lines `Key=Value`.
#[derive(Drop)]
pub struct Section<'a> {
    pub line: u64,
    pub heading: &'a [u8],
    pub entries: Vec<Entry<'a>>,
}

impl<'a> Model for Section<'a> {
    ghost Value = { SectionText };

    ghost view = { λ s. record { line = s.line; heading = s.heading.now; entries = s.entries.items } };
}

/// What stands between the brackets of a heading.
#[tactic(auto, unfolding(crate::specs::Sections::heading_of))]
fn heading_of(line: &[u8]) -> Option<&[u8]>
    ensures { option_copied result ≡ heading_of line.now }
{
    match trimmed(line) {
        [b'[', heading @ .., b']'] => Some(heading),
        _ => None,
    }
}

/// What stands on both sides of the first `=`.
#[tactic(auto, unfolding(crate::specs::Sections::pair_of))]
fn pair_of(line: &[u8]) -> Option<(&[u8], &[u8])>
    ensures { option_map (λ p. (p.0.now, p.1.now)) result ≡ pair_of line.now }
{
    match place_of(b'=', line) {
        Some(i) => Some((trimmed(&line[..i]), trimmed(&line[i + 1..]))),
        None => None,
    }
}

/// A line without the carriage return at its end.
fn without_return(line: &[u8]) -> &[u8]
    ensures { result.now ≡ strip_carriage_return line.now }
{
    match line {
        [text @ .., b'\r'] => text,
        _ => line,
    }
}

/// The first line of a text, without its end, and what follows.
pub fn first_line(text: &[u8]) -> (&[u8], &[u8])
    requires { 0 < length text.now }
    ensures lines { lines_of text.now ≡ result.0.now ∷ lines_of result.1.now }
    ensures shorter { length result.1.now < length text.now }
{
    match place_of(b'\n', text) {
        Some(i) => (without_return(&text[..i]), &text[i + 1..]),
        None => (text, &text[text.len()..]),
    }
}

/// The entry joins the last section.
fn push_entry<'a>(sections: &mut Vec<Section<'a>>, pair: Entry<'a>) -> Result<(), AllocError>
    ensures { OnOk result (sections.new.items ≡ with_entry sections.old.items pair.entry) }
{
    if let Some(mut section) = sections.pop() {
        section.entries.push(pair)?;
        sections.push(section)?;
    }
    Ok(())
}

/// Takes one line more.
#[tactic(auto, unfolding(crate::specs::Sections::with_line))]
fn add_line<'a>(
    alloc: Global,
    sections: &mut Vec<Section<'a>>,
    number: u64,
    line: &'a [u8],
) -> Result<(), AllocError>
    ensures { OnOk result (sections.new.items ≡ with_line sections.old.items (number, line.now)) }
{
    if let Some(heading) = heading_of(line) {
        sections.push(Section {
            line: number,
            heading,
            entries: Vec::new(alloc),
        })?;
        return Ok(());
    }
    if let Some((key, value)) = pair_of(line) {
        push_entry(
            sections,
            Entry {
                line: number,
                key,
                value,
            },
        )?;
    }
    Ok(())
}

/// The text behind a byte order mark.
#[tactic(auto, unfolding(crate::specs::Sections::after_mark))]
pub fn after_mark(text: &[u8]) -> &[u8]
    ensures { result.now ≡ after_mark text.now }
{
    match text.strip_prefix(b"\xef\xbb\xbf".as_slice()) {
        Some(rest) => rest,
        None => text,
    }
}

/// The sections of a text without a byte order mark.
#[tactic(auto, unfolding(crate::specs::Sections::lines_of))]
fn sections_behind_mark(alloc: Global, text: &[u8]) -> Result<Vec<Section<'_>>, AllocError>
    ensures { IfOk result (λ v. v.items ≡ sections_behind_mark text.now) }
{
    let mut sections = Vec::new(alloc);
    let mut rest = text;
    let mut number = 0;
    'lines: while !rest.is_empty() {
        let (line, more) = first_line(rest);
        number += 1;
        add_line(alloc, &mut sections, number, line)?;
        rest = more;
    }
    Ok(sections)
}

/// The sections of the text, in order, a byte order mark at its front aside.
#[tactic(auto, unfolding(crate::specs::Sections::sections_of))]
pub fn sections_of(alloc: Global, text: &[u8]) -> Result<Vec<Section<'_>>, AllocError>
    ensures { IfOk result (λ v. v.items ≡ sections_of text.now) }
{
    sections_behind_mark(alloc, after_mark(text))
}

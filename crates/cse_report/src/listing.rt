//! The listing of a run, which is written as it grows.

ghost use Rattle.std.specs.Prelude.{◌≡◌, ◌<◌, ◌≤◌, ◌+◌, ◌++◌, ◌∷◌, [], List, not, OnOk, OnErr, IfOk, IsOk, length, map, slice_get, slice_index, slice_set, replicate, false, ◌^◌, OnSome};
ghost use Rattle.std.specs.Option.{option_copied};
ghost use Rattle.std.specs.Bool.{Decides, OnTrue};
ghost use Rattle.cse_value.specs.Writing.{WritesAll, FailsAtErr};
ghost use Rattle.cse_image_parts.specs.Image.{message_lists};
ghost use Rattle.cse_value.specs.Gathering.{behind, Puts};
ghost use Rattle.cse_report.specs.declared.argument.Arg.{Arg};
ghost use Rattle.cse_report.specs.Counts.{one_more};
ghost use Rattle.cse_report.specs.MessageText.{HasArguments};
ghost use Rattle.cse_report.specs.Listing.{is_listed, text_of, BeginsRun, BeginsCase, LeavesUnseen, Gives};
ghost use Rattle.cse_report.specs.Held.{begun, reported, flushed, ending};
ghost use Rattle.cse_report.specs.Spans.{IsText, AreTexts, text_at, texts_at, moved};

use crate::argument::{Arg, takes};
use crate::lines::{Heading, make_message, make_unseen};
use crate::spans::TextSpan;
use crate::summary::put_summary;
use cse_dict::Unseen;
use cse_image::Message;
use cse_value::{Failed, Gatherer, OutOfMemory, Output, write_all};
use std::alloc::{AllocError, Global};
use std::marker::Model;
use std::mem;

/// The listing of a run: how often each message of the program was given, the heading that waits for the
/// next line, and the lines that no device has yet.
#[derive(Drop)]
pub struct Listing {
    messages: Vec<Message>,
    counts: Vec<u64>,
    heading: Heading,
    /// The id columns of the case, where its heading waits.
    ids: Vec<char>,
    /// Room for the id columns of the next case, where they are more or fewer.
    next_ids: Vec<char>,
    /// What is being made.
    making: Vec<u8>,
    lines: Vec<u8>,
    /// Where the texts of messages stand in the lines.
    spans: Vec<TextSpan>,
}

impl Model for Listing {
    ghost use Rattle.std.specs.Prelude.{◌≡◌, map, length};
    ghost use Rattle.cse_image_parts.specs.Image.{message_lists};
    ghost use Rattle.cse_report.specs.Heading.{waiting};
    ghost use Rattle.cse_report.specs.Held.{Held};
    ghost use Rattle.cse_report.specs.Spans.{texts_at, AreTexts, Keeps};

    ghost Value = { Held };

    ghost view = { λ s. record {
      messages = map message_lists s.messages.items;
      counts = s.counts.items;
      heading = waiting s.heading s.ids.items;
      lines = s.lines.items;
      texts = texts_at s.lines.items s.spans.items;
    } };

    ghost invariant = { λ s. Keeps (length s.messages.items) (length s.counts.items) s.lines.items s.spans.items };
}

/// Copies of messages.
fn copy_messages(alloc: Global, messages: &[Message]) -> Result<Vec<Message>, AllocError>
    ensures { IfOk result (λ v. map message_lists v.items ≡ map message_lists messages.now) }
{
    let mut copies = Vec::new(alloc);
    'messages: for message in messages {
        let text = String::from_str(alloc, message.text.as_str())?;
        copies.push(Message {
            number: message.number,
            summary: message.summary,
            text,
        })?;
    }
    Ok(copies)
}

/// As many zeros.
fn no_counts(alloc: Global, count: usize) -> Result<Vec<u64>, AllocError>
    ensures { IfOk result (λ v. v.items ≡ replicate count 0) }
{
    let mut counts = Vec::new(alloc);
    'counts: for _message in 0..count {
        counts.push(0)?;
    }
    Ok(counts)
}

/// Adds lines, in which the text of a message stands, or leaves all as it is.
fn hold_message(
    lines: &mut Vec<u8>,
    spans: &mut Vec<TextSpan>,
    made: &[u8],
    text: TextSpan,
) -> Result<(), AllocError>
    requires { IsText made.now text }
    ensures lines { OnOk result (lines.new.items ≡ lines.old.items ++ made.now) }
    ensures spans { OnOk result (spans.new.items ≡ spans.old.items ++ moved (length lines.old.items) text ∷ []) }
    ensures err_lines { OnErr result (lines.new.items ≡ lines.old.items) }
    ensures err_spans { OnErr result (spans.new.items ≡ spans.old.items) }
{
    spans.reserve(1)?;
    let before = lines.len();
    lines.extend_from_slice(made)?;
    let span = TextSpan {
        start: before + text.start,
        end: before + text.end,
    };
    let Ok(()) = spans.push(span) else {
        unreachable!();
    };
    Ok(())
}

/// The text at a place.
fn text_in(lines: &[u8], span: TextSpan) -> &str
    requires { IsText lines.now span }
    ensures { result.now ≡ text_at lines.now span }
{
    let Ok(text) = str::from_utf8(&lines[span.start..span.end]) else {
        unreachable!();
    };
    text
}

/// The text at the place of this number.
fn nth_text<'a>(lines: &'a [u8], spans: &[TextSpan], i: usize) -> Option<&'a str>
    requires { AreTexts lines.now spans.now }
    ensures text { option_copied result ≡ slice_get (texts_at lines.now spans.now) i }
    ensures small { OnSome result (i + 1 < 2 ^ 64) }
{
    if i >= spans.len() {
        return None;
    }
    Some(text_in(lines, spans[i]))
}

/// One more, as far as counts go.
fn count_one(counts: &mut Vec<u64>, i: usize)
    requires { i < length counts.old.items }
    ensures { counts.new.items ≡ slice_set counts.old.items i (one_more (slice_index counts.old.items i)) }
{
    counts[i] = counts[i].saturating_add(1);
}

impl Listing {
    /// The listing of a run in which nothing was reported yet: its first line is held.
    pub(crate) fn new(alloc: Global, messages: &[Message]) -> Result<Listing, AllocError>
        ensures { IfOk result (λ l. l ≡ begun (map message_lists messages.now)) }
    {
        let counts = no_counts(alloc, messages.len())?;
        let messages = copy_messages(alloc, messages)?;
        let mut lines = Vec::new(alloc);
        lines.extend_from_slice(b"CSEB LISTING 1\n")?;
        Ok(Listing {
            messages,
            counts,
            heading: Heading::Nothing,
            ids: Vec::new(alloc),
            next_ids: Vec::new(alloc),
            making: Vec::new(alloc),
            lines,
            spans: Vec::new(alloc),
        })
    }

    /// The application's preproc or postproc begins. Takes no memory.
    pub fn begin_run(&mut self)
        ensures { self.new ≡ reported self.old BeginsRun }
    {
        self.heading = Heading::Run;
    }

    /// A run of data lines with these id columns begins. After want of memory nothing has changed.
    pub fn begin_case(&mut self, ids: &[char]) -> Result<(), OutOfMemory>
        ensures ok { OnOk result (self.new ≡ reported self.old (BeginsCase ids.now)) }
        ensures err { OnErr result (self.new ≡ self.old) }
    {
        if self.ids.len() == ids.len() {
            self.ids.copy_from_slice(ids);
        } else {
            self.next_ids.clear();
            self.next_ids.extend_from_slice(ids)?;
            mem::swap(&mut self.ids, &mut self.next_ids);
        }
        self.heading = Heading::Case;
        Ok(())
    }

    /// A data line, counted from 1, is no occurrence of its run. After want of memory nothing has changed.
    pub fn unseen(&mut self, line: u64, what: Unseen) -> Result<(), OutOfMemory>
        ensures ok { OnOk result (self.new ≡ reported self.old (LeavesUnseen line what)) }
        ensures err { OnErr result (self.new ≡ self.old) }
    {
        make_unseen(&mut self.making, self.heading, &self.ids, line, what)?;
        self.lines.extend_from_slice(&self.making)?;
        self.heading = Heading::Nothing;
        Ok(())
    }

    /// Whether there is a message of this number, from 0, and the arguments are of its kinds. Takes no memory.
    pub fn takes(&self, index: usize, args: &[Arg]) -> bool
        ensures there { OnTrue result (index < length self.now.messages) }
        ensures kinds { index < length self.now.messages → Decides result (HasArguments (text_of self.now.messages index) args.now) }
    {
        if index >= self.messages.len() {
            return false;
        }
        takes(self.messages[index].text.as_bytes(), args)
    }

    /// The message of this number, from 0, is given with its arguments: it is counted, and listed unless it
    /// is one of the summary. A count stays at 2^64 - 1. After want of memory nothing has changed; a message
    /// of the summary takes no memory.
    pub fn message(&mut self, index: usize, args: &[Arg]) -> Result<(), OutOfMemory>
        requires there { index < length self.old.messages }
        requires kinds { HasArguments (text_of self.old.messages index) args.now }
        ensures ok { OnOk result (self.new ≡ reported self.old (Gives index args.now)) }
        ensures err { OnErr result (self.new ≡ self.old) }
        ensures summary { is_listed self.old.messages index ≡ false → IsOk result }
    {
        let message = &self.messages[index];
        if message.summary {
            count_one(&mut self.counts, index);
            return Ok(());
        }
        let text = make_message(
            &mut self.making,
            self.heading,
            &self.ids,
            message.number,
            message.text.as_str(),
            args,
        )?;
        hold_message(&mut self.lines, &mut self.spans, &self.making, text)?;
        self.heading = Heading::Nothing;
        count_one(&mut self.counts, index);
        Ok(())
    }

    /// Whether the message of this number, from 0, is only counted. Takes no memory.
    pub fn is_summary(&self, index: usize) -> bool
        requires { index < length self.now.messages }
        ensures { result ≡ not (is_listed self.now.messages index) }
    {
        self.messages[index].summary
    }

    /// The message of this number, from 0, is given, which is only counted. A count stays at 2^64 - 1. Takes no
    /// memory.
    pub fn summary_message(&mut self, index: usize)
        requires there { index < length self.old.messages }
        requires summary { is_listed self.old.messages index ≡ false }
        ensures { (args : List Arg) → self.new ≡ reported self.old (Gives index args) }
    {
        count_one(&mut self.counts, index);
    }

    /// The text of a message held, in order from 0. Takes no memory.
    pub fn text(&self, i: usize) -> Option<&str>
        ensures text { option_copied result ≡ slice_get self.now.texts i }
        ensures small { OnSome result (i + 1 < 2 ^ 64) }
    {
        nth_text(&self.lines, &self.spans, i)
    }

    /// Writes the lines held and drops them; after a failure they are still held. Takes no memory.
    pub fn flush_to<W: Output>(&mut self, out: &mut W) -> Result<(), Failed>
        ensures bytes { WritesAll result (W.taken out.old) (W.taken out.new) self.old.lines }
        ensures failed { FailsAtErr result (W.has_failed out.old) (W.has_failed out.new) }
        ensures ok { OnOk result (self.new ≡ flushed self.old) }
        ensures err { OnErr result (self.new ≡ self.old) }
    {
        write_all(out, &self.lines)?;
        self.lines.clear();
        self.spans.clear();
        Ok(())
    }

    /// Puts the lines held into a buffer and drops them: the buffer's end tells whether they were written.
    /// Takes no memory.
    pub fn put_to<W: Output>(&mut self, gatherer: &mut Gatherer, out: &mut W)
        ensures puts { Puts (behind W.taken W.has_failed out.old gatherer.old) (behind W.taken W.has_failed out.new gatherer.new) self.old.lines }
        ensures held { self.new ≡ flushed self.old }
    {
        gatherer.put(out, &self.lines);
        self.lines.clear();
        self.spans.clear();
    }

    /// Writes the lines held and the summary: how many cases, data lines and unseen lines there were, and how
    /// often each message was given. Takes no memory.
    pub fn write_to<W: Output>(
        &self,
        cases: u64,
        lines: u64,
        unseen: u64,
        out: &mut W,
    ) -> Result<(), Failed>
        ensures bytes { WritesAll result (W.taken out.old) (W.taken out.new) (ending self.now cases lines unseen) }
        ensures failed { FailsAtErr result (W.has_failed out.old) (W.has_failed out.new) }
    {
        let mut gatherer = Gatherer::new();
        gatherer.put(out, &self.lines);
        put_summary(
            &mut gatherer,
            out,
            &self.messages,
            &self.counts,
            cases,
            lines,
            unseen,
        );
        gatherer.finish(out)
    }
}

//! The summary at the end of a listing.

ghost use Rattle.std.specs.Prelude.{◌≡◌, length, map};
ghost use Rattle.cse_value.specs.Gathering.{behind, Puts};
ghost use Rattle.cse_image_parts.specs.Image.{message_lists};
ghost use Rattle.cse_report.specs.Listing.{number_line, number_word, count_line, count_lines, summary};

use cse_image::Message;
use cse_value::{Gatherer, Output};
use itoa::Buffer;

/// Puts a line of a word and a number.
fn put_number<W: Output>(gatherer: &mut Gatherer, out: &mut W, word: &[u8], number: u64)
    ensures { Puts (behind W.taken W.has_failed out.old gatherer.old) (behind W.taken W.has_failed out.new gatherer.new) (number_line word.now number) }
{
    gatherer.put(out, word);
    gatherer.put_line(out, Buffer::new().format(number).as_bytes());
}

/// Puts a number and a blank.
fn put_word<W: Output>(gatherer: &mut Gatherer, out: &mut W, number: u64)
    ensures { Puts (behind W.taken W.has_failed out.old gatherer.old) (behind W.taken W.has_failed out.new gatherer.new) (number_word number) }
{
    gatherer.put(out, Buffer::new().format(number).as_bytes());
    gatherer.put(out, b" ");
}

/// Puts the line of a message and its count.
fn put_count<W: Output>(gatherer: &mut Gatherer, out: &mut W, message: &Message, count: u64)
    ensures { Puts (behind W.taken W.has_failed out.old gatherer.old) (behind W.taken W.has_failed out.new gatherer.new)
        (count_line (message_lists message.now) count) }
{
    gatherer.put(out, b"message ");
    put_word(gatherer, out, u64::from(message.number));
    put_word(gatherer, out, count);
    gatherer.put_line(out, message.text.as_bytes());
}

/// Puts the lines of all messages.
fn put_counts<W: Output>(gatherer: &mut Gatherer, out: &mut W, messages: &[Message], counts: &[u64])
    requires { length counts.now ≡ length messages.now }
    ensures { Puts (behind W.taken W.has_failed out.old gatherer.old) (behind W.taken W.has_failed out.new gatherer.new)
        (count_lines (map message_lists messages.now) counts.now) }
{
    'messages: for i in 0..messages.len() {
        put_count(gatherer, out, &messages[i], counts[i]);
    }
}

/// Puts how many cases, lines and unseen lines there were, and how often each message was given.
pub fn put_summary<W: Output>(
    gatherer: &mut Gatherer,
    out: &mut W,
    messages: &[Message],
    counts: &[u64],
    cases: u64,
    lines: u64,
    unseen: u64,
)
    requires { length counts.now ≡ length messages.now }
    ensures { Puts (behind W.taken W.has_failed out.old gatherer.old) (behind W.taken W.has_failed out.new gatherer.new)
        (summary (map message_lists messages.now) counts.now cases lines unseen) }
{
    gatherer.put_line(out, b"SUMMARY");
    put_number(gatherer, out, b"cases ", cases);
    put_number(gatherer, out, b"lines ", lines);
    put_number(gatherer, out, b"unseen ", unseen);
    put_counts(gatherer, out, messages, counts);
    gatherer.put_line(out, b"END");
}

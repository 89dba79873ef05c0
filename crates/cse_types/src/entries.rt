//! The messages of a source, with their numbers and their texts.

ghost use Rattle.std.specs.Prelude.{◌≡◌, true, map, unwrap_or, IfOk};
ghost use Rattle.cse_syntax_tree.specs.Tree.{message};
ghost use Rattle.cse_logic_tree.specs.Typed as typed;
ghost use Rattle.cse_types.specs.Entries.{is_said, are_said};
ghost use Rattle.cse_types.specs.Told.{told_of};
ghost use Rattle.cse_logic_names.specs.MessageFile.{MessageText};
ghost use Rattle.cse_logic_names.specs.WellTyped as well;
ghost use Rattle.cse_logic_names.specs.WellTyped.{entry_of, message_meant, no_message};

use crate::told::Told;
use cse_logic_expressions::errmsg::message_number;
use cse_logic_names::messages::Messages;
use cse_logic_tree::MessageEntry;
use cse_syntax::text_of;
use cse_syntax_tree::Message;
use std::alloc::{AllocError, Global};

/// The number of a message, and its text.
#[derive(Clone, Copy)]
struct Said<'a> {
    number: u32,
    text: &'a str,
}

/// The message of a number; one without a text where there is none.
fn numbered(messages: &Messages, number: Option<u32>) -> Said<'_>
    ensures { record { number = result.number; text = result.text.now } ≡ unwrap_or (well.numbered messages.now number) no_message }
{
    match number {
        None => Said {
            number: 0,
            text: "",
        },
        Some(number) => match messages.get(number) {
            None => Said {
                number: 0,
                text: "",
            },
            Some(text) => Said { number, text },
        },
    }
}

/// The number and the text of what is said.
fn message_said<'a>(messages: &'a Messages, what: Message<'a>) -> Said<'a>
    requires { is_said (message what) ≡ true }
    ensures { record { number = result.number; text = result.text.now } ≡ unwrap_or (message_meant messages.now (message what.entry)) no_message }
{
    match what {
        Message::Text(text) => Said {
            number: 0,
            text: text_of(text.text),
        },
        Message::Number(digits) => numbered(messages, message_number(digits.text)),
    }
}

fn entry<'a>(messages: &'a Messages, x: &Told<'a>) -> MessageEntry<'a>
    requires { is_said (told_of x.now).0 ≡ true }
    ensures { typed.entry result ≡ entry_of messages.now (told_of x.now) }
{
    let said = message_said(messages, x.message);
    MessageEntry {
        number: said.number,
        text: said.text,
        is_summary: x.is_summary,
    }
}

/// The messages of a source, in order.
pub fn entries<'a>(
    alloc: Global,
    messages: &'a Messages,
    told: &Vec<Told<'a>>,
) -> Result<Vec<MessageEntry<'a>>, AllocError>
    requires { are_said (map told_of told.now.items) ≡ true }
    ensures { IfOk result (λ v. map typed.entry v.items ≡ map (entry_of messages.now) (map told_of told.now.items)) }
{
    let mut found = Vec::new(alloc);
    'all: for x in told {
        found.push(entry(messages, x))?;
    }
    Ok(found)
}

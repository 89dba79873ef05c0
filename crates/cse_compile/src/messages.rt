//! Messages, in order of the source.

ghost use Rattle.std.specs.Prelude.{◌≡◌, map, IfOk};
ghost use Rattle.cse_logic_tree.specs.Typed.{entry};
ghost use Rattle.cse_image_parts.specs.Image.{message_lists};
ghost use Rattle.cse_compile.specs.Tables as spec;

use cse_image_parts::entries::Message;
use cse_logic_tree::MessageEntry;
use std::alloc::{AllocError, Global};

fn message_of(alloc: Global, said: &MessageEntry) -> Result<Message, AllocError>
    ensures { IfOk result (λ m. message_lists m ≡ spec.message_of (entry said.now)) }
{
    let text = String::from_str(alloc, said.text)?;
    Ok(Message {
        number: said.number,
        summary: said.is_summary,
        text,
    })
}

/// The messages of a source, one for each `errmsg`.
pub fn messages_of(alloc: Global, entries: &[MessageEntry]) -> Result<Vec<Message>, AllocError>
    ensures { IfOk result (λ v. map message_lists v.items ≡ map spec.message_of (map entry entries.now)) }
{
    let mut messages = Vec::new(alloc);
    'all: for said in entries {
        messages.push(message_of(alloc, said)?)?;
    }
    Ok(messages)
}

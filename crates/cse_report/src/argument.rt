//! The arguments of a message.

ghost use Rattle.std.specs.Prelude.{◌≡◌, true, drop, map};
ghost use Rattle.std.specs.Bool.{Decides};
ghost use Rattle.cse_report.specs.MessageText.{HasArguments, kind_of};

use cse_image::{ArgumentKind, Kinds};
use cse_value::{Num, Text};

/// An argument of a message, which stands for one of its placeholders.
#[derive(Drop)]
pub enum Arg {
    Number(Num),
    Words(Text),
}

impl Arg {
    /// The kind of the argument.
    fn kind(&self) -> ArgumentKind
        ensures { result ≡ kind_of self.now }
    {
        match self {
            Arg::Number(_) => ArgumentKind::Number,
            Arg::Words(_) => ArgumentKind::Text,
        }
    }
}

/// The text takes these arguments: as many, of its kinds in order.
pub fn takes(text: &[u8], args: &[Arg]) -> bool
    ensures { Decides result (HasArguments text.now args.now) }
{
    let mut kinds = Kinds::new(text);
    let mut rest = args;
    'kinds: while let Some(kind) = kinds.next() {
        let [first, more @ ..] = rest else {
            return false;
        };
        if first.kind() != kind {
            return false;
        }
        rest = more;
    }
    rest.is_empty()
}

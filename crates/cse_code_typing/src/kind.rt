//! The kinds of what lies on the stack.

ghost use Rattle.std.specs.Prelude.{◌≡◌};
ghost use Rattle.cse_code_typing.specs.Kinds.{same_kind, argument_kind, global_kind, local_kind};

use cse_image_parts::entries::{GlobalKind, Local, LocalKind};
use cse_image_parts::placeholders::ArgumentKind;

/// The kind of a value on the stack.
#[derive(Clone, Copy, PartialEq, Eq, PartialOrd, Ord)]
pub enum Kind {
    Number,
    Text,
    /// A number from 1 to this one.
    Index(u32),
    /// An occurrence, which is there, of the record of this number.
    Occurrence(u8),
}

/// Are the kinds the same?
pub fn is_same_kind(a: Kind, b: Kind) -> bool
    ensures { result ≡ same_kind a b }
{
    match (a, b) {
        (Kind::Number, Kind::Number) => true,
        (Kind::Text, Kind::Text) => true,
        (Kind::Index(n), Kind::Index(m)) => n == m,
        (Kind::Occurrence(r), Kind::Occurrence(s)) => r == s,
        _ => false,
    }
}

/// The kind of a message's argument.
pub fn kind_of_argument(argument: ArgumentKind) -> Kind
    ensures { result ≡ argument_kind argument }
{
    match argument {
        ArgumentKind::Number => Kind::Number,
        ArgumentKind::Text => Kind::Text,
    }
}

/// The kind of a global on a stack.
pub fn kind_of_global(kind: GlobalKind) -> Kind
    ensures { result ≡ global_kind kind }
{
    match kind {
        GlobalKind::Number => Kind::Number,
        GlobalKind::Text => Kind::Text,
    }
}

/// The kind of a local; an occurrence tells its record.
pub fn kind_of_local(local: Local) -> Kind
    ensures { result ≡ local_kind local }
{
    match local.kind {
        LocalKind::Number => Kind::Number,
        LocalKind::Text => Kind::Text,
        LocalKind::Occurrence => Kind::Occurrence(local.owner),
    }
}

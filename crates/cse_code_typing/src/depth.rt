//! How many values a call keeps at most, by the three stacks of the machine.

ghost use Rattle.std.specs.Prelude.{◌≡◌, ◌+◌, ◌^◌, ◌<◌};
ghost use Rattle.cse_code_typing.specs.Depth.{◌⊕◌, greater, one_of};

use crate::kind::Kind;

/// So many numbers, texts and ordinals, which are indexes and occurrences.
#[derive(Clone, Copy)]
pub struct Depth {
    pub numbers: u64,
    pub texts: u64,
    pub ordinals: u64,
}

impl Depth {
    /// No values, and no bracket.
    pub const NONE: Depth = Depth {
        numbers: 0,
        texts: 0,
        ordinals: 0,
    };

    /// One value of a kind.
    pub fn one_of(kind: Kind) -> Self
        ensures { result ≡ one_of kind }
    {
        match kind {
            Kind::Number => Depth {
                numbers: 1,
                ..Depth::NONE
            },
            Kind::Text => Depth {
                texts: 1,
                ..Depth::NONE
            },
            Kind::Index(_) | Kind::Occurrence(_) => Depth {
                ordinals: 1,
                ..Depth::NONE
            },
        }
    }

    /// Both together.
    pub fn plus(self, other: Depth) -> Self
        requires numbers { self.numbers + other.numbers < 2 ^ 64 }
        requires texts { self.texts + other.texts < 2 ^ 64 }
        requires ordinals { self.ordinals + other.ordinals < 2 ^ 64 }
        ensures { result ≡ self ⊕ other }
    {
        Depth {
            numbers: self.numbers + other.numbers,
            texts: self.texts + other.texts,
            ordinals: self.ordinals + other.ordinals,
        }
    }

    /// The greater numbers of both.
    pub fn greater(self, other: Depth) -> Self
        ensures { result ≡ greater self other }
    {
        Depth {
            numbers: self.numbers.max(other.numbers),
            texts: self.texts.max(other.texts),
            ordinals: self.ordinals.max(other.ordinals),
        }
    }
}

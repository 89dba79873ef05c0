//! Bytes that wait to be written, in a buffer of a fixed size.

ghost use Rattle.std.specs.Prelude.{◌≡◌, ◌≤◌, ◌+◌, ◌++◌, [], length};

use std::marker::Model;

/// How many bytes wait at most.
pub const ROOM: usize = 65_536;

/// Bytes one after the other. What stood behind them before stays there, so that others are written over it.
#[derive(Drop)]
pub struct Waiting {
    bytes: [u8; 65536],
    len: usize,
}

impl Model for Waiting {
    ghost use Rattle.std.specs.Prelude.{◌≤◌, take};
    ghost use Rattle.cse_value.specs.Waiting.{WaitingText};

    ghost Value = { WaitingText };

    ghost view = { λ w. record { items = take w.len w.bytes } };

    ghost invariant = { λ w. w.len ≤ 65536 };
}

impl Waiting {
    /// No bytes.
    pub(crate) fn new() -> Waiting
        ensures { result.items ≡ [] }
    {
        Waiting {
            bytes: [0; 65536],
            len: 0,
        }
    }

    /// How many there are.
    #[inline]
    pub fn len(&self) -> usize
        ensures value { result ≡ length self.now.items }
        ensures fits { result ≤ 65536 }
    {
        self.len
    }

    /// The bytes.
    #[inline]
    pub(crate) fn as_slice(&self) -> &[u8]
        ensures { result.now ≡ self.now.items }
    {
        &self.bytes[..self.len]
    }

    /// Gives up all. Nothing is written over them: another byte is written there before it is read.
    #[inline]
    pub fn clear(&mut self)
        ensures { self.new.items ≡ [] }
    {
        self.len = 0;
    }

    /// Appends bytes for which there is room.
    pub(crate) fn push(&mut self, bytes: &[u8])
        requires { length self.old.items + length bytes.now ≤ 65536 }
        ensures { self.new.items ≡ self.old.items ++ bytes.now }
    {
        let first = self.len;
        let end = first + bytes.len();
        self.bytes[first..end].copy_from_slice(bytes);
        self.len = end;
    }
}

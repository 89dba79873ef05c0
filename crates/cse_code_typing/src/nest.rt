//! What is kept for a place and for each bracket around it, the innermost first.

ghost use Rattle.std.specs.Prelude.{◌≡◌, ◌<◌, ◌≢◌, [], ◌∷◌, length, drop, Some, slice_get};
ghost use Rattle.cse_code_typing.specs.Bracket.{first};

use std::marker::Model;

/// A stack of at most 65 entries, seen as the list with the top first: brackets are open 64 deep at most, and a
/// place may have an entry of its own.
#[derive(Drop)]
pub struct Nest<T> {
    entries: [T; 65],
    len: usize,
}

impl<T> Model for Nest<T> {
    ghost use Rattle.std.specs.Prelude.{◌≡◌, ◌≤◌, List, length, reverse, take};

    ghost Value = { List T };

    ghost view = { λ s. reverse (take s.len s.entries) };

    ghost invariant = { λ s. (s.len ≤ 65) × (length s.entries ≡ 65) };
}

impl<T: Copy> Nest<T> {
    /// An empty one. The value stands where there is no entry yet.
    pub fn new(value: T) -> Self
        ensures { result ≡ [] }
    {
        Nest {
            entries: [value; 65],
            len: 0,
        }
    }

    /// How many entries it has.
    pub fn len(&self) -> usize
        ensures { result ≡ length self.now }
    {
        self.len
    }

    /// The entry on top, if it has one.
    pub fn top(&self) -> Option<T>
        ensures { result ≡ first self.now }
    {
        if self.len == 0 {
            None
        } else {
            Some(self.entries[self.len - 1])
        }
    }

    /// The entry that stands so far from the top.
    pub fn at(&self, depth: usize) -> T
        requires { depth < length self.now }
        ensures { slice_get self.now depth ≡ Some result }
    {
        self.entries[self.len - 1 - depth]
    }

    /// Puts an entry on top; it may have 65.
    pub fn push(&mut self, entry: T)
        requires { length self.old < 65 }
        ensures { self.new ≡ entry ∷ self.old }
    {
        self.entries[self.len] = entry;
        self.len += 1;
    }

    /// Takes the entry on top away.
    pub fn pop(&mut self)
        requires { self.old ≢ [] }
        ensures { self.new ≡ drop 1 self.old }
    {
        self.len -= 1;
    }
}

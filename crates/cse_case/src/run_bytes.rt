//! The bytes of a run, in a vector that is filled further than they reach.

ghost use Rattle.std.specs.Prelude.{◌≡◌, ◌++◌, ◌≤◌, [], length, OnErr, OnOk, take};

use crate::copy::put_copy;
use crate::filled::fill_bytes;
use std::alloc::{AllocError, Global};
use std::marker::Model;

/// Bytes one after the other. What stood behind them before stays there, so that others are written over it.
#[derive(Drop)]
pub struct RunBytes {
    items: Vec<u8>,
    len: usize,
}

impl Model for RunBytes {
    ghost use Rattle.std.specs.Prelude.{ℕ, List, ◌≤◌, length, take};

    ghost Value = { List ℕ };

    ghost view = { λ b. take b.len b.items.items };

    ghost invariant = { λ b. b.len ≤ length b.items.items };
}

impl RunBytes {
    /// No bytes, which take no memory.
    pub(crate) fn new(alloc: Global) -> RunBytes
        ensures { result ≡ [] }
    {
        RunBytes {
            items: Vec::new(alloc),
            len: 0,
        }
    }

    /// The bytes.
    #[inline(always)]
    pub fn as_slice(&self) -> &[u8]
        ensures { result.now ≡ self.now }
    {
        &self.items[..self.len]
    }

    /// How many there are.
    #[inline(always)]
    pub(crate) fn len(&self) -> usize
        ensures { result ≡ length self.now }
    {
        self.len
    }

    /// Gives up those from a place on.
    #[inline(always)]
    pub(crate) fn truncate(&mut self, len: usize)
        requires { len ≤ length self.old }
        ensures { self.new ≡ take len self.old }
    {
        self.len = len;
    }

    /// Appends bytes.
    #[inline(always)]
    pub(crate) fn push(&mut self, text: &[u8]) -> Result<(), AllocError>
        ensures pushed { OnOk result (self.new ≡ self.old ++ text.now) }
        ensures same { OnErr result (self.new ≡ self.old) }
    {
        let first = self.len;
        let end = first + text.len();
        if self.items.len() < end {
            fill_bytes(&mut self.items, end)?;
        }
        put_copy(&mut self.items[first..end], text);
        self.len = end;
        Ok(())
    }
}

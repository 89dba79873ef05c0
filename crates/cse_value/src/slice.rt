//! A device that gives the bytes of a slice.

ghost use Rattle.std.specs.Prelude.{◌≡◌, ◌≤◌, ℕ, List, false, length};
ghost use Rattle.cse_value.specs.Device.{Consumes};
ghost use Rattle.cse_value.specs.Slice.{ReadOf, at_end, at_end-prop, given_of, within-prop};

use crate::{Failed, Input};

/// Gives the bytes of a slice, as many as are asked for. It never fails.
#[derive(Drop)]
pub struct FromSlice<'a> {
    bytes: &'a [u8],
    /// How many it gave.
    count: usize,
    ended: bool,
    ghost within: { count ≤ length bytes.now } by { within-prop count bytes.now },
    ghost whole: { at_end bytes.now count ended } by { at_end-prop bytes.now count ended },
}

impl<'a> FromSlice<'a> {
    /// The device of these bytes, which has given none.
    pub fn new(bytes: &'a [u8]) -> FromSlice<'a>
        ensures { ⟦<FromSlice<'a> as Input>⟧.given result ≡ given_of bytes.now 0 false }
    {
        FromSlice {
            bytes,
            count: 0,
            ended: false,
        }
    }

    /// Law: what was read of it since it was new is a front of its bytes, and at its end all of them. No read failed.
    pub fn gives(&self)
        ensures { (bytes read : List ℕ) → Consumes (given_of bytes 0 false) (⟦<FromSlice<'a> as Input>⟧.given self.now) read
            → ReadOf bytes read (⟦<FromSlice<'a> as Input>⟧.given self.now) }
    {}
}

impl<'a> Input for FromSlice<'a> {
    ghost given = { λ s. given_of s.bytes.now s.count s.ended };

    fn read(&mut self, buf: &mut [u8]) -> Result<usize, Failed> {
        let left = &self.bytes[self.count..];
        let count = left.len().min(buf.len());
        buf[..count].copy_from_slice(&left[..count]);
        self.count += count;
        self.ended = left.is_empty();
        Ok(count)
    }
}

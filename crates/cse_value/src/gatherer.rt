//! Lines that are gathered in a buffer and written when it is full.

ghost use Rattle.std.specs.Prelude.{◌≡◌, ◌≤◌, ◌+◌, ◌++◌, [], length, false};
ghost use Rattle.cse_value.specs.Gathering.{behind, line, Puts, Finishes};

use crate::waiting::{ROOM, Waiting};
use crate::{Failed, Output, write_all};

/// Bytes that wait to be written. Once the device has failed, nothing more is written.
#[derive(Drop)]
pub struct Gatherer {
    pub waiting: Waiting,
    pub gave_up: bool,
}

impl Gatherer {
    /// No bytes wait.
    pub fn new() -> Gatherer
        ensures waiting { result.waiting.items ≡ [] }
        ensures gave_up { result.gave_up ≡ false }
    {
        Gatherer {
            waiting: Waiting::new(),
            gave_up: false,
        }
    }

    /// Puts a line.
    pub fn put_line<W: Output>(&mut self, out: &mut W, text: &[u8])
        ensures { Puts (behind W.taken W.has_failed out.old self.old) (behind W.taken W.has_failed out.new self.new) (line text.now) }
    {
        self.put(out, text);
        self.put(out, b"\n");
    }

    /// Puts bytes.
    pub fn put<W: Output>(&mut self, out: &mut W, bytes: &[u8])
        ensures { Puts (behind W.taken W.has_failed out.old self.old) (behind W.taken W.has_failed out.new self.new) bytes.now }
    {
        if bytes.is_empty() {
            return;
        }
        if self.gave_up {
            return;
        }
        if bytes.len() <= ROOM - self.waiting.len() {
            self.waiting.push(bytes);
            return;
        }
        self.flush(out);
        self.put_first(out, bytes);
    }

    /// Puts bytes where none wait: they wait, unless they are more than there is room for.
    #[cold]
    fn put_first<W: Output>(&mut self, out: &mut W, bytes: &[u8])
        requires { self.old.waiting.items ≡ [] }
        ensures { Puts (behind W.taken W.has_failed out.old self.old) (behind W.taken W.has_failed out.new self.new) bytes.now }
    {
        if self.gave_up {
            return;
        }
        if bytes.len() <= ROOM {
            self.waiting.push(bytes);
            return;
        }
        self.write(out, bytes);
    }

    /// Writes bytes at once, where none wait.
    fn write<W: Output>(&mut self, out: &mut W, bytes: &[u8])
        requires { self.old.waiting.items ≡ [] }
        ensures { Puts (behind W.taken W.has_failed out.old self.old) (behind W.taken W.has_failed out.new self.new) bytes.now }
    {
        if self.gave_up {
            return;
        }
        match write_all(out, bytes) {
            Ok(()) => {}
            Err(_) => self.gave_up = true,
        }
    }

    /// Writes the bytes that wait.
    pub fn flush<W: Output>(&mut self, out: &mut W)
        ensures puts { Puts (behind W.taken W.has_failed out.old self.old) (behind W.taken W.has_failed out.new self.new) [] }
        ensures none { self.new.waiting.items ≡ [] }
    {
        if self.gave_up {
            self.waiting.clear();
            return;
        }
        match write_all(out, self.waiting.as_slice()) {
            Ok(()) => self.waiting.clear(),
            Err(_) => {
                self.gave_up = true;
                self.waiting.clear();
            }
        }
    }

    /// Writes the bytes that wait, and tells whether all that was put was written.
    pub fn finish<W: Output>(mut self, out: &mut W) -> Result<(), Failed>
        ensures { Finishes result (behind W.taken W.has_failed out.old self) (W.taken out.new) (W.has_failed out.new) }
    {
        self.flush(out);
        if self.gave_up {
            return Err(Failed);
        }
        Ok(())
    }
}

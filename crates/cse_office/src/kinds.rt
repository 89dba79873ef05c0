//! How often each change was made: from which value of an item to which.

ghost use Rattle.std.specs.Prelude.{◌≤◌, length};

use std::alloc::{AllocError, Global};
use std::collections::HashMap;

/// How many bytes the values of all changes may have that are told apart. A later change of another kind is counted, and
/// its values are not told.
const MOST_BYTES: usize = 8_388_608;

/// What a kind takes beside its values.
const BESIDE: usize = 64;

/// How many bytes of a key are the item.
const ITEM: usize = 8;

/// How often each change was made. Its key is the item, in 8 bytes, and the values with a line feed between them, which no value
/// has.
pub struct Kinds {
    alloc: Global,
    times: HashMap<Vec<u8>, u64>,
    key: Vec<u8>,
    held: usize,
    pub lacks_memory: bool,
}

// Written out, so that one who owns it calls this drop and does not prove one for each part.
impl Drop for Kinds {
    fn drop(self) {
        let Kinds {
            alloc: _alloc,
            times: _times,
            key: _key,
            held: _held,
            lacks_memory: _lacks_memory,
        } = self;
    }
}

/// A kind of a key and a count: the item, how far the count is from the greatest number, and the values.
fn kind_of(key: &[u8], times: u64) -> (u64, u64, &[u8])
    requires { 8 ≤ length key.now }
{
    let mut item = [0u8; ITEM];
    item.copy_from_slice(&key[..ITEM]);
    (u64::from_be_bytes(item), u64::MAX - times, &key[ITEM..])
}

impl Kinds {
    /// No changes.
    pub fn new(alloc: Global) -> Kinds {
        Kinds {
            alloc,
            times: HashMap::new(alloc),
            key: Vec::new(alloc),
            held: 0,
            lacks_memory: false,
        }
    }

    /// Adds to the key.
    fn put(&mut self, part: &[u8]) {
        self.lacks_memory |= self.key.extend_from_slice(part).is_err();
    }

    /// Makes the key of a change.
    fn make_key(&mut self, item: usize, before: &str, after: &str) {
        self.key.clear();
        self.put(&(item as u64).to_be_bytes());
        self.put(before.as_bytes());
        self.put(b"\n");
        self.put(after.as_bytes());
    }

    /// Adds the kind of the key.
    fn add_kind(&mut self) -> Result<(), AllocError> {
        let held = self
            .held
            .saturating_add(self.key.len())
            .saturating_add(BESIDE);
        if held <= MOST_BYTES {
            self.held = held;
            self.times
                .insert(Vec::from_slice(self.alloc, &self.key)?, 1)?;
        }
        Ok(())
    }

    /// Counts a change of an item.
    pub fn add(&mut self, item: usize, before: &str, after: &str) {
        self.make_key(item, before, after);
        match self.times.get_mut(self.key.as_slice()) {
            Some(times) => *times = times.saturating_add(1),
            None => self.lacks_memory |= self.add_kind().is_err(),
        }
    }

    /// Adds all kinds. Answers whether memory lacks.
    fn add_all<'s>(&'s self, all: &mut Vec<(u64, u64, &'s [u8])>) -> bool {
        let mut lacks_memory = false;
        for (key, times) in self.times.iter() {
            if key.len() >= ITEM {
                lacks_memory |= all.push(kind_of(key, *times)).is_err();
            }
        }
        lacks_memory
    }

    /// All kinds, by item, and of each item the most frequent first: the item, how far its count is from the greatest number,
    /// and the values.
    pub fn sorted(&self) -> Result<Vec<(u64, u64, &[u8])>, AllocError> {
        let mut sorted = Vec::new(self.alloc);
        if self.add_all(&mut sorted) || sorted.sort().is_err() {
            return Err(AllocError);
        }
        Ok(sorted)
    }
}

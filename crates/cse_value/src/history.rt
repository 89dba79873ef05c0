//! What an input gave, which only clauses read.

ghost use Rattle.std.specs.Prelude.{◌≡◌, ◌==◌, ◌+◌, ◌++◌, ℕ, List, Bool, [], false, length};
ghost use Rattle.std.specs.Borrow.{ftrue};

use std::marker::{Model, PhantomData};

/// The bytes that reads gave so far, whether the last read that gave any answer gave none, and how many reads
/// failed. It takes no memory.
#[derive(Drop)]
pub struct History {
    marker: PhantomData<u8>,
    pub ghost bytes: { List ℕ },
    pub ghost ended: { Bool },
    pub ghost failures: { ℕ },
}

// No memory holds these, so the proofs below are walks by hand.
impl Model for History {
    ghost also_owns = { λ _. ftrue };
}

impl History {
    /// Nothing was read.
    pub fn new() -> History
        ensures { (result.bytes ≡ []) × ((result.ended ≡ false) × (result.failures ≡ 0)) }
    {
        History {
            marker: PhantomData,
        }
    }

    /// A read gave these bytes. Nothing is done at run time.
    pub fn note(&mut self, _bytes: &[u8])
        ensures { (self.new.bytes ≡ self.old.bytes ++ _bytes.now) × ((self.new.ended ≡ (length _bytes.now == 0)) × (self.new.failures ≡ self.old.failures)) }
    {}

    /// A read failed. Nothing is done at run time.
    pub fn note_failure(&mut self)
        ensures { (self.new.bytes ≡ self.old.bytes) × ((self.new.ended ≡ self.old.ended) × (self.new.failures ≡ self.old.failures + 1)) }
    {}
}

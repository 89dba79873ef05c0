//! The numbers of stacks, looked up by what each is made of.

ghost use Rattle.std.specs.Prelude.{◌≡◌, Some, None, if◌then◌else◌, OnOk, OnErr};
ghost use Rattle.cse_code_typing.specs.declared.piles.PileEntry.{PileEntry as Entry_};
ghost use Rattle.cse_code_typing.specs.Piles.{same_entry};
ghost use Rattle.cse_code_typing.specs.EntryOrder.{number_of};

use crate::piles::PileEntry;
use std::alloc::{AllocError, Global};
use std::collections::BTreeMap;
use std::marker::Model;

/// A number for each of some entries. A look-up takes time that grows with the logarithm of how many
/// there are, whatever they are.
#[derive(Drop)]
pub struct EntryNumbers {
    map: BTreeMap<PileEntry, usize>,
}

impl Model for EntryNumbers {
    ghost use Rattle.std.specs.Prelude.{ℕ, List};
    ghost use Rattle.cse_code_typing.specs.declared.piles.PileEntry.{PileEntry};

    ghost Value = { List (PileEntry × ℕ) };

    ghost view = { λ n. n.map.entries };
}

impl EntryNumbers {
    /// Numbers of no entry.
    pub fn new(alloc: Global) -> Self
        ensures { (e : Entry_) → number_of result e ≡ None }
    {
        EntryNumbers {
            map: BTreeMap::new(alloc),
        }
    }

    /// The number of an entry, if it has one.
    pub fn find(&self, entry: PileEntry) -> Option<usize>
        ensures { result ≡ number_of self.now entry }
    {
        self.map.get(&entry).copied()
    }

    /// Gives an entry a number.
    pub fn put(&mut self, entry: PileEntry, number: usize) -> Result<(), AllocError>
        ensures put { OnOk result ((e : Entry_) → number_of self.new e ≡ (if same_entry entry e then Some number else number_of self.old e)) }
        ensures err { OnErr result (self.new ≡ self.old) }
    {
        self.map.insert(entry, number)?;
        Ok(())
    }
}

//! Names and record types in order of appearance, each once.
ghost use Rattle.std.specs.Prelude.{◌≡◌, ℕ, List, [], map, not, IfOk, OnOk};
ghost use Rattle.cse_dict.specs.Names.{is_among, with_name};

use indexmap::IndexSet;
use std::alloc::{AllocError, Global};
use std::marker::Model;

/// Names that are looked up by their bytes.
#[derive(Drop)]
pub struct Names {
    set: IndexSet<Vec<u8>>,
}

impl Model for Names {
    ghost Value = { List (List ℕ) };

    ghost view = { λ n. map (λ name. name.items) n.set.keys };
}

impl Names {
    /// No names.
    pub fn new(alloc: Global) -> Names
        ensures { result ≡ [] }
    {
        Names {
            set: IndexSet::new(alloc),
        }
    }

    /// Adds a name, and says whether it is new.
    pub fn add(&mut self, name: Vec<u8>) -> Result<bool, AllocError>
        ensures is_new { IfOk result (λ r. r ≡ not (is_among self.old name.items)) }
        ensures names { OnOk result (self.new ≡ with_name self.old name.items) }
    {
        Ok(self.set.insert(name)?)
    }
}

/// Record types that are looked up by their characters.
#[derive(Drop)]
pub struct Types {
    set: IndexSet<Vec<char>>,
}

impl Model for Types {
    ghost Value = { List (List ℕ) };

    ghost view = { λ t. map (λ name. name.items) t.set.keys };
}

impl Types {
    /// No types.
    pub fn new(alloc: Global) -> Types
        ensures { result ≡ [] }
    {
        Types {
            set: IndexSet::new(alloc),
        }
    }

    /// Adds a type, and says whether it is new.
    pub fn add(&mut self, name: Vec<char>) -> Result<bool, AllocError>
        ensures is_new { IfOk result (λ r. r ≡ not (is_among self.old name.items)) }
        ensures types { OnOk result (self.new ≡ with_name self.old name.items) }
    {
        Ok(self.set.insert(name)?)
    }
}

//! Names in upper case, looked up by hash.

ghost use Rattle.std.specs.Prelude.{◌≡◌, ◌<◌, ℕ, List, [], ◌∷◌, ◌++◌, length, map, position, slice_get, Some, false, OnOk, IfOk};
ghost use Rattle.std.specs.List.{list_any};
ghost use Rattle.std.specs.Map.{keys_of, lookup};
ghost use Rattle.std.specs.Str.{bytes_eq};
ghost use Rattle.cse_logic_names.specs.declared.meaning.Meaning.{Meaning};
ghost use Rattle.cse_dict.specs.Keys.{kept_name};
ghost use Rattle.cse_logic_names.specs.Scope.{has_global};
ghost use Rattle.cse_logic_names.specs.Uses.{with_global, with_globals};
ghost use Rattle.cse_logic_names.specs.Walk.{is_there};

use crate::meaning::Meaning;
use cse_ordered::keyed::Keyed;
use cse_ordered::named::Named;
use std::alloc::{AllocError, Global};
use std::marker::Model;

/// What is declared, with what it means.
#[derive(Drop)]
pub struct Names {
    table: Named<Meaning>,
}

impl Model for Names {
    ghost Value = { List (List ℕ × Meaning) };

    ghost view = { λ n. n.table };
}

impl Names {
    /// No name.
    pub fn new(alloc: Global) -> Names
        ensures { result ≡ [] }
    {
        Names {
            table: Named::new(alloc),
        }
    }

    /// One name more, in upper case.
    pub fn add(&mut self, kept: Vec<u8>, meaning: Meaning) -> Result<(), AllocError>
        requires { is_there (lookup (bytes_eq kept.items) self.old) ≡ false }
        ensures { OnOk result (self.new ≡ self.old ++ (kept.items, meaning) ∷ []) }
    {
        self.table.push(kept, meaning)
    }

    /// What a name in upper case means.
    pub fn get(&self, kept: &[u8]) -> Option<Meaning>
        ensures { result ≡ lookup (bytes_eq kept.now) self.now }
    {
        self.table.get(kept).copied()
    }
}

/// The parameters of a function.
#[derive(Drop)]
pub struct Parameters {
    table: Named<()>,
}

impl Model for Parameters {
    ghost Value = { List (List ℕ) };

    ghost view = { λ p. keys_of p.table };
}

impl Parameters {
    /// No parameter.
    pub fn new(alloc: Global) -> Parameters
        ensures { result ≡ [] }
    {
        Parameters {
            table: Named::new(alloc),
        }
    }

    /// One name more, in upper case.
    pub fn add(&mut self, kept: Vec<u8>) -> Result<(), AllocError>
        requires { list_any (bytes_eq kept.items) self.old ≡ false }
        ensures { OnOk result (self.new ≡ self.old ++ kept.items ∷ []) }
    {
        self.table.push(kept, ())?;
        Ok(())
    }

    /// Whether this name is one of them.
    pub fn has(&self, kept: &[u8]) -> bool
        ensures { result ≡ list_any (bytes_eq kept.now) self.now }
    {
        self.table.get(kept).is_some()
    }

    /// The place of a parameter, by its name in upper case.
    pub fn find(&self, kept: &[u8]) -> Option<usize>
        ensures { result ≡ position (bytes_eq kept.now) self.now }
    {
        self.table.place_of(kept)
    }
}

/// Globals, by their numbers, each once.
#[derive(Drop)]
pub struct Globals {
    table: Keyed<usize, ()>,
}

impl Model for Globals {
    ghost Value = { List ℕ };

    ghost view = { λ g. keys_of g.table };
}

impl Globals {
    /// No global.
    pub fn new(alloc: Global) -> Globals
        ensures { result ≡ [] }
    {
        Globals {
            table: Keyed::new(alloc),
        }
    }

    /// One global more, unless it is there.
    pub fn add(&mut self, global: usize) -> Result<(), AllocError>
        ensures { OnOk result (self.new ≡ with_global self.old global) }
    {
        if self.has(global) {
            return Ok(());
        }
        self.table.push(global, ())?;
        Ok(())
    }

    /// Those that aren't there yet.
    pub fn add_all(&mut self, more: &Globals) -> Result<(), AllocError>
        ensures { OnOk result (self.new ≡ with_globals self.old more.now) }
    {
        'all: for place in 0..more.count() {
            self.add(more.at(place))?;
        }
        Ok(())
    }

    fn count(&self) -> usize
        ensures { result ≡ length self.now }
    {
        self.table.len()
    }

    fn at(&self, place: usize) -> usize
        requires { place < length self.now }
        ensures { slice_get self.now place ≡ Some result }
    {
        self.table.at(place).0
    }

    /// Whether this global is one of them.
    pub fn has(&self, global: usize) -> bool
        ensures { result ≡ has_global self.now global }
    {
        self.table.get(global).is_some()
    }
}

/// A name in upper case.
pub fn kept(alloc: Global, name: &str) -> Result<Vec<u8>, AllocError>
    ensures { IfOk result (λ kept. kept.items ≡ kept_name name.now) }
{
    let mut kept = Vec::from_slice(alloc, name.as_bytes())?;
    kept.make_ascii_uppercase();
    Ok(kept)
}

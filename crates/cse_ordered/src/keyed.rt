//! Entries in the order in which they came, each found by its key.

ghost use Rattle.std.specs.Prelude.{◌≡◌, ◌<◌, ◌++◌, ◌∷◌, [], None, Some, length, position, slice_get, slice_index_or, slice_set, OnOk, OnErr};
ghost use Rattle.std.specs.Option.{option_copied};
ghost use Rattle.std.specs.Map.{keys_of, lookup};

use std::alloc::{AllocError, Global};
use std::collections::HashMap;
use std::hash::Hash;
use std::marker::Model;

/// Entries in the order in which they came, each key once.
#[derive(Drop)]
pub struct Keyed<K: Eq + Hash + Copy, V> {
    entries: Vec<(K, V)>,
    places: HashMap<K, usize>,
}

impl<K: Eq + Hash + Copy, V> Model for Keyed<K, V> {
    ghost use Rattle.std.specs.Prelude.{ℕ, List, ◌≡◌, position};
    ghost use Rattle.std.specs.Map.{keys_of, lookup};

    ghost Value = { List (K × V) };

    ghost view = { λ t. t.entries.items };

    ghost invariant = { λ t. (q : K) → lookup (K.eq q) t.places.entries ≡ position (K.eq q) (keys_of t.entries.items) };
}

impl<K: Eq + Hash + Copy, V: Drop> Keyed<K, V> {
    /// No entry.
    pub fn new(alloc: Global) -> Keyed<K, V>
        ensures { result ≡ [] }
    {
        Keyed {
            entries: Vec::new(alloc),
            places: HashMap::new(alloc),
        }
    }

    /// How many entries there are.
    pub fn len(&self) -> usize
        ensures { result ≡ length self.now }
    {
        self.entries.len()
    }

    /// The place of the entry of a key.
    pub fn place_of(&self, key: K) -> Option<usize>
        ensures { result ≡ position (K.eq key) (keys_of self.now) }
    {
        self.places.get(&key).copied()
    }

    /// The entry at a place.
    pub fn at(&self, place: usize) -> &(K, V)
        requires { place < length self.now }
        ensures { slice_get self.now place ≡ Some result.now }
    {
        &self.entries[place]
    }

    /// The value of a key.
    pub fn get(&self, key: K) -> Option<&V>
        ensures { option_copied result ≡ lookup (K.eq key) self.now }
    {
        match self.place_of(key) {
            Some(place) => Some(&self.at(place).1),
            None => None,
        }
    }

    /// One entry more, whose key is not there yet. An error changes nothing.
    pub fn push(&mut self, key: K, value: V) -> Result<(), AllocError>
        requires { lookup (K.eq key) self.old ≡ None }
        ensures added { OnOk result (self.new ≡ self.old ++ (key, value) ∷ []) }
        ensures err { OnErr result (self.new ≡ self.old) }
    {
        let place = self.len();
        self.entries.reserve(1)?;
        match self.places.insert(key, place) {
            Ok(_) => {}
            Err(_) => return Err(AllocError),
        }
        self.entries.push_reserved((key, value));
        Ok(())
    }

    /// Another value at a place.
    pub fn set(&mut self, place: usize, value: V)
        requires { place < length self.old }
        ensures { (d : K × V) → self.new ≡ slice_set self.old place ((slice_index_or self.old place d).0, value) }
    {
        self.entries[place].1 = value;
    }
}

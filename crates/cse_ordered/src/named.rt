//! Entries in the order in which they came, each found by its name.

ghost use Rattle.std.specs.Prelude.{◌≡◌, ◌<◌, ◌++◌, ◌∷◌, [], None, Some, length, map, option_map, position, slice_get, OnOk, OnErr};
ghost use Rattle.std.specs.Option.{option_copied};
ghost use Rattle.std.specs.Map.{keys_of, lookup};
ghost use Rattle.std.specs.Str.{bytes_eq};

use std::alloc::{AllocError, Global};
use std::collections::HashMap;
use std::marker::Model;

/// Entries in the order in which they came, each name once. Names are compared by their bytes.
#[derive(Drop)]
pub struct Named<V> {
    entries: Vec<(Vec<u8>, V)>,
    places: HashMap<Vec<u8>, usize>,
}

impl<V> Model for Named<V> {
    ghost use Rattle.std.specs.Prelude.{ℕ, List, ◌≡◌, map, position};
    ghost use Rattle.std.specs.Map.{keys_of, lookup};
    ghost use Rattle.std.specs.Str.{bytes_eq};

    ghost Value = { List (List ℕ × V) };

    ghost view = { λ t. map (λ e. (e.0.items, e.1)) t.entries.items };

    ghost invariant = { λ t. (q : List ℕ) → lookup (λ k. bytes_eq q k.items) t.places.entries ≡ position (bytes_eq q) (keys_of (map (λ e. (e.0.items, e.1)) t.entries.items)) };
}

impl<V: Drop> Named<V> {
    /// No entry.
    pub fn new(alloc: Global) -> Named<V>
        ensures { result ≡ [] }
    {
        Named {
            entries: Vec::new(alloc),
            places: HashMap::new(alloc),
        }
    }

    /// How many entries there are.
    pub fn len(&self) -> usize
        ensures { result ≡ length self.now }
    {
        self.entries.len()
    }

    /// The place of the entry of a name.
    pub fn place_of(&self, name: &[u8]) -> Option<usize>
        ensures { result ≡ position (bytes_eq name.now) (keys_of self.now) }
    {
        self.places.get(name).copied()
    }

    /// The value at a place.
    fn value_at(&self, place: usize) -> &V
        requires { place < length self.now }
        ensures { option_map (λ e. e.1) (slice_get self.now place) ≡ Some result.now }
    {
        &self.entries[place].1
    }

    /// The value of a name.
    pub fn get(&self, name: &[u8]) -> Option<&V>
        ensures { option_copied result ≡ lookup (bytes_eq name.now) self.now }
    {
        match self.place_of(name) {
            Some(place) => Some(self.value_at(place)),
            None => None,
        }
    }

    /// One entry more, whose name is not there yet. An error changes nothing.
    pub fn push(&mut self, name: Vec<u8>, value: V) -> Result<(), AllocError>
        requires { lookup (bytes_eq name.items) self.old ≡ None }
        ensures added { OnOk result (self.new ≡ self.old ++ (name.items, value) ∷ []) }
        ensures err { OnErr result (self.new ≡ self.old) }
    {
        let place = self.len();
        let again = Vec::from_slice(*name.allocator(), &name)?;
        self.entries.reserve(1)?;
        match self.places.insert(again, place) {
            Ok(_) => {}
            Err(_) => return Err(AllocError),
        }
        self.entries.push_reserved((name, value));
        Ok(())
    }
}

//! Names with their places, looked up in any letter case.
ghost use Rattle.std.specs.Prelude.{◌≡◌, ℕ, ◌≤◌, List, [], map, length, nat_le, None, if◌then◌else◌, OnOk, IfOk};
ghost use Rattle.std.specs.Map.{lookup};
ghost use Rattle.std.specs.Str.{bytes_eq};
ghost use Rattle.std.specs.String.{string_bytes};
ghost use Rattle.cse_dict.specs.Dictionary.{places_from, with_place};
ghost use Rattle.cse_dict.specs.Keys.{kept_name};

use crate::parts::{Item, Record, Set};
use cse_ordered::named::Named;
use std::alloc::{AllocError, Global};
use std::marker::Model;

/// Names with the place where each first stands.
#[derive(Drop)]
pub struct Places {
    table: Named<u16>,
}

impl Model for Places {
    ghost Value = { List (List ℕ × ℕ) };

    ghost view = { λ p. p.table };
}

impl Places {
    /// No names.
    pub fn new(alloc: Global) -> Places
        ensures { result ≡ [] }
    {
        Places {
            table: Named::new(alloc),
        }
    }

    /// Adds a name, unless it is there.
    pub fn add(&mut self, alloc: Global, name: &String, place: u16) -> Result<(), AllocError>
        ensures { OnOk result (self.new ≡ with_place self.old place (string_bytes name.now)) }
    {
        let bytes = name.as_bytes();
        if self.table.get(bytes).is_some() {
            return Ok(());
        }
        self.table.push(Vec::from_slice(alloc, bytes)?, place)?;
        Ok(())
    }

    /// The place of a name that is in upper case.
    fn place_of(&self, name: &[u8]) -> Option<u16>
        ensures { result ≡ lookup (bytes_eq name.now) self.now }
    {
        self.table.get(name).copied()
    }

    /// The place of a name, in any letter case. A text of more than 32 bytes is no name.
    pub fn find(&self, name: &str) -> Option<u16>
        ensures { result ≡ (if nat_le (length name.now) 32 then lookup (bytes_eq (kept_name name.now)) self.now else None) }
    {
        if name.len() > 32 {
            return None;
        }
        let mut kept = [0u8; 32];
        let part = &mut kept[..name.len()];
        part.copy_from_slice(name.as_bytes());
        part.make_ascii_uppercase();
        self.place_of(part)
    }
}

/// The places of the names of records.
pub fn record_places(alloc: Global, records: &[Record]) -> Result<Places, AllocError>
    requires { length records.now ≤ 65535 }
    ensures { IfOk result (λ p. p ≡ places_from [] 0 (map (λ r. r.name) records.now)) }
{
    let mut places = Places::new(alloc);
    let mut place = 0;
    'records: for record in records {
        places.add(alloc, &record.name, place)?;
        place += 1;
    }
    Ok(places)
}

/// The places of the names of items.
pub fn item_places(alloc: Global, items: &[Item]) -> Result<Places, AllocError>
    requires { length items.now ≤ 65535 }
    ensures { IfOk result (λ p. p ≡ places_from [] 0 (map (λ i. i.name) items.now)) }
{
    let mut places = Places::new(alloc);
    let mut place = 0;
    'items: for item in items {
        places.add(alloc, &item.name, place)?;
        place += 1;
    }
    Ok(places)
}

/// The places of the names of value sets.
pub fn set_places(alloc: Global, sets: &[Set]) -> Result<Places, AllocError>
    requires { length sets.now ≤ 65535 }
    ensures { IfOk result (λ p. p ≡ places_from [] 0 (map (λ s. s.name) sets.now)) }
{
    let mut places = Places::new(alloc);
    let mut place = 0;
    'sets: for set in sets {
        places.add(alloc, &set.name, place)?;
        place += 1;
    }
    Ok(places)
}

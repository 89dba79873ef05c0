//! Names that are new, each once.

ghost use Rattle.std.specs.Prelude.{◌≡◌, ◌&&◌, ◌||◌, [], OnOk};
ghost use Rattle.std.specs.Map.{lookup};
ghost use Rattle.std.specs.Str.{bytes_eq};
ghost use Rattle.cse_logic_names.specs.Scope as scopes;
ghost use Rattle.cse_dict.specs.Keys.{kept_name};
ghost use Rattle.cse_types.specs.Names as spec;
ghost use Rattle.cse_types.specs.Fresh.{is_fresh, no_names, with_fresh};
ghost use Rattle.cse_logic_names.specs.Walk.{is_there};

use cse_dict::Dictionary;
use cse_logic_names::meaning::Meaning;
use cse_logic_names::names::{Names, Parameters};
use cse_logic_names::scope::in_dictionary;
use std::alloc::{AllocError, Global};

/// Names that are new, each once, in upper case, and whether all were so.
#[derive(Drop)]
pub struct Fresh {
    pub names: Parameters,
    pub is_sound: bool,
}

impl Fresh {
    /// No names.
    pub fn new(alloc: Global) -> Fresh
        ensures { result ≡ no_names }
    {
        Fresh {
            names: Parameters::new(alloc),
            is_sound: true,
        }
    }

    /// One name more, if it passes and isn't there.
    pub fn add(&mut self, name: Vec<u8>, passes: bool) -> Result<(), AllocError>
        ensures { OnOk result (self.new ≡ with_fresh (λ x. passes) self.old name.items) }
    {
        if !passes || self.names.has(&name) {
            self.is_sound = false;
            return Ok(());
        }
        self.names.add(name)
    }
}

/// What a name means in the dictionary; it stands here in upper case too.
#[tactic(auto, using(crate::proofs::FreshLaws::kept_there))]
pub fn found_in(dictionary: &Dictionary, name: &str, kept: &[u8]) -> Option<Meaning>
    requires { kept.now ≡ kept_name name.now }
    ensures { result ≡ scopes.in_dictionary dictionary.now kept.now }
{
    in_dictionary(dictionary, name, kept)
}

/// Whether the dictionary has no such name; it stands here in upper case too.
pub fn is_free(dictionary: &Dictionary, name: &str, kept: &[u8]) -> bool
    requires { kept.now ≡ kept_name name.now }
    ensures { result ≡ spec.is_free dictionary.now kept.now }
{
    match found_in(dictionary, name, kept) {
        None => true,
        Some(_) => false,
    }
}

fn is_declared(names: &Names, kept: &[u8]) -> bool
    ensures { result ≡ is_there (lookup (bytes_eq kept.now) names.now) }
{
    match names.get(kept) {
        None => false,
        Some(_) => true,
    }
}

/// Whether no such name is in the dictionary, or declared.
pub fn is_new(dictionary: &Dictionary, names: &Names, name: &str, kept: &[u8]) -> bool
    requires { kept.now ≡ kept_name name.now }
    ensures { result ≡ spec.is_new dictionary.now names.now kept.now }
{
    is_free(dictionary, name, kept) && !is_declared(names, kept)
}

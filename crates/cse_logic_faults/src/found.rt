//! The faults that were found.

ghost use Rattle.std.specs.Prelude.{◌≡◌, ◌≤◌, ◌++◌, List, [], map, OnOk};
ghost use Rattle.cse_logic_faults.specs.Faults as spec;
ghost use Rattle.cse_logic_faults.specs.Listed.{listed};

use cse_logic_names::faults::Fault;
use std::alloc::{AllocError, Global};
use std::marker::Model;

/// Faults, in the order in which they were found.
#[derive(Drop)]
pub struct Found {
    /// In that order.
    pub list: Vec<Fault>,
}

impl Model for Found {
    ghost Value = { List spec.Fault };

    ghost view = { λ f. map listed f.list.items };
}

impl Found {
    /// No fault.
    pub fn new(alloc: Global) -> Found
        ensures { result ≡ [] }
    {
        Found {
            list: Vec::new(alloc),
        }
    }

    /// One fault more, of this number, from 40 to 49, at this token.
    #[tactic(auto, using(std::proofs::lemmas::List::map_push))]
    pub fn add(&mut self, number: u8, token: usize) -> Result<(), AllocError>
        requires least { 40 ≤ number }
        requires most { number ≤ 49 }
        ensures { OnOk result (self.new ≡ self.old ++ spec.only number token) }
    {
        self.list.push(Fault { number, token })?;
        Ok(())
    }

    /// The same, unless the test holds.
    #[tactic(auto, unfolding(crate::specs::Faults::unless), using(crate::proofs::Lists::append_none))]
    pub fn unless(&mut self, holds: bool, number: u8, token: usize) -> Result<(), AllocError>
        requires least { 40 ≤ number }
        requires most { number ≤ 49 }
        ensures { OnOk result (self.new ≡ self.old ++ spec.unless holds number token) }
    {
        if holds {
            return Ok(());
        }
        self.add(number, token)
    }

    /// No fault more.
    #[tactic(auto, using(crate::proofs::Lists::append_none))]
    pub fn none(&mut self) -> Result<(), AllocError>
        ensures { OnOk result (self.new ≡ self.old ++ []) }
    {
        Ok(())
    }
}

//! How many parameters and dimensions are declared.

ghost use Rattle.std.specs.Prelude.{◌≡◌, [], slice_get};
ghost use Rattle.cse_logic_faults.specs.Faults as spec;

use std::alloc::Global;
use std::marker::Model;

/// How many parameters each function is declared with, and how many dimensions each array, sound or not.
#[derive(Drop)]
pub struct Counts {
    /// Of each function.
    pub parameters: Vec<usize>,
    /// Of each array.
    pub dimensions: Vec<usize>,
}

impl Model for Counts {
    ghost Value = { spec.Counts };

    ghost view = { λ c. record { parameters = c.parameters.items; dimensions = c.dimensions.items } };
}

impl Counts {
    /// No function and no array.
    pub fn new(alloc: Global) -> Counts
        ensures { result ≡ record { parameters = []; dimensions = [] } }
    {
        Counts {
            parameters: Vec::new(alloc),
            dimensions: Vec::new(alloc),
        }
    }
}

/// Whether so many are declared at this place.
pub fn is_count(declared: &[usize], place: usize, count: usize) -> bool
    ensures { result ≡ spec.is_count count (slice_get declared.now place) }
{
    match declared.get(place) {
        None => false,
        Some(many) => *many == count,
    }
}

//! The faults of a file that were found.

ghost use Rattle.std.specs.Prelude.{IfOk, ◌↔◌};
ghost use Rattle.std.specs.List.{Contains};
ghost use Rattle.std.specs.List.Sorted.{IsStrictlySortedBy};
ghost use Rattle.cse_check.specs.declared.found.Finding.{Finding};
ghost use Rattle.cse_check.specs.Found.{told_cmp};

use std::alloc::AllocError;

/// A fault, or a warning: the byte of its file that it stands at, and its number.
#[derive(Clone, Copy, PartialEq, Eq, PartialOrd, Ord)]
pub struct Finding {
    pub start: usize,
    pub number: u8,
}

/// Faults in the order of their places, and of one place by their numbers, each once.
pub fn in_order(mut found: Vec<Finding>) -> Result<Vec<Finding>, AllocError>
    // Each is told once, the first by place and then by number.
    ensures order { IfOk result (λ told. IsStrictlySortedBy told_cmp told.items) }
    // Those that were found are told, and no others.
    ensures same { IfOk result (λ told. (x : Finding) → Contains told.items x ↔ Contains found.items x) }
{
    found.sort()?;
    found.dedup();
    Ok(found)
}

//! Lists that are judged from the left.

ghost use Rattle.std.specs.Prelude.{◌≡◌, ◌&&◌, ◌-◌, IfOk, OnOk};
ghost use Rattle.cse_logic_names.specs.Walk.{is_there, found_more};

use std::alloc::AllocError;

/// Keeps what is there.
pub fn keep<T: Drop>(found: &mut Vec<T>, x: Option<T>) -> Result<bool, AllocError>
    ensures found { OnOk result (found.new.items ≡ found_more found.old.items x) }
    ensures there { IfOk result (λ b. b ≡ is_there x) }
{
    match x {
        None => Ok(false),
        Some(x) => {
            found.push(x)?;
            Ok(true)
        }
    }
}

/// Whether both are so; both are looked at.
pub fn both_hold(a: bool, b: bool) -> bool
    ensures { result ≡ (a && b) }
{
    a && b
}

/// One less, or 0.
pub fn decremented(n: usize) -> usize
    ensures { result ≡ n - 1 }
{
    n.saturating_sub(1)
}

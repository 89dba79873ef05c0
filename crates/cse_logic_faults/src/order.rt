//! The fault that is told.

ghost use Rattle.std.specs.Prelude.{◌≡◌, map};
ghost use Rattle.std.specs.Option.{option_map};
ghost use Rattle.cse_logic_faults.specs.Faults as spec;
ghost use Rattle.cse_logic_faults.specs.Listed.{listed};
ghost use Rattle.cse_logic_faults.specs.Least.{lesser_so_far};

use cse_logic_names::faults::Fault;

/// Whether one stands before another, or at the same token and has the lesser number.
fn is_before(x: Fault, y: Fault) -> bool
    ensures { result ≡ spec.is_before (listed x) (listed y) }
{
    x.token < y.token || (x.token == y.token && x.number < y.number)
}

/// The lesser of the least so far and one more.
fn lesser(least: Option<Fault>, x: &Fault) -> Fault
    ensures { listed result ≡ lesser_so_far (option_map listed least) (listed x.now) }
{
    match least {
        None => *x,
        Some(least) => { if is_before(*x, least) { *x } else { least } }
    }
}

/// The first fault by place, and of those at one token the one with the least number.
pub fn least(all: &[Fault]) -> Option<Fault>
    ensures { option_map listed result ≡ spec.least_of (map listed all.now) }
{
    let mut least: Option<Fault> = None;
    'all: for x in all {
        least = Some(lesser(least, x));
    }
    least
}

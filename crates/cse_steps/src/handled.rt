//! Events with the routines that a program has for them, so that none is looked for when its event comes.

ghost use Rattle.std.specs.Prelude.{◌≡◌};
ghost use Rattle.cse_steps.specs.Handled.{handled_by};

use cse_code_typing::routine_of;
use cse_image::{Code, Event};
use cse_verify::Verified;

/// An event with the routine that a program has for it.
#[derive(Clone, Copy)]
pub struct Handled {
    pub event: Event,
    pub routine: u32,
}

impl Handled {
    /// An event with its routine, if the program has one for it. Takes no memory.
    pub fn of<C: Code>(verified: &Verified<'_, C>, event: Event) -> Option<Handled>
        ensures { result ≡ handled_by verified.now.image event }
    {
        let routine = routine_of(verified.program(), event)?;
        Some(Handled { event, routine })
    }
}

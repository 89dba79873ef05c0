//! What sees the runs of a comparison.

ghost use Rattle.std.specs.Prelude.{◌≡◌, true, length};
ghost use Rattle.cse_office.specs.Changes.{AreAlike, AreLikes};

use crate::lines::RunLines;
use std::convert::Infallible;

/// What sees the runs of a comparison.
pub trait Watch {
    /// Why it stops a comparison.
    type Fault;

    /// Sees two runs whose lines all pair up, once they are counted, and which of these are known to be alike, and whether all are.
    fn see_runs(
        &mut self,
        before: &RunLines,
        after: &RunLines,
        likes: &[bool],
        is_alike: bool,
    ) -> Result<(), Self::Fault>
        requires as_many { length before.now ≡ length after.now }
        requires likes { AreLikes likes.now before.now after.now }
        requires alike { is_alike ≡ true → AreAlike before.now after.now };
}

/// One that looks at nothing, and never stops a comparison.
#[derive(Clone, Copy)]
pub struct Blind;

impl Watch for Blind {
    type Fault = Infallible;

    fn see_runs(
        &mut self,
        _before: &RunLines,
        _after: &RunLines,
        _likes: &[bool],
        _is_alike: bool,
    ) -> Result<(), Infallible> {
        Ok(())
    }
}

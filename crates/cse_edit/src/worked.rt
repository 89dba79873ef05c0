//! Worked rows of the batch that logic means.

ghost use Rattle.cse_edit.specs.Worked.{AreWorked};

/// Law: what small sources make of a few lines, worked out by hand: fields that are written, sums and cells beyond their
/// ranges, arms of an `if`, turns of a `do`, a `for` over the persons, and a hot deck that goes from one run to the next.
pub fn worked_edits()
    ensures { AreWorked }
{}

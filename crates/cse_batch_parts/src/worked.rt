//! Worked rows of the definition of a batch.

ghost use Rattle.cse_batch_parts.specs.Worked.{AreWorked};

/// Law: over four lines of one household, of which the third is of no record and the fourth a person too
/// many, a batch with an empty program writes the lines as they are and lists the two, under one heading; where
/// the data breaks off behind them, no run is given, and there is no summary.
pub fn worked_rows()
    ensures { AreWorked }
{}

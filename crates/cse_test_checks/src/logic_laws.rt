//! Rows of the faults of logic: `block` and `least` of cse_logic_faults.

ghost use Rattle.cse_test_checks.specs.LogicFaults.{FaultsAreWorked};

/// Law: which faults statements have, and which of them is told.
pub fn worked_faults_of_logic()
    ensures { FaultsAreWorked }
{}

//! Rows of the files that a run reads and writes. Of cse_case: the runs that `RunReader::next` gives, and the first fault.
//! Of cse_decks: `Store::new`, `load`, `save` and `set_text`, but for want of memory. Of cse_report: what reports list, and
//! what frequencies are written.

ghost use Rattle.cse_test_checks.specs.Runs.{RunsAreWorked};
ghost use Rattle.cse_test_checks.specs.Decks.{DecksAreWorked};
ghost use Rattle.cse_test_checks.specs.Reports.{ReportsAreWorked};

/// Law: what the lines and runs of files are, and which line is faulty.
pub fn worked_runs()
    ensures { RunsAreWorked }
{}

/// Law: what deck texts are loaded as and saved as, and the first line of others that is wrong.
pub fn worked_decks()
    ensures { DecksAreWorked }
{}

/// Law: the texts of messages, listings wherever flushes fall, and frequencies.
pub fn worked_reports()
    ensures { ReportsAreWorked }
{}

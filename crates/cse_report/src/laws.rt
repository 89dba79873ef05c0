//! Laws of the definitions.

ghost use Rattle.cse_report.specs.AllReported.{FlushesBetween, ImputesAll, ListsAll};
ghost use Rattle.cse_report.specs.Frequency.{CountsTheRun};
ghost use Rattle.cse_report.specs.Held.{GivesTheListing};
ghost use Rattle.cse_report.specs.Unended.{GivesTheLinesSoFar, GrowsAtItsEnd};

/// Wherever flushes fall between what is reported, one device is given the listing of all of it: the lines
/// of each flush, then the lines still held and the summary.
pub fn flushes_change_nothing()
    ensures { GivesTheListing }
{}

/// Wherever flushes fall, what one device was given and what is held make up the listing so far, without
/// its summary.
pub fn lines_so_far()
    ensures { GivesTheLinesSoFar }
{}

/// What was listed stays in front of what is listed later.
pub fn grows_at_its_end()
    ensures { GrowsAtItsEnd }
{}

/// Reports without a flush between them are what they are one after the other.
pub fn lists_all_reports()
    ensures { ListsAll }
{}

/// A flush between reports changes nothing but what is held: the later ones are listed behind the lines
/// that it took.
pub fn flush_between_changes_nothing()
    ensures { FlushesBetween }
{}

/// Imputations in two parts are what they are in one.
pub fn imputes_all_values()
    ensures { ImputesAll }
{}

/// After all imputations of a run, the table of an item has the different values imputed to it in the order in
/// which they first came, each with how often it came, or 2^64 - 1.
pub fn tables_count_the_run()
    ensures { CountsTheRun }
{}

//! Laws of cases: what a write changes and leaves alone, and which lines are seen.

ghost use Rattle.cse_case.specs.Case.{CaseText};
ghost use Rattle.cse_case.specs.Sight.{SeenOrUnseen};
ghost use Rattle.cse_case.specs.Writes.{ColumnStays, FitStays, IdsAndTypesStay, OccurrencesStay, OthersStay, ReadsWhatWasSet};

/// No write makes or moves an occurrence: the occurrences and their places, the unseen lines, the ids, the
/// dictionary, and the number, lengths and ends of the lines are as before.
pub fn occurrences_stay()
    ensures { OccurrencesStay }
{}

/// A case that fits its dictionary still fits.
pub fn fit_stays()
    ensures { FitStays }
{}

/// What was set is read: what the field keeps of a number, and a text that is cut to the item's columns or
/// padded with blanks.
pub fn reads_what_was_set()
    ensures { ReadsWhatWasSet }
{}

/// In another line, and in an item that has no column in common with the one that was set, what is read is
/// as before.
pub fn others_stay()
    ensures { OthersStay }
{}

/// A column changes only if it is one of the item's in the line of the occurrence.
pub fn column_stays()
    ensures { ColumnStays }
{}

/// The id columns of each line and those of its record type stay as they are.
pub fn ids_and_types_stay()
    ensures { IdsAndTypesStay }
{}

/// Each line is either an occurrence of its record or unseen, and a run is a case where it has an
/// occurrence.
pub fn seen_or_unseen()
    ensures { (c : CaseText) → SeenOrUnseen c }
{}

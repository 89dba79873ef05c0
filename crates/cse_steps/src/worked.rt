//! Worked rows of the definitions.

ghost use Rattle.cse_steps.specs.Worked.{AreWorked};
ghost use Rattle.cse_steps.specs.WorkedColumns.{AreWritten};

/// Law: a loop over 3 persons with a break in it takes 26 steps, and one over 2 persons, which runs to the
/// ends of its inner loop, 108; 10 is an index of size 10, and 11 is none; of one person 1 is an occurrence, and
/// 2 leads to the place for none; an occurrence of a record that the dictionary lacks has no step; a return ends
/// its brackets; the occurrence of a loop holds in a loop within it; a text is cut or padded to the length of its
/// parameter; what two events leave has the steps of both, and the reports of the first before those of the second.
pub fn worked_rows()
    ensures { AreWorked }
{}

/// Law: a program that writes a number of two columns into the second of two lines. Its fourth step writes
/// these two columns of this line, and neither the record type before them nor a column of the other line.
pub fn worked_columns()
    ensures { AreWritten }
{}

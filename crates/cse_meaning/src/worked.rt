//! Worked rows of the definitions.

ghost use Rattle.cse_meaning.specs.Worked.{AreWorked};

/// Law: sums beyond 64 bits and a divisor 0 give `default`, and quotients go toward 0; a cell out of range reads `default`,
/// and where one is set nothing is called; the arms of an `if` by age, that of a special value the `else`; what a line has
/// after its age was set; the turns of a `do`, and its variable behind them; a hot deck that is put and then got; and a
/// `for` over the persons of a case.
pub fn worked_meaning()
    ensures { AreWorked }
{}

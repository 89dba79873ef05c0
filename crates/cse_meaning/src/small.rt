//! What is proved of the size of code.

ghost use Rattle.cse_meaning.specs.Measure.{CodeIsShort, EntriesAreFew};
ghost use Rattle.cse_meaning.specs.Totals.{AllCodeIsShort, AllEntriesAreFew};

/// A law: the code of a routine has at most 16 instructions for each token of its statements, and 4 more (`code`); and at
/// most as many constants, as many limits and as many texts as its statements have tokens (`entries`). No hot deck has
/// more than three dimensions.
pub fn code_is_small()
    ensures code { CodeIsShort }
    ensures entries { EntriesAreFew }
{}

/// A law: the code of a whole source has at most 16 instructions for each token of it (`code`), and at most as many
/// constants, as many limits and as many texts as tokens (`entries`). So a source of 60,000 tokens has at most 960,000
/// instructions, and fills no table of an image.
pub fn source_is_small()
    ensures code { AllCodeIsShort }
    ensures entries { AllEntriesAreFew }
{}

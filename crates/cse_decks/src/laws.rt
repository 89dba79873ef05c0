//! Laws of the definitions.

ghost use Rattle.cse_decks.specs.CellLine.{ReadsCells, ReadsNothingElse};
ghost use Rattle.cse_decks.specs.DeckText.{LoadsDeckTexts, LoadsWhatWasSaved};

/// A cell's line, as `save` writes it, is read as that cell, and no other line is.
pub fn cell_lines()
    ensures cells { ReadsCells }
    ensures only { ReadsNothingElse }
{}

/// `load` says yes of the deck texts of the program alone: the heading, blocks of saved arrays, each at most
/// once and in any order, and the end. It gives the cells that stand there, and starting cells elsewhere.
pub fn deck_texts()
    ensures { LoadsDeckTexts }
{}

/// The cells that stand in the text that `save` writes are the saved cells: `load` says yes of it, and gives
/// those cells, and the starting cells of the arrays that are not saved.
pub fn saved_is_loaded()
    ensures { LoadsWhatWasSaved }
{}

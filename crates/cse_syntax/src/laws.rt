//! Laws of the definitions.

ghost use Rattle.cse_syntax.specs.TreeLaws.{HasOneTree, IsLongest};
ghost use Rattle.cse_syntax.specs.BlankText.{AreSkipped};

/// Words are those of one tree at most: the grammar isn't ambiguous.
pub fn one_tree()
    ensures { HasOneTree }
{}

/// A token is the longest front of the text that is one.
pub fn longest_tokens()
    ensures { IsLongest }
{}

/// What stands between tokens is blanks and comments: in braces, which nest, or from `//` to the end of the line.
pub fn skipped_text()
    ensures { AreSkipped }
{}

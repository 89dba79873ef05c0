//! Laws of the definitions, each the contract of a function that does nothing.

ghost use Rattle.cse_logic_tree.specs.Tokens.{CountsTokens};

/// A tree is written in as many tokens as its structure tells.
pub fn tokens_are_counted()
    ensures { CountsTokens }
{}

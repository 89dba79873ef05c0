//! What the types of tokens hold: UTF-8.

ghost use Rattle.std.specs.Prelude.{IsTrue};
ghost use Rattle.std.specs.List.{AllByRecursion};
ghost use Rattle.std.specs.Str.{is_utf8};

use cse_syntax::Token;

/// Reading a text tells that it is UTF-8.
fn read_text(text: &str)
    ensures { IsTrue (is_utf8 text.now) }
{
    let _length = text.len();
}

/// The texts of tokens are UTF-8.
pub fn read_tokens(tokens: &[Token<'_>])
    ensures { AllByRecursion (λ t. IsTrue (is_utf8 t.text.now)) tokens.now }
{
    for token in tokens {
        read_text(token.text);
    }
}

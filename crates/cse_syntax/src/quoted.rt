//! What a text in quotes says.

ghost use Rattle.std.specs.Prelude.{◌≡◌, true};
ghost use Rattle.cse_syntax_tree.specs.Leaf as spec;

/// What stands between the quotes of a text.
pub fn text_of(text: &str) -> &str
    requires { spec.is_text text.now ≡ true }
    ensures { result.now ≡ spec.text_of text.now }
{
    let end = text.len() - 1;
    &text[1..end]
}

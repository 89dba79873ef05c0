//! A law of the definitions, the contract of a function that does nothing.

ghost use Rattle.std.specs.Prelude.{◌≡◌, Bool, Some};
ghost use Rattle.cse_syntax_tree.specs.Tree.{Expr};
ghost use Rattle.cse_logic_tree.specs.Typed.{Number, Words};
ghost use Rattle.cse_logic_tree.specs.Erase.{erase, erase_words};
ghost use Rattle.cse_logic_names.specs.Scope.{Scope};
ghost use Rattle.cse_logic_names.specs.WellTyped.{IsNumber, IsWords};
ghost use Rattle.cse_logic_expressions.specs.Judge.{judge, AsNumber, AsWords};

/// An expression is judged to be a number, or a text, exactly where a sound typed tree is made of it, and as that one.
pub fn expressions_are_judged()
    ensures sound { (s : Scope) (top : Bool) (x : Expr) (y : Number) → judge s top x ≡ AsNumber (Some y) → (erase y ≡ x) × IsNumber s top y }
    ensures complete { (s : Scope) (top : Bool) (y : Number) → IsNumber s top y → judge s top (erase y) ≡ AsNumber (Some y) }
    ensures sound_texts { (s : Scope) (top : Bool) (x : Expr) (y : Words) → judge s top x ≡ AsWords (Some y) → (erase_words y ≡ x) × IsWords s y }
    ensures complete_texts { (s : Scope) (top : Bool) (y : Words) → IsWords s y → judge s top (erase_words y) ≡ AsWords (Some y) }
{}

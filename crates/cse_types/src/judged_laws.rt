//! Laws of the definitions, each the contract of a function that does nothing.

ghost use Rattle.std.specs.Prelude.{◌≡◌, ℕ, List, [], Some};
ghost use Rattle.cse_dict.specs.Dictionary.{DictionaryText};
ghost use Rattle.cse_syntax_tree.specs.Tree.{Stmts};
ghost use Rattle.cse_syntax_tree.specs.Tree as syntax;
ghost use Rattle.cse_logic_tree.specs.Typed.{Statements, Tree};
ghost use Rattle.cse_logic_tree.specs.Erase.{erase_block};
ghost use Rattle.cse_logic_names.specs.Scope.{Scope};
ghost use Rattle.cse_logic_names.specs.WellTyped.{AreStatements, IsTypedAs};
ghost use Rattle.cse_logic_names.specs.MessageFile.{MessageText};
ghost use Rattle.cse_logic_expressions.specs.JudgeStatement.{judge_block};
ghost use Rattle.cse_types.specs.JudgeTree.{typed_of};
ghost use Rattle.cse_types.specs.SourceFaults.{faults_of};

/// Statements are judged to be sound exactly where sound typed ones are made of them, and as those. So many messages stand before them in the source.
pub fn statements_are_judged()
    ensures sound { (s : Scope) (n : ℕ) (x : Stmts) (y : Statements) → judge_block s n x ≡ Some y → (erase_block y ≡ x) × AreStatements s n y }
    ensures complete { (s : Scope) (n : ℕ) (y : Statements) → AreStatements s n y → judge_block s n (erase_block y) ≡ Some y }
{}

/// A source's tree is judged to be sound exactly where a typed tree of it keeps each rule of 40 to 49, and as that one: there is one at most.
pub fn sources_are_judged()
    ensures sound { (d : DictionaryText) (messages : List MessageText) (x : syntax.Tree) (t : Tree) → typed_of d messages x ≡ Some t → IsTypedAs d messages x t }
    ensures complete { (d : DictionaryText) (messages : List MessageText) (x : syntax.Tree) (t : Tree) → IsTypedAs d messages x t → typed_of d messages x ≡ Some t }
{}

/// A source's tree has a fault exactly where no typed tree of it keeps each rule of 40 to 49.
pub fn unsound_sources_have_faults()
    ensures no_fault_where_sound { (d : DictionaryText) (messages : List MessageText) (x : syntax.Tree) (t : Tree)
        → IsTypedAs d messages x t → faults_of d messages x ≡ [] }
    ensures sound_where_no_fault { (d : DictionaryText) (messages : List MessageText) (x : syntax.Tree)
        → faults_of d messages x ≡ [] → (t : Tree) × IsTypedAs d messages x t }
{}

//! Laws of the definitions, each the contract of a function that does nothing.

ghost use Rattle.std.specs.Prelude.{◌≡◌, ℕ, Bool, true, []};
ghost use Rattle.cse_syntax_tree.specs.Tree.{Expr, Stmts};
ghost use Rattle.cse_logic_names.specs.Scope.{Scope};
ghost use Rattle.cse_logic_names.specs.Walk.{is_there};
ghost use Rattle.cse_logic_faults.specs.Faults.{Counts};
ghost use Rattle.cse_logic_faults.specs.FaultsOfExpressions.{expr_faults};
ghost use Rattle.cse_logic_faults.specs.FaultsOfStatements.{stmts_faults};
ghost use Rattle.cse_logic_expressions.specs.Judge.{is_sound, judge};
ghost use Rattle.cse_logic_expressions.specs.JudgeStatement.{judge_block};
ghost use Rattle.cse_types.specs.Counted.{IsCounted};

/// An expression has a fault exactly where it is not sound; `top` tells that it stands right inside `int`.
pub fn unsound_expressions_have_faults()
    ensures no_fault_where_sound { (c : Counts) (s : Scope) (top : Bool) (x : Expr) → IsCounted c s
        → is_sound (judge s top x) ≡ true → expr_faults c s top x ≡ [] }
    ensures sound_where_no_fault { (c : Counts) (s : Scope) (top : Bool) (x : Expr) → IsCounted c s
        → expr_faults c s top x ≡ [] → is_sound (judge s top x) ≡ true }
{}

/// Statements have a fault exactly where they are not sound, however many messages stand before them.
pub fn unsound_statements_have_faults()
    ensures no_fault_where_sound { (c : Counts) (s : Scope) (n : ℕ) (x : Stmts) → IsCounted c s
        → is_there (judge_block s n x) ≡ true → stmts_faults c s x ≡ [] }
    ensures sound_where_no_fault { (c : Counts) (s : Scope) (n : ℕ) (x : Stmts) → IsCounted c s
        → stmts_faults c s x ≡ [] → is_there (judge_block s n x) ≡ true }
{}

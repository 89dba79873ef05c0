//! The faults of declarations, one after the other.

ghost use Rattle.std.specs.Prelude.{◌≡◌, ◌++◌, map, length, OnOk};
ghost use Rattle.cse_syntax_tree.specs.Tree as syntax;
ghost use Rattle.cse_types.specs.JudgeTree as judge;
ghost use Rattle.cse_types.specs.Told.{told_of};
ghost use Rattle.cse_types.specs.FaultClauses.{faults_behind};

use crate::declaration::declaration;
use crate::declared_faults::one;
use crate::told::Told;
use cse_logic_faults::counts::Counts;
use cse_logic_faults::found::Found;
use cse_logic_names::scope::Scope;
use cse_syntax_tree::Declaration;
use std::alloc::{AllocError, Global};

/// What is known behind a declaration.
fn behind<'a>(
    alloc: Global,
    scope: &mut Scope<'_>,
    told: &mut Vec<Told<'a>>,
    x: &Declaration<'a>,
) -> Result<(), AllocError>
    ensures behind { OnOk result (scope.new ≡ judge.behind scope.old (length told.old.items) (syntax.declaration x.now)) }
    ensures told { OnOk result (map told_of told.new.items ≡ map told_of told.old.items ++ judge.messages_with (syntax.declaration x.now)) }
{
    match declaration(alloc, scope, told, x) {
        Err(fault) => Err(fault),
        Ok(_judged) => Ok(()),
    }
}

/// Declarations; behind them stands what is known of their functions.
pub fn all_declarations<'a>(
    alloc: Global,
    scope: &mut Scope<'_>,
    counts: &Counts,
    found: &mut Found,
    told: &mut Vec<Told<'a>>,
    all: &Vec<Declaration<'a>>,
) -> Result<(), AllocError>
    ensures found { OnOk result (found.new ≡ found.old ++ faults_behind counts.now scope.old (length told.old.items) all.now.items) }
    ensures behind { OnOk result (scope.new ≡ judge.behind_all scope.old (length told.old.items) (map syntax.declaration all.now.items)) }
{
    'all: for x in all {
        one(alloc, scope, counts, found, x)?;
        behind(alloc, scope, told, x)?;
    }
    Ok(())
}

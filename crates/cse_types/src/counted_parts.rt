//! How many parameters and dimensions the declarations of a source have.

ghost use Rattle.std.specs.Prelude.{◌≡◌, map, IfOk, OnOk};
ghost use Rattle.cse_syntax_tree.specs.Tree as syntax;
ghost use Rattle.cse_types.specs.CountsBehind.{count_behind};
ghost use Rattle.cse_types.specs.PartFaults as spec;
ghost use Rattle.cse_types.specs.PartClauses.{globals_of};

use cse_logic_faults::counts::Counts;
use cse_syntax_tree::{Declaration, Tree};
use std::alloc::{AllocError, Global};

/// What a declaration declares so many of.
fn count(counts: &mut Counts, x: &Declaration<'_>) -> Result<(), AllocError>
    ensures { OnOk result (counts.new ≡ count_behind counts.old (syntax.declaration x.now)) }
{
    match x {
        Declaration::Numeric(_) => Ok(()),
        Declaration::Alpha(_, _) => Ok(()),
        Declaration::Array(array) => {
            counts.dimensions.push(array.dimensions.len())?;
            Ok(())
        }
        Declaration::Function(_, parameters, _) => {
            counts.parameters.push(parameters.len())?;
            Ok(())
        }
    }
}

/// How many parameters and dimensions these declarations have.
fn counts_in(alloc: Global, all: &Vec<Declaration<'_>>) -> Result<Counts, AllocError>
    ensures { IfOk result (λ c. c ≡ spec.counts_in (map syntax.declaration all.now.items)) }
{
    let mut counts = Counts::new(alloc);
    'all: for x in all {
        count(&mut counts, x)?;
    }
    Ok(counts)
}

/// Of a tree.
pub fn counts_of(alloc: Global, tree: &Tree<'_>) -> Result<Counts, AllocError>
    ensures { IfOk result (λ c. c ≡ spec.counts_in (globals_of tree.now)) }
{
    match &tree.globals {
        None => Ok(Counts::new(alloc)),
        Some(all) => counts_in(alloc, all),
    }
}

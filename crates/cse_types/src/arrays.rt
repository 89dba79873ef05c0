//! The dimensions of all arrays, which are known before anything else is judged.

ghost use Rattle.std.specs.Prelude.{◌≡◌, ◌++◌, ◌∷◌, [], map, IfOk, OnOk};
ghost use Rattle.cse_syntax_tree.specs.Tree as syntax;
ghost use Rattle.cse_types.specs.JudgeTree as spec;
ghost use Rattle.cse_types.specs.SourceClauses.{dimensions_made, each_made};

use crate::array::dimensions;
use cse_logic_names::scope::Scope;
use cse_logic_tree::Dimension;
use cse_syntax_tree::{Array, Declaration};
use std::alloc::{AllocError, Global};

/// The dimensions of an array.
fn dimensions_alone<'a>(
    alloc: Global,
    scope: &Scope<'_>,
    x: &Array<'a>,
) -> Result<Option<Vec<Dimension<'a>>>, AllocError>
    ensures { IfOk result (λ r. dimensions_made r ≡ spec.dimensions_judged scope.now (map syntax.dimension x.now.dimensions.items)) }
{
    dimensions(alloc, scope, &x.dimensions)
}

/// Those of a declaration, if it is an array.
#[tactic(auto, using(cse_logic_faults::proofs::Lists::append_none, std::proofs::lemmas::List::map_push))]
fn add<'a>(
    alloc: Global,
    scope: &Scope<'_>,
    found: &mut Vec<Option<Vec<Dimension<'a>>>>,
    x: &Declaration<'a>,
) -> Result<(), AllocError>
    ensures { OnOk result (each_made found.new.items ≡ each_made found.old.items ++ spec.arrays_judged scope.now (syntax.declaration x.now ∷ [])) }
{
    match x {
        Declaration::Numeric(_) => Ok(()),
        Declaration::Alpha(_, _) => Ok(()),
        Declaration::Array(x) => {
            found.push(dimensions_alone(alloc, scope, x)?)?;
            Ok(())
        }
        Declaration::Function(_, _, _) => Ok(()),
    }
}

/// The dimensions of each array, or none where one isn't sound.
pub fn arrays<'a>(
    alloc: Global,
    scope: &Scope<'_>,
    all: &Vec<Declaration<'a>>,
) -> Result<Vec<Option<Vec<Dimension<'a>>>>, AllocError>
    ensures { IfOk result (λ v. each_made v.items ≡ spec.arrays_judged scope.now (map syntax.declaration all.now.items)) }
{
    let mut found = Vec::new(alloc);
    'all: for x in all {
        add(alloc, scope, &mut found, x)?;
    }
    Ok(found)
}

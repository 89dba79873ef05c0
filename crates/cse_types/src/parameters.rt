//! The names of the parameters of a function.

ghost use Rattle.std.specs.Prelude.{◌≡◌, map, IfOk, OnOk};
ghost use Rattle.cse_dict.specs.Keys.{kept_name};
ghost use Rattle.cse_syntax_tree.specs.Tree as syntax;
ghost use Rattle.cse_logic_names.specs.WellTyped.{parameter_names};
ghost use Rattle.cse_types.specs.Fresh.{fresh_names, with_fresh};
ghost use Rattle.cse_types.specs.Names as spec;

use crate::fresh::{Fresh, is_new};
use cse_logic_names::names::kept;
use cse_logic_names::scope::Scope;
use cse_syntax_tree::Parameter;
use std::alloc::{AllocError, Global};

/// One parameter more.
fn parameter(
    alloc: Global,
    scope: &Scope<'_>,
    fresh: &mut Fresh,
    x: &Parameter<'_>,
) -> Result<(), AllocError>
    ensures { OnOk result (fresh.new ≡ with_fresh (spec.is_new scope.now.dictionary scope.now.declared) fresh.old (kept_name x.now.name.text.now)) }
{
    let name = kept(alloc, x.name.text)?;
    let passes = is_new(scope.dictionary, &scope.declared, x.name.text, &name);
    fresh.add(name, passes)
}

/// The names of parameters: each is new.
#[tactic(auto, using(crate::proofs::FreshLaws::parameter_turn))]
pub fn parameters(
    alloc: Global,
    scope: &Scope<'_>,
    all: &Vec<Parameter<'_>>,
) -> Result<Fresh, AllocError>
    ensures { IfOk result (λ r. r ≡ fresh_names (spec.is_new scope.now.dictionary scope.now.declared) (parameter_names (map syntax.parameter all.now.items))) }
{
    let mut fresh = Fresh::new(alloc);
    'all: for x in all {
        parameter(alloc, scope, &mut fresh, x)?;
    }
    Ok(fresh)
}

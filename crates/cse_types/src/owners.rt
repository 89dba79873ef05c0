//! The names of procedures: each has one.

ghost use Rattle.std.specs.Prelude.{◌≡◌, true, map, IfOk, OnOk};
ghost use Rattle.cse_dict.specs.Keys.{kept_name};
ghost use Rattle.cse_syntax_tree.specs.Tree as syntax;
ghost use Rattle.cse_types.specs.Names as spec;
ghost use Rattle.cse_types.specs.Fresh.{fresh_names, is_fresh, with_fresh};

use crate::fresh::Fresh;
use cse_logic_names::names::kept;
use cse_syntax_tree::Procedure;
use std::alloc::{AllocError, Global};

/// One procedure more.
fn owner(alloc: Global, fresh: &mut Fresh, x: &Procedure<'_>) -> Result<(), AllocError>
    ensures { OnOk result (fresh.new ≡ with_fresh (λ name. true) fresh.old (kept_name x.now.name.text.now)) }
{
    let name = kept(alloc, x.name.text)?;
    fresh.add(name, true)
}

/// The names of procedures, each of which stands once.
pub fn owners<'a>(alloc: Global, all: &[Procedure<'a>]) -> Result<Fresh, AllocError>
    ensures { IfOk result (λ r. r ≡ fresh_names (λ name. true) (spec.owner_names (map syntax.procedure all.now))) }
{
    let mut fresh = Fresh::new(alloc);
    'all: for x in all {
        owner(alloc, &mut fresh, x)?;
    }
    Ok(fresh)
}

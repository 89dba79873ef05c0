//! Global variables, in order of the source.

ghost use Rattle.std.specs.Prelude.{◌≡◌, ◌++◌, map, replicate, OnOk, IfOk};
ghost use Rattle.cse_logic_tree.specs.Typed.{declaration};
ghost use Rattle.cse_compile.specs.Tables.{globals_in, globals_of};

use cse_image_parts::entries::{GlobalKind, GlobalVariable};
use cse_logic_tree::Declaration;
use std::alloc::{AllocError, Global};

#[tactic(auto, using(crate::proofs::SectionLists::times_less))]
fn add_times(
    globals: &mut Vec<GlobalVariable>,
    global: GlobalVariable,
    count: usize,
) -> Result<(), AllocError>
    ensures { OnOk result (globals.new.items ≡ globals.old.items ++ replicate count global) }
{
    let mut left = count;
    'all: while left > 0 {
        globals.push(global)?;
        left -= 1;
    }
    Ok(())
}

fn add_globals(globals: &mut Vec<GlobalVariable>, declared: &Declaration) -> Result<(), AllocError>
    ensures { OnOk result (globals.new.items ≡ globals.old.items ++ globals_of (declaration declared.now)) }
{
    match declared {
        Declaration::Numeric(names) => {
            let global = GlobalVariable {
                kind: GlobalKind::Number,
                length: 0,
            };
            add_times(globals, global, names.len())
        }
        Declaration::Alpha(_, length, names) => {
            let global = GlobalVariable {
                kind: GlobalKind::Text,
                length: *length,
            };
            add_times(globals, global, names.len())
        }
        Declaration::Array(_) | Declaration::Function(_) => Ok(()),
    }
}

/// The global variables of the declarations.
pub fn globals_of(
    alloc: Global,
    declarations: &[Declaration],
) -> Result<Vec<GlobalVariable>, AllocError>
    ensures { IfOk result (λ v. v.items ≡ globals_in (map declaration declarations.now)) }
{
    let mut globals = Vec::new(alloc);
    'all: for declared in declarations {
        add_globals(&mut globals, declared)?;
    }
    Ok(globals)
}

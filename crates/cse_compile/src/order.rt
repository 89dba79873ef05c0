//! The records in edit order.

ghost use Rattle.std.specs.Prelude.{◌≡◌, ◌++◌, nat_eq, OnOk, IfOk};
ghost use Rattle.cse_compile.specs.Order as spec;

use std::alloc::{AllocError, Global};

fn is_named(named: &[u16], number: u16) -> bool
    ensures { result ≡ spec.is_named named.now number }
{
    named.iter().any(|x| *x == number)
}

fn add_unless_named(order: &mut Vec<u32>, named: &[u16], number: u16) -> Result<(), AllocError>
    ensures { OnOk result (order.new.items ≡ order.old.items ++ spec.unless_named named.now number) }
{
    if !is_named(named, number) {
        order.push(number as u32)?;
    }
    Ok(())
}

fn named_first(alloc: Global, named: &[u16]) -> Result<Vec<u32>, AllocError>
    ensures { IfOk result (λ v. v.items ≡ named.now) }
{
    let mut order = Vec::new(alloc);
    'all: for number in named {
        order.push(*number as u32)?;
    }
    Ok(order)
}

/// The named records come first, in their order; the others of `count` records follow in order of the dictionary.
pub fn edit_order(alloc: Global, count: u16, named: &[u16]) -> Result<Vec<u32>, AllocError>
    ensures { IfOk result (λ v. v.items ≡ spec.edit_order count named.now) }
{
    let mut order = named_first(alloc, named)?;
    'numbers: for number in 0..count {
        add_unless_named(&mut order, named, number)?;
    }
    Ok(order)
}

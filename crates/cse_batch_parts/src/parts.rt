//! The parts of a verified program that a run goes by.

ghost use Rattle.std.specs.Prelude.{◌≡◌, ◌<◌, ◌≤◌, length};
ghost use Rattle.std.specs.List.{AllByRecursion};
ghost use Rattle.cse_dict.specs.Dictionary.{shape_of};

use cse_image::Code;
use cse_value::shape::ItemShape;
use cse_verify::Verified;

/// The items, by their numbers.
pub(crate) fn items_of<'v, C: Code>(verified: &'v Verified<'_, C>) -> &'v [ItemShape]
    ensures items { result.now ≡ verified.now.image.lists.items }
    ensures few { length result.now ≤ 10000 }
{
    let program = verified.program();
    program.tables();
    program.items()
}

/// The records in edit order, each of which is there.
pub(crate) fn order_of<'v, C: Code>(verified: &'v Verified<'_, C>) -> &'v [u32]
    ensures order { result.now ≡ verified.now.image.lists.order }
    ensures there { AllByRecursion (λ r. r < length (shape_of verified.now.dictionary).records) result.now }
    ensures few { length (shape_of verified.now.dictionary).records ≤ 200 }
{
    verified.dictionary().shape();
    verified.program().order()
}

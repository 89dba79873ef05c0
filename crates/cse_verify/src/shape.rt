//! Whether a program was made for a dictionary.

ghost use Rattle.std.specs.Prelude.{◌≡◌};
ghost use Rattle.std.specs.Bool.{Decides};
ghost use Rattle.cse_dict.specs.Dictionary.{shape_of as dictionary_shape};
ghost use Rattle.cse_code_typing.specs.Shapes.{shape_of};

use cse_dict::Dictionary;
use cse_image::{Code, Program};

/// Whether the program has the dictionary's shape: the same records, items and value sets. Takes no
/// memory.
pub fn same_shape<C: Code>(dictionary: &Dictionary, program: &Program<C>) -> bool
    ensures { Decides result (dictionary_shape dictionary.now ≡ shape_of program.now) }
{
    cse_code_typing::same_shape(dictionary.shape(), program)
}

//! Where the columns of an item stand in the lines of its record.

ghost use Rattle.std.specs.Prelude.{◌≡◌, ◌<◌, ◌≤◌, IfNone, IfSome, length};
ghost use Rattle.cse_dict.specs.Dictionary.{shape_of};
ghost use Rattle.cse_case.specs.Own.{IsSpanOf};

use cse_dict::Dictionary;

/// The columns of an item in a line of its record: the first one, counted from 0, and how many they are. So an item that is
/// read often is looked up once.
#[derive(Clone, Copy)]
pub struct ItemSpan {
    pub item: u16,
    pub start: u32,
    pub len: u16,
}

impl ItemSpan {
    /// The columns of an item, if the dictionary has it.
    pub fn of(item: u16, dictionary: &Dictionary) -> Option<ItemSpan>
        ensures there { IfSome result (λ span. item < length dictionary.now.items) }
        ensures none { IfNone result (length dictionary.now.items ≤ item) }
        ensures item { IfSome result (λ span. span.item ≡ item) }
        ensures span { IfSome result (λ span. IsSpanOf (shape_of dictionary.now).items span) }
    {
        let shape = dictionary.shape();
        let Some(found) = shape.items.get(item as usize) else {
            return None;
        };
        Some(ItemSpan {
            item,
            start: found.start.saturating_sub(1),
            len: found.len,
        })
    }
}

//! A source that was checked: its typed tree, and what it was made for.

ghost use Rattle.cse_logic_tree.specs.Typed as typed;
ghost use Rattle.cse_types.specs.Checked.{IsChecked};

use cse_dict::Dictionary;
use cse_logic_names::messages::Messages;
use cse_logic_names::order::Order;
use cse_logic_tree::Tree;

/// A typed tree, and the dictionary, the messages and the order that it was made for. `check` alone makes one.
pub struct Typed<'a> {
    pub(crate) dictionary: &'a Dictionary,
    pub(crate) messages: &'a Messages,
    pub(crate) order: &'a Order,
    pub(crate) tree: Tree<'a>,
    // Each rule of 40 to 49 is kept, the tree is one of a source, and its texts are UTF-8.
    pub ghost is_checked: { ∥ IsChecked (record { dictionary = dictionary.now; messages = messages.now; order = order.now; tree = typed.tree tree }) ∥₁ },
}

// Written out, so that a crate that owns one calls this drop and does not prove one for each part.
impl Drop for Typed<'_> {
    fn drop(self) {
        let Typed {
            dictionary: _dictionary,
            messages: _messages,
            order: _order,
            tree: _tree,
        } = self;
    }
}

impl<'a> Typed<'a> {
    ghost use Rattle.std.specs.Prelude.{◌≡◌};

    /// The dictionary that it was made for.
    pub fn dictionary(&self) -> &Dictionary
        ensures { result.now ≡ self.now.dictionary.now }
    {
        self.dictionary
    }

    /// The messages of the message file.
    pub fn messages(&self) -> &Messages
        ensures { result.now ≡ self.now.messages.now }
    {
        self.messages
    }

    /// The records of the order file.
    pub fn order(&self) -> &Order
        ensures { result.now ≡ self.now.order.now }
    {
        self.order
    }

    /// The typed tree.
    pub fn tree(&self) -> &Tree<'a>
        ensures { result.now ≡ self.now.tree }
    {
        &self.tree
    }
}

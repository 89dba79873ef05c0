//! What stays of the data.

ghost use Rattle.cse_edit.specs.Stay.{ChecksChangeNothing, EditsKeepOthers, NamedItemsAloneChange};

use cse_dict::sound_without_fault;

/// Law: the batch that sound texts mean writes a line in place of each line that it reads, in order, and of these a column
/// changes only where an assignment or an `impute` names an item of the line's record that has the column. Ids, record
/// types, widths and ends stay; a line with no such column is written byte for byte.
pub fn named_items_alone_change()
    ensures { NamedItemsAloneChange }
{}

/// Law: logic that names no item in an assignment or an `impute`, one of checks alone, gives sound data back byte for byte.
pub fn checks_change_nothing()
    ensures { ChecksChangeNothing }
{
    named_items_alone_change();
}

/// Law: so it is of each edit, one that ends well and one that stops: OUT has the lines that were read, but for columns of
/// the items that the logic names.
pub fn edits_keep_others()
    ensures { EditsKeepOthers }
{
    named_items_alone_change();
    sound_without_fault();
}

//! What a run changed, as CSV: a row for each item, of the whole file and of each area.

use crate::all_changes::Diff;
use crate::areas::Area;
use crate::count::Count;
use crate::names::Names;
use crate::sheet::Sheet;
use crate::text::{Cell, share};
use cse_value::Output;

/// Writes the row of an item in an area, or of the whole.
fn put_item<'v, W: Output>(
    sheet: &mut Sheet<W>,
    names: &Names<'v>,
    area: &'v str,
    item: usize,
    count: Count,
) {
    sheet.row(&[
        Cell::Text(area),
        Cell::Text(names.item_name(item)),
        Cell::Text(names.item_label(item)),
        Cell::Number(count.occurrences),
        Cell::Number(count.changed),
        Cell::Percent(share(count.changed, count.occurrences)),
    ]);
}

/// Writes what was changed: all items of the whole file, and of each area the items that were changed there.
pub fn put_sheet<'v, W: Output>(
    sheet: &mut Sheet<W>,
    names: &Names<'v>,
    diff: &Diff<'_>,
    areas: &'v [Area],
) {
    sheet.row(&[
        Cell::Text("area"),
        Cell::Text("item"),
        Cell::Text("label"),
        Cell::Text("occurrences"),
        Cell::Text("changed"),
        Cell::Text("percent"),
    ]);
    for item in 0..diff.shape.items.len() {
        put_item(sheet, &*names, "", item, diff.count_of(item));
    }
    for area in areas {
        for item in 0..diff.shape.items.len() {
            let count = diff.count_in(area.place, item);
            if count.changed > 0 {
                put_item(sheet, &*names, area.name.as_str(), item, count);
            }
        }
    }
}

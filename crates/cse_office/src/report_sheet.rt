//! Messages and imputations as CSV: a row for each message, each imputed item and each of its values.

use crate::names::Names;
use crate::report::{Imputed, Report};
use crate::report_text::{item_of, label_of};
use crate::sheet::Sheet;
use crate::text::{Cell, share};
use cse_value::Output;

/// Writes an imputed item and its values.
fn put_item<'v, W: Output>(sheet: &mut Sheet<W>, names: &Names<'v>, lines: u64, item: &'v Imputed) {
    let number = item_of(names, item.name.as_str());
    sheet.row(&[
        Cell::Text("item"),
        Cell::Text(item.name.as_str()),
        Cell::Text(""),
        Cell::Number(item.times),
        Cell::Percent(share(item.times, lines)),
        Cell::Text(names.item_label(number)),
    ]);
    for (_, _, value, times) in &item.values {
        sheet.row(&[
            Cell::Text("value"),
            Cell::Text(item.name.as_str()),
            Cell::Text(value.as_str()),
            Cell::Number(*times),
            Cell::Percent(share(*times, item.times)),
            Cell::Text(label_of(names, number, value.as_str())),
        ]);
    }
}

/// Writes all rows. The share of a message is of the cases, that of an item of the lines, and that of a value of the item.
pub fn put_report_sheet<'v, W: Output>(
    sheet: &mut Sheet<W>,
    names: &Names<'v>,
    report: &'v Report,
) {
    sheet.row(&[
        Cell::Text("kind"),
        Cell::Text("name"),
        Cell::Text("value"),
        Cell::Text("times"),
        Cell::Text("percent"),
        Cell::Text("label"),
    ]);
    for given in &report.messages {
        sheet.row(&[
            Cell::Text("message"),
            Cell::Number(given.number),
            Cell::Text(""),
            Cell::Number(given.times),
            Cell::Percent(share(given.times, report.cases)),
            Cell::Text(given.text.as_str()),
        ]);
    }
    for item in &report.items {
        put_item(sheet, names, report.lines, item);
    }
}

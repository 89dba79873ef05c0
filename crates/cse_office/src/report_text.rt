//! Messages and imputations with their shares, on a terminal.

use crate::names::Names;
use crate::report::{Imputed, Report};
use crate::rows::Rows;
use crate::text::{Cell, Text, share};

/// The number of an item, by its name; a number of none where there is none.
pub fn item_of(names: &Names<'_>, name: &str) -> usize {
    match names.dictionary.find_item(name) {
        Some(number) => number as usize,
        None => usize::MAX,
    }
}

/// The label of a value of an item. Special values have that of blanks, or none.
pub fn label_of<'a>(names: &Names<'a>, item: usize, value: &str) -> &'a str {
    names.value(item, if value == "NOTAPPL" { "" } else { value })
}

/// Writes the messages.
fn put_messages(out: &mut Text, report: &Report) {
    let mut rows = Rows::new();
    for pass in 0..2 {
        rows.are_measured = pass > 0;
        rows.row(
            out,
            &[
                Cell::Right("message"),
                Cell::Right("times"),
                Cell::Right("of cases"),
                Cell::Right("of lines"),
                Cell::Text("text"),
            ],
        );
        for given in &report.messages {
            rows.row(
                out,
                &[
                    Cell::Number(given.number),
                    Cell::Number(given.times),
                    Cell::Percent(share(given.times, report.cases)),
                    Cell::Percent(share(given.times, report.lines)),
                    Cell::Text(given.text.as_str()),
                ],
            );
        }
    }
}

/// Writes the items that were imputed.
fn put_items<'v>(out: &mut Text, names: &Names<'v>, report: &'v Report) {
    let mut rows = Rows::new();
    for pass in 0..2 {
        rows.are_measured = pass > 0;
        rows.row(
            out,
            &[
                Cell::Text("item"),
                Cell::Right("imputed"),
                Cell::Right("of lines"),
                Cell::Text("label"),
            ],
        );
        for item in &report.items {
            let name = item.name.as_str();
            rows.row(
                out,
                &[
                    Cell::Text(name),
                    Cell::Number(item.times),
                    Cell::Percent(share(item.times, report.lines)),
                    Cell::Text(names.item_label(item_of(names, name))),
                ],
            );
        }
    }
}

/// Writes the values of an item.
fn put_values_of<'v>(out: &mut Text, rows: &mut Rows, names: &Names<'v>, item: &'v Imputed) {
    let number = item_of(names, item.name.as_str());
    for (_, _, value, times) in &item.values {
        rows.row(
            out,
            &[
                Cell::Text(item.name.as_str()),
                Cell::Right(value.as_str()),
                Cell::Number(*times),
                Cell::Percent(share(*times, item.times)),
                Cell::Text(label_of(names, number, value.as_str())),
            ],
        );
    }
}

/// Writes the values that were imputed.
fn put_values<'v>(out: &mut Text, names: &Names<'v>, report: &'v Report) {
    let mut rows = Rows::new();
    for pass in 0..2 {
        rows.are_measured = pass > 0;
        rows.row(
            out,
            &[
                Cell::Text("item"),
                Cell::Right("value"),
                Cell::Right("times"),
                Cell::Right("percent"),
                Cell::Text("label"),
            ],
        );
        for item in &report.items {
            put_values_of(out, &mut rows, names, item);
        }
    }
}

/// Writes totals, messages, and imputed items with their values.
pub fn put_report<'v>(out: &mut Text, names: &Names<'v>, report: &'v Report) {
    out.put_counted("cases ", report.cases);
    out.put_counted("\nlines ", report.lines);
    out.put_counted("\nunknown ", report.unknown);
    out.put_counted("\nextra ", report.extra);
    out.put("\n\n");
    put_messages(out, report);
    out.put("\n");
    put_items(out, names, report);
    out.put("\n");
    put_values(out, names, report);
}

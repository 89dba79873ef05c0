//! The rows of all modules here, by what each looks at.

use crate::{
    changes, devices, failing, files, images, joined, parts, progress, statuses, turned, values,
    written,
};
use std::alloc::Global;

/// What a module looks at, and whether its rows are as they should be.
type Part = (&'static str, bool);

/// The rows of what the libraries are made of.
fn parts(alloc: Global) -> [Part; 6] {
    [
        ("values", values::are_right()),
        ("parts of images", parts::are_right()),
        ("devices", devices::are_right(alloc)),
        ("images", images::are_right(alloc)),
        ("images with a turned bit", turned::are_right(alloc)),
        ("forms of statements", joined::are_right(alloc)),
    ]
}

/// The rows of what commands do.
fn acts(alloc: Global) -> [Part; 6] {
    [
        ("runs of lines", files::are_right(alloc)),
        ("changes of a run", changes::are_right(alloc)),
        ("items that logic may change", written::are_right(alloc)),
        ("cases as they are read", progress::are_right(alloc)),
        ("devices that fail", failing::are_right(alloc)),
        ("statuses", statuses::are_right()),
    ]
}

/// Prints which are as they should be.
fn show<R: Print>(rt: &R, parts: &[Part]) {
    for (name, is_right) in parts {
        let found = if *is_right {
            "as they should be"
        } else {
            "wrong"
        };
        let _ = println!(rt; "{name}: {found}");
    }
}

/// Prints of each module whether its rows are as they should be.
pub fn show_parts<R: Print + AllocGlobal>(rt: &R) {
    show(rt, &parts(rt.alloc()));
    show(rt, &acts(rt.alloc()));
}

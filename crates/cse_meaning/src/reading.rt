//! What the types of a shape hold: numbers of so many bits.

ghost use Rattle.std.specs.List.{AllByRecursion};
ghost use Rattle.cse_value.specs.Shape.{shape_lists};
ghost use Rattle.cse_image.specs.Spelling.{ItemFits, RecordFits, SetFits};
ghost use Rattle.cse_meaning.specs.Given.{ShapeFits};

use cse_value::shape::{ItemShape, RecordShape, SetShape, Shape};

/// Reading the fields of a record tells their ranges.
fn read_record(shape: &RecordShape)
    ensures { RecordFits shape.now }
{
    let _max_records = shape.max_records;
    let _record_len = shape.record_len;
}

fn read_records(records: &[RecordShape])
    ensures { AllByRecursion RecordFits records.now }
{
    for record in records {
        read_record(record);
    }
}

/// Reading the fields of an item tells their ranges.
fn read_item(item: &ItemShape)
    ensures { ItemFits item.now }
{
    let _owner = item.owner;
    let _len = item.len;
    let _start = item.start;
}

fn read_items(items: &[ItemShape])
    ensures { AllByRecursion ItemFits items.now }
{
    for item in items {
        read_item(item);
    }
}

/// Reading the fields of a value set tells their ranges.
fn read_set(set: &SetShape)
    ensures { SetFits set.now }
{
    let _item = set.item;
    let _rows = set.rows;
}

fn read_sets(sets: &[SetShape])
    ensures { AllByRecursion SetFits sets.now }
{
    for set in sets {
        read_set(set);
    }
}

/// The numbers of a shape have the bits that they have in an image.
pub fn read_shape(shape: &Shape)
    ensures { ShapeFits (shape_lists shape.now) }
{
    read_records(&shape.records);
    read_items(&shape.items);
    read_sets(&shape.sets);
}

//! What opcodes are called.

use cse_image::Op;

/// The names of the opcodes, by their codes.
static NAMES: [&str; 46] = [
    "",
    "Number",
    "Special",
    "Text",
    "LoadLocal",
    "StoreLocal",
    "LoadGlobal",
    "StoreGlobal",
    "Add",
    "Subtract",
    "Multiply",
    "Quotient",
    "Remainder",
    "Negate",
    "Compare",
    "CompareText",
    "And",
    "Or",
    "Not",
    "IsSpecial",
    "Jump",
    "JumpUnless",
    "Index",
    "Occurrence",
    "Row",
    "CurrentOccurrence",
    "OccurrenceNumber",
    "TotalOccurrences",
    "IdNumber",
    "IdText",
    "ItemNumber",
    "ItemText",
    "StoreNumber",
    "StoreText",
    "LoadCell",
    "StoreCell",
    "InSet",
    "Message",
    "Impute",
    "Call",
    "Return",
    "LoopCount",
    "LoopOccurrences",
    "End",
    "Break",
    "Pop",
];

/// The name of an opcode.
pub fn op_name(op: Op) -> &'static str {
    match NAMES.get(op as u8 as usize) {
        Some(name) => name,
        None => "",
    }
}

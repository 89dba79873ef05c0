//! How much an image may have of each thing (own).

ghost use Rattle.std.specs.Prelude.{◌≡◌};
ghost use Rattle.cse_image_parts.specs.Limits.{most_records, most_items, most_sets, most_order, most_constants, most_limits, most_texts, most_globals, most_arrays, most_messages, most_routines, most_events, most_dimensions, most_cells, most_instructions, most_characters, most_name_bytes, most_placeholders};

/// The most records.
pub const MOST_RECORDS: usize = 200;

/// The most items.
pub const MOST_ITEMS: usize = 10_000;

/// The most value sets.
pub const MOST_SETS: usize = 10_000;
/// Entries of the records' edit order.
pub const MOST_ORDER: usize = 200;

/// The most constants.
pub const MOST_CONSTANTS: usize = 65_536;

/// Entries of the table of limits.
pub const MOST_LIMITS: usize = 65_536;

/// The most texts.
pub const MOST_TEXTS: usize = 65_536;

/// The most global variables.
pub const MOST_GLOBALS: usize = 65_536;

/// The most arrays.
pub const MOST_ARRAYS: usize = 4_096;

/// The most messages.
pub const MOST_MESSAGES: usize = 65_536;

/// The most routines.
pub const MOST_ROUTINES: usize = 4_096;

/// The most events that have a routine.
pub const MOST_EVENTS: usize = 50_000;
/// Dimensions of one array.
pub const MOST_DIMENSIONS: usize = 3;
/// Cells of all arrays together.
pub const MOST_CELLS: u64 = 1_000_000;
/// Instructions of all routines together.
pub const MOST_INSTRUCTIONS: u32 = 1_000_000;
/// Characters of a text, of a message and of the value of a text variable.
pub const MOST_CHARACTERS: usize = 255;
/// Characters of an array's name, each of which is one byte.
pub const MOST_NAME_BYTES: usize = 32;
/// Placeholders of one message.
pub const MOST_PLACEHOLDERS: usize = 16;

/// Law: the limits are those of the definition.
pub fn limits_are_as_defined()
    ensures records { MOST_RECORDS ≡ most_records }
    ensures items { MOST_ITEMS ≡ most_items }
    ensures sets { MOST_SETS ≡ most_sets }
    ensures order { MOST_ORDER ≡ most_order }
    ensures constants { MOST_CONSTANTS ≡ most_constants }
    ensures loop_limits { MOST_LIMITS ≡ most_limits }
    ensures texts { MOST_TEXTS ≡ most_texts }
    ensures globals { MOST_GLOBALS ≡ most_globals }
    ensures arrays { MOST_ARRAYS ≡ most_arrays }
    ensures messages { MOST_MESSAGES ≡ most_messages }
    ensures routines { MOST_ROUTINES ≡ most_routines }
    ensures events { MOST_EVENTS ≡ most_events }
    ensures dimensions { MOST_DIMENSIONS ≡ most_dimensions }
    ensures cells { MOST_CELLS ≡ most_cells }
    ensures instructions { MOST_INSTRUCTIONS ≡ most_instructions }
    ensures characters { MOST_CHARACTERS ≡ most_characters }
    ensures name_bytes { MOST_NAME_BYTES ≡ most_name_bytes }
    ensures placeholders { MOST_PLACEHOLDERS ≡ most_placeholders }
{}

//! The numbers of all faults: a family for each room, in tens. docs/FAULTS.md tells when each comes (own).
#![tactic(auto)]

// ---- the dictionary

/// The dictionary is not UTF-8.
pub const DICTIONARY_NOT_UTF8: u8 = 10;
/// The first section is no dictionary's.
pub const NO_DICTIONARY: u8 = 11;
/// A key or a section lacks.
pub const KEY_LACKS: u8 = 12;
/// There is a second level.
pub const SECOND_LEVEL: u8 = 13;
/// A number is unreadable, or out of its range.
pub const NUMBER_UNREADABLE: u8 = 14;
/// An item ends past its record.
pub const ITEM_PAST_RECORD: u8 = 15;
/// A name comes twice.
pub const NAME_TWICE: u8 = 16;
/// There is too much of something, or a name is none.
pub const TOO_MANY: u8 = 17;
/// A record type comes twice.
pub const RECORD_TYPE_TWICE: u8 = 18;

// ---- the data

/// A line of the data is not UTF-8.
pub const LINE_NOT_UTF8: u8 = 20;
/// A line has too many bytes or columns.
pub const LINE_TOO_LONG: u8 = 21;
/// Too many lines in a row have the same id columns.
pub const RUN_TOO_LONG: u8 = 22;

// ---- logic, as text

/// What stands here can't be read: a sign that no token has, a line of a message file that is none, bytes that are not UTF-8.
pub const UNREADABLE: u8 = 30;
/// A comment or a text has no end.
pub const NO_END: u8 = 31;
/// A token can't stand here.
pub const UNEXPECTED: u8 = 32;
/// A word of CSPro's logic is left out.
pub const LEFT_OUT: u8 = 33;
/// Too many blocks are open.
pub const TOO_DEEP: u8 = 34;
/// A number is out of its range.
pub const OUT_OF_RANGE: u8 = 35;

// ---- names and kinds

/// A name is unknown, or means something else than what can stand here.
pub const UNKNOWN_NAME: u8 = 40;
/// An opaque item.
pub const OPAQUE_ITEM: u8 = 41;
/// A partial value set.
pub const PARTIAL_SET: u8 = 42;
/// An id item, which stays.
pub const ID_ITEM: u8 = 43;
/// Something of the other kind, or of another number.
pub const OTHER_KIND: u8 = 44;
/// A function is used before its end.
pub const BEFORE_ITS_END: u8 = 45;
/// A division that isn't the last operator within `int`.
pub const MISPLACED_DIVISION: u8 = 46;
/// The variable of an open loop.
pub const LOOP_VARIABLE: u8 = 47;
/// Other placeholders than values.
pub const OTHER_PLACEHOLDERS: u8 = 48;
/// What this place has no occurrence, no case or no loop for.
pub const UNUSABLE_HERE: u8 = 49;

// ---- the deck file

/// A line can't stand here.
pub const BAD_DECK_LINE: u8 = 50;
/// A value is unreadable or lacks.
pub const BAD_DECK_VALUE: u8 = 51;
/// An array has other sizes than the program's.
pub const OTHER_DECK_SIZES: u8 = 52;
/// An array is unknown, not saved, or comes twice.
pub const UNKNOWN_ARRAY: u8 = 53;

// ---- images; the bytes of an image have their own rules, 60 to 64

/// A text or a program is above its limit.
pub const TOO_LARGE: u8 = 64;

// ---- the verifier

/// A jump or a bracket breaks its rules.
pub const BAD_JUMP: u8 = 65;
/// No stack fits a place.
pub const NO_STACK: u8 = 66;
/// More steps than a routine, or the events of a case, may take.
pub const TOO_MANY_STEPS: u8 = 67;
/// The dictionary has another shape than the image.
pub const OTHER_SHAPE: u8 = 68;
/// A call, the edit order or an event doesn't fit.
pub const BAD_CALL: u8 = 69;

// ---- files, devices, memory

/// A file can't be read.
pub const READ_FAILED: u8 = 70;
/// An output can't be written.
pub const WRITE_FAILED: u8 = 71;
/// A file can't be opened.
pub const NOT_OPENED: u8 = 72;
/// There is not enough memory.
pub const WANT_OF_MEMORY: u8 = 90;

//! What is proved of room.

ghost use Rattle.cse_meaning.specs.Room.{LargeAlone};

/// A law: where a source is sound, and within the limits of tokens, routines, arrays, functions and messages, a program of
/// it has a spelling. So no source lacks room that is within them (`room`).
pub fn large_sources_alone_lack_room()
    ensures room { LargeAlone }
{}

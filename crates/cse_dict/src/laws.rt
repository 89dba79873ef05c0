//! Laws of the definitions.
ghost use Rattle.cse_dict.specs.Sound.{SoundWithoutFault};

/// A text of which no fault holds has a sound dictionary: its items, records and value sets keep to the rules
/// and fit together.
pub fn sound_without_fault()
    ensures { SoundWithoutFault }
{}

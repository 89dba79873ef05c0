//! What is proved of whole runs of logic.

ghost use Rattle.cse_dict.specs.Sound.{IsSound};
ghost use Rattle.cse_edit.specs.Images.{BuiltImagesMean};
ghost use Rattle.cse_edit.specs.Laws.{BatchesMean};

use cse_dict::Dictionary;
use cse_image::{Code, none_begins_another};
use cse_meaning::programs_mean;
use cse_steps::event_ends;
use cse_verify::Verified;

/// Hands on what a dictionary keeps to.
fn hand_on_sound(dictionary: &Dictionary)
    ensures { IsSound dictionary.now }
{
    dictionary.shape();
}

/// Law: the batch of a program that three texts are built to is what the logic means, folded over the data.
pub fn batches_mean<C: Code>(verified: &Verified<'_, C>)
    ensures { BatchesMean verified.now }
{
    programs_mean();
    event_ends(verified);
    none_begins_another();
    verified.program();
    hand_on_sound(verified.dictionary());
}

/// Law: bytes that `build` gave, which `check_image` accepts with the same dictionary, are run by `run` to the texts that
/// the logic means, or to fronts of these, from whatever store that fits, as one that is new or that a deck text says.
pub fn built_images_write_what_is_meant<C: Code>(verified: &Verified<'_, C>)
    ensures { BuiltImagesMean verified.now }
{
    batches_mean(verified);
}

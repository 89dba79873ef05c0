//! What is proved of compiled programs.

ghost use Rattle.cse_meaning.specs.Meant.{CompiledCodeMeans, MeansAlone, ProgramsEnd, ProgramsMean};

use cse_image::Code;
use cse_steps::event_ends;
use cse_verify::Verified;

/// Law: a verified program that is compiled from a sound source does what the source means: each event of the dictionary,
/// on whatever case and store fit, runs to its end and leaves the case, the store and the reports that the logic means.
pub fn compiled_code_means<C: Code>(verified: &Verified<'_, C>)
    ensures { CompiledCodeMeans verified.now }
{
    event_ends(verified);
    verified.program();
}

/// Law: an event runs to its end, within its bound, of any image that has a spelling, is typed for a sound dictionary and
/// bounded. It is what `cse_steps::event_ends` says, and asks for no value that `verify` gave.
pub fn programs_end()
    ensures { ProgramsEnd }
{}

/// Law: such an image that is compiled from a sound source does what the source means.
pub fn programs_mean()
    ensures { ProgramsMean }
{}

/// Law: where such an image merely does what a tree means, as is known of a source that was checked once, it does so: what
/// an event leaves is one thing.
pub fn means_alone()
    ensures { MeansAlone }
{}

//! What a run over files came to, with the files that it opened.

ghost use Rattle.std.specs.Prelude.{◌≡◌};
ghost use Rattle.cse_commands.specs.Counted.{counted};

use cse_batch::Totals;
use cse_command_parts::outcome::Stop;
use cse_files::{OpenedInput, OpenedOutput, Replaced, WholeFile};
use cse_value::Gathered;

/// What a run from a store came to, and the files that it opened: each tells its path, and what it gave or took.
#[derive(Drop)]
pub struct Ran<'a, F> {
    /// The totals and the gathered deck text, or why the run stopped.
    pub told: Result<(Totals, Gathered), Stop>,
    pub input: OpenedInput<'a, F>,
    pub out: OpenedOutput<'a, F>,
    pub listing: OpenedOutput<'a, F>,
    pub frequencies: OpenedOutput<'a, F>,
}

/// The same of a run that starts with what a deck file has.
#[derive(Drop)]
pub struct RanFrom<'a, F> {
    /// The deck file that was read, where it is named and there.
    pub decks: Option<WholeFile<'a, F>>,
    pub ran: Ran<'a, F>,
    /// The deck file that was written, if it is named; or why the command stopped.
    pub kept: Result<Option<Replaced<'a, F>>, Stop>,
}

/// The same of an image.
#[derive(Drop)]
pub struct RanImage<'a, F> {
    pub image: WholeFile<'a, F>,
    pub run: RanFrom<'a, F>,
}

/// The same with a dictionary.
#[derive(Drop)]
pub struct RanFiles<'a, F> {
    pub dict: WholeFile<'a, F>,
    pub program: RanImage<'a, F>,
}

impl<'a, F: Drop> RanFrom<'a, F> {
    /// What the run counted, or why the command stopped. The files are closed.
    pub fn into_totals(self) -> Result<Totals, Stop>
        ensures { result ≡ counted self.entry.kept self.entry.ran.told }
    {
        let RanFrom { kept, ran, .. } = self;
        match kept {
            Ok(_) => {}
            Err(stop) => return Err(stop),
        }
        let Ran { told, .. } = ran;
        match told {
            Ok((totals, _)) => Ok(totals),
            Err(stop) => Err(stop),
        }
    }
}

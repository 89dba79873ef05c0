//! Why an edit stops.

use cse_batch::RunFault;
use cse_decks::DeckError;
use cse_dict::DictError;
use cse_meaning::BuildFault;
use thiserror::Error;

/// Why an edit stops. A text is judged only where those before it are sound, in the order of these.
#[derive(Clone, Copy, Debug, PartialEq, Eq, Error)]
pub enum EditFault {
    /// The text is no dictionary (10 to 18), or memory ran out (90).
    #[error("{0}")]
    Dictionary(DictError),
    /// There is no image of the message file, the order file and the logic (30 to 49, 64, 67), or memory ran out (90).
    #[error("{0}")]
    Logic(BuildFault),
    /// The text of the hot decks is none of this logic (50 to 53).
    #[error("{0}")]
    Decks(DeckError),
    /// The run stopped (20 to 22, 70, 71, 90).
    #[error("{0}")]
    Run(RunFault),
    /// Want of memory, before the first byte of the data was read (90).
    #[error("out of memory")]
    Memory,
}

//! A machine runs the events of its program.

use crate::machine::Machine;
use cse_case::Case;
use cse_decks::Store;
use cse_image::{Code, Event};
use cse_report::Reports;
use cse_steps::handled::Handled;
use cse_steps::runs::Runs;
use cse_value::OutOfMemory;

impl<C: Code> Runs for Machine<'_, '_, C> {
    ghost program = { λ m. m };

    fn run_handled(
        &mut self,
        case: &mut Case<'_>,
        store: &mut Store,
        reports: &mut Reports,
        events: &[Handled],
        occurrence: u16,
    ) -> Result<(), OutOfMemory> {
        Machine::run_handled(self, case, store, reports, events, occurrence)
    }

    fn run_plain(
        &mut self,
        store: &mut Store,
        reports: &mut Reports,
        event: Event,
    ) -> Result<u64, OutOfMemory> {
        Machine::run_plain(self, store, reports, event)
    }
}

//! What a run reports: the listing of its messages and unseen lines, and how often values were imputed.
#![tactic(auto)]

mod argument;
mod counts;
mod fill;
mod frequencies;
mod laws;
mod lines;
mod listing;
mod reports;
mod spans;
mod summary;

pub use argument::Arg;
pub use frequencies::Frequencies;
pub use laws::{
    flush_between_changes_nothing, flushes_change_nothing, grows_at_its_end, imputes_all_values,
    lines_so_far, lists_all_reports, tables_count_the_run,
};
pub use listing::Listing;
pub use reports::Reports;

// Runs of places of any card: blocks that are put one behind the other, or got so, in one call.
#![tactic(auto)]

mod getting;
mod judging;
mod putting;

pub use getting::get_run;
pub use putting::{put_copies, put_run, put_run_down};

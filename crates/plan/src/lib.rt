// The plan of a write: its pages, data blocks and entities, and that following the pages gives the objects back.
#![tactic(auto)]

mod laws;
mod page;

pub use laws::{pages_follow, plans_stand};
pub use page::PlannedPage;

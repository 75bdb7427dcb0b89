// The pages of a block: MAP entries, lawful maps, and the call that hands out one page.
#![tactic(auto)]

mod entry;
mod laws;
mod map;
mod page;
mod page_type;

pub use entry::{ENTRY_LEN, Entry};
pub use laws::{entries_stand, maps_stand};
pub use map::MAX_FREE;
pub use page::{Page, page_at};
pub use page_type::PageType;

// Check codes: r check words for sixteen words of a column, and missing words rebuilt.
#![tactic(auto)]

mod column;
mod four_check;
mod laws;
mod meaning;
mod parity;
mod solve;

pub use four_check::FourCheck;
pub use laws::codes_stand;
pub use meaning::CheckCode;
pub use parity::Parity;

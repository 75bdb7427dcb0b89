// Columns of words in a work area of twenty blocks: check words made for all of them, and all of them rebuilt.
#![tactic(auto)]

mod make;
mod rebuild;
mod words;

pub use make::make_checks;
pub use refusal::WORK_LEN;

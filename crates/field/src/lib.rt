// Fields of words with exclusive-or as their sum: the trait with its laws, and the field of two-byte words.
#![tactic(auto)]

mod laws;
mod points;
mod product;
mod tables;
mod two_byte;

pub use laws::{Field, fields_stand};
pub use two_byte::TwoByte;

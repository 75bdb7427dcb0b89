// The check words behind a group of four words, from tables of products.
#![tactic(auto)]

mod group;
mod tables;

pub use group::next;

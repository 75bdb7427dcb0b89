// Tries every card against a plain model: the same script on each, everything compared after each step.
#![tactic(auto)]

mod above;
mod lent;
mod memories;
mod model;
mod script;
mod trial;

use std::io;

fn main(rt: HostRuntime) -> io::Result<()> {
    memories::strip(&rt)?;
    memories::no_rows(&rt)?;
    memories::four_track(&rt)?;
    memories::memory(&rt)?;
    above::skips(&rt)?;
    above::lists(&rt)?;
    above::runs(&rt)
}

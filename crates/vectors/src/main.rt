// Compares what the library answers with published values and with values worked out elsewhere.
#![tactic(auto)]

use std::io;

mod block_vectors;
mod crc_vectors;
mod filling;
mod page_vectors;
mod sound_vectors;
mod tally;

use tally::Tally;

fn main(rt: HostRuntime) -> io::Result<()> {
    let mut tally = Tally::new(&rt);
    crc_vectors::run(&mut tally)?;
    block_vectors::run(&mut tally)?;
    page_vectors::run(&mut tally)?;
    println!(rt; "{tally}")
}

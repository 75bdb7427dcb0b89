// One data block, made of the records of a line, sealed, judged, and read back page by page.
#![tactic(auto)]

use std::io;

mod lay;
mod laying;
mod records;
mod report;

use lay::lay;
use records::{Records, read_records};
use report::show;

// Each line of the input gives the records of one block.
fn main(rt: HostRuntime) -> io::Result<()> {
    for line in rt.lines(rt.alloc()) {
        let line = line?;
        let records = read_records(rt.alloc(), line.as_str())?;
        if records.count > 0 {
            one_block(&rt, &records)?;
        }
    }
    Ok(())
}

fn one_block(rt: &HostRuntime, records: &Records) -> io::Result<()> {
    println!(rt; "records {}", records.count)?;
    match &mut lay(&records.kept) {
        Ok(block) => show(rt, block, &records.kept),
        Err(why) => println!(rt; "error: {why}"),
    }
}

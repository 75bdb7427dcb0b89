// A trial of the check codes: outside vectors, every choice of missing words, falsified words, what lies behind.
#![tactic(auto)]

mod columns;
mod tries;

use codes::{CheckCode, FourCheck, Parity};
use columns::full_column;
use field::{Field, TwoByte};
use tries::Tries;

const MIXED: [u16; 16] = [
    0x0001, 0x8000, 0xFFFF, 0x1234, 0xABCD, 0x0002, 0x0003, 0x0004, 0x0005, 0x0006, 0x0007, 0x0008,
    0x0009, 0x000A, 0x000B, 0x000C,
];

const LAST_ONE: [u16; 16] = [0, 0, 0, 0, 0, 0, 0, 0, 0, 0, 0, 0, 0, 0, 0, 1];

fn main(rt: HostRuntime) -> Result<(), std::io::Error> {
    let word = TwoByte.product(0x8000, 0x0002);
    println!(rt; "8000h times 0002h: {word:04X}")?;
    let [a, b, c, d] = FourCheck.check_words(MIXED);
    println!(rt; "four-check words of the mixed column: {a:04X} {b:04X} {c:04X} {d:04X}")?;
    let [a, b, c, d] = FourCheck.check_words(LAST_ONE);
    println!(rt; "four-check words of fifteen zeros and 1: {a:04X} {b:04X} {c:04X} {d:04X}")?;
    let [a, b, c, d] = Parity.check_words(MIXED);
    println!(rt; "parity word of the mixed column: {a:04X}, then {b} {c} {d}")?;
    let four = tries::every_choice(&FourCheck, full_column(&FourCheck, MIXED), 1_048_576);
    report(rt, "four-check", four)?;
    let parity = tries::every_choice(&Parity, full_column(&Parity, MIXED), 131_072);
    report(rt, "parity", parity)?;
    let behind = tries::marked_behind(&Parity, full_column(&Parity, MIXED));
    println!(rt; "parity with marks and words behind the seventeen: {behind} of 17 rebuilt")
}

fn report(rt: HostRuntime, name: &str, tries: Tries) -> Result<(), std::io::Error> {
    let Tries {
        rebuilt,
        refused,
        many,
    } = tries;
    println!(rt;
        "{name}: {} rebuilt, {} otherwise",
        rebuilt.right, rebuilt.otherwise
    )?;
    println!(rt;
        "{name}: {} refused 13 with one word falsified, {} otherwise",
        refused.right, refused.otherwise
    )?;
    println!(rt;
        "{name}: {} refused 15 with their count, {} otherwise",
        many.right, many.otherwise
    )
}

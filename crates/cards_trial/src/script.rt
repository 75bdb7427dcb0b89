// The script of calls, and how a step and its answer are printed.
use cards::Kind;
use refusal::Refusal;
use std::{fmt, io};

// A step is data and no closure, since it is both done and printed.
#[derive(Clone, Copy)]
pub enum Step {
    Put { place: usize, seed: u8 },
    Strike { place: usize },
    Get { place: usize },
    // a put and a get with a buffer of another length
    Misput { place: usize, len: usize },
    Misget { place: usize, len: usize },
}

impl fmt::Display for Step {
    fn fmt<W: fmt::Write>(&self, f: &mut fmt::Formatter<W>) -> fmt::Result {
        match *self {
            Step::Put { place, seed } => write!(f, "put {place} seed {seed}"),
            Step::Strike { place } => write!(f, "strike {place}"),
            Step::Get { place } => write!(f, "get {place}"),
            Step::Misput { place, len } => write!(f, "put {place} of {len} bytes"),
            Step::Misget { place, len } => write!(f, "get {place} of {len} bytes"),
        }
    }
}

// The script, the same for each card.
pub const SCRIPT: [Step; 16] = [
    Step::Get { place: 0 },
    Step::Get { place: 1 },
    Step::Get { place: 2 },
    Step::Put { place: 0, seed: 11 },
    Step::Get { place: 0 },
    Step::Put { place: 2, seed: 22 },
    Step::Strike { place: 0 },
    Step::Get { place: 0 },
    Step::Put { place: 0, seed: 33 },
    Step::Put { place: 1, seed: 44 },
    Step::Strike { place: 2 },
    Step::Put { place: 7, seed: 55 },
    Step::Strike { place: 4 },
    Step::Get { place: 99 },
    Step::Misput {
        place: 99,
        len: 8255,
    },
    Step::Misget {
        place: 1,
        len: 8257,
    },
];

// Prints what a call answers: a kind, if it is a get.
pub fn say(rt: &HostRuntime, answer: Result<Option<Kind>, Refusal>) -> io::Result<()> {
    match answer {
        Ok(Some(kind)) => println!(rt; "{kind:?}"),
        Ok(None) => println!(rt; "granted"),
        Err(e) => println!(rt; "{e}"),
    }
}

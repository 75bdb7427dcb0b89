// The comparisons made so far, how many of them failed, and where they are printed.
ghost use Rattle.std.specs.Prelude.{◌≡◌, ◌==◌};
ghost use Rattle.vectors.specs.Counting.{more, wrong_after};

use std::{fmt, io};

// Each trial program counts for itself: a crate for two numbers would be longer than they are.
#[derive(Drop)]
pub struct Tally<'a> {
    rt: &'a HostRuntime,
    compared: u32,
    wrong: u32,
}

impl<'a> Tally<'a> {
    pub fn new(rt: &'a HostRuntime) -> Tally<'a>
        ensures compared { result.compared ≡ 0 }
        ensures wrong { result.wrong ≡ 0 }
    {
        Tally {
            rt,
            compared: 0,
            wrong: 0,
        }
    }

    // Counts one comparison.
    fn count(&mut self, right: bool)
        ensures compared { self.new.compared ≡ more self.old.compared }
        ensures wrong { self.new.wrong ≡ wrong_after self.old.wrong right }
    {
        self.compared = self.compared.saturating_add(1);
        if !right {
            self.wrong = self.wrong.saturating_add(1);
        }
    }

    // Counts the comparison of two numbers and prints it.
    pub fn compare<N: fmt::Display + Drop>(
        &mut self,
        name: N,
        found: u64,
        wanted: u64,
    ) -> io::Result<()>
        ensures compared { self.new.compared ≡ more self.old.compared }
        ensures wrong { self.new.wrong ≡ wrong_after self.old.wrong (found == wanted) }
    {
        let right = found == wanted;
        self.count(right);
        if right {
            println!(self.rt; "ok {name}: {found:016X}")
        } else {
            println!(self.rt; "MISMATCH {name}: {found:016X}, not {wanted:016X}")
        }
    }

    // Counts an answer that is as it should be, or is not, and prints its name.
    pub fn check<N: fmt::Display + Drop>(&mut self, name: N, right: bool) -> io::Result<()>
        ensures compared { self.new.compared ≡ more self.old.compared }
        ensures wrong { self.new.wrong ≡ wrong_after self.old.wrong right }
    {
        self.count(right);
        if right {
            println!(self.rt; "ok {name}")
        } else {
            println!(self.rt; "MISMATCH {name}")
        }
    }
}

impl fmt::Display for Tally<'_> {
    fn fmt<W: fmt::Write>(&self, f: &mut fmt::Formatter<W>) -> fmt::Result {
        let compared = self.compared;
        let wrong = self.wrong;
        write!(f, "{compared} compared, {wrong} mismatched")
    }
}

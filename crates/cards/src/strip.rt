// The strip card: its places lie in order in one lent memory.
ghost use Rattle.std.specs.Prelude.{◌≡◌, length};
ghost use Rattle.refusal.specs.Tells.{told};
ghost use Rattle.cards.specs.Calls.{get_answer, get_buffer, put_answer, put_contents, strike_answer, strike_contents};
ghost use Rattle.cards.specs.Rows.{rows, put_memory, strike_memory};
ghost use Rattle.cards.specs.Whole.{rows_whole};

use crate::rows::{get_row, put_row, row_count, strike_row};
use crate::{Card, Kind};
use refusal::Refusal;

// A type of its own: one over an array of memories, for this card and the four-track card, gets no proof yet.
#[derive(Drop)]
pub struct StripCard<'a> {
    mem: &'a mut [u8],
}

impl<'a> StripCard<'a> {
    // The card that lies in a memory, whatever that holds.
    pub fn new(mem: &'a mut [u8]) -> StripCard<'a>
        ensures memory { result.mem.now ≡ mem.old }
        ensures held { result.mem.ghost_name ≡ mem.entry.ghost_name }
    {
        StripCard { mem }
    }
}

impl Card for StripCard<'_> {
    ghost contents = { λ s. rows s.mem.now };

    ghost whole = { λ s. rows_whole s.mem.now };

    fn places(&self) -> usize {
        row_count(self.mem)
    }

    fn get(&self, place: usize, buf: &mut [u8]) -> Result<Kind, Refusal> {
        get_row(self.mem, place, buf)
    }

    fn put(&mut self, place: usize, block: &[u8]) -> Result<(), Refusal>
        ensures answer { told result ≡ put_answer (rows self.old.mem.now) place
            (length block.now) }
        ensures card { rows self.new.mem.now
            ≡ put_contents (rows self.old.mem.now) place block.now }
        ensures memory { self.new.mem.now
            ≡ put_memory self.old.mem.now place block.now }
        ensures held { self.new.mem.ghost_name ≡ self.old.mem.ghost_name }
    {
        put_row(self.mem, place, block)
    }

    fn strike(&mut self, place: usize) -> Result<(), Refusal>
        ensures answer { told result ≡ strike_answer (rows self.old.mem.now) place }
        ensures card { rows self.new.mem.now
            ≡ strike_contents (rows self.old.mem.now) place }
        ensures memory { self.new.mem.now ≡ strike_memory self.old.mem.now place }
        ensures held { self.new.mem.ghost_name ≡ self.old.mem.ghost_name }
    {
        strike_row(self.mem, place)
    }
}

// The four-track card: place i lies in memory i mod 4 at row i div 4.
ghost use Rattle.std.specs.Prelude.{◌≡◌, ◌*◌, ◌/◌, ◌%◌, ◌^◌, ◌<◌, ◌≤◌, [], ◌∷◌, length};
ghost use Rattle.refusal.specs.Tells.{told};
ghost use Rattle.cards.specs.Calls.{get_answer, get_buffer, put_answer, put_contents, strike_answer, strike_contents};
ghost use Rattle.cards.specs.Rows.{row_len};
ghost use Rattle.cards.specs.Tracks.{shortest, dealt, memory_of, put_memories, strike_memories};
ghost use Rattle.std.specs.Fn.{FnOnceReturnsAtMut};
ghost use Rattle.cards.specs.Memories.{HoldsTheSame, ChangesTrack, memories};
ghost use Rattle.cards.specs.Whole.{dealt-whole};

use crate::rows::{get_row, put_row, row_count, strike_row};
use crate::{Card, Kind, judge_call, judge_place};
use refusal::Refusal;

// Four fields and no array: a struct with an array of `&mut` slices gets no proof yet where it is handed over.
#[derive(Drop)]
pub struct FourTrackCard<'a> {
    first: &'a mut [u8],
    second: &'a mut [u8],
    third: &'a mut [u8],
    fourth: &'a mut [u8],
}

// The track of a place, from 0.
fn track_of(place: usize) -> usize
    ensures { result ≡ place % 4 }
{
    place % 4
}

// The row of a place on its track.
fn row_of(place: usize) -> usize
    ensures { result ≡ place / 4 }
{
    place / 4
}

impl<'a> FourTrackCard<'a> {
    // The card that lies in four memories, whatever they hold.
    pub fn new(
        first: &'a mut [u8],
        second: &'a mut [u8],
        third: &'a mut [u8],
        fourth: &'a mut [u8],
    ) -> FourTrackCard<'a>
        ensures memories { memories result
            ≡ first.old ∷ second.old ∷ third.old ∷ fourth.old ∷ [] }
        ensures held { (result.first.ghost_name ≡ first.entry.ghost_name)
            × (result.second.ghost_name ≡ second.entry.ghost_name)
            × (result.third.ghost_name ≡ third.entry.ghost_name)
            × (result.fourth.ghost_name ≡ fourth.entry.ghost_name) }
    {
        FourTrackCard {
            first,
            second,
            third,
            fourth,
        }
    }

    // The rows that all four memories have.
    fn rows(&self) -> usize
        ensures least { result ≡ shortest (memories self.now) }
        ensures small { result * row_len < 2 ^ 64 }
    {
        let front = row_count(self.first).min(row_count(self.second));
        let back = row_count(self.third).min(row_count(self.fourth));
        front.min(back)
    }

    // The memory of a track; by a match, since the four memories are fields.
    fn memory(&self, track: usize) -> &[u8]
        requires { track < 4 }
        ensures { result.now ≡ memory_of (memories self.now) track }
    {
        match track {
            0 => self.first,
            1 => self.second,
            2 => self.third,
            _ => self.fourth,
        }
    }

    // Makes a change in the memory of a track, found in the same way.
    fn change<F: FnOnce(&mut [u8]) -> Result<(), Refusal>>(
        &mut self,
        track: usize,
        f: F,
    ) -> Result<(), Refusal>
        requires track { track < 4 }
        requires callable { F.IsAlwaysCallable f }
        ensures memories { ChangesTrack (memories self.old) track (memories self.new)
            (FnOnceReturnsAtMut F.FnOnce f (memory_of (memories self.old) track) result) }
        ensures held { HoldsTheSame self.old self.new }
    {
        match track {
            0 => f(self.first),
            1 => f(self.second),
            2 => f(self.third),
            _ => f(self.fourth),
        }
    }
}

impl Card for FourTrackCard<'_> {
    ghost contents = { λ s. dealt (memories s) };

    ghost whole = { λ s. dealt-whole (memories s) };

    fn places(&self) -> usize {
        4 * self.rows()
    }

    fn get(&self, place: usize, buf: &mut [u8]) -> Result<Kind, Refusal> {
        judge_call(buf.len(), place, self.places())?;
        get_row(self.memory(track_of(place)), row_of(place), buf)
    }

    fn put(&mut self, place: usize, block: &[u8]) -> Result<(), Refusal>
        ensures answer { told result ≡ put_answer (dealt (memories self.old)) place
            (length block.now) }
        ensures card { dealt (memories self.new)
            ≡ put_contents (dealt (memories self.old)) place block.now }
        ensures memories { memories self.new
            ≡ put_memories (memories self.old) place block.now }
        ensures held { HoldsTheSame self.old self.new }
    {
        judge_call(block.len(), place, self.places())?;
        let row = row_of(place);
        self.change(track_of(place), |mem| put_row(mem, row, block))
    }

    fn strike(&mut self, place: usize) -> Result<(), Refusal>
        ensures answer { told result ≡ strike_answer (dealt (memories self.old)) place }
        ensures card { dealt (memories self.new)
            ≡ strike_contents (dealt (memories self.old)) place }
        ensures memories { memories self.new ≡ strike_memories (memories self.old) place }
        ensures held { HoldsTheSame self.old self.new }
    {
        judge_place(place, self.places())?;
        let row = row_of(place);
        self.change(track_of(place), |mem| strike_row(mem, row))
    }
}

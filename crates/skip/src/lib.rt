// The skip card: the places of any other card without the bad ones.
#![tactic(auto)]

mod list;
mod table;

ghost use Rattle.std.specs.Prelude.{◌≡◌, ◌+◌, ◌-◌, ◌^◌, ◌<◌, ◌≤◌, length, Ok};
ghost use Rattle.refusal.specs.Tells.{told};
ghost use Rattle.cards.specs.Calls.{get_answer, get_buffer, put_answer, put_contents, strike_answer, strike_contents};
ghost use Rattle.skip.specs.BadPlaces.{list_max, list_answer};
ghost use Rattle.skip.specs.Skipped.{stepped_over, unlisted, skipped, spared, put_below, strike_below, SkipsTheListed};
ghost use Rattle.skip.specs.Whole.{skipped-whole};

use cards::{Card, Kind, judge_call, judge_place};
pub use list::{LIST_MAX, judge_list, judgement_stands};
use refusal::Refusal;
use table::SkipTable;

#[derive(Drop)]
pub struct SkipCard<C> {
    card: C,
    bad: SkipTable,
    // The table's own bound, where proofs of other crates can read it.
    ghost few: { length bad ≤ list_max },
}

// The place, or the next one if a bad place is it or lies below it.
fn step_over(bad: usize, place: usize) -> usize
    requires { place + 1 < 2 ^ 64 }
    ensures { result ≡ stepped_over bad place }
{
    if bad <= place { place + 1 } else { place }
}

// The place of the card below that stands for a place of the skip card.
fn below(list: &[usize], place: usize) -> usize
    requires { place + length list.now < 2 ^ 64 }
    ensures { result ≡ unlisted list.now place }
{
    let mut at = place;
    for bad in list {
        at = step_over(*bad, at);
    }
    at
}

impl<C: Card> SkipCard<C> {
    // The card without the listed places. The list was judged before, so this cannot refuse.
    pub fn new(card: C, list: &[usize]) -> SkipCard<C>
        requires { list_answer (length (C.contents card)) list.now ≡ Ok tt }
        ensures card { result.card ≡ card }
        ensures list { result.bad ≡ list.now }
        ensures places { skipped result.bad (C.contents result.card)
            ≡ spared list.now (C.contents card) }
    {
        SkipCard {
            card,
            bad: SkipTable::new(list),
        }
    }

    // How many places are left.
    fn left(&self) -> usize
        ensures count { result ≡ length (C.contents self.now.card) - length self.now.bad }
        ensures small { 0 < result → result + length self.now.bad < 2 ^ 64 }
    {
        self.card.places().saturating_sub(self.bad.list().len())
    }
}

impl<C: Card> Card for SkipCard<C> {
    ghost contents = { λ s. skipped s.bad (C.Card.contents s.card) };

    ghost whole = { λ s. skipped-whole s.bad (C.Card.contents s.card)
        (C.Card.whole s.card) };

    fn places(&self) -> usize {
        self.left()
    }

    fn get(&self, place: usize, buf: &mut [u8]) -> Result<Kind, Refusal> {
        judge_call(buf.len(), place, self.left())?;
        let at = below(self.bad.list(), place);
        self.card.get(at, buf)
    }

    fn put(&mut self, place: usize, block: &[u8]) -> Result<(), Refusal>
        ensures answer { told result ≡ put_answer
            (skipped self.old.bad
            (C.contents self.old.card)) place (length block.now) }
        ensures card { skipped self.new.bad
            (C.contents self.new.card)
            ≡ put_contents (skipped self.old.bad
            (C.contents self.old.card)) place block.now }
        ensures under { C.contents self.new.card
            ≡ put_below self.old.bad
            (C.contents self.old.card) place block.now }
        ensures list { self.new.bad ≡ self.old.bad }
    {
        judge_call(block.len(), place, self.left())?;
        let at = below(self.bad.list(), place);
        self.card.put(at, block)
    }

    fn strike(&mut self, place: usize) -> Result<(), Refusal>
        ensures answer { told result ≡ strike_answer
            (skipped self.old.bad
            (C.contents self.old.card)) place }
        ensures card { skipped self.new.bad
            (C.contents self.new.card)
            ≡ strike_contents (skipped self.old.bad
            (C.contents self.old.card)) place }
        ensures under { C.contents self.new.card
            ≡ strike_below self.old.bad
            (C.contents self.old.card) place }
        ensures list { self.new.bad ≡ self.old.bad }
    {
        judge_place(place, self.left())?;
        let at = below(self.bad.list(), place);
        self.card.strike(at)
    }
}

// The law of the places that a skip card has.
pub fn skipping_stands()
    ensures { SkipsTheListed }
{}

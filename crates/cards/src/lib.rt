// A card is all that the layers above know of a medium: places that each hold a content.
#![tactic(auto)]

mod laws;
mod rows;
mod strip;
mod tracks;

ghost use Rattle.std.specs.Prelude.{◌≡◌, List, length};
ghost use Rattle.refusal.specs.Tells.{told};
ghost use Rattle.cards.specs.Content.{Content, Whole};
ghost use Rattle.cards.specs.Calls.{judged, judged_place};
ghost use Rattle.cards.specs.Calls.{get_answer, get_buffer, put_answer, put_contents, strike_answer, strike_contents};

pub use laws::{calls_stand, memories_stand};
pub use refusal::BLOCK_LEN;
use refusal::{Refusal, check_length};
pub use strip::StripCard;
pub use tracks::FourTrackCard;

// What a place holds, without the block's bytes.
#[derive(Clone, Copy, PartialEq, Eq, Debug)]
pub enum Kind {
    // nothing was put there
    Blank,
    // what was put can no longer be read
    Lost,
    // a block stands there
    Block,
}

pub trait Card {
    // the contents of the places 0, 1, 2 and on; their number never changes
    ghost contents: { Self → List Content };

    // every block has the bytes of a block
    ghost whole: { (s : Self) → Whole (contents s) };

    // The number of places.
    fn places(&self) -> usize
        ensures { result ≡ length (contents self.now) };

    // Answers the content of a place, and copies the block to the buffer, or zeros.
    fn get(&self, place: usize, buf: &mut [u8]) -> Result<Kind, Refusal>
        ensures answer { told result ≡ get_answer (contents self.now) place (length buf.old) }
        ensures buffer { buf.new ≡ get_buffer (contents self.now) place buf.old };

    // Gives a place a block.
    fn put(&mut self, place: usize, block: &[u8]) -> Result<(), Refusal>
        ensures answer { told result ≡ put_answer (contents self.old) place
            (length block.now) }
        ensures card { contents self.new
            ≡ put_contents (contents self.old) place block.now };

    // Makes a place lost.
    fn strike(&mut self, place: usize) -> Result<(), Refusal>
        ensures answer { told result ≡ strike_answer (contents self.old) place }
        ensures card { contents self.new ≡ strike_contents (contents self.old) place };
}

// Refuses a place that a card of so many places does not have.
pub fn judge_place(place: usize, places: usize) -> Result<(), Refusal>
    ensures { told result ≡ judged_place places place }
{
    if place < places {
        Ok(())
    } else {
        Err(Refusal::NoSuchPlace(place))
    }
}

// Refuses a buffer of another length than a block's, and then a place as above.
pub fn judge_call(len: usize, place: usize, places: usize) -> Result<(), Refusal>
    ensures { told result ≡ judged len places place }
{
    check_length(len, BLOCK_LEN)?;
    judge_place(place, places)
}

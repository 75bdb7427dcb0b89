// Cards for the length of one call, over a memory that is lent for it: what the lender finds after.
ghost use Rattle.std.specs.Prelude.{◌≡◌, length};
ghost use Rattle.refusal.specs.Tells.{told};
ghost use Rattle.cards.specs.Calls.{judged, judged_place};
ghost use Rattle.cards.specs.Rows.{row_count, put_memory, strike_memory};

use cards::{Card, StripCard};
use refusal::Refusal;

// Puts a block into a memory.
pub fn put_into(mem: &mut [u8], place: usize, body: &[u8])
    ensures { mem.new ≡ put_memory mem.old place body.now }
{
    let mut card = StripCard::new(mem);
    let _ = card.put(place, body);
}

// Strikes a place of a memory.
pub fn strike_in(mem: &mut [u8], place: usize)
    ensures { mem.new ≡ strike_memory mem.old place }
{
    let mut card = StripCard::new(mem);
    let _ = card.strike(place);
}

// The list of bad places that a skip card is made with: the checking call that comes before the making.
ghost use Rattle.std.specs.Prelude.{◌≡◌, length};
ghost use Rattle.refusal.specs.Tells.{told};
ghost use Rattle.skip.specs.BadPlaces.{list_answer, GrantsLawfulLists};

use cards::Card;
use refusal::Refusal;

// As many bad places as a list may name.
pub const LIST_MAX: usize = 64;

// Refuses a list that is too long, and then one with an entry that is not below the number of places and above
// the entry before it, by the index of the first.
fn judge_entries(list: &[usize], places: usize) -> Result<(), Refusal>
    ensures { told result ≡ list_answer places list.now }
{
    if list.len() > LIST_MAX {
        return Err(Refusal::BadList(LIST_MAX));
    }
    let mut least = 0;
    for (index, place) in list.iter().enumerate() {
        if *place < least || *place >= places {
            return Err(Refusal::BadList(index));
        }
        least = *place + 1;
    }
    Ok(())
}

// Judges the bad places of a card: a list that this grants makes a skip card.
pub fn judge_list<C: Card>(card: &C, list: &[usize]) -> Result<(), Refusal>
    ensures { told result ≡ list_answer (length (C.contents card.now)) list.now }
{
    judge_entries(list, card.places())
}

// The law of the judgement.
pub fn judgement_stands()
    ensures { GrantsLawfulLists }
{}

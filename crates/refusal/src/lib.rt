// The refusals of the box: one enum for every layer, each case with its number and values.
#![tactic(auto)]

ghost use Rattle.std.specs.Prelude.{◌≡◌, Some};
ghost use Rattle.refusal.specs.Tells.{number_of};
ghost use Rattle.refusal.specs.Shown.{text};

mod lengths;

pub use lengths::{BLOCK_LEN, WORK_LEN, check_length, exactly};
use std::error::Error;
use std::fmt;

// Why a call is refused. A refusal has a number from 1 to 15, and values that say what was wrong.
#[derive(Clone, Copy, PartialEq, Eq, Debug)]
pub enum Refusal {
    // 1: a buffer or work area has this length, and the call wants another.
    WrongLength(usize),
    // 2: the card has no such place.
    NoSuchPlace(usize),
    // 3: a card of so many places cannot be formatted.
    WrongCardSize(usize),
    // 4: the hold of this number stands.
    HoldStands(u32),
    // 5: every hold number has been granted.
    HoldsSpent,
    // 6: the hold shown has this number and does not stand.
    NotStanding(u32),
    // 7: a list is refused at this index, from 0.
    BadList(usize),
    // 8: a write would take so many data blocks.
    TooManyBlocks(usize),
    // 9: the places needed and the places left; one tuple, as the step that plans answers them.
    NoRoom((usize, usize)),
    // 10: there is no page or object of this number.
    NoSuchNumber(usize),
    // 11: the record has this length, and the buffer is shorter.
    ShortBuffer(usize),
    // 12: an entity has too many places that do not fit; this is the lowest.
    Ruined {
        envelope: usize,
        entity: usize,
        place: usize,
    },
    // 13: no right column agrees with this word of an entity.
    NoColumn {
        envelope: usize,
        entity: usize,
        word: usize,
    },
    // 14: the map of a block, or what it continues, is not lawful.
    Unlawful {
        envelope: usize,
        entity: usize,
        block: usize,
    },
    // 15: so many words of a column are missing.
    TooManyMissing(usize),
}

impl Refusal {
    // The number of the refusal, from 1 to 15: what the box's users and its documents call it by.
    pub fn number(self) -> u8
        ensures { result ≡ number_of self }
    {
        match self {
            Refusal::WrongLength(_) => 1,
            Refusal::NoSuchPlace(_) => 2,
            Refusal::WrongCardSize(_) => 3,
            Refusal::HoldStands(_) => 4,
            Refusal::HoldsSpent => 5,
            Refusal::NotStanding(_) => 6,
            Refusal::BadList(_) => 7,
            Refusal::TooManyBlocks(_) => 8,
            Refusal::NoRoom(_) => 9,
            Refusal::NoSuchNumber(_) => 10,
            Refusal::ShortBuffer(_) => 11,
            Refusal::Ruined { .. } => 12,
            Refusal::NoColumn { .. } => 13,
            Refusal::Unlawful { .. } => 14,
            Refusal::TooManyMissing(_) => 15,
        }
    }
}

// `refused`, the number, and the values by name.
impl fmt::Display for Refusal {
    ghost output = { λ e. Some (text e) };

    // One case for each refusal.
    fn fmt<W: fmt::Write>(&self, f: &mut fmt::Formatter<W>) -> fmt::Result {
        match *self {
            Refusal::WrongLength(n) => write!(f, "refused 1 length {n}"),
            Refusal::NoSuchPlace(n) => write!(f, "refused 2 place {n}"),
            Refusal::WrongCardSize(n) => write!(f, "refused 3 places {n}"),
            Refusal::HoldStands(n) => write!(f, "refused 4 hold {n}"),
            Refusal::HoldsSpent => write!(f, "refused 5"),
            Refusal::NotStanding(n) => write!(f, "refused 6 hold {n}"),
            Refusal::BadList(n) => write!(f, "refused 7 index {n}"),
            Refusal::TooManyBlocks(n) => write!(f, "refused 8 blocks {n}"),
            Refusal::NoRoom((needed, left)) => write!(f, "refused 9 needed {needed} left {left}"),
            Refusal::NoSuchNumber(n) => write!(f, "refused 10 number {n}"),
            Refusal::ShortBuffer(n) => write!(f, "refused 11 length {n}"),
            Refusal::Ruined {
                envelope,
                entity,
                place,
            } => {
                write!(
                    f,
                    "refused 12 envelope {envelope} entity {entity} place {place}"
                )
            }
            Refusal::NoColumn {
                envelope,
                entity,
                word,
            } => {
                write!(
                    f,
                    "refused 13 envelope {envelope} entity {entity} word {word}"
                )
            }
            Refusal::Unlawful {
                envelope,
                entity,
                block,
            } => {
                write!(
                    f,
                    "refused 14 envelope {envelope} entity {entity} block {block}"
                )
            }
            Refusal::TooManyMissing(n) => write!(f, "refused 15 count {n}"),
        }
    }
}

impl Error for Refusal {}

// The plain model of a card: what each place holds, a block by the seed that its bytes are made from.
use cards::{BLOCK_LEN, Kind};
use refusal::Refusal;
use std::array;

// The most places that a model has.
const MOST: usize = 16;

#[derive(Clone, Copy, Debug, PartialEq, Eq)]
pub enum Held {
    Blank,
    Lost,
    Block(u8),
}

// What each place holds, from the front; nothing behind the last place. No heap, as the cards need none.
#[derive(Clone, Copy)]
pub struct Model {
    held: [Option<Held>; MOST],
}

// The byte at an index of the block that a seed makes.
pub fn block_byte(seed: u8, index: usize) -> u8 {
    seed.wrapping_add((index % 251) as u8)
}

// The block of a seed.
pub fn block(seed: u8) -> [u8; BLOCK_LEN] {
    array::from_fn(|index| block_byte(seed, index))
}

// Whether all bytes have one value.
pub fn all_are(value: u8, bytes: &[u8]) -> bool {
    bytes.iter().all(|byte| *byte == value)
}

impl Held {
    // What a get copies of the content.
    pub fn bytes(self) -> [u8; BLOCK_LEN] {
        match self {
            Held::Blank | Held::Lost => [0; BLOCK_LEN],
            Held::Block(seed) => block(seed),
        }
    }
}

// What a get answers of a content.
impl From<Held> for Kind {
    fn from(held: Held) -> Kind {
        match held {
            Held::Blank => Kind::Blank,
            Held::Lost => Kind::Lost,
            Held::Block(_) => Kind::Block,
        }
    }
}

impl Model {
    // A model of places that hold this.
    pub fn new(held: &[Held]) -> Model {
        Model {
            held: array::from_fn(|place| held.get(place).copied()),
        }
    }

    pub fn places(&self) -> usize {
        self.held.iter().flatten().count()
    }

    // What a place holds, if there is one.
    pub fn at(&self, place: usize) -> Option<Held> {
        *self.held.get(place)?
    }

    pub fn hold(&mut self, place: usize, held: Held) {
        if let Some(Some(at)) = self.held.get_mut(place) {
            *at = held;
        }
    }

    // The refusal that a call should have, for a buffer of this length.
    pub fn judge(&self, place: usize, len: usize) -> Result<(), Refusal> {
        if len != BLOCK_LEN {
            return Err(Refusal::WrongLength(len));
        }
        if place >= self.places() {
            return Err(Refusal::NoSuchPlace(place));
        }
        Ok(())
    }

    // The model without the listed places.
    pub fn without(&self, list: &[usize]) -> Model {
        let mut left = Model::new(&[]);
        let kept = self
            .held
            .iter()
            .enumerate()
            .filter(|(place, _)| !list.contains(place));
        for (at, (_, held)) in left.held.iter_mut().zip(kept) {
            *at = *held;
        }
        left
    }
}

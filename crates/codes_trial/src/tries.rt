// Rebuilding over every choice of missing positions, counted by what came of it.
use crate::columns::{marks_of, spoiled};
use codes::CheckCode;
use refusal::Refusal;
use std::array;

// How often a kind of try came out right, and how often not.
#[derive(Clone, Copy, Default)]
pub struct Tally {
    pub right: u32,
    pub otherwise: u32,
}

impl Tally {
    fn count(&mut self, right: bool) {
        let counter = if right {
            &mut self.right
        } else {
            &mut self.otherwise
        };
        *counter = counter.saturating_add(1);
    }
}

// The tries that are to rebuild the column, to be refused 13, and to be refused 15.
#[derive(Clone, Copy, Default)]
pub struct Tries {
    pub rebuilt: Tally,
    pub refused: Tally,
    pub many: Tally,
}

// Tries every choice of missing positions whose bits are below `choices`.
pub fn every_choice<K: CheckCode>(code: &K, column: [u16; 20], choices: u32) -> Tries {
    let mut tries = Tries::default();
    // The number itself is the choice.
    for bits in 0..choices {
        one_choice(code, column, bits, &mut tries);
    }
    tries
}

// One choice below 2 to the power 20. Flags are compared before words, here and below: comparing pairs whole takes
// twice the time of the program.
fn one_choice<K: CheckCode>(code: &K, column: [u16; 20], bits: u32, tries: &mut Tries) {
    let marks = marks_of(bits);
    let missing = bits.count_ones() as usize;
    if missing > code.r() {
        let (words, flag) = code.rebuild(column, marks);
        let counted = matches!(flag, Err(Refusal::TooManyMissing(count)) if count == missing);
        tries.many.count(counted && words == [0; 20]);
        return;
    }
    let (words, flag) = code.rebuild(spoiled(column, marks), marks);
    tries.rebuilt.count(flag.is_ok() && words == column);
    if missing < code.r() {
        falsify_each(code, spoiled(column, marks), marks, &mut tries.refused);
    }
}

// Each position that is not missing is falsified in turn: 13 and twenty zeros are to come.
fn falsify_each<K: CheckCode>(code: &K, column: [u16; 20], marks: [bool; 20], refused: &mut Tally) {
    let nowhere = Refusal::NoColumn {
        envelope: 0,
        entity: 0,
        word: 0,
    };
    for (i, missing) in marks.iter().enumerate() {
        if i < 16 + code.r() && !*missing {
            let mut wrong = column;
            wrong[i] ^= 0x0100;
            let (words, flag) = code.rebuild(wrong, marks);
            refused.count(flag == Err(nowhere) && words == [0; 20]);
        }
    }
}

// How many of the first seventeen positions come back when all that lies behind them is marked and has other words.
pub fn marked_behind<K: CheckCode>(code: &K, column: [u16; 20]) -> usize {
    (0..17).filter(|i| comes_back(code, column, *i)).count()
}

fn comes_back<K: CheckCode>(code: &K, column: [u16; 20], i: usize) -> bool {
    let marks = array::from_fn(|k| k == i || k >= 17);
    let mut wrong = spoiled(column, marks);
    wrong[17..].fill(0xFFFF);
    let (words, flag) = code.rebuild(wrong, marks);
    flag.is_ok() && words == column
}

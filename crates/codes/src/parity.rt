// The parity code: one check word, the exclusive-or of the sixteen.
ghost use Rattle.std.specs.Prelude.{◌≡◌, length, slice_index};
ghost use Rattle.field.specs.Sums.{total};
ghost use Rattle.codes.specs.TwoCodes.{parity};
ghost use Rattle.codes.specs.Solutions;
ghost use Rattle.codes.specs.BothSolve.{parity_solves};

use crate::column::{blanked, count_missing};
use crate::meaning::CheckCode;
use crate::solve::filled_in;
use field::TwoByte;

#[derive(Clone, Copy)]
pub struct Parity;

impl CheckCode for Parity {
    ghost code = { λ _. parity };

    ghost lawful = { λ k. Solutions.lawful parity parity_solves };

    fn r(&self) -> usize {
        1
    }

    #[tactic(auto, unfolding(crate::specs::TwoCodes::parity_word))]
    fn check_words(&self, words: [u16; 16]) -> [u16; 4] {
        [xor(&words), 0, 0, 0]
    }

    fn fill(&self, column: [u16; 20], marks: [bool; 20]) -> [u16; 20] {
        let blank = blanked(&column, &marks, 17);
        if count_missing(&marks, 17) == 0 {
            return blank;
        }
        filled_in(&TwoByte, 1, &blank, &marks, &[xor(&blank[..17]), 0, 0, 0])
    }
}

// The exclusive-or of the words.
fn xor(words: &[u16]) -> u16
    ensures { result ≡ total (λ i. slice_index words.now i) (length words.now) }
{
    words.iter().fold(0, |all, word| all ^ word)
}

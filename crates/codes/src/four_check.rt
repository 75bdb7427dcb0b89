// The four-check code: four check words that make four sums over the two-byte field zero.
ghost use Rattle.std.specs.Prelude.{◌≡◌, ℕ, ◌+◌, ◌<◌, bit_xor, take, slice_index};
ghost use Rattle.field.specs.Polynomials.{word_product};
ghost use Rattle.field.specs.Sums.{total, weighted};
ghost use Rattle.codes.specs.TwoCodes.{four_check};
ghost use Rattle.codes.specs.Solutions;
ghost use Rattle.codes.specs.BothSolve.{four_solves};

use crate::column::{blanked, count_missing, split};
use crate::meaning::CheckCode;
use crate::solve::filled_in;
use check_groups::next;
use field::{Field, TwoByte};
use std::array;

#[derive(Clone, Copy)]
pub struct FourCheck;

impl CheckCode for FourCheck {
    ghost code = { λ _. four_check };

    ghost lawful = { λ k. Solutions.lawful four_check four_solves };

    fn r(&self) -> usize {
        4
    }

    fn check_words(&self, words: [u16; 16]) -> [u16; 4] {
        four_checks(words)
    }

    fn fill(&self, column: [u16; 20], marks: [bool; 20]) -> [u16; 20] {
        let blank = blanked(&column, &marks, 20);
        if count_missing(&marks, 20) == 0 {
            return blank;
        }
        filled_in(&TwoByte, 4, &blank, &marks, &four_sums(&blank))
    }
}

// The check words, group by group: those of the groups so far are carried into the next group.
fn four_checks(words: [u16; 16]) -> [u16; 4]
    ensures { result ≡ four_check.checks words }
{
    let mut state = [0; 4];
    let (groups, _) = words.as_chunks::<4>();
    for group in groups {
        // In two steps: the check doesn't cover a call whose argument and result are the same array.
        let behind = next(state, *group);
        state = behind;
    }
    state
}

// 0002h to the powers of j times 16 to 19, for j from 0 to 3.
const TAILS: [[u16; 4]; 4] = [
    [0x0001, 0x0001, 0x0001, 0x0001],
    [0x100B, 0x2016, 0x402C, 0x8058],
    [0x1BFE, 0x6FF8, 0xAFEB, 0x9FBA],
    [0x4C35, 0x41BE, 0x2DE6, 0x7F3B],
];

// The four sums of a column. The sixteen words in front count as much as their check words would.
fn four_sums(column: &[u16; 20]) -> [u16; 4]
    ensures { (j : ℕ) → j < 4 → slice_index result j ≡ weighted word_product 2 20 j (λ i. slice_index column.now i) }
{
    let apart = apart(column);
    array::from_fn(|j| combined(&TAILS[j], &apart))
}

// By what the words behind the sixteen differ from their check words.
fn apart(column: &[u16; 20]) -> [u16; 4]
    ensures { (q : ℕ) → q < 4 → slice_index result q
        ≡ bit_xor (slice_index (four_check.checks (take 16 column.now)) q) (slice_index column.now (16 + q)) }
{
    let (front, tail) = split(column);
    let made = four_checks(front);
    array::from_fn(|q| made[q] ^ tail[q])
}

// The sum of four words, each times its number in the row.
fn combined(row: &[u16; 4], words: &[u16; 4]) -> u16
    ensures { result ≡ total (λ i. word_product (slice_index row.now i) (slice_index words.now i)) 4 }
{
    row.iter().zip(words).fold(
        0,
        |sum, (number, word)| sum ^ TwoByte.product(*number, *word),
    )
}

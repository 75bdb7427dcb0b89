// Words and columns of a work area.
ghost use Rattle.std.specs.Prelude.{◌≡◌, ◌≢◌, ℕ, ◌+◌, ◌*◌, ◌/◌, ◌%◌, ◌<◌, ◌≤◌, false, length, take, slice_index, slice_set};
ghost use Rattle.columns.specs.Columns.{word_at, column, is_under};

use refusal::{BLOCK_LEN, WORK_LEN};
use std::array;

// The words of a block that check words cover.
pub(crate) const WORDS: usize = 4114;

// The numbers of a position and of a column are plain numbers with bounds in each contract of this crate: types of
// their own would be made and taken apart again at every call.

// Word c of the block at position i, low byte first.
fn word(work: &[u8; WORK_LEN], i: usize, c: usize) -> u16
    requires block { i < 20 }
    requires word { c < 4114 }
    ensures { result ≡ word_at work.now i c }
{
    let at = i * BLOCK_LEN + 2 * c;
    u16::from_le_bytes([work[at], work[at + 1]])
}

// Writes word c of the block at position i, low byte first.
fn put_word(work: &mut [u8; WORK_LEN], i: usize, c: usize, word: u16)
    requires block { i < 20 }
    requires word { c < 4114 }
    ensures { let at = i * 8256 + 2 * c in
        work.new ≡ slice_set (slice_set work.old at (word % 256)) (at + 1) (word / 256) }
{
    let at = i * BLOCK_LEN + 2 * c;
    // Two assignments: a copy to a range of two would be no plainer.
    let [low, high] = word.to_le_bytes();
    work[at] = low;
    work[at + 1] = high;
}

// Writes words down column c, from the block at position `first` on.
pub(crate) fn put_words(work: &mut [u8; WORK_LEN], first: usize, c: usize, words: &[u16])
    requires within { c < 4114 }
    requires few { first + length words.now ≤ 20 }
    ensures here { (j : ℕ) → j < length words.now → word_at work.new (first + j) c ≡ slice_index words.now j }
    ensures elsewhere { (i k : ℕ) → k < 4114 → k ≢ c → word_at work.new i k ≡ word_at work.old i k }
    ensures others { (q : ℕ) → is_under first (length words.now) q ≡ false
        → slice_index work.new q ≡ slice_index work.old q }
{
    for (j, word) in words.iter().enumerate() {
        put_word(work, first + j, c, *word);
    }
}

// The first N words of column c.
pub(crate) fn words_at<const N: usize>(work: &[u8; WORK_LEN], c: usize) -> [u16; N]
    requires few { N ≤ 20 }
    requires within { c < 4114 }
    ensures { result ≡ take N (column work.now c) }
{
    array::from_fn(|i| word(work, i, c))
}

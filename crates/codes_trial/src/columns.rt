// Columns made of sixteen words, and marks made of the bits of a number.
use codes::CheckCode;
use std::array;

// The sixteen words and their check words, and zeros up to twenty.
pub fn full_column<K: CheckCode>(code: &K, words: [u16; 16]) -> [u16; 20] {
    let mut column = [0; 20];
    column[..16].copy_from_slice(&words);
    column[16..].copy_from_slice(&code.check_words(words));
    column
}

// Position i is missing where bit i is set.
pub fn marks_of(bits: u32) -> [bool; 20] {
    array::from_fn(|i| bits >> i & 1 == 1)
}

// The column with other words where one is missing.
pub fn spoiled(column: [u16; 20], marks: [bool; 20]) -> [u16; 20] {
    array::from_fn(|i| if marks[i] {
        column[i] ^ 0xDEAD
    } else {
        column[i]
    })
}

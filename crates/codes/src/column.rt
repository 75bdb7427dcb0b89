// Parts of a column, and the marks of its missing words.
ghost use Rattle.std.specs.Prelude.{◌≡◌, ◌≤◌, take, drop};
ghost use Rattle.codes.specs.Filling.{Blanked, missing_count};

use std::array;

// How many of the first n words are missing. A loop, since `filter` and `count` compile to ten times the time.
pub(crate) fn count_missing(marks: &[bool; 20], n: usize) -> usize
    requires { n ≤ 20 }
    ensures { result ≡ missing_count marks.now n }
{
    let mut count = 0;
    for missing in &marks[..n] {
        if *missing {
            count += 1;
        }
    }
    count
}

// The first n words with zeros for the missing ones, and zeros behind them.
pub(crate) fn blanked(column: &[u16; 20], marks: &[bool; 20], n: usize) -> [u16; 20]
    ensures { Blanked column.now marks.now n result }
{
    array::from_fn(|i| if i < n && !marks[i] { column[i] } else { 0 })
}

// The sixteen words in front of the check words, and the four behind them.
pub(crate) fn split(column: &[u16; 20]) -> ([u16; 16], [u16; 4])
    ensures front { result.0 ≡ take 16 column.now }
    ensures tail { result.1 ≡ drop 16 column.now }
{
    let (front, tail) = column.split_at(16);
    (front.try_into().unwrap(), tail.try_into().unwrap())
}

// The trait of check codes: what a code means, its law, and its calls.
ghost use Rattle.std.specs.Prelude.{◌≡◌};
ghost use Rattle.refusal.specs.Tells.{told};
ghost use Rattle.codes.specs.Code.{Code, Lawful, check_four};
ghost use Rattle.codes.specs.Rebuild.{Settles, rebuilt};
ghost use Rattle.codes.specs.Filling.{Filled};

use crate::column::{count_missing, split};
use refusal::Refusal;

pub trait CheckCode {
    ghost code: { Self → Code };

    // The number of check words.
    fn r(&self) -> usize
        ensures { result ≡ (code self.now).r };

    // The check words of sixteen words, and zeros up to four: an array, since a column goes by value, and its marks
    // beside it, in every call here.
    fn check_words(&self, words: [u16; 16]) -> [u16; 4]
        ensures { result ≡ check_four (code self.now) words };

    // The column with each missing word as it must be, if at most r are missing and there is a right column at all.
    // Rebuild checks that there is.
    fn fill(&self, column: [u16; 20], marks: [bool; 20]) -> [u16; 20]
        ensures { Filled (code self.now) column marks result };

    // The right column that agrees with the words not marked missing, and the flag beside it.
    // Twenty zeros stand beside a refusal: a tuple and no `Result`, since the array is fixed in both cases.
    fn rebuild(&self, column: [u16; 20], marks: [bool; 20]) -> ([u16; 20], Result<(), Refusal>)
        ensures words { result.0 ≡ (rebuilt (code self.now) column marks).0 }
        ensures flag { told result.1 ≡ (rebuilt (code self.now) column marks).1 }
        ensures settles { Settles (code self.now) column marks (result.0, told result.1) }
    {
        let r = self.r();
        let count = count_missing(&marks, 16 + r);
        if count > r {
            return ([0; 20], Err(Refusal::TooManyMissing(count)));
        }
        let filled = self.fill(column, marks);
        let (front, tail) = split(&filled);
        if self.check_words(front) == tail {
            return (filled, Ok(()));
        }
        // Zeros: the refusal has these values in every layer, and this one knows no entity.
        let nowhere = Refusal::NoColumn {
            envelope: 0,
            entity: 0,
            word: 0,
        };
        ([0; 20], Err(nowhere))
    }

    ghost lawful: { (k : Self) → Lawful (code k) };
}

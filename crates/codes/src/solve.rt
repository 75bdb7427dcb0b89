// Missing words from the sums of a column, over any field. Position i of a column has the point 2 to the power i.
ghost use Rattle.std.specs.Prelude.{◌≡◌, ℕ, ◌+◌, ◌^◌, ◌<◌, ◌≤◌, true, false, slice_index, slice_index_or};
ghost use Rattle.codes.specs.Filling.{FillsIn, MissingWord, SumsOf, taken_out};

use field::Field;
use std::array;

// The blank column with each missing word as its sums ask for it; `totals` are the sums of the blank column.
// The field, r, totals and marks are parameters: as a struct's fields they would make each clause here longer.
pub(crate) fn filled_in<F: Field>(
    field: &F,
    r: usize,
    blank: &[u16; 20],
    marks: &[bool; 20],
    totals: &[u16; 4],
) -> [u16; 20]
    requires few { r ≤ 4 }
    requires fits { (k : ℕ) → k < 16 + r → slice_index blank.now k < 2 ^ (F.Field.means field.now).wide }
    requires zeros { (k : ℕ) → k < 16 + r → slice_index_or marks.now k false ≡ true → slice_index blank.now k ≡ 0 }
    requires sums { SumsOf (F.Field.means field.now) r blank.now totals.now }
    ensures { FillsIn (F.Field.means field.now) r blank.now marks.now result }
{
    array::from_fn(|k| {
        if k < 16 + r && marks[k] {
            missing_word(field, r, totals, marks, k)
        } else {
            blank[k]
        }
    })
}

// The word at one missing position: the other missing positions are taken out of the sums one by one, and what is left
// of the first sum is that word, once each factor that it got is divided out.
fn missing_word<F: Field>(
    field: &F,
    r: usize,
    totals: &[u16; 4],
    marks: &[bool; 20],
    at: usize,
) -> u16
    requires few { r ≤ 4 }
    requires within { at < 16 + r }
    requires lost { slice_index_or marks.now at false ≡ true }
    ensures { MissingWord (F.Field.means field.now) r totals.now marks.now at result }
{
    let mut sums = *totals;
    let mut scale = 1;
    for (k, missing) in marks[..16 + r].iter().enumerate() {
        if *missing && k != at {
            sums = without(field, sums, field.point(k));
            scale = field.product(scale, field.gap(at, k));
        }
    }
    field.product(scale, sums[0])
}

// The sums with each word times the distance of its point from y.
fn without<F: Field>(field: &F, sums: [u16; 4], y: u16) -> [u16; 4]
    ensures { (j : ℕ) → j < 3 → slice_index result j ≡ taken_out (F.Field.means field.now) sums y j }
{
    let [a, b, c, d] = sums;
    [
        b ^ field.product(y, a),
        c ^ field.product(y, b),
        d ^ field.product(y, c),
        0,
    ]
}

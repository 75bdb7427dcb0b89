// Every column of a work area rebuilt.
ghost use Rattle.std.specs.Prelude.{◌≡◌, ℕ, ◌+◌, ◌%◌, ◌<◌, ◌≤◌, ◌≢◌, slice_index, Some, None, OnOk, OnErr};
ghost use Rattle.refusal.specs.Tells.{told};
ghost use Rattle.codes.specs.Rebuild.{rebuilt};
ghost use Rattle.codes.specs.Filling.{missing_count};
ghost use Rattle.columns.specs.Columns.{column, right_column};

use crate::words::{put_words, words_at};
use codes::CheckCode;
use refusal::{Refusal, WORK_LEN};

// Writes column c of a work area.
fn put_column(work: &mut [u8; WORK_LEN], c: usize, words: [u16; 20])
    requires within { c < 4114 }
    ensures here { column work.new c ≡ words }
    ensures others { (k : ℕ) → k < 4114 → k ≢ c → column work.new k ≡ column work.old k }
    ensures uncovered { (q : ℕ) → 8228 ≤ q % 8256 → slice_index work.new q ≡ slice_index work.old q }
{
    put_words(work, 0, c, &words);
}

// Rebuilds column c, if there is a right one.
fn rebuild_column<K: CheckCode>(
    code: &K,
    work: &mut [u8; WORK_LEN],
    marks: [bool; 20],
    c: usize,
) -> Result<(), Refusal>
    requires within { c < 4114 }
    requires few { missing_count marks (16 + (K.CheckCode.code code.now).r) ≤ (K.CheckCode.code code.now).r }
    ensures answer { told result ≡ (rebuilt (K.CheckCode.code code.now) (column work.old c) marks).1 }
    ensures found { OnOk result
        (right_column (K.CheckCode.code code.now) work.old marks c ≡ Some (column work.new c)) }
    ensures lacking { OnErr result (right_column (K.CheckCode.code code.now) work.old marks c ≡ None) }
    ensures kept { OnErr result (work.new ≡ work.old) }
    ensures others { (k : ℕ) → k < 4114 → k ≢ c → column work.new k ≡ column work.old k }
    ensures uncovered { (q : ℕ) → 8228 ≤ q % 8256 → slice_index work.new q ≡ slice_index work.old q }
{
    let (words, flag) = code.rebuild(words_at(work, c), marks);
    flag?;
    put_column(work, c, words);
    Ok(())
}

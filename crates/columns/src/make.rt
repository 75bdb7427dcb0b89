// Check words for every column of a work area.
ghost use Rattle.std.specs.Prelude.{◌≡◌, length};
ghost use Rattle.refusal.specs.Tells.{told};
ghost use Rattle.columns.specs.Columns.{Checked, MadeChecks, judged_work};

use crate::words::{WORDS, put_words, words_at};
use codes::CheckCode;
use refusal::{Refusal, WORK_LEN};

// Makes the check words of every column: positions 0 to 15 are the data blocks, position 16 and on the check blocks.
pub fn make_checks<K: CheckCode>(code: &K, work: &mut [u8]) -> Result<(), Refusal>
    ensures answer { told result ≡ judged_work (length work.old) }
    ensures work { MadeChecks (K.CheckCode.code code.now) work.old work.new }
{
    // Two lines, as the calls that make blocks have them: no function can lend a slice as an array in a `Result`.
    let len = work.len();
    let work = work.as_mut_array().ok_or(Refusal::WrongLength(len))?;
    check_all(code, work);
    Ok(())
}

fn check_all<K: CheckCode>(code: &K, work: &mut [u8; WORK_LEN])
    ensures { Checked (K.CheckCode.code code.now) work.old work.new }
{
    let r = code.r();
    // By number: the words of a column lie a block apart, so no slice has them.
    for c in 0..WORDS {
        let checks = code.check_words(words_at(work, c));
        put_words(work, 16, c, &checks[..r]);
    }
}

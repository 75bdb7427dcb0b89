// Getting what the places of a run hold.
ghost use Rattle.std.specs.Prelude.{◌≡◌, ◌+◌, ◌*◌, ◌<◌, ◌≤◌, length};
ghost use Rattle.refusal.specs.Tells.{told};
ghost use Rattle.cards.specs.Content.{content_at, bytes_of};
ghost use Rattle.runs.specs.Runs.{judged_blocks, run_bytes, run_buffer};

use crate::judging::judge_blocks;
use cards::{BLOCK_LEN, Card};
use refusal::Refusal;

// Copies the block at a place of a run to a part of a work area, or zeros where none stands or the card ends. The part
// is a slice, as the caller cuts it out.
fn fetch<C: Card>(card: &C, start: usize, index: usize, part: &mut [u8])
    requires { length part.old ≡ 8256 }
    ensures { part.new ≡ bytes_of (content_at (C.contents card.now) (start + index)) }
{
    if index < card.places().saturating_sub(start) {
        let _ = card.get(start + index, part);
    } else {
        part.fill(0);
    }
}

// Fills a work area with the blocks at the places from the start on. A place that the card lacks gives zeros.
pub fn get_run<C: Card>(card: &C, start: usize, work: &mut [u8]) -> Result<(), Refusal>
    ensures answer { told result ≡ judged_blocks (length work.old) }
    ensures work { work.new ≡ run_buffer (C.contents card.now) start work.old }
{
    judge_blocks(work.len())?;
    // By index: over `chunks_exact_mut` nothing is known of what the parts leave in the work area.
    for i in 0..work.len() / BLOCK_LEN {
        let at = i * BLOCK_LEN;
        fetch(card, start, i, &mut work[at..at + BLOCK_LEN]);
    }
    Ok(())
}

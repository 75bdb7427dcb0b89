// Putting blocks at the places of a run.
ghost use Rattle.std.specs.Prelude.{◌≡◌, ◌+◌, ◌/◌, ◌^◌, ◌<◌, length, map, MatchResult};
ghost use Rattle.std.specs.List.{range_with_len, FoldsTo};
ghost use Rattle.refusal.specs.Tells.{tells, told};
ghost use Rattle.cards.specs.Content.{block, block_len};
ghost use Rattle.runs.specs.Turns.{PutInTurn};
ghost use Rattle.runs.specs.Runs.{blocks, copies_answer, copies_contents, run_answer, run_contents};

use crate::judging::{judge_blocks, judge_run};
use cards::{BLOCK_LEN, Card};
use refusal::{Refusal, check_length};

// Puts a block at a place in each of so many turns. The closure gives the place and the block of a turn.
fn put_in_turns<'b, C: Card, F: Fn(usize) -> (usize, &'b [u8])>(card: &mut C, turns: usize, turn: F)
    requires { (i : _) → i < turns → F.pre turn i }
    ensures { FoldsTo (PutInTurn (F.post turn)) (C.contents card.old) (range_with_len 0 turns)
        (C.contents card.new) }
{
    // By number: going up, going down and standing still differ only in what a turn gives.
    for i in 0..turns {
        let (place, block) = turn(i);
        let _ = card.put(place, block);
    }
}

// Puts the same block at each of so many places from the start on, or at none.
pub fn put_copies<C: Card>(
    card: &mut C,
    start: usize,
    count: usize,
    body: &[u8],
) -> Result<(), Refusal>
    ensures answer { told result ≡ copies_answer (length (C.contents card.old)) start count
        (length body.now) }
    ensures card { C.contents card.new
        ≡ copies_contents (C.contents card.old) start count body.now }
{
    check_length(body.len(), BLOCK_LEN)?;
    judge_run(start, count, card.places())?;
    put_in_turns(card, count, |i| (start + i, body));
    Ok(())
}

// The blocks that stand joined in some bytes, if the card has a place for each of them from the start on.
fn blocks_of<'b, C: Card>(
    card: &C,
    start: usize,
    bytes: &'b [u8],
) -> Result<&'b [[u8; BLOCK_LEN]], Refusal>
    ensures { MatchResult result
        (λ found. (run_answer (length (C.contents card.now)) start (length bytes.now) ≡ Ok tt)
        × (map block found.now ≡ blocks bytes.now (length bytes.now / block_len))
        × (start + length found.now < 2 ^ 64))
        (λ e. run_answer (length (C.contents card.now)) start (length bytes.now) ≡ Err (tells e)) }
{
    judge_blocks(bytes.len())?;
    let (blocks, _) = bytes.as_chunks();
    judge_run(start, blocks.len(), card.places())?;
    Ok(blocks)
}

// Puts joined blocks at the places from the start on, or none of them.
pub fn put_run<C: Card>(card: &mut C, start: usize, bytes: &[u8]) -> Result<(), Refusal>
    ensures answer { told result ≡ run_answer (length (C.contents card.old)) start
        (length bytes.now) }
    ensures card { C.contents card.new
        ≡ run_contents (C.contents card.old) start bytes.now }
{
    let blocks = blocks_of(card, start, bytes)?;
    put_in_turns(card, blocks.len(), |i| (start + i, &blocks[i]));
    Ok(())
}

// The same, from the top place down.
pub fn put_run_down<C: Card>(card: &mut C, start: usize, bytes: &[u8]) -> Result<(), Refusal>
    ensures answer { told result ≡ run_answer (length (C.contents card.old)) start
        (length bytes.now) }
    ensures card { C.contents card.new
        ≡ run_contents (C.contents card.old) start bytes.now }
{
    let blocks = blocks_of(card, start, bytes)?;
    let count = blocks.len();
    put_in_turns(card, count, |i| {
        let down = count - 1 - i;
        (start + down, &blocks[down])
    });
    Ok(())
}

// Blocks that are unsound: one of zeros, and sound ones with a bit turned over.
use crate::block_vectors::{body_crc, judged};
use crate::tally::Tally;
use block::BLOCK_LEN;
use std::io;

// The bit that is turned over.
const BIT: u8 = 0x10;

// The bytes that it is turned over in: so many, so far apart, from this one on; the last is the block's last.
const FLIPS: usize = 43;

const STRIDE: usize = 196;

const FIRST: usize = 23;

// A block of zeros: its CRC agrees, and its type is unknown.
pub(crate) fn zeroed(tally: &mut Tally<'_>, block: &[u8; BLOCK_LEN]) -> io::Result<()> {
    tally.compare("CRC of a zeroed block", body_crc(block), 0)?;
    tally.check("it is unsound", !judged(block))
}

fn flip(block: &mut [u8; BLOCK_LEN], place: usize) {
    if let Some(byte) = block.get_mut(place) {
        *byte ^= BIT;
    }
}

// How many of the blocks with one bit turned over are unsound.
fn count_unsound(block: &mut [u8; BLOCK_LEN]) -> u64 {
    let mut unsound = 0u64;
    for place in (FIRST..BLOCK_LEN).step_by(STRIDE) {
        flip(block, place);
        if !judged(block) {
            unsound = unsound.saturating_add(1);
        }
        flip(block, place);
    }
    unsound
}

// Turns one bit of a sound block over, in one byte after the other.
pub(crate) fn flipped(tally: &mut Tally<'_>, block: &mut [u8; BLOCK_LEN]) -> io::Result<()> {
    let unsound = count_unsound(block);
    tally.compare(
        "blocks unsound of 43 with one bit flipped",
        unsound,
        FLIPS as u64,
    )?;
    tally.check("sound again with no bit flipped", judged(block))
}

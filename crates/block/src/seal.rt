// Making the three kinds of block in a caller's buffer.
ghost use Rattle.std.specs.Prelude.{◌≡◌, ◌+◌, ◌≤◌, ◌++◌, length, take, drop};
ghost use Rattle.refusal.specs.Tells.{told};
ghost use Rattle.block.specs.Control.{bytes1, bytes2};
ghost use Rattle.block.specs.Block.{data_field, zeros, sealed, field_block, length_answer, made_of};
ghost use Rattle.block.specs.Block.{data_block, end_block, check_block};

use crate::control1::Control1;
use crate::control2::Control2;
use crate::edc::edc_of;
use crate::header::{DataHeader, EndHeader, check_control};
use crate::layout::{CONTROL1_AT, CONTROL2_AT, CRC_AT, EDC_AT, FIELD_LEN, KIND_AT};
use bits::Layout;
use crc::crc64;
use refusal::{BLOCK_LEN, Refusal};

// Each of the three calls makes its array by two lines of its own: no contract of a function that answers
// `Result<&mut [u8; N], Refusal>` for a slice ties what is written to the caller's bytes, and handing each sealing in
// as a closure would be no shorter.

// Makes a data block of the Data Field that stands in the first 8,208 bytes of the buffer.
pub fn make_data(block: &mut [u8], header: DataHeader, at: Control2) -> Result<(), Refusal>
    ensures answer { told result ≡ length_answer block.old tt }
    ensures block { block.new ≡ made_of block.old (data_block (data_field block.old) header at) }
{
    let len = block.len();
    let data = block.as_mut_array().ok_or(Refusal::WrongLength(len))?;
    seal_field(data, header.into(), at);
    Ok(())
}

// Makes an end block.
pub fn make_end(block: &mut [u8], header: EndHeader) -> Result<(), Refusal>
    ensures answer { told result ≡ length_answer block.old tt }
    ensures block { block.new ≡ made_of block.old (end_block header) }
{
    let len = block.len();
    let end = block.as_mut_array().ok_or(Refusal::WrongLength(len))?;
    seal_zeros(end, header.into(), header.into());
    Ok(())
}

// Makes a check block of the check words that stand in the first 8,228 bytes of the buffer.
pub fn make_check(block: &mut [u8], entities: u8, back: u32, at: Control2) -> Result<(), Refusal>
    ensures answer { told result ≡ length_answer block.old tt }
    ensures block { block.new ≡ made_of block.old (check_block (take 8228 block.old) entities back at) }
{
    let len = block.len();
    let check = block.as_mut_array().ok_or(Refusal::WrongLength(len))?;
    seal_words(check, check_control(entities, back), at);
    Ok(())
}

// Makes the Data Field zeros, and seals it.
fn seal_zeros(block: &mut [u8; BLOCK_LEN], c1: Control1, c2: Control2)
    ensures { block.new ≡ field_block (zeros 8208) c1 c2 }
{
    block[..FIELD_LEN].fill(0);
    seal_field(block, c1, c2);
}

// Puts control fields and CRC behind the check words; of Control Field 1 only the last four bytes have a place.
fn seal_words(block: &mut [u8; BLOCK_LEN], c1: Control1, c2: Control2)
    ensures { block.new ≡ sealed (take 8228 block.old ++ (drop 16 (bytes1 c1) ++ bytes2 c2)) }
{
    let control = c1.to_bytes();
    put(block, KIND_AT, &control[16..]);
    put(block, CONTROL2_AT, &c2.to_bytes());
    seal_crc(block);
}

// Puts EDC, pad, control fields and CRC behind a Data Field.
fn seal_field(block: &mut [u8; BLOCK_LEN], c1: Control1, c2: Control2)
    ensures { block.new ≡ field_block (data_field block.old) c1 c2 }
{
    let [low, high] = edc_of(&block[..FIELD_LEN]).to_le_bytes();
    put(block, EDC_AT, &[low, high, 0, 0]);
    put(block, CONTROL1_AT, &c1.to_bytes());
    put(block, CONTROL2_AT, &c2.to_bytes());
    seal_crc(block);
}

// Puts the CRC behind all other bytes.
fn seal_crc(block: &mut [u8; BLOCK_LEN])
    ensures { block.new ≡ sealed (take 8248 block.old) }
{
    let crc = crc64(&block[..CRC_AT]).to_be_bytes();
    put(block, CRC_AT, &crc);
}

// Puts bytes at a place of the block; what stands before them stays.
fn put(block: &mut [u8; BLOCK_LEN], at: usize, bytes: &[u8])
    requires { at + length bytes.now ≤ 8256 }
    ensures { take (at + length bytes.now) block.new ≡ take at block.old ++ bytes.now }
{
    block[at..at + bytes.len()].copy_from_slice(bytes);
}

// Reading the fields of a block, and judging whether it is sound.
ghost use Rattle.std.specs.Prelude.{◌≡◌};
ghost use Rattle.refusal.specs.Tells.{told};
ghost use Rattle.bits.specs.Fields.{value};
ghost use Rattle.block.specs.Block.{control1_at, control2_at, crc_agrees, edc_agrees, sound_kind, sound, length_answer};

use crate::block_type::BlockType;
use crate::control1::Control1;
use crate::control2::Control2;
use crate::edc::edc_of;
use crate::layout::{CONTROL1_AT, CONTROL2_AT, CRC_AT, EDC_AT, FIELD_LEN};
use bits::Layout;
use crc::crc64;
use refusal::{BLOCK_LEN, Refusal, exactly};

// What Control Field 1 of a block holds.
pub fn read_control1(block: &[u8]) -> Result<Control1, Refusal>
    ensures { told result ≡ length_answer block.now (control1_at block.now) }
{
    exactly(block).map(control1_in)
}

// What Control Field 2 of a block holds.
pub fn read_control2(block: &[u8]) -> Result<Control2, Refusal>
    ensures { told result ≡ length_answer block.now (control2_at block.now) }
{
    exactly(block).map(control2_in)
}

// Whether a block is sound: its CRC agrees, its type is known, and its EDC agrees if it is a data or end block.
pub fn is_sound(block: &[u8]) -> Result<bool, Refusal>
    ensures { told result ≡ length_answer block.now (sound block.now) }
{
    exactly(block).map(judge)
}

// One line for each control field: one function for both would need the place as a parameter, and a bound on it.
fn control1_in(block: &[u8; BLOCK_LEN]) -> Control1
    ensures { result ≡ control1_at block.now }
{
    Control1::read(block[CONTROL1_AT..CONTROL2_AT].as_array().unwrap())
}

fn control2_in(block: &[u8; BLOCK_LEN]) -> Control2
    ensures { result ≡ control2_at block.now }
{
    Control2::read(block[CONTROL2_AT..CRC_AT].as_array().unwrap())
}

fn judge(block: &[u8; BLOCK_LEN]) -> bool
    ensures { result ≡ sound block.now }
{
    crc_agrees(block) && kind_agrees(block, control1_in(block).kind)
}

// Whether the type is known, and the EDC right where the type has one.
fn kind_agrees(block: &[u8; BLOCK_LEN], kind: BlockType) -> bool
    ensures { result ≡ sound_kind kind (edc_agrees block.now) }
{
    match kind {
        BlockType::Data | BlockType::End => edc_agrees(block),
        BlockType::Check => true,
        _ => false,
    }
}

fn crc_agrees(block: &[u8; BLOCK_LEN]) -> bool
    ensures { result ≡ crc_agrees block.now }
{
    crc64(&block[..CRC_AT]) == number_in(block.last_chunk().unwrap())
}

// The number in eight bytes, high byte first.
fn number_in(bytes: &[u8; 8]) -> u64
    ensures { result ≡ value bytes.now }
{
    u64::from_be_bytes(*bytes)
}

fn edc_agrees(block: &[u8; BLOCK_LEN]) -> bool
    ensures { result ≡ edc_agrees block.now }
{
    edc_of(&block[..FIELD_LEN]) == u16::from_le_bytes([block[EDC_AT], block[EDC_AT + 1]])
}

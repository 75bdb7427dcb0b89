// EDCs, and the CRCs of end and check blocks: values worked out from the rules in words (tools/block_values.py).
use crate::crc_vectors::BODY_LEN;
use crate::filling::fill;
use crate::tally::Tally;
use block::{BLOCK_LEN, Control2, EndHeader, FIELD_LEN, edc_of, is_sound, make_check, make_end};
use crc::crc64;
use std::io;

const EDC_OF_ZEROS: u16 = 0x4500;

const EDC_OF_FILL_7: u16 = 0xAD6D;

const EDC_OF_FILL_9: u16 = 0xA56F;

const EDC_OF_41_FILL_7: u16 = 0x7BE4;

// The EDC of a Data Field of zeros with 01h at one place.
const EDC_WITH_01_AT: [(usize, u16); 4] = [
    (0, 0x4400),
    (1, 0x4501),
    (8206, 0x4502),
    (8207, 0x4700),
];

// End blocks of envelope 2 and tag 1: back link, place, CRC.
const END_BLOCKS: [(u32, u32, u64); 7] = [
    (13, 14, 0xE5947668E4BEE380),
    (13, 15, 0x4591766CCA9F4664),
    (13, 16, 0xFEA7DCDC81AB7BD9),
    (13, 24, 0xF54C5B53570E8EB5),
    (7, 8, 0x8FC123EA9F844127),
    (7, 9, 0x2FC423EEB1A5E4C3),
    (7, 18, 0x91074A9911C323C8),
];

const CRC_OF_CHECK_BLOCK: u64 = 0x393A5C831AA3AE13;

// The bytes of the check words.
const WORDS_LEN: usize = 8228;

// What stands in a buffer before an end block is made there.
const OLD: u8 = 0xA5;

// Every field of its own value, so that no two can change places unseen.
const CHECK_AT: Control2 = Control2 {
    reserved: 0,
    offset: 3,
    first: 4,
    place: 0x12_3456,
    blocks: 6,
    starts: false,
    entity: 2,
    envelope: 0x0304,
    tag: 0x0A_0B0C,
    k: false,
    track: 0,
};

// The CRC that belongs behind the first 8,248 bytes of a block.
pub(crate) fn body_crc(block: &[u8; BLOCK_LEN]) -> u64 {
    crc64(&block[..BODY_LEN])
}

fn compare_edc(tally: &mut Tally<'_>, name: &str, bytes: &[u8], wanted: u16) -> io::Result<()> {
    tally.compare(name, u64::from(edc_of(bytes)), u64::from(wanted))
}

// Whole Data Fields, and an odd number of bytes.
fn filled_edcs(tally: &mut Tally<'_>) -> io::Result<()> {
    let mut field = [0; FIELD_LEN];
    let mut few = [0; 41];
    fill(&mut few, 7);
    compare_edc(tally, "EDC of zeros", &field, EDC_OF_ZEROS)?;
    compare_edc(tally, "EDC of 41 bytes of fill 7", &few, EDC_OF_41_FILL_7)?;
    fill(&mut field, 7);
    compare_edc(tally, "EDC of fill 7", &field, EDC_OF_FILL_7)?;
    fill(&mut field, 9);
    compare_edc(tally, "EDC of fill 9", &field, EDC_OF_FILL_9)
}

// The EDC of zeros with 01h at one place.
fn edc_with(place: usize) -> u16 {
    let mut field = [0; FIELD_LEN];
    if place < FIELD_LEN {
        field[place] = 1;
    }
    edc_of(&field)
}

fn single_edcs(tally: &mut Tally<'_>) -> io::Result<()> {
    for (place, wanted) in EDC_WITH_01_AT {
        let name = format_args!("EDC of zeros with 01 at {place}");
        tally.compare(name, u64::from(edc_with(place)), u64::from(wanted))?;
    }
    Ok(())
}

fn end_block(tally: &mut Tally<'_>, back: u32, place: u32, wanted: u64) -> io::Result<()> {
    let mut block = [OLD; BLOCK_LEN];
    let header = EndHeader {
        back,
        place,
        envelope: 2,
        tag: 1,
    };
    let made = make_end(&mut block, header).is_ok();
    let name = format_args!("CRC of the end block of place {place}, back link {back}");
    tally.compare(name, body_crc(&block), wanted)?;
    tally.check("it is made and sound", made && judged(&block))
}

fn end_blocks(tally: &mut Tally<'_>) -> io::Result<()> {
    for (back, place, wanted) in END_BLOCKS {
        end_block(tally, back, place, wanted)?;
    }
    Ok(())
}

fn check_block(tally: &mut Tally<'_>) -> io::Result<()> {
    let mut block = [OLD; BLOCK_LEN];
    fill(&mut block[..WORDS_LEN], 11);
    let made = make_check(&mut block, 5, 0x65_4321, CHECK_AT).is_ok();
    tally.compare(
        "CRC of a check block of fill 11",
        body_crc(&block),
        CRC_OF_CHECK_BLOCK,
    )?;
    tally.check("it is made and sound", made && judged(&block))
}

// Whether a block is judged sound.
pub(crate) fn judged(block: &[u8]) -> bool {
    is_sound(block).unwrap_or(false)
}

pub fn run(tally: &mut Tally<'_>) -> io::Result<()> {
    filled_edcs(tally)?;
    single_edcs(tally)?;
    end_blocks(tally)?;
    check_block(tally)
}

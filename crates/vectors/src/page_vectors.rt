// A data block with a record and a tape mark: its CRC (tools/block_values.py), its pages, and its refusals.
use crate::block_vectors::{body_crc, judged};
use crate::filling::fill;
use crate::sound_vectors::{flipped, zeroed};
use crate::tally::Tally;
use bits::Layout;
use block::{BLOCK_LEN, Control2, DataHeader, FIELD_LEN, is_sound, make_data};
use pages::{ENTRY_LEN, Entry, Page, PageType, page_at};
use refusal::Refusal;
use std::io;

// The CRC of the block as the first of an entity of six blocks, and of three.
const CRC_OF_BLOCK_1_OF_6: u64 = 0x27CD5251828738E1;

const CRC_OF_BLOCK_1_OF_3: u64 = 0x4E2FFE16B975CA04;

// The bytes of the record, and of the tape mark's page behind it.
const RECORD_LEN: usize = 100;

const MARK_LEN: usize = 8092;

// One byte less than a block.
const SHORT_LEN: usize = 8255;

// The seed of the record's bytes.
const SEED: u8 = 7;

// The first page's entry is the last eight bytes of the Data Field, and the second stands before it.
const RECORD_ENTRY_AT: usize = FIELD_LEN - ENTRY_LEN;

const MARK_ENTRY_AT: usize = RECORD_ENTRY_AT - ENTRY_LEN;

const RECORD_ENTRY: Entry = Entry {
    kind: PageType::Data,
    next: false,
    prev: false,
    last: false,
    compressed: false,
    reserved: 0,
    count: 100,
    total: 100,
};

const MARK_ENTRY: Entry = Entry {
    kind: PageType::TapeMark,
    next: false,
    prev: false,
    last: true,
    compressed: false,
    reserved: 0,
    count: 8092,
    total: 0,
};

// The first data block of a tape.
const HEADER: DataHeader = DataHeader {
    mark: 0,
    object: 1,
    sequence: 0,
    entities: 1,
    back: 0xFF_FFFF,
};

fn first_of(blocks: u8) -> Control2 {
    Control2 {
        offset: 1,
        first: 1,
        blocks,
        starts: true,
        entity: 1,
        envelope: 1,
        tag: 1,
        ..Control2::default()
    }
}

// Lays out both pages in a block of zeros.
fn lay(block: &mut [u8; BLOCK_LEN]) {
    fill(&mut block[..RECORD_LEN], SEED);
    block[MARK_ENTRY_AT..RECORD_ENTRY_AT].copy_from_slice(&MARK_ENTRY.to_bytes());
    block[RECORD_ENTRY_AT..FIELD_LEN].copy_from_slice(&RECORD_ENTRY.to_bytes());
}

fn data_block(
    tally: &mut Tally<'_>,
    block: &mut [u8; BLOCK_LEN],
    blocks: u8,
    wanted: u64,
) -> io::Result<()> {
    let made = make_data(block, HEADER, first_of(blocks)).is_ok();
    let name = format_args!("CRC of data block 1 of {blocks}");
    tally.compare(name, body_crc(block), wanted)?;
    tally.check("it is made and sound", made && judged(block))
}

fn pages_of(tally: &mut Tally<'_>, block: &[u8]) -> io::Result<()> {
    let mut record = [0; RECORD_LEN];
    fill(&mut record, SEED);
    let data = Page::Data {
        bytes: &record,
        place: 0,
    };
    let mark = Page::TapeMark {
        place: RECORD_LEN,
        count: MARK_LEN,
    };
    let none = Refusal::NoSuchNumber(3);
    tally.check(
        "page 1 is the record, 100 bytes at 0",
        page_at(block, 1) == Ok(data),
    )?;
    tally.check(
        "page 2 is the tape mark, 8092 bytes at 100",
        page_at(block, 2) == Ok(mark),
    )?;
    tally.check("page 3 is refused with 10", page_at(block, 3) == Err(none))
}

// A buffer one byte too short.
fn short(tally: &mut Tally<'_>) -> io::Result<()> {
    let mut bytes = [0; SHORT_LEN];
    let short = Refusal::WrongLength(SHORT_LEN);
    let made = make_data(&mut bytes, HEADER, first_of(6)) == Err(short);
    let judged = is_sound(&bytes) == Err(short);
    let paged = page_at(&bytes, 1) == Err(short);
    tally.check("8255 bytes are refused with 1", made && judged && paged)
}

pub fn run(tally: &mut Tally<'_>) -> io::Result<()> {
    let mut block = [0; BLOCK_LEN];
    zeroed(tally, &block)?;
    lay(&mut block);
    data_block(tally, &mut block, 3, CRC_OF_BLOCK_1_OF_3)?;
    data_block(tally, &mut block, 6, CRC_OF_BLOCK_1_OF_6)?;
    pages_of(tally, &block)?;
    short(tally)?;
    flipped(tally, &mut block)
}

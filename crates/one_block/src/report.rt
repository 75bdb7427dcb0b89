// Seals a laid-out block, judges it, and prints what it holds.
use block::{
    BLOCK_LEN, Control2, DataHeader, FIELD_LEN, edc_of, is_sound, make_data, read_control1,
    read_control2,
};
use crc::crc64;
use pages::{Page, page_at};
use std::io;
use std::slice::Iter;

// The place before the first envelope: all ONEs.
const NO_LINK: u32 = 0xFF_FFFF;
// The bytes that the CRC covers.
const COVERED: usize = BLOCK_LEN - 8;
// More pages than a block has.
const MOST_PAGES: usize = 1028;
// The byte in which a bit is turned, and the bit.
const TURNED: usize = 17;

const BIT: u8 = 0x10;

// Seals the block and shows it. No call refuses an array of a block's length.
pub fn show(rt: &HostRuntime, block: &mut [u8; BLOCK_LEN], records: &[Vec<u8>]) -> io::Result<()> {
    seal(block);
    show_fields(rt, block)?;
    show_pages(rt, block, records)?;
    show_verdict(rt, "as made", block)?;
    block[TURNED] ^= BIT;
    show_verdict(rt, "one bit turned", block)
}

// Makes the first data block of a tape of it.
fn seal(block: &mut [u8; BLOCK_LEN]) {
    let header = DataHeader {
        mark: 0,
        object: 1,
        sequence: 0,
        entities: 1,
        back: NO_LINK,
    };
    let at = Control2 {
        offset: 1,
        first: 1,
        blocks: 6,
        starts: true,
        entity: 1,
        envelope: 1,
        tag: 1,
        ..Control2::default()
    };
    make_data(block, header, at).unwrap();
}

fn show_fields(rt: &HostRuntime, block: &[u8; BLOCK_LEN]) -> io::Result<()> {
    let c1 = read_control1(block).unwrap();
    println!(rt;
        "type {} format {} object {} envelope size {} back link {:06X}",
        u8::from(c1.kind),
        c1.format,
        c1.object,
        c1.entities,
        c1.back
    )?;
    let c2 = read_control2(block).unwrap();
    println!(rt;
        "block {} of {} at place {} of envelope {} tag {}",
        c2.offset, c2.blocks, c2.place, c2.envelope, c2.tag
    )?;
    println!(rt;
        "edc {:04X} crc {:016X}",
        edc_of(&block[..FIELD_LEN]),
        crc64(&block[..COVERED])
    )
}

// Goes through the pages until the call refuses the number; the Data pages give the records back.
fn show_pages(rt: &HostRuntime, block: &[u8; BLOCK_LEN], records: &[Vec<u8>]) -> io::Result<()> {
    let mut records = records.iter();
    // By number, since the call takes numbers; it says where they end.
    for number in 1..MOST_PAGES {
        match page_at(block, number) {
            Ok(page) => show_page(rt, number, page, &mut records)?,
            Err(why) => return println!(rt; "page {number}: {why}"),
        }
    }
    Ok(())
}

fn show_page(
    rt: &HostRuntime,
    number: usize,
    page: Page<'_>,
    records: &mut Iter<'_, Vec<u8>>,
) -> io::Result<()> {
    match page {
        Page::Data { bytes, place } => {
            let found = compare(records.next(), bytes);
            println!(rt;
                "page {number}: data at {place} count {}, {found}",
                bytes.len()
            )
        }
        Page::Filler { place, count } => println!(rt;
            "page {number}: filler at {place} count {count}"
        ),
        Page::TapeMark { place, count } => println!(rt;
            "page {number}: mark at {place} count {count}"
        ),
    }
}

// Whether a page holds the next record.
fn compare(record: Option<&Vec<u8>>, page: &[u8]) -> &'static str {
    match record {
        Some(record) if record.as_slice() == page => "the record's bytes",
        Some(_) => "OTHER bytes than the record's",
        None => "more than the record",
    }
}

fn show_verdict(rt: &HostRuntime, what: &str, block: &[u8; BLOCK_LEN]) -> io::Result<()> {
    let found = if is_sound(block).unwrap() {
        "sound"
    } else {
        "unsound"
    };
    println!(rt; "{what}: {found}")
}

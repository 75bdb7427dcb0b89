// The CRC-64: the published check value, and values worked out by division (tools/crc_values.py).
use crate::filling::fill;
use crate::tally::Tally;
use block::BLOCK_LEN;
use crc::{crc64, crc64_more};
use std::io;

// The parameters stand in each name: ECMA-182's polynomial, not reflected, from zero, not inverted.
const CRC64_ECMA182_UNREFLECTED_OF_123456789: u64 = 0x6C40DF5F0B497347;

const CRC64_ECMA182_UNREFLECTED_OF_01: u64 = 0x42F0E1EBA9EA3693;

const CRC64_ECMA182_UNREFLECTED_OF_80: u64 = 0xF6FAE5C07D3274CD;

const CRC64_ECMA182_UNREFLECTED_OF_FF: u64 = 0x9AFCE626CE85B507;

const CRC64_ECMA182_UNREFLECTED_OF_32_FF: u64 = 0xC395AE61FF6CE004;

const CRC64_ECMA182_UNREFLECTED_OF_8248_FILL_9: u64 = 0x0DA35D66475D7D7D;

// Entry n is of the first n bytes of `fill` with the seed 7.
#[rattlefmt::skip]
const CRC64_ECMA182_UNREFLECTED_OF_FILL_7: [u64; 41] = [
    0x0000000000000000, 0x9B041A914A7B2B6E, 0x8A38D5338F57D96A, 0x2439EF11C3758EF3,
    0x91A19D1B49AFDF8A, 0x6DE7EAB68E1C81DE, 0xA6EBAE0ABC96D441, 0x5D055F22B35A2BC2,
    0xC0EF513A5143B129, 0x76F47175F89C2AF2, 0x4B10A210930FE035, 0x80658DACE233C422,
    0xF6139CDFABBF65D7, 0x69E52FA7C77D3C3B, 0xA57E17992580250F, 0x47CE2018A97CC6E6,
    0x420B590805B9F3D1, 0x5F7E4E69A7E34745, 0x0567317163F4BA75, 0xCDDEAC0E39CD7116,
    0x1A4CD56A3EB27167, 0xB3E50D88E5E86B3A, 0x20BDFB6CE3034929, 0xA1BFE410EBB047D4,
    0xA101C9ADA9E89248, 0x4A5B9A5917868C43, 0x052E300FC79F1B47, 0xAA8164CA34643E68,
    0x95BA686B5EC76A6D, 0x4DC2264442F30D83, 0x97F9FE9969E38B2C, 0x7F46F7BCC5F7F7D3,
    0x623A25D1CEFC607C, 0xD23AED4898FD4E85, 0x5ED935BFE0ACA254, 0x0A526BEE103087FF,
    0xA4910BD04DB58BCD, 0x308FDEE3A301997D, 0x27383B1641EDDBAD, 0xF6E0B60B3D4E8E42,
    0x5C8E71D73403E6C0,
];

// The bytes that the CRC of a block is over.
pub(crate) const BODY_LEN: usize = BLOCK_LEN - 8;

const LENGTHS: usize = 41;

// The check value that catalogues give for this CRC, and what follows from it.
fn published(tally: &mut Tally<'_>) -> io::Result<()> {
    let digits = crc64(b"123456789");
    let closed = crc64(b"123456789\x6C\x40\xDF\x5F\x0B\x49\x73\x47");
    tally.compare(
        "CRC-64 of 123456789",
        digits,
        CRC64_ECMA182_UNREFLECTED_OF_123456789,
    )?;
    tally.compare("CRC-64 of 123456789 and its CRC", closed, 0)
}

fn single_bytes(tally: &mut Tally<'_>) -> io::Result<()> {
    let [low, high, all] = [crc64(b"\x01"), crc64(b"\x80"), crc64(b"\xFF")];
    tally.compare("CRC-64 of 01", low, CRC64_ECMA182_UNREFLECTED_OF_01)?;
    tally.compare("CRC-64 of 80", high, CRC64_ECMA182_UNREFLECTED_OF_80)?;
    tally.compare("CRC-64 of FF", all, CRC64_ECMA182_UNREFLECTED_OF_FF)
}

// Runs of one byte: zeros leave the register at zero.
fn runs(tally: &mut Tally<'_>) -> io::Result<()> {
    let ones = crc64(&[0xFF; 32]);
    tally.compare("CRC-64 of nothing", crc64(b""), 0)?;
    tally.compare("CRC-64 of 8,256 zeros", crc64(&[0; BLOCK_LEN]), 0)?;
    tally.compare(
        "CRC-64 of 32 times FF",
        ones,
        CRC64_ECMA182_UNREFLECTED_OF_32_FF,
    )
}

// Every number of bytes up to forty: whole eights, and each rest.
fn lengths(tally: &mut Tally<'_>) -> io::Result<()> {
    let mut bytes = [0; LENGTHS];
    fill(&mut bytes, 7);
    for (n, wanted) in CRC64_ECMA182_UNREFLECTED_OF_FILL_7.iter().enumerate() {
        let name = format_args!("CRC-64 of {n} bytes of fill 7");
        tally.compare(name, crc64(&bytes[..n]), *wanted)?;
    }
    Ok(())
}

// As many bytes as a block's CRC is over: at once, in two parts, and with their CRC behind them.
fn body(tally: &mut Tally<'_>, bytes: &[u8; BODY_LEN]) -> io::Result<()> {
    let sum = crc64(bytes);
    tally.compare(
        "CRC-64 of 8,248 bytes of fill 9",
        sum,
        CRC64_ECMA182_UNREFLECTED_OF_8248_FILL_9,
    )?;
    let (front, back) = bytes.split_at(4099);
    let both = crc64_more(crc64(front), back);
    tally.compare("CRC-64 of the same in two parts", both, sum)?;
    let closed = crc64_more(sum, &sum.to_be_bytes());
    tally.compare("CRC-64 of the same and its CRC", closed, 0)
}

pub fn run(tally: &mut Tally<'_>) -> io::Result<()> {
    published(tally)?;
    single_bytes(tally)?;
    runs(tally)?;
    lengths(tally)?;
    let mut bytes = [0; BODY_LEN];
    fill(&mut bytes, 9);
    body(tally, &bytes)
}

// The calls that a C program can link: the library's own, under C's names.
#![tactic(auto)]

ghost use Rattle.std.specs.Prelude.{◌≡◌};
ghost use Rattle.refusal.specs.Tells.{told};
ghost use Rattle.crc.specs.Crc.{crc};
ghost use Rattle.block.specs.Edc.{edc};
ghost use Rattle.block.specs.Block.{sound, length_answer};
ghost use Rattle.export.specs.Fields.{header_from, place_from, sealed_as};
ghost use Rattle.export.specs.Numbers.{refused_with, verdict};

use block::{Control2, DataHeader, edc_of, is_sound, make_data};
use crc::crc64;
use refusal::Refusal;

// What a data block says of itself; each field as in the control fields of the block.
#[repr(C)]
#[derive(Clone, Copy, PartialEq, Eq, Debug)]
pub struct DataFields {
    pub mark: u32,
    pub object: u32,
    pub back: u32,
    pub first: u32,
    pub place: u32,
    pub tag: u32,
    pub sequence: u16,
    pub envelope: u16,
    pub entities: u8,
    pub offset: u8,
    pub blocks: u8,
    pub entity: u8,
    pub starts: bool,
}

impl From<DataFields> for DataHeader {
    ghost from_gives = { λ f h. h ≡ header_from f };

    fn from(fields: DataFields) -> DataHeader {
        DataHeader {
            mark: fields.mark,
            object: fields.object,
            sequence: fields.sequence,
            entities: fields.entities,
            back: fields.back,
        }
    }
}

impl From<DataFields> for Control2 {
    ghost from_gives = { λ f c. c ≡ place_from f };

    fn from(fields: DataFields) -> Control2 {
        Control2 {
            offset: fields.offset,
            first: fields.first,
            place: fields.place,
            blocks: fields.blocks,
            starts: fields.starts,
            entity: fields.entity,
            envelope: fields.envelope,
            tag: fields.tag,
            ..Control2::default()
        }
    }
}

// The CRC-64 of the bytes; C passes a pointer and a length.
#[unsafe(no_mangle)]
pub extern "C" fn dlt_crc64(bytes: &[u8]) -> u64
    ensures { result ≡ crc bytes.now }
{
    crc64(bytes)
}

// The EDC of the bytes.
#[unsafe(no_mangle)]
pub extern "C" fn dlt_edc(bytes: &[u8]) -> u16
    ensures { result ≡ edc bytes.now }
{
    edc_of(bytes)
}

// Makes a data block of the Data Field in the first 8,208 bytes of a buffer; answers 0, or 1 for a buffer that is no
// block long.
#[unsafe(no_mangle)]
pub extern "C" fn dlt_seal_data(block: &mut [u8], fields: &DataFields) -> u8
    ensures answer { result ≡ refused_with (length_answer block.old tt) }
    ensures block { block.new ≡ sealed_as block.old fields.now }
{
    refused_with(make_data(block, (*fields).into(), (*fields).into()))
}

// Whether a block is sound: 1 or 0, and 2 for a buffer that is no block long.
#[unsafe(no_mangle)]
pub extern "C" fn dlt_is_sound(block: &[u8]) -> u8
    ensures { result ≡ verdict (length_answer block.now (sound block.now)) }
{
    verdict_of(is_sound(block))
}

// A number, since C knows neither `Result` nor the enum.
fn refused_with(answer: Result<(), Refusal>) -> u8
    ensures { result ≡ refused_with (told answer) }
{
    match answer {
        Ok(()) => 0,
        Err(why) => why.number(),
    }
}

// A number for the same reason.
fn verdict_of(answer: Result<bool, Refusal>) -> u8
    ensures { result ≡ verdict (told answer) }
{
    match answer {
        Ok(true) => 1,
        Ok(false) => 0,
        Err(_) => 2,
    }
}

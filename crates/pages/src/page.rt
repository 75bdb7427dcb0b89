// The page call: one page of a block, as a part of that block.
ghost use Rattle.std.specs.Prelude.{◌≡◌, ◌+◌, ◌≤◌, length, Some};
ghost use Rattle.block.specs.Block.{data_field};
ghost use Rattle.pages.specs.Map.{map_size};
ghost use Rattle.pages.specs.Page.{view, viewed, page_of, page_among, page_answer};

use crate::entry::Entry;
use crate::map::{entry_in, map_size, start_of};
use crate::page_type::PageType;
use block::FIELD_LEN;
use refusal::{BLOCK_LEN, Refusal, exactly};

// A page of a block; its place is the byte of the block where it starts, from 0.
#[derive(Clone, Copy, PartialEq, Eq, Debug)]
pub enum Page<'a> {
    // Bytes of a record.
    Data { bytes: &'a [u8], place: usize },
    // Bytes that only fill the block up.
    Filler { place: usize, count: usize },
    // A tape mark.
    TapeMark { place: usize, count: usize },
}

// Page `number` of a block, from 1.
pub fn page_at(block: &[u8], number: usize) -> Result<Page<'_>, Refusal>
    ensures { viewed result ≡ page_answer block.now number }
{
    let block: &[u8; BLOCK_LEN] = exactly(block)?;
    page_in(data_field(block), number)
}

// The Data Field of a block.
fn data_field(block: &[u8; BLOCK_LEN]) -> &[u8; FIELD_LEN]
    ensures { result.now ≡ data_field block.now }
{
    block.first_chunk().unwrap()
}

// Page `number` of a block with this Data Field.
fn page_in(field: &[u8; FIELD_LEN], number: usize) -> Result<Page<'_>, Refusal>
    ensures { viewed result ≡ page_among field.now (map_size field.now) number }
{
    // Zeros: the refusal has these values in every layer, and this one knows no entity.
    let pages = map_size(field).ok_or(Refusal::Unlawful {
        envelope: 0,
        entity: 0,
        block: 0,
    })?;
    if number == 0 || number > pages {
        return Err(Refusal::NoSuchNumber(number));
    }
    let place = start_of(field, number - 1);
    Ok(cut(field, entry_in(field, number - 1), place))
}

// The page of this entry at this place.
fn cut(field: &[u8], e: Entry, place: usize) -> Page<'_>
    requires { place + e.count ≤ length field.now }
    ensures { view result ≡ page_of field.now e place }
{
    let count = usize::from(e.count);
    match e.kind {
        PageType::Data => Page::Data {
            bytes: &field[place..place + count],
            place,
        },
        PageType::TapeMark => Page::TapeMark { place, count },
        _ => Page::Filler { place, count },
    }
}

// What the three kinds of block have of their own in the control fields.
ghost use Rattle.std.specs.Prelude.{◌≡◌};
ghost use Rattle.block.specs.Made.{data_control, check_control, end_control, end_place};

use crate::block_type::BlockType;
use crate::control1::Control1;
use crate::control2::Control2;

// Format of data and end blocks.
const FORMAT: u8 = 5;
// Entity Offset of an end block.
const END_OFFSET: u8 = 15;

// What a data block says in Control Field 1.
#[derive(Clone, Copy, PartialEq, Eq, Debug)]
pub struct DataHeader {
    // The place of the nearest earlier data block with a tape mark, 0 if there is none.
    pub mark: u32,
    // The object of the first page.
    pub object: u32,
    // Which block of its record the first page lies in, from 1; 0 if the record has one block only.
    pub sequence: u16,
    // The entities of the envelope.
    pub entities: u8,
    // The place before the envelope.
    pub back: u32,
}

// What an end block says in its control fields.
#[derive(Clone, Copy, PartialEq, Eq, Debug)]
pub struct EndHeader {
    // The place before the envelope that would come next.
    pub back: u32,
    // The place of the block.
    pub place: u32,
    // The number of the last envelope, 0 if there is none.
    pub envelope: u16,
    // The tag of the last envelope, 0 if there is none.
    pub tag: u32,
}

// Control Field 1 of a data block.
impl From<DataHeader> for Control1 {
    ghost from_gives = { λ h c. c ≡ data_control h };

    fn from(header: DataHeader) -> Control1 {
        let DataHeader {
            mark,
            object,
            sequence,
            entities,
            back,
        } = header;
        Control1 {
            format: FORMAT,
            mark,
            object,
            sequence,
            kind: BlockType::Data,
            entities,
            back,
            ..Control1::default()
        }
    }
}

// Control Field 1 of an end block.
impl From<EndHeader> for Control1 {
    ghost from_gives = { λ h c. c ≡ end_control h };

    fn from(header: EndHeader) -> Control1 {
        Control1 {
            format: FORMAT,
            kind: BlockType::End,
            back: header.back,
            ..Control1::default()
        }
    }
}

// Control Field 2 of an end block.
impl From<EndHeader> for Control2 {
    ghost from_gives = { λ h c. c ≡ end_place h };

    fn from(header: EndHeader) -> Control2 {
        Control2 {
            offset: END_OFFSET,
            place: header.place,
            envelope: header.envelope,
            tag: header.tag,
            ..Control2::default()
        }
    }
}

// Control Field 1 of a check block: the entities of its envelope and the place before it. Two values need no header.
pub(crate) fn check_control(entities: u8, back: u32) -> Control1
    ensures { result ≡ check_control entities back }
{
    Control1 {
        kind: BlockType::Check,
        entities,
        back,
        ..Control1::default()
    }
}

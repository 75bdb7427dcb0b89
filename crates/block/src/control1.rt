// Control Field 1 of a block, taken apart and put together.
ghost use Rattle.std.specs.Prelude.{◌≡◌, ℕ, ◌+◌, ◌*◌, ◌/◌, ◌%◌, [], ◌∷◌};
ghost use Rattle.bits.specs.Fields.{join, bit};
ghost use Rattle.block.specs.BlockType.{number_of};
ghost use Rattle.std.proofs.Common.{lit<};
ghost use Rattle.block.specs.Control.{bytes1, control1_of};

use crate::block_type::BlockType;
use bits::Layout;

// Control Field 1: what a block is and what it holds.
#[derive(Clone, Copy, PartialEq, Eq, Debug, Default)]
pub struct Control1 {
    // Reserved, 26 bits.
    pub reserved: u32,
    // Format, 6 bits: 5 in every data and end block.
    pub format: u8,
    // Tape Mark, 24 bits: the place of the nearest earlier data block with a tape mark, 0 if there is none.
    pub mark: u32,
    // Compression, 8 bits.
    pub compression: u8,
    // Object Number, 32 bits: the object of the first page.
    pub object: u32,
    // Sequential Number, 16 bits: which block of its record this is, from 1, if the record lies on several.
    pub sequence: u16,
    // Sequential File Mark Offset, 4 bits.
    pub file_mark_offset: u8,
    // Sequential File Mark Number, 12 bits.
    pub file_mark_number: u16,
    // Block Type, 3 bits.
    pub kind: BlockType,
    // Early Warning, 1 bit.
    pub early_warning: bool,
    // Envelope Size, 4 bits: the entities of the envelope.
    pub entities: u8,
    // Envelope Back Link, 24 bits: the place before the envelope, all ONEs for the first.
    pub back: u32,
}

impl Layout<20> for Control1 {
    ghost bytes_of = { bytes1 };

    ghost value_of = { control1_of };

    ghost small = { lit< tt };

    fn to_bytes(self) -> [u8; 20] {
        let [h0, h1, h2, h3] = self.head().to_be_bytes();
        let [_, t0, t1, t2] = self.mark.to_be_bytes();
        let [o0, o1, o2, o3] = self.object.to_be_bytes();
        let [s0, s1] = self.sequence.to_be_bytes();
        let [m0, m1] = self.file_marks().to_be_bytes();
        let [_, l0, l1, l2] = self.back.to_be_bytes();
        let c = self.compression;
        let k = self.kind_byte();
        [
            h0, h1, h2, h3, t0, t1, t2, c, o0, o1, o2, o3, s0, s1, m0, m1, k, l0, l1, l2,
        ]
    }

    // Fields of bits and no bytes, so by division and remainder.
    fn read(bytes: &[u8; 20]) -> Control1 {
        #[rattlefmt::skip]
        let [h0, h1, h2, h3, t0, t1, t2, c, o0, o1, o2, o3, s0, s1, m0, m1, k, l0, l1, l2] = *bytes;
        let head = u32::from_be_bytes([h0, h1, h2, h3]);
        let marks = u16::from_be_bytes([m0, m1]);
        Control1 {
            reserved: head / 64,
            format: (head % 64) as u8,
            mark: u32::from_be_bytes([0, t0, t1, t2]),
            compression: c,
            object: u32::from_be_bytes([o0, o1, o2, o3]),
            sequence: u16::from_be_bytes([s0, s1]),
            file_mark_offset: (marks / 4096) as u8,
            file_mark_number: marks % 4096,
            kind: BlockType::from(k / 32),
            early_warning: k / 16 % 2 == 1,
            entities: k % 16,
            back: u32::from_be_bytes([0, l0, l1, l2]),
        }
    }
}

impl Control1 {
    // Reserved and Format.
    fn head(self) -> u32
        ensures { result ≡ join (26 ∷ 6 ∷ []) (self.reserved ∷ self.format ∷ []) }
    {
        self.reserved % 0x400_0000 * 64 + u32::from(self.format % 64)
    }

    // The two file mark fields.
    fn file_marks(self) -> u16
        ensures { result ≡ join (4 ∷ 12 ∷ []) (self.file_mark_offset ∷ self.file_mark_number ∷ []) }
    {
        u16::from(self.file_mark_offset % 16) * 4096 + self.file_mark_number % 4096
    }

    // Block Type, Early Warning and Envelope Size.
    fn kind_byte(self) -> u8
        ensures { result ≡ join (3 ∷ 1 ∷ 4 ∷ []) (number_of self.kind ∷ bit self.early_warning ∷ self.entities ∷ []) }
    {
        u8::from(self.kind) % 8 * 32 + u8::from(self.early_warning) * 16 + self.entities % 16
    }
}

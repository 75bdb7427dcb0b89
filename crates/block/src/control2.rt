// Control Field 2 of a block, taken apart and put together.
ghost use Rattle.std.specs.Prelude.{◌≡◌, ℕ, ◌+◌, ◌*◌, ◌/◌, ◌%◌, [], ◌∷◌};
ghost use Rattle.bits.specs.Fields.{join, bit};
ghost use Rattle.std.proofs.Common.{lit<};
ghost use Rattle.block.specs.Control.{bytes2, control2_of};

use bits::Layout;

// Control Field 2: where a block stands.
#[derive(Clone, Copy, PartialEq, Eq, Debug, Default)]
pub struct Control2 {
    // Reserved, 5 bits.
    pub reserved: u8,
    // Entity Offset, 5 bits: the number of the block in its entity.
    pub offset: u8,
    // Envelope First Object Number, 32 bits.
    pub first: u32,
    // Block Offset, 24 bits: the place of the block.
    pub place: u32,
    // Entity Size, 5 bits: the blocks of the entity.
    pub blocks: u8,
    // First Block, 1 bit: a record starts here.
    pub starts: bool,
    // Entity Number, 8 bits.
    pub entity: u8,
    // Envelope Number, 16 bits.
    pub envelope: u16,
    // Random Tag, 24 bits: the number of the hold.
    pub tag: u32,
    // K, 1 bit.
    pub k: bool,
    // Logical Track Number, 7 bits.
    pub track: u8,
}

impl Layout<16> for Control2 {
    ghost bytes_of = { bytes2 };

    ghost value_of = { control2_of };

    ghost small = { lit< tt };

    fn to_bytes(self) -> [u8; 16] {
        let [_, _, _, _, _, _, _, h0, h1, h2, h3, h4, h5, h6, h7, h8] = self.head().to_be_bytes();
        let [v0, v1] = self.envelope.to_be_bytes();
        let [_, t0, t1, t2] = self.tag.to_be_bytes();
        let e = self.entity;
        let k = self.track_byte();
        [h0, h1, h2, h3, h4, h5, h6, h7, h8, e, v0, v1, t0, t1, t2, k]
    }

    // Fields of bits and no bytes, so by shift and remainder.
    fn read(bytes: &[u8; 16]) -> Control2 {
        #[rattlefmt::skip]
        let [h0, h1, h2, h3, h4, h5, h6, h7, h8, entity, v0, v1, t0, t1, t2, track] = *bytes;
        let head = u128::from_be_bytes([0, 0, 0, 0, 0, 0, 0, h0, h1, h2, h3, h4, h5, h6, h7, h8]);
        Control2 {
            reserved: (head >> 67) as u8,
            offset: ((head >> 62) % 32) as u8,
            first: ((head >> 30) % 0x1_0000_0000) as u32,
            place: ((head >> 6) % 0x100_0000) as u32,
            blocks: ((head >> 1) % 32) as u8,
            starts: head % 2 == 1,
            entity,
            envelope: u16::from_be_bytes([v0, v1]),
            tag: u32::from_be_bytes([0, t0, t1, t2]),
            k: track / 128 == 1,
            track: track % 128,
        }
    }
}

impl Control2 {
    // Everything before the Entity Number.
    fn head(self) -> u128
        ensures { result ≡ join (5 ∷ 5 ∷ 32 ∷ 24 ∷ 5 ∷ 1 ∷ [])
            (self.reserved ∷ self.offset ∷ self.first ∷ self.place ∷ self.blocks ∷ bit self.starts ∷ []) }
    {
        (u128::from(self.reserved % 32) << 67)
            + (u128::from(self.offset % 32) << 62)
            + (u128::from(self.first) << 30)
            + (u128::from(self.place % 0x100_0000) << 6)
            + u128::from(self.blocks % 32) * 2
            + u128::from(self.starts)
    }

    // K and the Logical Track Number.
    fn track_byte(self) -> u8
        ensures { result ≡ join (1 ∷ 7 ∷ []) (bit self.k ∷ self.track ∷ []) }
    {
        u8::from(self.k) * 128 + self.track % 128
    }
}

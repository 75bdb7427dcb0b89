// A MAP entry: what one page of a block is.
ghost use Rattle.std.specs.Prelude.{◌≡◌, [], ◌∷◌};
ghost use Rattle.std.proofs.Common.{lit<};
ghost use Rattle.bits.specs.Fields.{join, bit};
ghost use Rattle.pages.specs.PageType.{number_of};
ghost use Rattle.pages.specs.Entry.{entry_bytes, entry_of};

use crate::page_type::PageType;
use bits::Layout;

// The bytes of an entry.
pub const ENTRY_LEN: usize = 8;

#[derive(Clone, Copy, PartialEq, Eq, Debug, Default)]
pub struct Entry {
    // Page Type, 3 bits.
    pub kind: PageType,
    // N: the record goes on in the next data block.
    pub next: bool,
    // P: the record does not start in this data block.
    pub prev: bool,
    // L: this is the last entry of the map.
    pub last: bool,
    // C: the record is compressed.
    pub compressed: bool,
    // Reserved, 9 bits.
    pub reserved: u16,
    // Page Byte Count, 16 bits.
    pub count: u16,
    // Record Byte Count, 32 bits: the bytes of the whole record.
    pub total: u32,
}

impl Layout<ENTRY_LEN> for Entry {
    ghost bytes_of = { entry_bytes };

    ghost value_of = { entry_of };

    ghost small = { lit< tt };

    fn to_bytes(self) -> [u8; ENTRY_LEN] {
        let [f0, f1] = self.flags().to_be_bytes();
        let [c0, c1] = self.count.to_be_bytes();
        let [t0, t1, t2, t3] = self.total.to_be_bytes();
        [f0, f1, c0, c1, t0, t1, t2, t3]
    }

    // Two bytes of type and flags, two of Page Byte Count, four of Record Byte Count. The flags are bits and no bytes,
    // so by division and remainder.
    fn read(bytes: &[u8; ENTRY_LEN]) -> Entry {
        let [f0, f1, c0, c1, t0, t1, t2, t3] = *bytes;
        let flags = u16::from_be_bytes([f0, f1]);
        Entry {
            kind: PageType::from((flags / 8192) as u8),
            next: flags / 4096 % 2 == 1,
            prev: flags / 2048 % 2 == 1,
            last: flags / 1024 % 2 == 1,
            compressed: flags / 512 % 2 == 1,
            reserved: flags % 512,
            count: u16::from_be_bytes([c0, c1]),
            total: u32::from_be_bytes([t0, t1, t2, t3]),
        }
    }
}

impl Entry {
    // Page Type, the four flags and the reserved bits.
    fn flags(self) -> u16
        ensures { result ≡ join (3 ∷ 1 ∷ 1 ∷ 1 ∷ 1 ∷ 9 ∷ [])
            (number_of self.kind ∷ bit self.next ∷ bit self.prev ∷ bit self.last
            ∷ bit self.compressed ∷ self.reserved ∷ []) }
    {
        u16::from(u8::from(self.kind) % 8) * 8192
            + u16::from(self.next) * 4096
            + u16::from(self.prev) * 2048
            + u16::from(self.last) * 1024
            + u16::from(self.compressed) * 512
            + self.reserved % 512
    }
}

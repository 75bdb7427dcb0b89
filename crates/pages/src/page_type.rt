// Page Type: what a page holds, three bits of its MAP entry.
ghost use Rattle.std.specs.Prelude.{◌≡◌};
ghost use Rattle.pages.specs.PageType.{number_of, type_of};

// Its own enum beside the type of a block: a trait for both would be longer than what they share. It has a case for
// each number, in their order, so that each type that three bits hold has a number of its own and comes back from it.
#[derive(Clone, Copy, PartialEq, Eq, Debug)]
pub enum PageType {
    // 0: no page of this format, as all that are called `Other`.
    Other0,
    // 1: bytes that only fill the block up.
    Filler,
    // 2: bytes of a record.
    Data,
    // 3: a tape mark.
    TapeMark,
    Other4,
    Other5,
    Other6,
    Other7,
    // A number that three bits don't hold, from 8 on; as of any value wider than its field the low bits are written.
    Wide(u8),
}

// Where nothing is said the bits are ZERO.
impl Default for PageType {
    ghost is_default = { λ t. t ≡ type_of 0 };

    fn default() -> PageType {
        PageType::from(0)
    }
}

// The low three bits of the number decide.
impl From<u8> for PageType {
    ghost from_gives = { λ n t. t ≡ type_of n };

    fn from(number: u8) -> PageType {
        match number % 8 {
            1 => PageType::Filler,
            2 => PageType::Data,
            3 => PageType::TapeMark,
            4 => PageType::Other4,
            5 => PageType::Other5,
            6 => PageType::Other6,
            7 => PageType::Other7,
            _ => PageType::Other0,
        }
    }
}

impl From<PageType> for u8 {
    ghost from_gives = { λ t n. n ≡ number_of t };

    fn from(kind: PageType) -> u8 {
        match kind {
            PageType::Other0 => 0,
            PageType::Filler => 1,
            PageType::Data => 2,
            PageType::TapeMark => 3,
            PageType::Other4 => 4,
            PageType::Other5 => 5,
            PageType::Other6 => 6,
            PageType::Other7 => 7,
            PageType::Wide(number) => number.max(8),
        }
    }
}

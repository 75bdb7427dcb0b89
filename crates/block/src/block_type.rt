// Block Type: what a block is, three bits of Control Field 1.
ghost use Rattle.std.specs.Prelude.{◌≡◌};
ghost use Rattle.block.specs.BlockType.{type_of, number_of};

// Its own enum beside the type of a page: a trait for both would be longer than what they share. It has a case for
// each number, in their order, so that each type that three bits hold has a number of its own and comes back from it.
#[derive(Clone, Copy, PartialEq, Eq, Debug)]
pub enum BlockType {
    // 0: no block of this format, as all that are called `Other`.
    Other0,
    // 1: it holds pages.
    Data,
    Other2,
    Other3,
    // 4: it stands behind the last data.
    End,
    // 5: it holds check words.
    Check,
    Other6,
    Other7,
    // A number that three bits don't hold, from 8 on; as of any value wider than its field the low bits are written.
    Wide(u8),
}

// Where nothing is said the bits are ZERO.
impl Default for BlockType {
    ghost is_default = { λ t. t ≡ type_of 0 };

    fn default() -> BlockType {
        BlockType::from(0)
    }
}

// The low three bits of the number decide.
impl From<u8> for BlockType {
    ghost from_gives = { λ n t. t ≡ type_of n };

    fn from(number: u8) -> BlockType {
        match number % 8 {
            1 => BlockType::Data,
            2 => BlockType::Other2,
            3 => BlockType::Other3,
            4 => BlockType::End,
            5 => BlockType::Check,
            6 => BlockType::Other6,
            7 => BlockType::Other7,
            _ => BlockType::Other0,
        }
    }
}

impl From<BlockType> for u8 {
    ghost from_gives = { λ t n. n ≡ number_of t };

    fn from(kind: BlockType) -> u8 {
        match kind {
            BlockType::Other0 => 0,
            BlockType::Data => 1,
            BlockType::Other2 => 2,
            BlockType::Other3 => 3,
            BlockType::End => 4,
            BlockType::Check => 5,
            BlockType::Other6 => 6,
            BlockType::Other7 => 7,
            BlockType::Wide(number) => number.max(8),
        }
    }
}

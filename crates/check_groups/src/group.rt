// One group of the four-check code: four words and the check words before them become the check words behind.
ghost use Rattle.std.specs.Prelude.{◌≡◌, ◌<◌};
ghost use Rattle.check_groups.specs.Groups.{next_words, products};

use crate::tables::product;

// The check words of what came before and this group.
pub fn next(state: [u16; 4], group: [u16; 4]) -> [u16; 4]
    ensures { result ≡ next_words state group }
{
    // Four terms by hand: a fold over the positions would zip two arrays and count, and be no shorter.
    let all = products(0, state[0] ^ group[0])
        ^ products(1, state[1] ^ group[1])
        ^ products(2, state[2] ^ group[2])
        ^ products(3, state[3] ^ group[3]);
    let [a, b, c, d, e, f, g, h] = all.to_le_bytes();
    [
        u16::from_le_bytes([a, b]),
        u16::from_le_bytes([c, d]),
        u16::from_le_bytes([e, f]),
        u16::from_le_bytes([g, h]),
    ]
}

// The products of a word, in one number of sixteen bits each.
fn products(position: usize, x: u16) -> u64
    requires { position < 4 }
    ensures { result ≡ products position x }
{
    let [low, high] = x.to_le_bytes();
    product(position, 0, low) ^ product(position, 1, high)
}

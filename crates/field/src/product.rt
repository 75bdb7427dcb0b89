// The product of two-byte words by tables: four bits of one factor at a time, and what stands too high is put back.
ghost use Rattle.std.specs.Prelude.{◌≡◌, ◌<◌};
ghost use Rattle.field.specs.Polynomials.{stands_for, times, word_product};

use crate::tables::{above, nibble_times_byte};

// Modulo 1100Bh, for every word. A loop over the four places would need a shift and a step, and say no more.
pub(crate) fn multiply(a: u16, b: u16) -> u16
    ensures { result ≡ word_product a b }
{
    let all = by_nibble(a, b % 16)
        ^ (by_nibble(a, b / 16 % 16) * 16)
        ^ (by_nibble(a, b / 256 % 16) * 256)
        ^ (by_nibble(a, b / 4096 % 16) * 4096);
    put_back(all)
}

// A word times four bits, with nothing reduced.
fn by_nibble(a: u16, n: u16) -> u32
    requires { n < 16 }
    ensures value { result ≡ times 15 0 4 a n }
    ensures narrow { result < 1048576 }
{
    let [low, high] = a.to_le_bytes();
    u32::from(nibble_times_byte(n, low)) ^ (u32::from(nibble_times_byte(n, high)) * 256)
}

// The word that stands for v modulo the polynomial.
fn put_back(v: u32) -> u16
    ensures { result ≡ stands_for v }
{
    let [low, high, above_16, above_24] = v.to_le_bytes();
    u16::from_le_bytes([low, high]) ^ above(0, above_16) ^ above(1, above_24)
}

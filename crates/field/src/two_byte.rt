// The field of two-byte words: products are those of polynomials modulo 1100Bh.
ghost use Rattle.std.specs.Prelude.{◌≡◌};
ghost use Rattle.field.specs.Polynomials.{word_field, word_inverse, word_product};
ghost use Rattle.field.specs.Sums.{power};
ghost use Rattle.field.specs.TwoFields.{field16, differ16};
ghost use Rattle.std.proofs.Common.{lit≤};

use crate::laws::Field;
use crate::points::{near_gap, near_point};
use crate::product::multiply;

#[derive(Clone, Copy)]
pub struct TwoByte;

impl Field for TwoByte {
    ghost means = { λ _. word_field };

    ghost narrow = { λ _. (lit≤ tt, lit≤ tt) };

    ghost lawful = { unfold word_product word_inverse in λ f. field16 };

    ghost apart = { unfold word_product in λ f. differ16 };

    fn width(&self) -> u32 {
        16
    }

    fn product(&self, a: u16, b: u16) -> u16 {
        multiply(a, b)
    }

    fn inverse(&self, a: u16) -> u16 {
        reciprocal(a)
    }

    fn point(&self, i: usize) -> u16 {
        point_at(i)
    }

    fn gap(&self, i: usize, k: usize) -> u16 {
        if i < 20 && k < 20 {
            near_gap(i, k)
        } else {
            reciprocal(point_at(i) ^ point_at(k))
        }
    }
}

// a to the power 65,534, by squaring: the word that a times it is 1, for a other than 0.
fn reciprocal(a: u16) -> u16
    ensures { result ≡ word_inverse a }
{
    let mut square = multiply(a, a);
    let mut product = 1;
    // Fifteen turns, with nothing to walk along.
    for _ in 0..15u32 {
        product = multiply(product, square);
        square = multiply(square, square);
    }
    product
}

// 0002h to the power i; the first twenty are the points of a column.
fn point_at(i: usize) -> u16
    ensures { result ≡ power word_product 2 i }
{
    if i < 20 {
        return near_point(i);
    }
    let mut x = 1;
    // i turns, with nothing to walk along.
    for _ in 0..i {
        x = multiply(2, x);
    }
    x
}

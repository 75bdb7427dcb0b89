// The EDC of a Data Field.
ghost use Rattle.std.specs.Prelude.{◌≡◌, ◌+◌, ◌*◌, bit_xor};
ghost use Rattle.block.specs.Edc.{turned, edc};

// The value that the sum starts from.
const START: u16 = 0x45;

// The EDC of some bytes; a last byte alone is a word.
pub fn edc_of(bytes: &[u8]) -> u16
    ensures { result ≡ edc bytes.now }
{
    let (pairs, last) = bytes.as_chunks::<2>();
    let mut sum = START;
    for [low, high] in pairs {
        sum = take_in(sum, *low, *high);
    }
    match last {
        [low] => take_in(sum, *low, 0),
        _ => sum,
    }
}

// The sum after one word more: the word is exclusive-ored in, and the sum turns by one bit to the left.
fn take_in(sum: u16, low: u8, high: u8) -> u16
    ensures { result ≡ turned (bit_xor sum (low + 256 * high)) }
{
    turn(sum ^ u16::from_le_bytes([low, high]))
}

// One bit position leftwards, the high bit to the low end.
fn turn(word: u16) -> u16
    ensures { result ≡ turned word }
{
    word.rotate_left(1)
}

// Bytes to compare with: every place has its own, by a rule that a reader can repeat.
ghost use Rattle.std.specs.Prelude.{◌≡◌, ℕ, ◌^◌, ◌<◌, length, slice_index};
ghost use Rattle.vectors.specs.Filling.{fill_byte};

// The byte at one place.
fn byte_at(seed: u8, place: usize) -> u8
    requires { place < 2 ^ 32 }
    ensures { result ≡ fill_byte seed place }
{
    ((seed as usize * 131 + place * 7 + place / 251) % 256) as u8
}

// Fills the bytes from the first on.
pub fn fill(bytes: &mut [u8], seed: u8)
    requires { length bytes.old < 2 ^ 32 }
    ensures { (k : ℕ) → k < length bytes.new → slice_index bytes.new k ≡ fill_byte seed k }
{
    for (place, byte) in bytes.iter_mut().enumerate() {
        *byte = byte_at(seed, place);
    }
}

// A record of fields of bits that stands in a fixed number of bytes. That reading undoes writing, and writing reading,
// is stated of each layout in its own crate, where the proofs call tactics.
ghost use Rattle.std.specs.Prelude.{◌≡◌, ◌^◌, ◌<◌, List, ℕ};
ghost use Rattle.bits.specs.Fields.{sized};

pub trait Layout<const N: usize>: Sized + Drop {
    // The bytes of a value, and the value in some bytes.
    ghost bytes_of: { Self → List ℕ };

    ghost value_of: { List ℕ → Self };

    // The bytes of the fields; a value wider than its bits keeps its low ones.
    fn to_bytes(self) -> [u8; N]
        ensures { result ≡ bytes_of self };

    // The value in N bytes.
    fn read(bytes: &[u8; N]) -> Self
        ensures { result ≡ value_of bytes.now };

    // The value in some bytes; nothing for any other number of bytes.
    fn from_bytes(bytes: &[u8]) -> Option<Self>
        ensures { result ≡ sized N bytes.now (value_of bytes.now) }
    {
        Some(Self::read(bytes.as_array()?))
    }

    // So many bytes can be an array.
    ghost small: { N < 2 ^ 63 };
}

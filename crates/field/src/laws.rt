// What a field of words is, and that two-byte words and bytes are fields by one argument.
ghost use Rattle.std.specs.Prelude.{◌≡◌, ℕ, ◌≤◌};
ghost use Rattle.field.specs.Polynomials.{product as modulo, inverse as opposite};
ghost use Rattle.field.specs.Laws.{Arithmetic, FieldLaws, IsField, PowersDiffer, gap_of, point_of};

// A field whose elements are the words of `width` bits, at most sixteen; its sum is exclusive-or.
pub trait Field {
    ghost means: { Self → Arithmetic };

    fn width(&self) -> u32
        ensures { result ≡ (means self.now).wide };

    fn product(&self, a: u16, b: u16) -> u16
        ensures { result ≡ (means self.now).times a b };

    fn inverse(&self, a: u16) -> u16
        ensures { result ≡ (means self.now).over a };

    // The point of position i of a column: 2 to the power i.
    fn point(&self, i: usize) -> u16
        ensures { result ≡ point_of (means self.now) i };

    // The inverse of the difference of two points.
    fn gap(&self, i: usize, k: usize) -> u16
        ensures { result ≡ gap_of (means self.now) i k };

    ghost narrow: { (f : Self) → (2 ≤ (means f).wide) × ((means f).wide ≤ 16) };

    ghost lawful: { (f : Self) → IsField (means f) };

    // The twenty positions of a column get different powers of 2.
    ghost apart: { (f : Self) → PowersDiffer (means f).times 2 20 };
}

// Does nothing: its contract states the laws of the two-byte field and of the byte field.
pub fn fields_stand()
    ensures words { FieldLaws 16 (modulo 15 0x1100B) (opposite 15 0x1100B) }
    ensures bytes { FieldLaws 8 (modulo 7 0x11D) (opposite 7 0x11D) }
    ensures powers { (PowersDiffer (modulo 15 0x1100B) 2 20) × (PowersDiffer (modulo 7 0x11D) 2 20) }
{}

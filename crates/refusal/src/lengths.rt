// The lengths of the buffers that calls are lent, and the refusal of any other length.
ghost use Rattle.std.specs.Prelude.{◌≡◌, ◌≢◌, [], ◌∷◌, length, MatchResult};
ghost use Rattle.refusal.specs.Tells.{tells, told};
ghost use Rattle.refusal.specs.Lengths.{of_length};

use crate::Refusal;

// The bytes of a block.
pub const BLOCK_LEN: usize = 8256;
// The bytes of a work area: twenty blocks.
pub const WORK_LEN: usize = 20 * BLOCK_LEN;

// Refuses a length other than the wanted one.
pub fn check_length(found: usize, wanted: usize) -> Result<(), Refusal>
    ensures { told result ≡ of_length wanted found tt }
{
    if found != wanted {
        return Err(Refusal::WrongLength(found));
    }
    Ok(())
}

// The buffer as an array; a buffer of another length is refused.
pub fn exactly<const N: usize>(bytes: &[u8]) -> Result<&[u8; N], Refusal>
    ensures answer { MatchResult result
        (λ a. (length bytes.now ≡ N) × (a.now ≡ bytes.now))
        (λ e. (length bytes.now ≢ N) × (tells e ≡ (1, length bytes.now ∷ []))) }
{
    bytes.as_array().ok_or(Refusal::WrongLength(bytes.len()))
}

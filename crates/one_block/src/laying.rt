// A block while its pages are laid.
ghost use Rattle.std.specs.Prelude.{◌≤◌};

use block::BLOCK_LEN;

// A block in the making: the bytes of its Data Field from `front` to `back` are still free.
#[derive(Drop)]
pub struct Laying {
    pub(crate) block: [u8; BLOCK_LEN],
    pub(crate) front: usize,
    pub(crate) back: usize,
    ghost in_order: { front ≤ back },
    ghost in_field: { back ≤ 8208 },
}

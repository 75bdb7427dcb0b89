// The block of a DLT 5 tape: its control fields, how it is made and sealed, and when it is sound.
#![tactic(auto)]

mod block_type;
mod control1;
mod control2;
mod edc;
mod header;
mod laws;
mod layout;
mod seal;
mod sound;

pub use block_type::BlockType;
pub use control1::Control1;
pub use control2::Control2;
pub use edc::edc_of;
pub use header::{DataHeader, EndHeader};
pub use laws::{blocks_stand, controls_stand};
pub use layout::FIELD_LEN;
pub use refusal::BLOCK_LEN;
pub use seal::{make_check, make_data, make_end};
pub use sound::{is_sound, read_control1, read_control2};

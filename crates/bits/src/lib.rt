// Fields of bits in bytes: the words that every layout of the format is stated in, and their laws.
#![tactic(auto)]

mod layout;

ghost use Rattle.bits.specs.Fields.{DecodeNarrows, DecodeEncode, EncodeDecode};

pub use layout::Layout;

// Does nothing: its contract states that fields of any widths go into bytes and come out again.
pub fn layouts_stand()
    ensures narrows { DecodeNarrows }
    ensures decodes { DecodeEncode }
    ensures encodes { EncodeDecode }
{}

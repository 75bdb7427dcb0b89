// Where the parts of a block stand.

// The bytes of the Data Field, from 0 on.
pub const FIELD_LEN: usize = 8208;
// Where the EDC stands, two bytes, with two zero bytes behind it.
pub(crate) const EDC_AT: usize = 8208;
// Where Control Field 1 stands, 20 bytes.
pub(crate) const CONTROL1_AT: usize = 8212;
// Where the last four bytes of Control Field 1 stand.
pub(crate) const KIND_AT: usize = 8228;
// Where Control Field 2 stands, 16 bytes.
pub(crate) const CONTROL2_AT: usize = 8232;
// Where the CRC stands, eight bytes.
pub(crate) const CRC_AT: usize = 8248;

// The editions of Kaori. Document 02, L14: 'The caller names edition 1 or 2.' They stay numbers, as the C interface takes them.
pub const FIRST: u32 = 1;

pub const SECOND: u32 = 2;

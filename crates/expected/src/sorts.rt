// The sorts of open constructs, which are those that the depth counts: document 02, L2. A sign is a prefix `+`, `-` or `^`, in edition 2 a `not` too.
pub const EXPRESSION: u32 = 0;

pub const BLOCK: u32 = 1;

pub const IF: u32 = 2;

pub const SIGN: u32 = 3;

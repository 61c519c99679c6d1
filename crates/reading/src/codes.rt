// Why reading ends, by name: document 01's numbers. They are no enum, since a refusal's code and kind go out to C as the numbers that they are (`refused_numbers` of syntax).
pub const NO_ROOM: u32 = 4;

pub const KIND_REQUIRED: u32 = 8;

pub const OPERAND_REQUIRED: u32 = 9;

pub const STARTS_WITH_FOR: u32 = 10;

pub const TOO_DEEP: u32 = 11;

// Where no certain kind was required.
pub const NO_KIND: u32 = 255;

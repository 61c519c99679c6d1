#![tactic(auto)]
// What is told of a refusal: its text, and the line and column of its place.
pub mod line;
pub mod reason;
pub mod text;

// The answer of `text::message` and of `reason::reason`: 0, or refusal 13; and how many bytes were written.
// Numbers, and no Result: the C interface hands them on as they stand (station's `kaori_message` and `kaori_reason`; `MessageGiven`, `ReasonGiven`).
#[derive(Drop)]
pub struct Message {
    pub code: u32,
    pub length: usize,
}

// The answer of `line::place`: 0, or refusal 2 or 14; line and column from 1, or 0 where it is refused.
// Numbers, and no Result: the C interface hands the three on as they stand (station's `kaori_place`; `Placed`).
#[derive(Clone, Copy)]
pub struct Place {
    pub code: u32,
    pub line: u32,
    pub column: u32,
}

#![tactic(auto)]
// A line of output: its room holds what is not written yet, and how much of the room is filled is the line's column for as long as the line fits. A room that is full is
// written out, so that nothing is cut.
pub mod hint;
pub mod json;
pub mod source;
pub mod visible;
pub mod words;
mod writing;

ghost use Rattle.std.specs.Prelude.{◌≤◌};

// What is not written yet of a line: the first bytes of a room. It is written to a descriptor.
#[derive(Drop)]
pub struct Line {
    room: [u8; 4096],
    at: usize,
    to: i32,
    ghost fits: { at ≤ 4096 },
}

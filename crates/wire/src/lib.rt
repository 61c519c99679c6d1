#![tactic(auto)]
// The bytes that the program `rows` reads and prints.
pub mod input;
pub mod output;

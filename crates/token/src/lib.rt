#![tactic(auto)]
// Tokens of a list, and operators: a port of ops.rs. And the editions of the language, and what a call reads.
pub mod editions;
pub mod kinds;
pub mod list;
pub mod ops;
pub mod profiles;

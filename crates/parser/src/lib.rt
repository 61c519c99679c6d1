#![tactic(auto)]
// The readers that call each other: a port of parser.rs. A reader takes what it reads from a cursor on, writes the rows of it to the lent rooms, and answers a node
// and the cursor after it, or the first refusal.
pub mod readers;

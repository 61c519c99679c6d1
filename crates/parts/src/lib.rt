#![tactic(auto)]
// A script as a sequence of root statements, and rows that are packed or moved: what is meant by that, and what is proved of it. There is no code here.

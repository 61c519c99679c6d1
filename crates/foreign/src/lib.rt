#![tactic(auto)]
// Rows that another build wrote: what has to hold of them, and what is proved of that. There is no code here.

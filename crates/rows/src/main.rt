#![tactic(auto)]
// The program of document 01: reads standard input to its end, and prints what its script's rows or its refusal are.
use listing::{answer, blank};

// No good input has more than 13,830 bytes, so what is read here of one that does not fit is bad too.
fn main() {
    let mut input = io::large_buffer();
    let mut out = blank();
    let n = io::read_full(0, &mut input);
    let k = answer(&input[..n], &mut out);
    io::write_all(1, &out[..k]);
}

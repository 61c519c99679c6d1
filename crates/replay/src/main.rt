#![tactic(auto)]
// Replays the Rust's answers: a stream of frames, of a case and its answer in turn. Prints how many of them the program `rows` agrees with.
use frames::read;
use listing::{answer, blank};

// Answers one case and says whether the answers agree; None if no case is left.
fn agrees(case: &mut [u8], given: &mut [u8], out: &mut [u8; 262144]) -> Option<bool> {
    let n = read(case)?;
    let m = read(given)?;
    let k = answer(&case[..n], out);
    Some(out[..k] == given[..m])
}

// At most 1,000,000 cases.
fn main() {
    let mut case = io::large_buffer();
    let mut given = blank();
    let mut out = blank();
    let mut agree = 0;
    let mut all = 0;
    for _ in 0..1000000u32 {
        let Some(same) = agrees(&mut case, &mut given, &mut out) else {
            break;
        };
        agree += u64::from(same);
        all += 1;
    }
    io::print_decimal(1, agree);
    io::write_all(1, b" of ");
    io::print_decimal(1, all);
    io::write_all(1, b" agree\n");
}

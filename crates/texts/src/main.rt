#![tactic(auto)]
// Answers a stream of texts, each in a frame, by a stream of frames: what the token maker answers, and what it leaves in the list room.
use frames::numbers::{mark, put_all};
use frames::{each, write};
use lexer::lex;
use wire::input::four;

// The most numbers of the list room, and the bytes of the largest case, of a text of 65,537 bytes, one more than the token maker reads, and of the largest answer.
const LIST: usize = 12400;

const CASE: usize = 65541;

const ANSWER: usize = 49624;

// Answers one case: four bytes with how many numbers the list room has, 12,400 at most, and then the text. Says whether it is one and the answer was written: the answer's
// six numbers and all of the room, which is marked before.
fn answered(case: &[u8], list: &mut [u32; LIST], out: &mut [u8; ANSWER]) -> bool {
    if case.len() < 4 {
        return false;
    }
    let size = four(case, 0) as usize;
    let Some(list) = list.get_mut(..size) else {
        return false;
    };
    mark(list);
    let a = lex(&case[4..], list);
    let numbers = [a.code, a.count, a.at, a.start, a.end, a.expected];
    let at = put_all(&numbers, out, 0);
    let end = put_all(list, out, at);
    write(&out[..end])
}

fn main() {
    let mut room = [0; CASE];
    let mut list = [0; LIST];
    let mut out = [0; ANSWER];
    each(&mut room, |case| answered(case, &mut list, &mut out));
}

#![tactic(auto)]
// Answers a stream of row sets, each in a frame, by a stream of frames: what the check of rows that another build wrote answers, and what it leaves in the scratch room.
// A case is numbers of four bytes: the edition, how many rows of nodes, links and symbols there are said to be, how many numbers their rooms and the scratch room have, and
// then all numbers of nodes, of links and of symbols.
use checker::check;
use frames::numbers::{put_all, take_all};
use frames::{each, write};

// The most numbers of each room.
const NODES: usize = 4100;

const LINKS: usize = 1300;

const SYMBOLS: usize = 130;

const SCRATCH: usize = 3100;

// The bytes of a case before its rows, of the largest case, and of the largest answer.
const HEAD: usize = 32;

const CASE: usize = 22152;

const ANSWER: usize = 12412;

// The rooms of all cases, and what is answered.
#[derive(Drop)]
struct Rooms {
    nodes: [u32; NODES],
    links: [u32; LINKS],
    symbols: [u32; SYMBOLS],
    scratch: [u32; SCRATCH],
    out: [u8; ANSWER],
}

// Answers a case in parts of the rooms, of the sizes that it tells, and says whether it is one and the answer was written. Each number of the scratch room is 7 before the check.
fn answered(case: &[u8], rooms: &mut Rooms) -> bool {
    if case.len() < HEAD {
        return false;
    }
    let mut head = [0; 8];
    let from = take_all(case, 0, &mut head);
    let [edition, n, m, s, a, b, c, d] = head;
    let Rooms {
        nodes,
        links,
        symbols,
        scratch,
        out,
    } = rooms;
    let (Some(nodes), Some(links), Some(symbols), Some(scratch)) = (
        nodes.get_mut(..a as usize),
        links.get_mut(..b as usize),
        symbols.get_mut(..c as usize),
        scratch.get_mut(..d as usize),
    ) else {
        return false;
    };
    if case.len() != from + 4 * (nodes.len() + links.len() + symbols.len()) {
        return false;
    }
    let from = take_all(case, from, nodes);
    let from = take_all(case, from, links);
    take_all(case, from, symbols);
    scratch.fill(7);
    let v = check(nodes, links, symbols, n, m, s, edition, scratch);
    let at = put_all(&[v.code, v.rule, v.row], out, 0);
    let end = put_all(scratch, out, at);
    write(&out[..end])
}

fn main() {
    let mut room = [0; CASE];
    let mut rooms = Rooms {
        nodes: [0; NODES],
        links: [0; LINKS],
        symbols: [0; SYMBOLS],
        scratch: [0; SCRATCH],
        out: [0; ANSWER],
    };
    each(&mut room, |case| answered(case, &mut rooms));
}

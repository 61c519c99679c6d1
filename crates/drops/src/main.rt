#![tactic(auto)]
// Answers a stream of calls that drop statements, each in a frame, by a stream of frames: the answer's six numbers, and what the call leaves in the rooms of nodes, links, symbols
// and scratch. A frame is numbers of four bytes: the edition, how many rows of nodes, links and symbols there are said to be, and how many of the symbols are built-in names; how many
// numbers the four rooms have, and how many bytes the choice. Then stand all numbers of nodes, of links and of symbols, and the choice.
use frames::numbers::{lend, put_all, take_all};
use frames::{each, write};
use packing::drop;

// The most numbers of each room, and the most bytes of a choice.
const NODES: usize = 4100;

const LINKS: usize = 1300;

const SYMBOLS: usize = 130;

const SCRATCH: usize = 3100;

const CHOICE: usize = 440;

// The bytes of a frame before its rows, of the largest frame, and of the largest answer.
const HEAD: usize = 40;

const FRAME: usize = 22600;

const ANSWER: usize = 34544;

// Answers a frame in rooms of the sizes that it tells, and says whether it is one and the answer was written. Each number of the scratch room is 7 before the call.
fn answered(case: &[u8], out: &mut [u8; ANSWER]) -> bool {
    if case.len() < HEAD {
        return false;
    }
    let mut head = [0; 10];
    let from = take_all(case, 0, &mut head);
    let [edition, n, m, s, builtins, a, b, c, d, chosen] = head;
    let mut nodes = [0; NODES];
    let mut links = [0; LINKS];
    let mut symbols = [0; SYMBOLS];
    let mut scratch = [0; SCRATCH];
    let nodes = lend(&mut nodes, a);
    let links = lend(&mut links, b);
    let symbols = lend(&mut symbols, c);
    let scratch = lend(&mut scratch, d);
    let rows = 4 * (nodes.len() + links.len() + symbols.len());
    if case.len() != from + rows + CHOICE.min(chosen as usize) {
        return false;
    }
    let from = take_all(case, from, nodes);
    let from = take_all(case, from, links);
    let from = take_all(case, from, symbols);
    scratch.fill(7);
    let p = drop(
        nodes,
        links,
        symbols,
        n,
        m,
        s,
        builtins,
        edition,
        &case[from..],
        scratch,
    );
    let numbers = [p.code, p.nodes, p.links, p.symbols, p.rule, p.row];
    let at = put_all(&numbers, out, 0);
    let at = put_all(nodes, out, at);
    let at = put_all(links, out, at);
    let at = put_all(symbols, out, at);
    let end = put_all(scratch, out, at);
    write(&out[..end])
}

fn main() {
    let mut room = [0; FRAME];
    let mut out = [0; ANSWER];
    each(&mut room, |case| answered(case, &mut out));
}

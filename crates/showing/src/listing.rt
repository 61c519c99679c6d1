// The listing of the program `rows`, line by line.
ghost use Rattle.showing.specs.Listed.{Some};

use ast::{LINK_WIDTH, NODE_WIDTH};
use builtins::NAME_WIDTH;
use page::Line;
use wire::output::{numbers, refused, row};

// The lines of the first n rows of a room.
fn lines(lead: &[u8], width: usize, source: &[u32], n: usize, line: &mut Line)
    requires { Some lead.now width source.now n }
{
    for i in 0..n {
        let mut room = [0u8; 128];
        let k = row(lead, width, source, i, &mut room, 0);
        line.put(&room[..k]);
        line.write();
    }
}

// The listing of a script that is read.
pub fn list_rows(
    nodes: &[u32],
    links: &[u32],
    symbols: &[u32],
    n: u32,
    l: u32,
    s: u32,
    line: &mut Line,
) {
    let counts = [n, l, s];
    let mut room = [0u8; 128];
    let k = numbers(&counts, &mut room, 0);
    line.put(b"ok");
    line.put_line(&room[..k]);
    let a = n as usize;
    if NODE_WIDTH * a <= nodes.len() {
        lines(b"", NODE_WIDTH, nodes, a, line);
    }
    let b = l as usize;
    if LINK_WIDTH * b <= links.len() {
        lines(b"link ", LINK_WIDTH, links, b, line);
    }
    let c = s as usize;
    if NAME_WIDTH * c <= symbols.len() {
        lines(b"sym ", NAME_WIDTH, symbols, c, line);
    }
}

// The listing of a refusal.
pub fn list_refusal(
    tokens: &[u32],
    code: u32,
    at: u32,
    start: u32,
    end: u32,
    expected: u32,
    line: &mut Line,
) {
    let mut room = [0u8; 256];
    let k = refused(tokens, code, at, start, end, expected, &mut room);
    line.put(&room[..k]);
    line.write();
}

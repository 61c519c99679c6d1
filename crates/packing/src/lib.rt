#![tactic(auto)]
// Rows without some of the root's statements, packed to the front in place. Rows that another build wrote are packed too: they are checked first. Linear: no pass looks at a
// number more than a few times.
mod hear;
mod keep;
mod maps;
mod pack;
mod roles;
mod rows;
mod stack;

ghost use Rattle.std.specs.Prelude.{◌≡◌};
ghost use Rattle.packing.specs.Answer.{turned as turned_by, Settleable, Settled, rooms, asked, Tells};
ghost use Rattle.packing.specs.Roles.{rows};

use crate::hear::hear_all;
use crate::keep::keep;
use crate::pack::pack;
use crate::rows::Rows;
use ast::room::clear;
use ast::{LINK_WIDTH, NODE_WIDTH};
use checker::check;

// The numbers of a symbol row.
const SYMBOL_WIDTH: usize = 2;

const UNKNOWN: u32 = 15;

const MISCOUNTED: u32 = 20;

// The answer: code 0 and the rows that are left; or a refusal's code, and for 22 the first failed rule and the first row that breaks it.
// Six numbers, as the C interface has them: `kaori_drop` of crate station hands them on, and `Packs` names them.
#[derive(Clone, Copy)]
pub struct Packed {
    pub code: u32,
    pub nodes: u32,
    pub links: u32,
    pub symbols: u32,
    pub rule: u32,
    pub row: u32,
}

fn turned(code: u32, rule: u32, row: u32) -> Packed
    ensures { result ≡ turned_by code rule row }
{
    Packed {
        code,
        nodes: 0,
        links: 0,
        symbols: 0,
        rule,
        row,
    }
}

// Rows that keep the rules, packed; the freed ones are zero. The rooms hold nothing else.
// Ruled out: a freed row that is left; counts of the old rows.
fn settle(
    nodes: &mut [u32],
    links: &mut [u32],
    symbols: &mut [u32],
    n: u32,
    s: u32,
    builtins: u32,
    choice: &[u8],
    scratch: &mut [u32],
) -> Packed
    requires { Settleable (rows nodes.old links.old) symbols.old n s builtins choice.now scratch.old }
    ensures { Settled (rows nodes.old links.old) symbols.old builtins choice.now nodes.new links.new symbols.new result }
{
    let root = n as usize - 1;
    let first = nodes[NODE_WIDTH * root + 3] as usize;
    let rows = Rows { nodes, links };
    let known = hear_all(rows, symbols, scratch, s, builtins, first, choice);
    let (words, rest) = scratch.split_at_mut(s as usize);
    let places = &mut rest[..n as usize];
    keep(rows, choice, first, places);
    let high = places[root] as usize + 1;
    let long = pack(nodes, links, words, places, known, choice, first, root);
    clear(nodes, NODE_WIDTH * high);
    clear(links, LINK_WIDTH * long);
    clear(symbols, SYMBOL_WIDTH * (known as usize));
    Packed {
        code: 0,
        nodes: high as u32,
        links: long as u32,
        symbols: known,
        rule: 0,
        row: 0,
    }
}

// Keeps those of the root's statements whose number in the choice is not 0: their rows, links and symbols are packed to the front of the rooms, and the freed ones are zero. It looks at the first
// rows of each room, as the counts n, m and s say; the first `builtins` symbols are built-in names and stay. The scratch room, of which it asks two numbers for each node and link
// row and one for each symbol, is zero afterwards, unless the answer is 15 or 21.
// Ruled out: symbols under their old numbers; a symbol's first place in a dropped statement; a freed row that is left.
pub fn drop(
    nodes: &mut [u32],
    links: &mut [u32],
    symbols: &mut [u32],
    n: u32,
    m: u32,
    s: u32,
    builtins: u32,
    edition: u32,
    choice: &[u8],
    scratch: &mut [u32],
) -> Packed
    ensures { Tells (asked n m s builtins edition choice.now (rooms nodes.old links.old symbols.old scratch.old)) (rooms nodes.new links.new symbols.new scratch.new) result }
{
    if builtins > s {
        return turned(UNKNOWN, 0, 0);
    }
    if scratch.len() < 2 * (n as usize) + 2 * (m as usize) + (s as usize) {
        return turned(UNKNOWN, 0, 0);
    }
    let v = check(nodes, links, symbols, n, m, s, edition, scratch);
    if v.code != 0 {
        return turned(v.code, v.rule, v.row);
    }
    let high = NODE_WIDTH * (n as usize);
    if choice.len() != nodes[high - NODE_WIDTH + 4] as usize {
        return turned(MISCOUNTED, 0, 0);
    }
    let long = LINK_WIDTH * (m as usize);
    let wide = SYMBOL_WIDTH * (s as usize);
    let p = settle(
        &mut nodes[..high],
        &mut links[..long],
        &mut symbols[..wide],
        n,
        s,
        builtins,
        choice,
        scratch,
    );
    clear(scratch, 0);
    p
}

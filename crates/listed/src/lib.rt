#![tactic(auto)]
// A listing, as the program `rows` and the command print it, read back into rooms; and what is said of its rows.
pub mod digits;
pub mod judging;
mod line;

ghost use Rattle.std.specs.Prelude.{◌≤◌};

use ast::{LINK_WIDTH, NODE_WIDTH};
use builtins::NAME_WIDTH;
use line::{at_row, counts, rows};

// What is wrong with a text that is no listing: its first line; counts for which there are no rooms; the line of a row, of a link, of a symbol, or that there is one too many.
#[derive(Clone, Copy, PartialEq, Eq)]
pub enum Fault {
    Head,
    Large,
    Row,
    Link,
    Symbol,
    More,
}

// Why a text is no listing: what is wrong; the line where, from 1 on; the number of the row that should stand there; and whether the text ends before it.
#[derive(Clone, Copy)]
pub struct Wrong {
    pub fault: Fault,
    pub line: u32,
    pub row: u32,
    pub ends: bool,
}

// The most rows and links, and the most symbols.
const MOST: u32 = 4096;

const MOST_SYMBOLS: u32 = 4160;

// A listing that was read: how many rows of nodes, links and symbols it has.
#[derive(Clone, Copy)]
pub struct Listed {
    pub nodes: u32,
    pub links: u32,
    pub symbols: u32,
}

// The rows of a listing behind its first line, where there are so many.
fn read_rows(
    text: &[u8],
    l: Listed,
    nodes: &mut [u32; 40960],
    links: &mut [u32; 12288],
    symbols: &mut [u32; 8320],
) -> Result<(), Wrong>
    requires { (l.nodes ≤ 4096) × (l.links ≤ 4096) × (l.symbols ≤ 4160) }
{
    let n = 1 + l.nodes;
    let m = n + l.links;
    let text = rows(text, b"", NODE_WIDTH, l.nodes, nodes, Fault::Row, 1)?;
    let text = rows(text, b"link ", LINK_WIDTH, l.links, links, Fault::Link, n)?;
    let text = rows(
        text,
        b"sym ",
        NAME_WIDTH,
        l.symbols,
        symbols,
        Fault::Symbol,
        m,
    )?;
    if text.is_empty() {
        return Ok(());
    }
    Err(at_row(Fault::More, m + l.symbols, 0, text))
}

// Reads the listing that a text is into rooms.
pub fn read(
    text: &[u8],
    nodes: &mut [u32; 40960],
    links: &mut [u32; 12288],
    symbols: &mut [u32; 8320],
) -> Result<Listed, Wrong> {
    let mut list = [0; 3];
    let left = counts(text, &mut list).ok_or(at_row(Fault::Head, 0, 0, text))?;
    let l = Listed {
        nodes: list[0],
        links: list[1],
        symbols: list[2],
    };
    if l.nodes > MOST || l.links > MOST || l.symbols > MOST_SYMBOLS {
        return Err(at_row(Fault::Large, 0, 0, text));
    }
    read_rows(left, l, nodes, links, symbols)?;
    Ok(l)
}

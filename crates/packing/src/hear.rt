// The symbols that are left, by first appearance: the names and strings of the kept statements in the order of the text, which is that of a walk through the rows by their slots.
ghost use Rattle.std.specs.Prelude.{◌+◌, ◌*◌, ◌≤◌, ◌<◌, ◌≡◌, length, get_or};
ghost use Rattle.grammar.specs.Naming.{height};
ghost use Rattle.grammar.specs.Room.{symbol_width};
ghost use Rattle.parts.specs.Packed.{keeps};
ghost use Rattle.parts.specs.Spoken.{said, spoken};
ghost use Rattle.packing.specs.Good.{In};
ghost use Rattle.packing.specs.Known.{Heard, Noted, Hears, Speaks, Built, Begins, HearingAll};
ghost use Rattle.packing.specs.Seen.{seen};
ghost use Rattle.packing.specs.Stack.{source};
ghost use Rattle.packing.specs.Words.{worded, parted};

use crate::rows::Rows;
use crate::stack::{LETTERS, LINK, ROW, push, push_parts};
use ast::{LINK_WIDTH, NODE_WIDTH};

// A symbol, and where it stands in the text.
#[derive(Drop)]
pub struct Word {
    pub symbol: u32,
    pub from: u32,
    pub upto: u32,
}

// What is taken from the stack: a row, or a word that is said.
#[derive(Drop)]
pub enum Part {
    Row(u32),
    Said(Word),
}

// A number of a room, 0 past its end.
fn held(room: &[u32], at: usize) -> u32
    ensures { result ≡ get_or room.now at 0 }
{
    room.get(at).copied().unwrap_or(0)
}

// A symbol and its place, as they stand in a room.
fn word_at(room: &[u32], at: usize) -> Word
    requires { at + 2 < 18446744073709551616 }
    ensures { worded result ≡ said (get_or room.now at 0) (get_or room.now (at + 1) 0) (get_or room.now (at + 2) 0) }
{
    Word {
        symbol: held(room, at),
        from: held(room, at + 1),
        upto: held(room, at + 2),
    }
}

// What two numbers of the stack stand for.
// Ruled out: a string with its quotes.
fn meant(rows: Rows, tag: u32, x: u32) -> Part
    ensures { parted result ≡ source (seen rows.entry) tag x }
{
    let row = NODE_WIDTH * (x as usize);
    match tag {
        ROW => Part::Row(x),
        LINK => Part::Said(word_at(rows.links, LINK_WIDTH * (x as usize))),
        2..LETTERS => Part::Said(word_at(rows.nodes, row + tag as usize)),
        _ => Part::Said(Word {
            symbol: held(rows.nodes, row + (tag - LETTERS) as usize),
            from: held(rows.nodes, row + 1).saturating_add(1),
            upto: held(rows.nodes, row + 2).saturating_sub(1),
        }),
    }
}

// A word is said: a symbol that is not known gets the next number, and its first place is here.
// Ruled out: the last place; a known symbol that gets a second number.
fn hear(symbols: &mut [u32], scratch: &mut [u32], count: u32, w: Word) -> u32
    requires { (w.symbol < length scratch.old) × (get_or scratch.old w.symbol 0 ≡ 0 → (symbol_width * count + symbol_width ≤ length symbols.old) × (count < 4294967295)) }
    ensures { Noted count (worded w) symbols.old scratch.old symbols.new scratch.new result }
{
    let x = w.symbol as usize;
    if scratch[x] != 0 {
        return count;
    }
    scratch[x] = count + 1;
    let i = 2 * (count as usize);
    symbols[i] = w.from;
    symbols[i + 1] = w.upto;
    count + 1
}

// The words of a row and of all below it.
// Ruled out: the words of a row before those that stand further left in the text.
fn hear_row(
    rows: Rows,
    symbols: &mut [u32],
    scratch: &mut [u32],
    s: usize,
    count: u32,
    row: u32,
) -> u32
    requires { Speaks s (seen rows) (length scratch.old) × In (seen rows) row × Heard s symbols.old scratch.old count }
    ensures { Hears s (spoken (seen rows.entry) (height (seen rows.entry)) row) symbols.old scratch.old count symbols.new scratch.new result }
{
    let (numbers, stack) = scratch.split_at_mut(s);
    let mut known = count;
    let mut top = push(stack, 0, ROW, row);
    while top > 0 {
        top -= 1;
        match meant(rows, stack[2 * top], stack[2 * top + 1]) {
            Part::Row(row) => top = push_parts(stack, top, rows, row),
            Part::Said(word) => known = hear(symbols, numbers, known, word),
        }
    }
    known
}

// The first so many symbols keep their numbers: those of built-in names.
fn hear_builtins(scratch: &mut [u32], builtins: u32)
    requires { builtins ≤ length scratch.old }
    ensures { Built builtins scratch.old scratch.new }
{
    for x in 0..builtins {
        scratch[x as usize] = x + 1;
    }
}

// The words of the statements that are kept, after the built-in names. It asks for zeros at the front of the lent room, a number for each symbol.
// Ruled out: the words of a dropped statement; a built-in name that is numbered anew.
pub(crate) fn hear_all(
    rows: Rows,
    symbols: &mut [u32],
    scratch: &mut [u32],
    s: u32,
    builtins: u32,
    first: usize,
    choice: &[u8],
) -> u32
    requires { Begins s builtins (seen rows) first choice.now symbols.old scratch.old }
    ensures { HearingAll s builtins symbols.old (keeps choice.now) (seen rows.entry) (length choice.now) symbols.new scratch.new result }
{
    hear_builtins(scratch, builtins);
    let mut known = builtins;
    for (j, kept) in choice.iter().enumerate() {
        if *kept != 0 {
            let row = rows.links[LINK_WIDTH * (first + j)];
            known = hear_row(rows, symbols, scratch, s as usize, known, row);
        }
    }
    known
}

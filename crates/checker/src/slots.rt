// A row by its slots: what stands in it after its kind and span, three slots at most, and then the numbers that are unused. A table has them by kind, so that one way to
// take a row apart serves every rule.
ghost use Rattle.std.specs.Prelude.{◌+◌, ◌*◌, ◌<◌, ◌≡◌, length};
ghost use Rattle.grammar.specs.Edition.{edition as edition-of};
ghost use Rattle.checker.specs.Slots.{table, sort_of, content_of, slot_at, cut_of, Standing};

use ast::NODE_WIDTH;

// The codes of slots in the table, which are bytes as the table is: nothing, a row, a row or absent, a symbol, a name, a list of rows, of names, of keys with values; and from LIMIT on a number below the code
// less LIMIT.
const NOTHING: u32 = 0;

const CHILD: u32 = 1;

const OPTION: u32 = 2;

const SYMBOL: u32 = 3;

const NAME: u32 = 4;

const NODES: u32 = 5;

const NAMES: u32 = 6;

const ENTRIES: u32 = 7;

const LIMIT: u32 = 8;

// Six numbers a kind, from Binary on: the code of the first slot, which stands at the row's number 3; the code and the place of the second, and of the third; and the place
// from which on numbers are unused. A flat table of bytes, read by number: fixed memory.
const TABLE: [u8; 156] = [
    19, 1, 4, 1, 5, 6, 1, 1, 4, 0, 5, 5, 1, 1, 4, 0, 5, 5, 1, 0, 4, 0, 4, 4, 10, 1, 4, 0, 5, 5, 1,
    1, 4, 0, 5, 5, 4, 1, 6, 0, 7, 7, 4, 1, 6, 0, 7, 7, 4, 1, 6, 0, 7, 7, 4, 0, 6, 0, 6, 6, 3, 0, 4,
    0, 4, 4, 0, 0, 3, 0, 3, 3, 10, 0, 4, 0, 4, 4, 0, 0, 3, 0, 3, 3, 1, 5, 4, 0, 6, 6, 1, 4, 4, 0,
    7, 7, 7, 0, 5, 0, 5, 5, 4, 6, 6, 1, 8, 9, 6, 1, 5, 0, 6, 6, 5, 2, 5, 0, 6, 6, 1, 1, 4, 2, 5, 6,
    1, 1, 4, 0, 5, 5, 1, 0, 4, 0, 4, 4, 0, 0, 3, 0, 3, 3, 0, 0, 3, 0, 3, 3, 6, 6, 5, 0, 7, 7,
];

// Where a Return's first slot stands in the table.
const RETURNED: usize = 132;

// What the links of a list hold.
#[derive(Clone, Copy, PartialEq, Eq)]
pub enum Sort {
    // Rows.
    Nodes,
    Names,
    // Keys with values.
    Entries,
}

// What a slot of a row holds.
#[derive(Clone, Copy)]
pub enum Content {
    Nothing,
    // A row.
    Child(u32),
    // A row, or absent.
    Option(u32),
    Symbol(u32),
    // Its first link, and how many it has.
    List(Sort, u32, u32),
    // What it is below, and it.
    Number(u32, u32),
}

impl Sort {
    // By a list's code.
    // Ruled out: names taken for rows.
    fn of(code: u32) -> Self
        ensures { result ≡ sort_of code }
    {
        match code {
            NODES => Sort::Nodes,
            NAMES => Sort::Names,
            _ => Sort::Entries,
        }
    }
}

// A slot: its code, and its first two numbers. What it holds is asked where it is looked at: three enums made as a row is cut cost 1.9 times the instructions a row.
#[derive(Clone, Copy)]
pub struct Slot {
    pub code: u32,
    pub x: u32,
    pub y: u32,
}

impl Slot {
    // Ruled out: a name's span taken for its symbol; the limit itself taken for its code.
    pub(crate) fn content(self) -> Content
        ensures { result ≡ content_of self.code self.x self.y }
    {
        let Slot { code, x, y } = self;
        match code {
            NOTHING => Content::Nothing,
            CHILD => Content::Child(x),
            OPTION => Content::Option(x),
            SYMBOL | NAME => Content::Symbol(x),
            NODES..=ENTRIES => Content::List(Sort::of(code), x, y),
            _ => Content::Number(code - LIMIT, x),
        }
    }
}

#[derive(Clone, Copy)]
pub struct Cut {
    pub first: Slot,
    pub second: Slot,
    pub third: Slot,
    pub rest: usize,
}

// The table of an edition, for a caller to make once and to lend. In edition 2 what a Return returns may be absent.
// Ruled out: edition 2's table for edition 1.
pub(crate) fn slots(edition: u32) -> [u8; 156]
    ensures { result ≡ table (edition-of edition) }
{
    let mut t = TABLE;
    if edition == 2 {
        t[RETURNED] = OPTION as u8;
    }
    t
}

// The slot of a code whose first number stands at a place.
fn slot_at(nodes: &[u32], code: u32, at: usize) -> Slot
    requires { at + 1 < length nodes.now }
    ensures { result ≡ slot_at nodes.now code at }
{
    Slot {
        code,
        x: nodes[at],
        y: nodes[at + 1],
    }
}

// A row, cut into its slots. It asks that the row is there and of a known kind.
// Ruled out: the second slot of a name behind one number; the parent's number among the unused ones.
pub(crate) fn cut_row(table: &[u8], nodes: &[u32], row: u32) -> Cut
    requires { Standing table.now nodes.now row }
    ensures { result ≡ cut_of table.now nodes.now row }
{
    let base = NODE_WIDTH * (row as usize);
    let kind = nodes[base] as usize;
    let k = 6 * (kind - 1);
    Cut {
        first: slot_at(nodes, u32::from(table[k]), base + 3),
        second: slot_at(
            nodes,
            u32::from(table[k + 1]),
            base + usize::from(table[k + 2]),
        ),
        third: slot_at(
            nodes,
            u32::from(table[k + 3]),
            base + usize::from(table[k + 4]),
        ),
        rest: base + usize::from(table[k + 5]),
    }
}

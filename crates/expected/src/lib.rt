#![tactic(auto)]
// What could have stood at a refused token, and what was open there: document 02, L2. A pass of its own over the tokens up to the place: reading does not change, and a
// script that is read pays nothing.
pub mod sorts;
mod stack;
mod tables;

ghost use Rattle.std.specs.Prelude.{◌+◌, ◌≤◌, ◌<◌, [], ◌≡◌, length, drop, take};
ghost use Rattle.grammar.specs.Edition.{edition as the-edition};
ghost use Rattle.grammar.proofs.Stopping.{opened, marks};
ghost use Rattle.expected.specs.Cells.{decoded, bar_number, Sound};
ghost use Rattle.expected.specs.Steps.{Gathers};
ghost use Rattle.expected.specs.Chains.{Chained};
ghost use Rattle.expected.specs.Left.{AskedOf, Asks, Asked, Reached, LeftAt};
ghost use Rattle.expected.specs.Tells.{Tells};
ghost use Rattle.expected.specs.Parts.{Extends, Inside, lowest_of, Filled, Nothing, code_of, opened_by};

use crate::stack::{Step, admits, advance};
use crate::tables::{Bar, MARK};
use token::editions;
use token::kinds::EOF;
use token::list::kind_at;

// An open construct: its sort (module sorts), and its opening token.
#[derive(Clone, Copy)]
pub struct Opening {
    pub sort: u32,
    pub at: u32,
}

// The open constructs, outermost first; entries past the count are 0.
// An array and a count, as the project's rules name it: fixed memory, and the C interface writes all of the entries (station's `kaori_expected`).
#[derive(Clone, Copy)]
pub struct Chain {
    pub entries: [Opening; 64],
    pub count: usize,
}

// The kinds that could have stood at a token, one binary digit each, how many they are and the lowest numbered one (255 where there is none); and what was open there.
// Numbers, and no Option: the C interface writes them as they stand (station's `kaori_expected`; `Tells`).
#[derive(Clone, Copy)]
pub struct Told {
    pub kinds: u64,
    pub count: u32,
    pub lowest: u32,
    pub chain: Chain,
}

// The refusals of which something is told.
const REQUIRED: u32 = 8;

const OPERAND: u32 = 9;

const FOR: u32 = 10;

const DEEP: u32 = 11;

// The longest list and the deepest limit that the door lets in.
const MOST_TOKENS: usize = 4096;

const MOST_DEPTH: u32 = 64;

const KINDS: u32 = 45;

const NO_KIND: u32 = 255;

// The room of the stack: what is left to read has at most 12 cells for each opening, and 11 more; and a list of eight is put on it.
const ROOM: usize = 1024;

fn empty_chain() -> Chain
    ensures { Chained [] result }
{
    Chain {
        entries: [Opening { sort: 0, at: 0 }; 64],
        count: 0,
    }
}

impl Chain {
    // One more construct is open.
    fn push(&mut self, sort: u32, at: u32)
        requires { self.old.count < 64 }
        ensures { Extends self.old sort at self.new }
    {
        self.entries[self.count] = Opening { sort, at };
        self.count += 1;
    }
}

// The outermost marks of a stack whose top is here, from the bottom up: so many at most. A mark's cell is four times its token and its sort, from MARK on.
fn open(room: &[u32], top: usize, most: usize) -> Chain
    requires top_in_bounds { top ≤ length room.now }
    requires sound { Sound (drop top room.now) }
    requires most_bound { most ≤ 64 }
    ensures { Chained (take most (opened (decoded (drop top room.now)))) result }
{
    let mut c = empty_chain();
    for i in (top..room.len()).rev() {
        let v = room[i];
        if v >= MARK {
            if c.count >= most {
                return c;
            }
            c.push(v % 4, v / 4 - 16);
        }
    }
    c
}

// A chain with what was opened at this token.
fn inside(mut c: Chain, bar: Bar, at: u32) -> Chain
    requires { 3 ≤ bar_number bar → c.count < 64 }
    ensures { Inside c (bar_number bar) at result }
{
    match bar {
        Bar::OpenedOperand => c.push(sorts::EXPRESSION, at),
        Bar::OpenedBlock => c.push(sorts::BLOCK, at),
        _ => {}
    }
    c
}

// The kinds that a stack whose top is here does not bar, as one set.
fn kinds(room: &[u32], top: usize, edition: u32) -> u64
    requires top_in_bounds { top ≤ length room.now }
    requires sound { Sound (drop top room.now) }
    ensures { Gathers (the-edition edition) (decoded (drop top room.now)) 45 result }
{
    let mut set = 0;
    for kind in 0..KINDS {
        if admits(room, top, edition, kind) {
            set += 1 << kind;
        }
    }
    set
}

// What is left to read after the tokens before a place: the stack's top, and how many constructs are open. Nothing, if they are not all taken within the limit.
fn left(
    tokens: &[u32],
    edition: u32,
    limit: u32,
    at: usize,
    room: &mut [u32],
) -> Option<(usize, usize)>
    requires asked { Asked tokens.now limit at }
    requires room_len { length room.old ≡ 1024 }
    ensures { LeftAt edition tokens.now limit at room.new result }
{
    room[ROOM - 1] = 0;
    let mut top = ROOM - 1;
    let mut depth = 0;
    for i in 0..at {
        let kind = kind_at(tokens, i);
        if kind > EOF {
            return None;
        }
        let Step::Took(t, d) = advance(room, top, depth, edition, kind, i as u32) else {
            return None;
        };
        if d > limit as usize {
            return None;
        }
        top = t;
        depth = d;
    }
    Some((top, depth))
}

// The lowest kind of a set.
fn lowest(kinds: u64) -> u32
    ensures { result ≡ lowest_of kinds }
{
    if kinds == 0 {
        return NO_KIND;
    }
    kinds.trailing_zeros()
}

// A set and a chain.
fn fill(kinds: u64, chain: Chain) -> Told
    ensures { Filled kinds chain result }
{
    Told {
        kinds,
        count: kinds.count_ones(),
        lowest: lowest(kinds),
        chain,
    }
}

// What is told where there is nothing to tell.
fn nothing() -> Told
    ensures { Nothing result }
{
    fill(0, empty_chain())
}

// Whether something may be told of this code: in a list of so many numbers, an edition and a limit that the door lets in, and at a token of the list.
fn asks(length: usize, edition: u32, limit: u32, code: u32, at: usize) -> bool
    ensures { Asks length edition limit code at result }
{
    matches!(code, REQUIRED..=DEEP)
        && matches!(limit, 1..=MOST_DEPTH)
        && length % 3 == 0
        && length <= 3 * MOST_TOKENS
        && matches!(edition, editions::FIRST | editions::SECOND)
        && at < length / 3
}

// The refusal by which a kind is barred.
fn code_of(bar: Bar) -> u32
    ensures { result ≡ code_of (bar_number bar) }
{
    match bar {
        Bar::Token | Bar::OpenedBlock => REQUIRED,
        Bar::Operand | Bar::OpenedOperand => OPERAND,
        Bar::For => FOR,
    }
}

// How many constructs are opened at a token where its kind is barred.
fn opened_by(bar: Bar) -> usize
    ensures { result ≡ opened_by (bar_number bar) }
{
    match bar {
        Bar::OpenedOperand | Bar::OpenedBlock => 1,
        _ => 0,
    }
}

// What is told at a token up to which all tokens are taken within the limit: the cells from the top on are left, with so many constructs open. The kind there is taken,
// and only an opening that passes the limit is a refusal; or nothing is left; or it is barred, by the code that the table says.
// The call's own numbers stay parameters: a struct of them would be made once, in `expected`, and taken apart once, here.
fn tell(
    tokens: &[u32],
    edition: u32,
    limit: u32,
    code: u32,
    at: u32,
    room: &mut [u32],
    top: usize,
    depth: usize,
) -> Told
    requires asked_of { AskedOf (length tokens.now) edition limit code at }
    requires reached { Reached (the-edition edition) tokens.now limit at room.old top depth }
    ensures { Tells tokens.now edition limit code at result }
{
    let kind = kind_at(tokens, at as usize);
    if kind > EOF {
        return nothing();
    }
    let most = limit as usize;
    match advance(room, top, depth, edition, kind, at) {
        Step::Took(t, d) => {
            if code != DEEP || d <= most {
                return nothing();
            }
            fill(0, open(room, t, most))
        }
        Step::Over => nothing(),
        Step::Barred(t, d, bar) => {
            if most < d + opened_by(bar) {
                if code != DEEP {
                    return nothing();
                }
                return fill(0, open(room, t + 1, most));
            }
            if code != code_of(bar) {
                return nothing();
            }
            let outer = open(room, t + 1, most);
            fill(kinds(room, top, edition), inside(outer, bar, at))
        }
    }
}

// What could have stood at a token where reading a list is refused, of an edition and within a limit, and what was open there: for codes 8, 9 and 10. For 11 what was
// open. Nothing for any other code, nor where reading is not refused by the code.
// Ruled out: Eof missing from the set where the tokens before form a script; `for` in any set; the innermost construct first; a construct that is whole in the chain; the
// constructs of edition 1 in edition 2.
pub fn expected(tokens: &[u32], edition: u32, limit: u32, code: u32, at: u32) -> Told
    ensures { Tells tokens.now edition limit code at result }
{
    let place = at as usize;
    if !asks(tokens.len(), edition, limit, code, place) {
        return nothing();
    }
    let mut room = [0; ROOM];
    let Some((top, depth)) = left(tokens, edition, limit, place, &mut room) else {
        return nothing();
    };
    tell(tokens, edition, limit, code, at, &mut room, top, depth)
}

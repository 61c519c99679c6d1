// How far a row reaches, and which token joins its operands. Every function answers for any rows and tokens.
// Tokens and rows are lent apart, and no struct: crate warning calls these with the ones that it has.
ghost use Rattle.std.specs.Prelude.{◌+◌, ◌≤◌, ◌<◌, ◌≡◌};
ghost use Rattle.grammar.specs.Token.{count};
ghost use Rattle.spelling.specs.Decides.{Decides};
ghost use Rattle.lint.specs.Reach.{LastNumber, BracketOf, last as last_of, Ends, Past, FirstPast, Sign, left_number, after as after-in, brackets as brackets-in, enclosing as enclosing-in, in_block};

use ast::{ABSENT, kinds};
use children::node;
use token::list::{kind_at, start_at};

// Which number of a row of this kind names what it takes last, with nothing behind that; none where something closes it, or it takes nothing.
fn last_number(kind: u32) -> Option<u32>
    ensures { LastNumber kind result }
{
    match kind {
        kinds::BINARY | kinds::LAMBDA => Some(5),
        kinds::LOGICAL_AND | kinds::LOGICAL_OR | kinds::UNARY => Some(4),
        kinds::LOGICAL_NOT => Some(3),
        _ => None,
    }
}

// What a row takes last; ABSENT where it takes nothing last: it is a number of the row, where C has it so (`LastNumber`, `Handle.absent`).
// Ruled out: the left operand; the last argument of a call, which its `)` closes.
pub fn last(nodes: &[u32], row: u32) -> u32
    ensures { result ≡ last_of nodes.now row }
{
    match last_number(node(nodes, row, 0)) {
        Some(i) => node(nodes, row, i),
        None => ABSENT,
    }
}

// The last of what a row took by reaching on; the row itself where it took nothing.
fn end_row(nodes: &[u32], row: u32) -> u32
    ensures { Ends nodes.now row result }
{
    let mut x = row;
    let mut next = last(nodes, x);
    while next < x {
        x = next;
        next = last(nodes, x);
    }
    x
}

// Whether a token stands at an offset or past it, and is no `)`.
fn is_past(tokens: &[u32], offset: u32, k: usize) -> bool
    requires { k < count tokens.now }
    ensures { Decides (Past tokens.now offset k) result }
{
    start_at(tokens, k) >= offset && kind_at(tokens, k) != token::kinds::RIGHT_PAREN
}

// The first token from an offset on that is no `)`; the number of tokens where there is none.
// Ruled out: a `)`; the token before the offset.
pub fn first_past(tokens: &[u32], offset: u32) -> usize
    ensures { FirstPast tokens.now offset result }
{
    let n = tokens.len() / 3;
    for k in 0..n {
        if is_past(tokens, offset, k) {
            return k;
        }
    }
    n
}

// Which number of a row of this kind is its left operand.
fn left_number(kind: u32) -> u32
    ensures { result ≡ left_number kind }
{
    if kind == kinds::BINARY { 4 } else { 3 }
}

// The token that joins the operands of a row: the first past the left one that does not close it.
// Ruled out: a sign in the right operand; the `)` behind the left one.
pub fn sign(tokens: &[u32], nodes: &[u32], row: u32) -> usize
    ensures { Sign tokens.now nodes.now row result }
{
    let place = left_number(node(nodes, row, 0));
    let end = end_row(nodes, node(nodes, row, place));
    first_past(tokens, node(nodes, end, 2))
}

// What a token does to the brackets that are open.
#[derive(Clone, Copy)]
enum Bracket {
    Opens,
    Closes,
}

// The bracket of a token's kind, where it is one's.
fn bracket_of(kind: u32) -> Option<Bracket>
    ensures { BracketOf kind result }
{
    match kind {
        token::kinds::LEFT_PAREN | token::kinds::LEFT_BRACE => Some(Bracket::Opens),
        token::kinds::RIGHT_PAREN | token::kinds::RIGHT_BRACE => Some(Bracket::Closes),
        _ => None,
    }
}

// How many brackets are open after a token of a list, from so many before it: it counts only past an offset.
fn after(tokens: &[u32], offset: u32, i: usize, before: usize) -> usize
    requires { (i < count tokens.now) × (before ≤ i) }
    ensures { result ≡ after-in tokens.now offset i before }
{
    if start_at(tokens, i) <= offset {
        return before;
    }
    match bracket_of(kind_at(tokens, i)) {
        Some(Bracket::Opens) => before + 1,
        Some(Bracket::Closes) => before.saturating_sub(1),
        None => before,
    }
}

// How many brackets are open before token `upto`, of those that are opened past an offset. It asks that the list has so many tokens.
// Ruled out: a bracket at the offset counted; one that is closed before the token.
pub fn brackets(tokens: &[u32], offset: u32, upto: usize) -> usize
    requires { upto ≤ count tokens.now }
    ensures { result ≡ brackets-in tokens.now offset upto }
{
    let mut so_far = 0;
    for i in 0..upto {
        so_far = after(tokens, offset, i, so_far);
    }
    so_far
}

// The innermost bracket that is open before token k; the absent number where none is.
// That number, and no Option: `in_block` (specs/Reach.antt) takes a bracket at the token of that number for none, in a list of any length.
fn enclosing(tokens: &[u32], k: usize) -> usize
    requires { k ≤ count tokens.now }
    ensures { result ≡ enclosing-in tokens.now k 0 }
{
    let mut closed: usize = 0;
    for i in (0..k).rev() {
        match bracket_of(kind_at(tokens, i)) {
            Some(Bracket::Closes) => closed += 1,
            Some(Bracket::Opens) => {
                if closed == 0 {
                    return i;
                }
                closed -= 1;
            }
            None => {}
        }
    }
    ABSENT as usize
}

// Whether token k stands in no parentheses and in no map: in a block, or in the script itself. It asks that the list has the token.
// Ruled out: true in the arguments of a call; false after a map that is closed.
pub fn in_block(tokens: &[u32], k: usize) -> bool
    requires { k < count tokens.now }
    ensures { result ≡ in_block tokens.now k }
{
    let e = enclosing(tokens, k);
    if e == ABSENT as usize {
        return true;
    }
    kind_at(tokens, e) == token::kinds::LEFT_BRACE
        && (e == 0 || kind_at(tokens, e - 1) != token::kinds::HASH)
}

#![tactic(auto)]
// The token maker: from text to the token list (request L1).
mod scan;

ghost use Rattle.std.specs.Prelude.{◌≡◌, ◌*◌, ◌≤◌, length};
ghost use Rattle.lexer.specs.Lexes.{refuse, Readable, Lexes};
ghost use Rattle.lexer.specs.Parts.{Capacity, Kept};

use ast::room::{clear, push};
use door::rare_high;
use scan::{is_blank, past_blanks, token_at};
use spelling::words;
use token::kinds;

// Code, how many tokens, at, start, end, expected. It is no Result, since reader passes these numbers on as those of an answer to C.
#[derive(Clone, Copy, PartialEq, Eq)]
pub struct Lexed {
    pub code: u32,
    pub count: u32,
    pub at: u32,
    pub start: u32,
    pub end: u32,
    pub expected: u32,
}

// A refusal, with its place in the text or zeros.
fn refused(code: u32, start: u32, end: u32) -> Lexed
    ensures { result ≡ refuse code start end }
{
    Lexed {
        code,
        count: 0,
        at: 0,
        start,
        end,
        expected: 255,
    }
}

// How many tokens a room of so many numbers can take.
fn capacity(numbers: usize) -> usize
    ensures { Capacity numbers result }
{
    (numbers / 3).min(4096)
}

// Writes token `count`, where the list can take it.
fn keep(list: &mut [u32], rows: usize, count: usize, kind: u32, start: usize, end: usize)
    requires { (3 * rows ≤ length list.old) × (start ≤ 65536) × (end ≤ 65536) }
    ensures { Kept rows count kind start end list.old list.new }
{
    if count < rows {
        push(list, count, kind, start as u32, end as u32);
    }
}

// The tokens, up to the first byte where none starts. Where the list is full the text is still gone through, since 16 comes before 1.
fn tokens(text: &[u8], list: &mut [u32]) -> Lexed
    requires { Readable text.now }
    ensures { Lexes text.now list.old result list.new }
{
    let rows = capacity(list.len());
    let table = words();
    let mut count = 0;
    let mut at = 0;
    while at < text.len() {
        if is_blank(text[at]) {
            at = past_blanks(text, at + 1);
            continue;
        }
        let Some((kind, end)) = token_at(&table, text, at) else {
            clear(list, 0);
            return refused(16, at as u32, (at + 1) as u32);
        };
        keep(list, rows, count, kind, at, end);
        count += 1;
        at = end;
    }
    if rows <= count {
        clear(list, 0);
        return refused(1, 0, 0);
    }
    push(list, count, kinds::EOF, at as u32, at as u32);
    count += 1;
    clear(list, 3 * count);
    Lexed {
        code: 0,
        count: count as u32,
        at: 0,
        start: 0,
        end: 0,
        expected: 255,
    }
}

// Makes the token list of a text: the tokens, Eof last, and then zeros; or the first refusal of 2, 5, 16 and 1.
// Ruled out: an Identifier that is a keyword; a room that keeps a number after refusal 16.
pub fn lex(text: &[u8], list: &mut [u32]) -> Lexed
    ensures { Lexes text.now list.old result list.new }
{
    if 65536 < text.len() {
        return refused(2, 0, 0);
    }
    if let Some(high) = rare_high(text) {
        return refused(5, high as u32, (high + 1) as u32);
    }
    tokens(text, list)
}

#![tactic(auto)]
// The door: checks 1 to 7 of document 01, in order, those of the built-in names and of the edition (document 02, L10 and L14) among them, and then that of the profile (L9).
// Of the rooms it asks for scratch, and for the built-in rows in the symbol room: whether other rows fit is met in reading.
pub mod wrong;

ghost use Rattle.std.specs.Prelude.{not, ◌≡◌, ◌/◌, ◌≤◌, ◌<◌, length, get_or};
ghost use Rattle.builtins.specs.Known.{blank_index};
ghost use Rattle.grammar.specs.Builtin.{builtins as names_in};
ghost use Rattle.grammar.specs.Door.{Whole, Ascii, Sound, Closed, Inside};
ghost use Rattle.grammar.specs.Profile.{allowed, guard as a-guard};
ghost use Rattle.grammar.specs.Token.{count};
ghost use Rattle.spelling.specs.Decides.{Decides};
ghost use Rattle.spelling.specs.Words.{table};
ghost use Rattle.token.specs.Profiled.{profiled};
ghost use Rattle.door.specs.Entry.{number_of, code_of, outright, turned_at, Searched, Highest, LengthsChecked, Admits, ProfileChecked, ListChecked, Checked};

use builtins::{NAME_WIDTH, right};
use lexeme::fits;
use spelling::words;
use token::list::{end_at, kind_at, start_at};
use token::profiles::Profile;
use token::{editions, kinds};
use wrong::Wrong;

// Numbers a token in the list, and in scratch.
const TOKEN_WIDTH: usize = 3;

const SCRATCH_WIDTH: usize = 3;

// The most tokens, bytes of text and openings.
const MOST_TOKENS: usize = 4096;

const MOST_BYTES: usize = 65536;

const MOST_DEPTH: u32 = 64;

// The highest byte of ASCII.
const HIGHEST_BYTE: u8 = 127;

// The code, and the numbers at, start and end. No certain kind is ever required here.
#[derive(Clone, Copy, PartialEq, Eq)]
pub struct Refusal {
    pub code: u32,
    pub at: u32,
    pub start: u32,
    pub end: u32,
}

// Without a place.
impl From<Wrong> for Refusal {
    ghost from_gives = { λ w r. r ≡ outright (number_of w) };

    fn from(wrong: Wrong) -> Refusal {
        Refusal {
            code: wrong as u32,
            at: 0,
            start: 0,
            end: 0,
        }
    }
}

// At a token. It asks that the list has the token.
fn at_token(wrong: Wrong, tokens: &[u32], at: usize) -> Refusal
    requires { (at < count tokens.now) × (at < 4096) }
    ensures { result ≡ turned_at (number_of wrong) tokens.now at }
{
    Refusal {
        code: wrong as u32,
        at: at as u32,
        start: start_at(tokens, at),
        end: end_at(tokens, at),
    }
}

// The first of checks 1 to 3, 21 and 4 that finds something wrong, of lengths, the edition and the limit alone.
// Ruled out: 21 where the limit is 0; an edition 0 let in; 4 where the edition is 3; a list of 4,097 tokens let in.
pub fn lengths(
    list: usize,
    text: usize,
    edition: u32,
    limit: u32,
    scratch: usize,
) -> Result<(), Wrong>
    ensures { LengthsChecked list text edition limit scratch (code_of result) }
{
    let tokens = list / TOKEN_WIDTH;
    if list % TOKEN_WIDTH != 0 {
        return Err(Wrong::List);
    }
    if tokens < 1 {
        return Err(Wrong::List);
    }
    if MOST_TOKENS < tokens {
        return Err(Wrong::List);
    }
    if MOST_BYTES < text {
        return Err(Wrong::Text);
    }
    if limit < 1 {
        return Err(Wrong::Limit);
    }
    if MOST_DEPTH < limit {
        return Err(Wrong::Limit);
    }
    if edition < editions::FIRST {
        return Err(Wrong::Edition);
    }
    if editions::SECOND < edition {
        return Err(Wrong::Edition);
    }
    if scratch / SCRATCH_WIDTH < tokens {
        return Err(Wrong::Room);
    }
    Ok(())
}

// The first of these, of 18 for the built-in names and of 4 for their rows that finds something wrong; where none does, `index` is the names' own. It asks for an index
// that is blank.
// Ruled out: 18 where scratch is too small; a symbol room let in that is a number short of the built-in rows.
pub fn admit(
    names: &[u8],
    rows: &[u32],
    index: &mut [u32],
    list: usize,
    text: usize,
    edition: u32,
    limit: u32,
    symbols: usize,
    scratch: usize,
) -> Result<(), Wrong>
    requires { index.old ≡ blank_index }
    ensures { Admits (names_in names.now rows.now) list text edition limit symbols scratch index.new (code_of result) }
{
    lengths(list, text, edition, limit, scratch)?;
    if !right(names, rows, index) {
        return Err(Wrong::Names);
    }
    if symbols / NAME_WIDTH < rows.len() / NAME_WIDTH {
        return Err(Wrong::Room);
    }
    Ok(())
}

// The highest byte, or 0 of an empty text. The fold has no other way out, so that many bytes are compared at once.
// Ruled out: the last byte; a byte that the text does not have.
pub fn highest(text: &[u8]) -> u8
    ensures { Highest text.now (length text.now) result }
{
    text.iter().fold(0, |high, byte| high.max(*byte))
}

// The first byte over 127.
// Ruled out: a later byte over 127; none where there is one.
pub fn first_high(text: &[u8]) -> Option<usize>
    ensures { Searched (λ i. get_or text.now i 0 ≤ 127) (length text.now) result }
{
    text.iter().position(|byte| HIGHEST_BYTE < *byte)
}

// The same of a text that mostly has none: it is looked for only where the highest byte is one.
// Ruled out: none where the last byte is the one over 127; a byte that is none.
pub fn rare_high(text: &[u8]) -> Option<usize>
    ensures { Searched (λ i. get_or text.now i 0 ≤ 127) (length text.now) result }
{
    if highest(text) <= HIGHEST_BYTE {
        return None;
    }
    first_high(text)
}

// Whether a token is none of the bad ones of check 6. It asks for the table of crate spelling.
fn sound(words: &[u8], text: &[u8], tokens: &[u32], at: usize) -> bool
    requires { (words.now ≡ table) × (at < count tokens.now) }
    ensures { Decides (Sound text.now tokens.now at) result }
{
    let kind = kind_at(tokens, at);
    let start = start_at(tokens, at);
    let end = end_at(tokens, at);
    if kinds::EOF < kind {
        return false;
    }
    if end < start {
        return false;
    }
    if text.len() < end as usize {
        return false;
    }
    if 0 < at {
        if start < end_at(tokens, at - 1) {
            return false;
        }
        return fits(words, kind, text, start as usize, end as usize);
    }
    fits(words, kind, text, start as usize, end as usize)
}

// The first token that is bad in any of these ways.
fn first_unsound(text: &[u8], tokens: &[u32]) -> Option<usize>
    ensures { Searched (Sound text.now tokens.now) (count tokens.now) result }
{
    let table = words();
    (0..tokens.len() / TOKEN_WIDTH).find(|at| !sound(&table, text, tokens, *at))
}

// The first Eof that is not last, or a last token that is none.
fn first_unclosed(tokens: &[u32]) -> Option<usize>
    ensures { Searched (Closed tokens.now) (count tokens.now) result }
{
    let last = (tokens.len() / TOKEN_WIDTH).checked_sub(1)?;
    for i in 0..last {
        if kind_at(tokens, i) == kinds::EOF {
            return Some(i);
        }
    }
    if kind_at(tokens, last) != kinds::EOF {
        return Some(last);
    }
    None
}

// Whether no guard has a token of this kind.
fn outside(kind: u32) -> bool
    ensures { allowed a-guard kind ≡ not result }
{
    matches!(
        kind,
        kinds::LEFT_BRACE | kinds::IF | kinds::PIPE | kinds::HASH
    )
}

// The first token that no guard has.
fn first_outside(tokens: &[u32]) -> Option<usize>
    ensures { Searched (Inside a-guard tokens.now) (count tokens.now) result }
{
    (0..tokens.len() / TOKEN_WIDTH).find(|at| outside(kind_at(tokens, *at)))
}

// Check 17, of a list that the checks before it let through: it asks for what check 1 does. It is public for crate syntax.
// Ruled out: 17 at a later token; a script turned away for a `{`.
pub fn within(tokens: &[u32], profile: Profile) -> Result<(), Refusal>
    requires { Whole tokens.now }
    ensures { ProfileChecked (profiled profile) tokens.now result }
{
    match profile {
        Profile::Script => Ok(()),
        Profile::Guard => match first_outside(tokens) {
            Some(at) => Err(at_token(Wrong::Outside, tokens, at)),
            None => Ok(()),
        },
    }
}

// Checks 6, 7 and 17, of what checks 1 and 5 let through.
fn listed(text: &[u8], tokens: &[u32], profile: Profile) -> Result<(), Refusal>
    requires { Whole tokens.now × Ascii text.now }
    ensures { ListChecked (profiled profile) text.now tokens.now result }
{
    if let Some(at) = first_unsound(text, tokens) {
        return Err(at_token(Wrong::Token, tokens, at));
    }
    if let Some(at) = first_unclosed(tokens) {
        return Err(at_token(Wrong::Eof, tokens, at));
    }
    within(tokens, profile)
}

// Lets a call in, or turns it away: of the rooms only the lengths of symbols and scratch matter. Where it is let in, `index` is the built-in names' own. It asks for an
// index that is blank.
// Ruled out: a code that is not the first; a place that is not the first.
pub fn check(
    names: &[u8],
    rows: &[u32],
    index: &mut [u32],
    text: &[u8],
    tokens: &[u32],
    profile: Profile,
    edition: u32,
    limit: u32,
    symbols: usize,
    scratch: usize,
) -> Result<(), Refusal>
    requires { index.old ≡ blank_index }
    ensures { Checked (profiled profile) (names_in names.now rows.now) text.now tokens.now edition limit symbols scratch index.new result }
{
    admit(
        names,
        rows,
        index,
        tokens.len(),
        text.len(),
        edition,
        limit,
        symbols,
        scratch,
    )?;
    if let Some(high) = rare_high(text) {
        return Err(Refusal {
            code: Wrong::Byte as u32,
            at: 0,
            start: high as u32,
            end: (high + 1) as u32,
        });
    }
    listed(text, tokens, profile)
}

#![tactic(auto)]
// The symbols of a token list, before it is read: an identifier's word and a string's inside, in the order of the tokens. A word is looked up among the built-in
// names, and then among the script's own, whose rows stand behind the built-in ones.
// While the pass runs, the lower two thirds of the scratch room hold the index of the script's rows, with a bucket for each token. From the first word on whose row
// does not fit the symbol room, words have no symbol.
ghost use Rattle.std.specs.Prelude.{◌*◌, ◌≤◌, ◌<◌, ◌≡◌, length};
ghost use Rattle.grammar.specs.Builtin.{builtins as names_in};
ghost use Rattle.grammar.specs.Room.{scratch_width};
ghost use Rattle.grammar.specs.Token.{count};
ghost use Rattle.names.specs.Resolved.{Open, Fitting, Free, LookedUp, Before, Named, rowless as rowless-of, LeftOut, Owned, Resolved, names_of};

use ast::ABSENT;
use ast::room::{copy, zero};
use builtins::{NAME_WIDTH, find};
use interner::{Interned, get_or_intern};
use token::kinds;
use token::list::{end_at, kind_at, start_at};

// What words are looked up in and what they stand in: the built-in names with their rows and their index, the text, and its tokens.
#[derive(Clone, Copy)]
struct Source<'a> {
    names: &'a [u8],
    rows: &'a [u32],
    index: &'a [u32],
    text: &'a [u8],
    tokens: &'a [u32],
}

// The symbol of the word from `start` up to `end` of the text, and how many rows of the script's own are in use now: a built-in name's, or that of its row in `own`,
// the symbol room behind the built-in rows; None where the row does not fit. `built` is the number of built-in names: where there are none,
// nothing is looked up among them.
fn name(
    source: Source,
    own: &mut [u32],
    scratch: &mut [u32],
    built: usize,
    size: usize,
    known: usize,
    start: u32,
    end: u32,
) -> Option<Interned>
    requires { Free (names_in source.names.now source.rows.now) built source.index.now source.text.now start end size known own.old scratch.old }
    ensures { LookedUp (names_in source.entry.names.now source.entry.rows.now) source.entry.text.now start end size known own.old own.new scratch.old scratch.new result }
{
    if 0 < built {
        let word = &source.text[start as usize..end as usize];
        if let Some(i) = find(source.names, source.rows, source.index, word) {
            let symbol = i as u32;
            return Some(Interned {
                symbol,
                count: known,
            });
        }
    }
    get_or_intern(
        source.text,
        own,
        scratch,
        built as u32,
        size,
        known,
        start,
        end,
    )
}

// The symbol of token `at`, and how many rows of the script's own are in use now. The two kinds that have a word are neighbours: a string's is between its quotes, an
// identifier's is the whole. It is None where a word's row does not fit, and a token that has no word has symbol 0. `built` is the number of built-in names, `size` that
// of tokens.
fn word(
    source: Source,
    own: &mut [u32],
    scratch: &mut [u32],
    built: usize,
    size: usize,
    known: usize,
    at: usize,
) -> Option<Interned>
    requires { Before (names_in source.names.now source.rows.now) built source.index.now source.text.now source.tokens.now size at known own.old scratch.old }
    ensures { Named (names_in source.entry.names.now source.entry.rows.now) source.entry.text.now source.entry.tokens.now size at known own.old own.new scratch.old scratch.new result }
{
    let kind = kind_at(source.tokens, at);
    match kind {
        kinds::STRING_LITERAL..=kinds::IDENTIFIER => {
            let quote = kinds::IDENTIFIER - kind;
            let start = start_at(source.tokens, at);
            let end = end_at(source.tokens, at);
            name(
                source,
                own,
                scratch,
                built,
                size,
                known,
                start + quote,
                end - quote,
            )
        }
        _ => Some(Interned {
            symbol: 0,
            count: known,
        }),
    }
}

// What a token has where no row fits: ABSENT if it has a word, and else 0.
fn rowless(tokens: &[u32], at: usize) -> u32
    requires { at < count tokens.now }
    ensures { result ≡ rowless-of tokens.now at }
{
    let kind = kind_at(tokens, at);
    match kind {
        kinds::STRING_LITERAL..=kinds::IDENTIFIER => ABSENT,
        _ => 0,
    }
}

// The tokens from `from` on are left without a row. `size` is the number of tokens.
fn leave_out(tokens: &[u32], scratch: &mut [u32], size: usize, from: usize)
    requires { (size ≡ count tokens.now) × (scratch_width * size ≤ length scratch.old) }
    ensures { LeftOut tokens.now from size scratch.old scratch.new }
{
    for i in from..size {
        scratch[2 * size + i] = rowless(tokens, i);
    }
}

// The rows of the script's own names, in `own`, the symbol room behind the built-in rows, and the symbol of token i in the top third of the scratch room, at
// 2 * count + i: how many rows there are.
fn script_names(source: Source, own: &mut [u32], scratch: &mut [u32]) -> usize
    requires { Open (names_in source.names.now source.rows.now) source.index.now source.text.now source.tokens.now scratch.old }
    ensures { Owned (names_in source.entry.names.now source.entry.rows.now) source.entry.text.now source.entry.tokens.now own.old scratch.old own.new scratch.new result }
{
    let count = source.tokens.len() / 3;
    let built = source.rows.len() / NAME_WIDTH;
    zero(scratch, count, 2 * count);
    let mut known = 0;
    for i in 0..count {
        let Some(found) = word(source, own, scratch, built, count, known, i) else {
            leave_out(source.tokens, scratch, count, i);
            return known;
        };
        scratch[2 * count + i] = found.symbol;
        known = found.count;
    }
    known
}

// The symbol rows of the built-in names and of all words, and the symbol of token i in the top third of the scratch room, at 2 * count + i: how many rows there are.
// From the first word on whose row does not fit, a word's symbol is ABSENT, and no row is added. It asks for right names whose rows fit, with their index, for a list
// whose tokens are sound, and that the scratch room has a row for each (`Fitting`). The rest of the two rooms is left as it comes: `parse` clears it.
// Ruled out: a string's word with its quotes; a symbol that stands at another token's place; a symbol for a word after the first that does not fit; a script's name
// with a built-in name's symbol.
pub fn resolve(
    names: &[u8],
    rows: &[u32],
    index: &[u32],
    text: &[u8],
    tokens: &[u32],
    symbols: &mut [u32],
    scratch: &mut [u32],
) -> usize
    requires { Fitting (names_in names.now rows.now) index.now text.now tokens.now symbols.old scratch.old }
    ensures { Resolved (names_in names.now rows.now) text.now tokens.now symbols.old scratch.old symbols.new scratch.new result }
{
    let built = rows.len() / NAME_WIDTH;
    let first = NAME_WIDTH * built;
    copy(symbols, 0, rows, 0, first);
    let source = Source {
        names,
        rows,
        index,
        text,
        tokens,
    };
    let known = script_names(source, &mut symbols[first..], scratch);
    built + known
}

// The symbol of a token, out of the top third of the scratch room. It asks that the list has the token and the room a row for each.
// Ruled out: another token's symbol; a number that stands below the top third.
pub fn symbol_at(tokens: &[u32], scratch: &[u32], at: usize) -> u32
    requires { (at < count tokens.now) × (scratch_width * count tokens.now ≤ length scratch.now) }
    ensures { result ≡ names_of tokens.now scratch.now at }
{
    let i = 2 * (tokens.len() / 3) + at;
    scratch[i]
}

#![tactic(auto)]
// Built-in names: whether they are right (document 02, L10, refusal 18), and which of them a word is. Beside them stands their index, as of a symbol table.
ghost use Rattle.std.specs.Prelude.{◌≡◌};
ghost use Rattle.grammar.specs.Builtin.{builtins as names_in};
ghost use Rattle.spelling.specs.Words.{table};
ghost use Rattle.builtins.specs.Known.{blank_index, Before, Known, Next, Checked, FoundIn};

use interner::{bucket, link};
use lexeme::fits;
use spelling::words;
use token::kinds;

// The most names, the most bytes of their text, and the numbers of their index.
pub const MOST: usize = 64;

pub const MOST_BYTES: usize = 65536;

pub const INDEX: usize = 2 * MOST;

// Numbers a name's row has: where it starts and ends.
pub const NAME_WIDTH: usize = 2;

// Whether name `i` is right, where those before it are: an identifier that none of them is. If it is, the index has it now.
fn enter(words: &[u8], names: &[u8], rows: &[u32], index: &mut [u32], i: usize) -> bool
    requires { (words.now ≡ table) × Before (names_in names.now rows.now) i index.old }
    ensures { Next (names_in names.now rows.now) i index.new result }
{
    let start = rows[NAME_WIDTH * i] as usize;
    let end = rows[NAME_WIDTH * i + 1] as usize;
    if end < start {
        return false;
    }
    if names.len() < end {
        return false;
    }
    if !fits(words, kinds::IDENTIFIER, names, start, end) {
        return false;
    }
    let name = &names[start..end];
    let place = bucket(name, MOST);
    if interner::find(names, rows, index, i, name, place).is_some() {
        return false;
    }
    link(index, i, place);
    true
}

// Whether the rows are right names of the text; where they are, `index` is theirs. It asks for INDEX zeros.
// Ruled out: true for a keyword, or for the same name twice; false for 64 names; an index that lacks one.
pub fn right(names: &[u8], rows: &[u32], index: &mut [u32]) -> bool
    requires { index.old ≡ blank_index }
    ensures { Checked (names_in names.now rows.now) index.new result }
{
    let count = rows.len() / NAME_WIDTH;
    if MOST_BYTES < names.len() {
        return false;
    }
    if MOST < count {
        return false;
    }
    if count == 0 {
        return true;
    }
    let table = words();
    for i in 0..count {
        if !enter(&table, names, rows, index, i) {
            return false;
        }
    }
    true
}

// The built-in name that a word is. It asks that `index` is that of the names.
// Ruled out: a name that the word only starts like; None where the last one is it.
pub fn find(names: &[u8], rows: &[u32], index: &[u32], word: &[u8]) -> Option<usize>
    requires { Known (names_in names.now rows.now) index.now }
    ensures { FoundIn (names_in names.now rows.now) word.now result }
{
    let count = rows.len() / NAME_WIDTH;
    let place = bucket(word, MOST);
    interner::find(names, rows, index, count, word, place)
}

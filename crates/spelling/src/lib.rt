#![tactic(auto)]
// The table of the fixed spellings of kinds 0 to 39 and 41: for each kind up to 41 where its spelling starts, counted from the first, then for each how long it is, then
// the spellings, one after the other. NumberLiteral (40) has none. After them stands the keyword of each of 64 slots, where a word's slot is made of its first and its last byte,
// and then the class of each byte. To name a constant array copies it, so the table is made once and lent.
pub mod display;

ghost use Rattle.std.specs.Prelude.{◌≡◌, ◌≤◌, length};
ghost use Rattle.grammar.specs.Lexeme.{spelling};
ghost use Rattle.grammar.specs.Token.{lexeme};
ghost use Rattle.spelling.specs.Decides.{Decides};
ghost use Rattle.spelling.specs.Words.{slot, key, class, table};

// Where the parts of the table after the first one start.
const LENGTHS: usize = 42;

const SPELLINGS: usize = 84;

const KEYS: usize = 184;

const LETTERS: usize = 248;

// The class of a byte that may start a word, and of one that stands in none. Classes and kinds stay numbers: the table is bytes, by the project's rule, and `key` and `class` hand
// them on as they stand there.
pub const LETTER: u8 = 2;

pub const OTHER: u8 = 0;

const WORDS: [u8; 504] = *b"\
    \x00\x01\x02\x03\x04\x05\x06\x07\x09\x0b\x0d\x0f\x10\x11\x12\x13\x14\x15\x16\x17\x18\x19\x1a\x1d\x1f\x22\x25\x2a\x2d\x30\x33\x38\x3d\x45\x47\x4b\x51\x57\x5b\x60\x63\x63\
    \x01\x01\x01\x01\x01\x01\x01\x02\x02\x02\x02\x01\x01\x01\x01\x01\x01\x01\x01\x01\x01\x01\x03\x02\x03\x03\x05\x03\x03\x03\x05\x05\x08\x02\x04\x06\x06\x04\x05\x03\x00\x01\
    =+-*^/%!===>=<=><,:.|()#{}andornotletconstreffunforwhilebreakcontinueifelsereturnimporttruefalsenil;\
    \x2b\x25\x2b\x2b\x23\x2b\x2b\x16\x2b\x2b\x1e\x2b\x2b\x2b\x20\x2b\
    \x2b\x1f\x2b\x2b\x22\x2b\x2b\x26\x2b\x2b\x2b\x2b\x2b\x1a\x2b\x2b\
    \x1c\x21\x2b\x2b\x1d\x2b\x2b\x2b\x2b\x2b\x2b\x2b\x2b\x2b\x2b\x24\
    \x2b\x2b\x2b\x2b\x2b\x2b\x27\x2b\x19\x2b\x2b\x2b\x1b\x2b\x18\x17\
    \x00\x00\x00\x00\x00\x00\x00\x00\x00\x00\x00\x00\x00\x00\x00\x00\x00\x00\x00\x00\x00\x00\x00\x00\x00\x00\x00\x00\x00\x00\x00\x00\
    \x00\x00\x00\x00\x00\x00\x00\x00\x00\x00\x00\x00\x00\x00\x00\x00\x01\x01\x01\x01\x01\x01\x01\x01\x01\x01\x00\x00\x00\x00\x00\x00\
    \x00\x02\x02\x02\x02\x02\x02\x02\x02\x02\x02\x02\x02\x02\x02\x02\x02\x02\x02\x02\x02\x02\x02\x02\x02\x02\x02\x00\x00\x00\x00\x02\
    \x00\x02\x02\x02\x02\x02\x02\x02\x02\x02\x02\x02\x02\x02\x02\x02\x02\x02\x02\x02\x02\x02\x02\x02\x02\x02\x02\x00\x00\x00\x00\x00\
    \x00\x00\x00\x00\x00\x00\x00\x00\x00\x00\x00\x00\x00\x00\x00\x00\x00\x00\x00\x00\x00\x00\x00\x00\x00\x00\x00\x00\x00\x00\x00\x00\
    \x00\x00\x00\x00\x00\x00\x00\x00\x00\x00\x00\x00\x00\x00\x00\x00\x00\x00\x00\x00\x00\x00\x00\x00\x00\x00\x00\x00\x00\x00\x00\x00\
    \x00\x00\x00\x00\x00\x00\x00\x00\x00\x00\x00\x00\x00\x00\x00\x00\x00\x00\x00\x00\x00\x00\x00\x00\x00\x00\x00\x00\x00\x00\x00\x00\
    \x00\x00\x00\x00\x00\x00\x00\x00\x00\x00\x00\x00\x00\x00\x00\x00\x00\x00\x00\x00\x00\x00\x00\x00\x00\x00\x00\x00\x00\x00\x00\x00";

// The table, for a caller to make once and to lend.
// Ruled out: a byte of a spelling changed; a length that is one too small.
pub fn words() -> [u8; 504]
    ensures { result ≡ table }
{
    WORDS
}

// The spelling of a kind, a part of the table. It is empty for a kind past the table.
fn spelling_of(words: &[u8], kind: u32) -> &[u8]
    requires { words.now ≡ table }
    ensures { result.now ≡ spelling kind }
{
    if kind > 41 {
        return &words[..0];
    }
    let at = kind as usize;
    let from = SPELLINGS + words[at] as usize;
    let long = words[LENGTHS + at] as usize;
    &words[from..from + long]
}

// Whether the text from `start` up to `end` is the spelling of a kind. A kind past the table is spelt by nothing.
// It asks for the table, and that the span lies in the text.
// Ruled out: a text that only starts with the spelling; one with a byte changed.
pub fn spelled(words: &[u8], kind: u32, text: &[u8], start: usize, end: usize) -> bool
    requires { (words.now ≡ table) × (start ≤ end) × (end ≤ length text.now) }
    ensures { Decides (lexeme text.now start end ≡ spelling kind) result }
{
    same(&text[start..end], spelling_of(words, kind))
}

// Whether a word has these bytes. They are compared one by one: most have one or two, and a call for each word costs the door a tenth of its time.
fn same(word: &[u8], bytes: &[u8]) -> bool
    ensures { Decides (word.now ≡ bytes.now) result }
{
    if word.len() != bytes.len() {
        return false;
    }
    for i in 0..word.len() {
        if word[i] != bytes[i] {
            return false;
        }
    }
    true
}

// The kind of the keyword whose slot these two bytes have, or 43, Identifier, where none has it: a word with this first and this last byte is that keyword or none.
// It asks for the table.
// Ruled out: 43 for `n` and `l`, those of `nil`; 22 for them.
pub fn key(words: &[u8], first: u8, last: u8) -> u32
    requires { words.now ≡ table }
    ensures { result ≡ key (slot first last) }
{
    let slot = (3 * first as usize + last as usize) % 64;
    words[KEYS + slot] as u32
}

// The class of a byte: 2, LETTER, for [a-zA-Z_], 1 for [0-9], and 0, OTHER, for any other. It asks for the table.
// Ruled out: 0 for `_`; 2 for `7`.
pub fn class(words: &[u8], byte: u8) -> u8
    requires { words.now ≡ table }
    ensures { result ≡ class byte }
{
    words[LETTERS + byte as usize]
}

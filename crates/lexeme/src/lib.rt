#![tactic(auto)]
// Which lexeme fits which kind: document 002's patterns for numbers, strings and identifiers, and the fixed spellings, whose table is lent.

ghost use Rattle.std.specs.Prelude.{◌≡◌, ◌≤◌, length};
ghost use Rattle.grammar.specs.Derivative.{matches};
ghost use Rattle.grammar.specs.Lexeme.{letter, number, string, identifier, Fits};
ghost use Rattle.grammar.specs.Pattern.{byte, digit, some, maybe};
ghost use Rattle.grammar.specs.Run.{run, Ran};
ghost use Rattle.grammar.specs.Token.{lexeme};
ghost use Rattle.spelling.specs.Decides.{Decides};
ghost use Rattle.lexeme.specs.Parts.{signed, power, inside, letter_or_digit, Word};
ghost use Rattle.spelling.specs.Words.{table};

use spelling::{LETTER, OTHER, class, key, spelled};
use token::kinds;

// Whether the text from `start` up to `end` fits a kind of token. It asks for the table, and that the span lies in the text.
// Ruled out: `nil` as an Identifier; `1e` as a NumberLiteral.
pub fn fits(words: &[u8], kind: u32, text: &[u8], start: usize, end: usize) -> bool
    requires { (words.now ≡ table) × (start ≤ end) × (end ≤ length text.now) }
    ensures { Decides (Fits kind (lexeme text.now start end)) result }
{
    let word = &text[start..end];
    match kind {
        kinds::NUMBER_LITERAL => is_number(word),
        kinds::STRING_LITERAL => is_string(word),
        kinds::IDENTIFIER => {
            keyword(words, text, start, end) == kinds::IDENTIFIER && is_identifier(words, word)
        }
        kinds::ASSIGN..=kinds::SEMICOLON => spelled(words, kind, text, start, end),
        _ => true,
    }
}

// The kind of the keyword that the text from `start` up to `end` is, or Identifier for any other text: it is compared with the one keyword that its first and its
// last byte leave. It asks for the table, and that the span lies in the text.
// Ruled out: Identifier for `nil`; And for `ands`.
pub fn keyword(words: &[u8], text: &[u8], start: usize, end: usize) -> u32
    requires { (words.now ≡ table) × (start ≤ end) × (end ≤ length text.now) }
    ensures { Word (lexeme text.now start end) result }
{
    if start == end {
        return kinds::IDENTIFIER;
    }
    let first = text[start];
    let last = text[end - 1];
    let kind = key(words, first, last);
    if spelled(words, kind, text, start, end) {
        return kind;
    }
    kinds::IDENTIFIER
}

// [a-zA-Z_][a-zA-Z0-9_]*
fn is_identifier(words: &[u8], word: &[u8]) -> bool
    requires { words.now ≡ table }
    ensures { result ≡ matches identifier word.now }
{
    let [first, rest @ ..] = word else {
        return false;
    };
    is_letter(words, *first) && rest.iter().all(|byte| is_letter_or_digit(words, *byte))
}

// "([^"\\]|\\.)*"
fn is_string(word: &[u8]) -> bool
    ensures { result ≡ matches string word.now }
{
    let [first, rest @ ..] = word else {
        return false;
    };
    *first == b'"' && is_inside(rest)
}

// What follows the opening quote, up to the closing one.
fn is_inside(word: &[u8]) -> bool
    ensures { result ≡ matches inside word.now }
{
    let mut left = word;
    while let [here, rest @ ..] = left {
        if *here == b'"' {
            return rest.is_empty();
        }
        if *here != b'\\' {
            left = rest;
            continue;
        }
        let [next, beyond @ ..] = rest else {
            return false;
        };
        if *next == b'\n' {
            return false;
        }
        left = beyond;
    }
    false
}

// [0-9]+(\.[0-9]+)?([eE][+-]?[0-9]+)?
fn is_number(word: &[u8]) -> bool
    ensures { result ≡ matches number word.now }
{
    let whole = leading_digits(word);
    if whole == 0 {
        return false;
    }
    let after = &word[whole..];
    let [point, fraction @ ..] = after else {
        return true;
    };
    if *point != b'.' {
        return is_power(after);
    }
    let part = leading_digits(fraction);
    part != 0 && is_power(&fraction[part..])
}

// Nothing, or [eE][+-]?[0-9]+.
fn is_power(word: &[u8]) -> bool
    ensures { result ≡ matches (maybe power) word.now }
{
    let [first, rest @ ..] = word else {
        return true;
    };
    match *first {
        b'E' | b'e' => is_signed(rest),
        _ => false,
    }
}

// [+-]?[0-9]+
fn is_signed(word: &[u8]) -> bool
    ensures { result ≡ matches signed word.now }
{
    let [first, rest @ ..] = word else {
        return false;
    };
    match *first {
        b'+' | b'-' => are_digits(rest),
        _ => are_digits(word),
    }
}

// [0-9]+
fn are_digits(word: &[u8]) -> bool
    ensures { result ≡ matches (some (byte digit)) word.now }
{
    !word.is_empty() && word.iter().all(|byte| is_digit(*byte))
}

// How many digits a text begins with.
fn leading_digits(word: &[u8]) -> usize
    ensures { result ≡ run digit word.now }
{
    word.iter().take_while(|byte| is_digit(**byte)).count()
}

// The end of the run of digits that starts at `start`. It asks that the span lies in the text.
// Ruled out: an end before a digit; one past another byte.
pub fn digits(text: &[u8], start: usize, end: usize) -> usize
    requires { (start ≤ end) × (end ≤ length text.now) }
    ensures { Ran digit text.now start end result }
{
    start + leading_digits(&text[start..end])
}

// [a-zA-Z_]
fn is_letter(words: &[u8], byte: u8) -> bool
    requires { words.now ≡ table }
    ensures { result ≡ letter byte }
{
    class(words, byte) == LETTER
}

// [0-9]
fn is_digit(byte: u8) -> bool
    ensures { result ≡ digit byte }
{
    matches!(byte, b'0'..=b'9')
}

// [a-zA-Z0-9_]. It asks for the table.
// Ruled out: false for `_`; true for `-`.
pub fn is_letter_or_digit(words: &[u8], byte: u8) -> bool
    requires { words.now ≡ table }
    ensures { result ≡ letter_or_digit byte }
{
    class(words, byte) != OTHER
}

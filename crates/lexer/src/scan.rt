// Where a token ends, by what its first byte lets stand there: a word, a number, a string or a sign. Each function looks at a byte once, or twice where a part is given back.
ghost use Rattle.std.specs.Prelude.{true, [], ◌∷◌, ◌≡◌, ◌≤◌, ◌<◌, length, get_or};
ghost use Rattle.grammar.specs.Lexeme.{letter, number, string, identifier};
ghost use Rattle.grammar.specs.Pattern.{digit, maybe};
ghost use Rattle.lexeme.specs.Parts.{signed, power};
ghost use Rattle.spelling.specs.Words.{table};
ghost use Rattle.lexer.specs.Reads.{blank};
ghost use Rattle.lexer.specs.Parts.{BlanksEnd, StretchEnds, OtherByte, Spelt, Starts};

use lexeme::{digits, is_letter_or_digit, keyword};
use token::kinds;

// Space, tab, form feed, return, newline.
pub(crate) fn is_blank(byte: u8) -> bool
    ensures { result ≡ blank byte }
{
    matches!(byte, b' ' | b'\t' | 12 | b'\r' | b'\n')
}

// Where the blanks end that stand from a place on. They have a loop of their own: in that over tokens each would pay for all that a token needs to have at hand.
pub(crate) fn past_blanks(text: &[u8], from: usize) -> usize
    requires { from ≤ length text.now }
    ensures { BlanksEnd text.now from result }
{
    for at in from..text.len() {
        if !is_blank(text[at]) {
            return at;
        }
    }
    text.len()
}

// The longest token that starts at a byte of the text: its kind and its end. It asks for the table of crate spelling.
pub(crate) fn token_at(words: &[u8], text: &[u8], start: usize) -> Option<(u32, usize)>
    requires { (words.now ≡ table) × (start < length text.now) }
    ensures { Starts text.now start result }
{
    match text[start] {
        b'"' => {
            let end = string_end(text, start);
            if end == start {
                return None;
            }
            Some((kinds::STRING_LITERAL, end))
        }
        b'0'..=b'9' => Some((kinds::NUMBER_LITERAL, number_end(text, start))),
        b'A'..=b'Z' | b'_' | b'a'..=b'z' => {
            let end = word_end(words, text, start);
            Some((keyword(words, text, start, end), end))
        }
        _ => sign_at(text, start),
    }
}

// The end of the word that starts with a letter: [a-zA-Z_][a-zA-Z0-9_]*
fn word_end(words: &[u8], text: &[u8], start: usize) -> usize
    requires { (words.now ≡ table) × (start < length text.now) × (letter (get_or text.now start 0) ≡ true) }
    ensures { StretchEnds identifier text.now start result }
{
    let from = start + 1;
    match text[from..]
        .iter()
        .position(|byte| !is_letter_or_digit(words, *byte))
    {
        Some(more) => from + more,
        None => text.len(),
    }
}

// The end of the number that starts with a digit: [0-9]+(\.[0-9]+)?([eE][+-]?[0-9]+)?
fn number_end(text: &[u8], start: usize) -> usize
    requires { (start < length text.now) × (digit (get_or text.now start 0) ≡ true) }
    ensures { StretchEnds number text.now start result }
{
    let at = digits(text, start, text.len());
    if at == text.len() {
        return at;
    }
    let point = text[at];
    if point != b'.' {
        return power_end(text, at);
    }
    let from = at + 1;
    let upto = digits(text, from, text.len());
    if upto == from {
        return at;
    }
    power_end(text, upto)
}

// The end of an exponent, [eE][+-]?[0-9]+, or the start where there is none.
fn power_end(text: &[u8], start: usize) -> usize
    requires { start ≤ length text.now }
    ensures { StretchEnds (maybe power) text.now start result }
{
    if start == text.len() {
        return start;
    }
    match text[start] {
        b'E' | b'e' => {
            let from = start + 1;
            let end = signed_end(text, from);
            if end == from {
                return start;
            }
            end
        }
        _ => start,
    }
}

// The end of digits with a sign or none, or the start where there is none.
fn signed_end(text: &[u8], start: usize) -> usize
    requires { start ≤ length text.now }
    ensures { StretchEnds (maybe signed) text.now start result }
{
    if start == text.len() {
        return start;
    }
    match text[start] {
        b'+' | b'-' => {
            let from = start + 1;
            let end = digits(text, from, text.len());
            if end == from {
                return start;
            }
            end
        }
        _ => digits(text, start, text.len()),
    }
}

// The end of the string that starts with a quote, or the start where it is not closed.
fn string_end(text: &[u8], start: usize) -> usize
    requires { (start < length text.now) × (get_or text.now start 0 ≡ 34) }
    ensures { StretchEnds (maybe string) text.now start result }
{
    let mut at = start + 1;
    while at < text.len() {
        let here = text[at];
        at += 1;
        if here == b'"' {
            return at;
        }
        if here != b'\\' {
            continue;
        }
        if at == text.len() {
            return start;
        }
        let next = text[at];
        if next == 10 {
            return start;
        }
        at += 1;
    }
    start
}

// The sign that starts at a byte: with `=` after it, or alone.
fn sign_at(text: &[u8], start: usize) -> Option<(u32, usize)>
    requires { (start < length text.now) × OtherByte (get_or text.now start 0) }
    ensures { Starts text.now start result }
{
    let first = text[start];
    let next = start + 1;
    let pair = if next < text.len() && text[next] == b'=' {
        doubled(first)
    } else {
        None
    };
    if let Some(kind) = pair {
        return Some((kind, next + 1));
    }
    let kind = single(first)?;
    Some((kind, next))
}

// The kind of a byte with `=` after it.
fn doubled(byte: u8) -> Option<u32>
    ensures { Spelt (byte ∷ 61 ∷ []) result }
{
    match byte {
        b'!' => Some(kinds::NOT_EQUAL),
        b'<' => Some(kinds::LESS_EQUAL),
        b'=' => Some(kinds::EQUAL),
        b'>' => Some(kinds::GREATER_EQUAL),
        _ => None,
    }
}

// The kind of a byte alone.
fn single(byte: u8) -> Option<u32>
    ensures { Spelt (byte ∷ []) result }
{
    match byte {
        b'#' => Some(kinds::HASH),
        b'%' => Some(kinds::MODULO),
        b'(' => Some(kinds::LEFT_PAREN),
        b')' => Some(kinds::RIGHT_PAREN),
        b'*' => Some(kinds::MULTIPLY),
        b'+' => Some(kinds::PLUS),
        b',' => Some(kinds::COMMA),
        b'-' => Some(kinds::MINUS),
        b'.' => Some(kinds::DOT),
        b'/' => Some(kinds::DIVIDE),
        b':' => Some(kinds::COLON),
        b';' => Some(kinds::SEMICOLON),
        b'<' => Some(kinds::LESS),
        b'=' => Some(kinds::ASSIGN),
        b'>' => Some(kinds::GREATER),
        b'^' => Some(kinds::CARET),
        b'{' => Some(kinds::LEFT_BRACE),
        b'|' => Some(kinds::PIPE),
        b'}' => Some(kinds::RIGHT_BRACE),
        _ => None,
    }
}

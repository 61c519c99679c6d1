// What is seen at a refusal, for the table of hints: its code and the kind that was required; facts; and the places in the text that the table speaks of.
use crate::could::{OPERAND, STATEMENT, has};
use crate::run::run;
use crate::tokens::Script;
use diagnostics::line::{NEWLINE, RETURN, place, writing_end};
use reading::codes;
use syntax::Numbers;
use token::kinds;

// The facts. The letter is what the table of hints has for it.
#[derive(Clone, Copy, Default)]
pub struct Facts {
    // a: the refused bytes are a letter of Latin-1, in UTF-8.
    pub letter: bool,
    // b: a string further up goes on past the end of its line.
    pub broken: bool,
    // c: a `:` could stand here.
    pub colon: bool,
    // d: a name or a dot right behind a number.
    pub stuck: bool,
    // e: a quote with a backslash before it, on the line of a string that is not closed.
    pub escaped: bool,
    // f: an argument could end here.
    pub argument: bool,
    // g: an expression could go on here.
    pub goes_on: bool,
    // h: on a later line than the token before, where no statement could start.
    pub later_within: bool,
    // i: an operand on a later line than the token before, where a `)` could stand.
    pub later_paren: bool,
    // j: an operand on a later line than the token before, where a `}` could stand.
    pub later_brace: bool,
    // k: a `:` behind the first token of a block.
    pub key: bool,
    // l: the first token of the statement stands right before, or is the name of a call that a `{` follows.
    pub led: bool,
    // m: what starts a statement, on a later line than the token before; or the end of the file, outside all blocks.
    pub later: bool,
    // n: a comment of another language starts further left on this line.
    pub note: bool,
    // o: a `{`.
    pub opens: bool,
    // p: a parameter could end here.
    pub parameter: bool,
    // q: a `}` could stand here.
    pub brace: bool,
    // r: a `;` or a brace.
    pub ends: bool,
    // s: the end of the file, where a `}` further up may close too much.
    pub slips: bool,
    // t: a dot with a number behind it.
    pub point: bool,
    // v: a value behind the first token of a statement.
    pub value: bool,
    // w: a keyword.
    pub keyword: bool,
    // x: a bracket that closes nothing.
    pub extra: bool,
    // y: a keyword with a `:` behind it.
    pub named: bool,
    // z: the first byte of the file.
    pub first: bool,
}

impl Facts {
    // Whether the fact of a letter holds.
    pub(crate) fn has(self, letter: u8) -> bool {
        match letter {
            b'a' => self.letter,
            b'b' => self.broken,
            b'c' => self.colon,
            b'd' => self.stuck,
            b'e' => self.escaped,
            b'f' => self.argument,
            b'g' => self.goes_on,
            b'h' => self.later_within,
            b'i' => self.later_paren,
            b'j' => self.later_brace,
            b'k' => self.key,
            b'l' => self.led,
            b'm' => self.later,
            b'n' => self.note,
            b'o' => self.opens,
            b'p' => self.parameter,
            b'q' => self.brace,
            b'r' => self.ends,
            b's' => self.slips,
            b't' => self.point,
            b'v' => self.value,
            b'w' => self.keyword,
            b'x' => self.extra,
            b'y' => self.named,
            b'z' => self.first,
            _ => false,
        }
    }
}

// A `}` that may close too much, and the `{` that it closes.
#[derive(Clone, Copy)]
pub struct Slip {
    pub closer: usize,
    pub opener: usize,
}

// The text; the refusal's code, the kind that was required, and the refused token's kind; and places: the refused token's, that of the one before it and of the one before
// that, that of the first token of the statement, that of the name of a call whose `)` is the token before; the one that a hint names, which is the end of the token before
// where there are tokens.
#[derive(Clone, Copy)]
pub struct Seen<'a> {
    pub text: &'a [u8],
    pub code: u32,
    pub asked: u32,
    pub facts: Facts,
    pub found: u32,
    pub here: usize,
    pub last: Option<usize>,
    pub second: Option<usize>,
    pub lead: Option<usize>,
    pub callee: Option<usize>,
    pub mark: Option<usize>,
    pub slip: Option<Slip>,
}

// What a value that is one token is.
const LITERAL: u64 = 1 << kinds::TRUE
    | 1 << kinds::FALSE
    | 1 << kinds::NIL
    | 1 << kinds::NUMBER_LITERAL
    | 1 << kinds::STRING_LITERAL;

// The keywords.
const KEYWORDS: u64 = (1 << (kinds::NIL + 1)) - (1 << kinds::AND);

// What may stand right behind a number by mistake.
const BEHIND: u64 = 1 << kinds::IDENTIFIER | 1 << kinds::DOT;

// What a statement starts with, a `for` too.
const STARTS: u64 = STATEMENT | 1 << kinds::FOR;

// What stands before a statement.
const OUTSIDE: u64 = 1 << kinds::SEMICOLON | 1 << kinds::LEFT_BRACE | 1 << kinds::RIGHT_BRACE;

// What stands on the line of an offset before it.
fn line_before(text: &[u8], offset: usize) -> &[u8] {
    let before = text.get(..offset).unwrap_or(text);
    let mut lines = before.rsplit(|byte| matches!(*byte, NEWLINE | RETURN));
    lines.next().unwrap_or(before)
}

// How far in a line starts of which these bytes are the first.
fn blanks(line: &[u8]) -> usize {
    line.iter().take_while(|byte| **byte <= b' ').count()
}

// The facts that the set of the kinds that could stand at a token tells, and its own kind.
fn facts_of_set(could: u64, kind: u32, is_later: bool) -> Facts {
    let paren = has(could, kinds::RIGHT_PAREN);
    let brace = has(could, kinds::RIGHT_BRACE);
    let goes_on = has(could, kinds::EQUAL);
    let operand = is_later && has(OPERAND, kind);
    let starts = is_later && has(STARTS, kind);
    Facts {
        colon: has(could, kinds::COLON),
        argument: paren && goes_on,
        goes_on,
        later_within: is_later && !has(could, kinds::LET),
        later_paren: operand && paren,
        later_brace: operand && brace,
        later: starts || kind == kinds::EOF && !brace,
        parameter: paren && !goes_on,
        brace,
        ..Facts::default()
    }
}

impl<'a> Script<'a> {
    // The first token of the statement that a token stands in, or that token itself: what follows the last `;` or brace.
    fn lead_of(self, token: u32) -> u32 {
        for t in (0..token).rev() {
            if has(OUTSIDE, self.kind(t)) {
                return t + 1;
            }
        }
        0
    }

    // Whether a token is a bracket that closes nothing.
    fn is_extra(self, token: u32) -> bool {
        match self.kind(token) {
            kinds::RIGHT_BRACE => self.brace_of(token).is_none(),
            kinds::RIGHT_PAREN => self.parenthesis_of(token).is_none(),
            _ => false,
        }
    }

    // The token before the `(` whose `)` stands before a token.
    fn callee_of(self, token: u32) -> Option<u32> {
        let last = token.checked_sub(1)?;
        if self.kind(last) != kinds::RIGHT_PAREN {
            return None;
        }
        self.parenthesis_of(last)?.checked_sub(1)
    }

    // What stands on the line of a token before it.
    fn margin_of(self, token: u32) -> Option<&'a [u8]> {
        Some(line_before(self.text, self.start(token)?))
    }

    // The `{` that a token closes which is a `}` that stands first on its line, and further left than the line starts whose `{` it closes.
    fn slipped(self, token: u32) -> Option<Slip> {
        if self.kind(token) != kinds::RIGHT_BRACE {
            return None;
        }
        let own = self.margin_of(token)?;
        let opener = self.brace_of(token)?;
        if blanks(own) < own.len() || own.len() >= blanks(self.margin_of(opener)?) {
            return None;
        }
        Some(Slip {
            closer: self.start(token)?,
            opener: self.start(opener)?,
        })
    }

    // The first such token before the end of the file, where a `}` could stand there.
    fn slip_of(self, could: u64, token: u32) -> Option<Slip> {
        if !has(could, kinds::RIGHT_BRACE) || self.kind(token) != kinds::EOF {
            return None;
        }
        (0..token).find_map(|t| self.slipped(t))
    }

    // Whether an offset stands on a later line than another.
    fn is_later(self, one: usize, other: usize) -> bool {
        place(self.text, one).line < place(self.text, other).line
    }

    // The facts of a set, and those that the tokens around a token tell, with this one first in its statement.
    fn facts_of_list(self, token: u32, lead: u32, set: Facts) -> Facts {
        let kind = self.kind(token);
        let next = self.kind(token.saturating_add(1));
        let second = lead.saturating_add(1);
        let is_near = second == token;
        let opens = kind == kinds::LEFT_BRACE;
        let keyword = has(KEYWORDS, kind);
        Facts {
            stuck: self.is_stuck(token),
            key: kind == kinds::COLON && self.is_second_in_block(token),
            led: is_near || opens && self.kind(second) == kinds::LEFT_PAREN,
            opens,
            ends: has(OUTSIDE, kind),
            point: kind == kinds::DOT && next == kinds::NUMBER_LITERAL,
            value: is_near && has(LITERAL, kind),
            keyword,
            extra: self.is_extra(token),
            named: keyword && next == kinds::COLON,
            ..set
        }
    }

    // Whether a token that may stand there by mistake stands right behind a number.
    fn is_stuck(self, token: u32) -> bool {
        has(BEHIND, self.kind(token))
            && self.before(token, 1) == Some(kinds::NUMBER_LITERAL)
            && self.end_before(token) == self.start(token)
    }

    // Whether a token is the second one in a block.
    fn is_second_in_block(self, token: u32) -> bool {
        self.before(token, 2) == Some(kinds::LEFT_BRACE)
            && self.before(token, 3) != Some(kinds::HASH)
    }
}

// What is seen at a refused token.
pub(crate) fn seen_at(script: Script, a: Numbers, could: u64) -> Seen {
    let token = a.at;
    let here = a.start as usize;
    let mark = script.end_before(token).unwrap_or(0);
    let lead = script.lead_of(token);
    let slip = script.slip_of(could, token);
    let set = facts_of_set(could, script.kind(token), script.is_later(mark, here));
    let mut facts = script.facts_of_list(token, lead, set);
    facts.slips = slip.is_some();
    Seen {
        text: script.text,
        code: a.code,
        asked: a.expected,
        facts,
        found: script.kind(token),
        here,
        last: script.start_before(token, 1),
        second: script.start_before(token, 2),
        lead: script.start(lead),
        callee: script.callee_of(token).and_then(|t| script.start(t)),
        mark: Some(mark),
        slip,
    }
}

// The text from an offset on.
pub(crate) fn text_from(text: &[u8], offset: usize) -> &[u8] {
    text.get(offset..).unwrap_or(b"")
}

// Whether bytes start with a letter of Latin-1 in UTF-8.
fn has_letter(rest: &[u8]) -> bool {
    matches!(rest, [0xc3, 0x80..=0xbf, ..])
}

// Whether a quote with a backslash before it stands on the first line of these bytes.
fn has_escape(rest: &[u8]) -> bool {
    let line = &rest[..writing_end(rest, 0)];
    line.windows(2).any(|pair| matches!(pair, [b'\\', b'"']))
}

// What is seen at a place of a text of which there are no tokens. The place that a hint names is that of token number 4,096, of a comment, or of a string that goes on past
// the end of its line.
pub(crate) fn seen_in(text: &[u8], code: u32, start: usize) -> Seen {
    let gone = run(text, text.len().min(start), u32::MAX);
    let rest = text_from(text, start);
    let mark = if code == 1 {
        run(text, text.len(), 4096).last
    } else {
        gone.note.or(gone.broken)
    };
    Seen {
        text,
        code,
        asked: codes::NO_KIND,
        facts: Facts {
            note: gone.note.is_some(),
            broken: gone.broken.is_some(),
            escaped: has_escape(rest),
            first: start == 0,
            letter: has_letter(rest),
            ..Facts::default()
        },
        found: kinds::EOF,
        here: start,
        last: None,
        second: None,
        lead: None,
        callee: None,
        mark,
        slip: None,
    }
}

// What is open at a refused token, innermost first. The chain of crate expected has the blocks, the `if`s, the signs and the expressions that are open. What keeps an
// expression open is a bracket: those that no token closes before the place are looked for between an entry of the chain and the next one.
use crate::report::put_spot;
use crate::tokens::Script;
use diagnostics::Place;
use diagnostics::line::place;
use expected::{Chain, Opening, sorts};
use page::Line;
use page::hint::Style;
use token::kinds;

// What is open.
#[derive(Clone, Copy, PartialEq, Eq)]
pub enum Open {
    Call,
    Parameters,
    Parentheses,
    Map,
    Block,
    Lambda,
    If,
    Sign,
    Expression,
}

impl Open {
    // What it is said as.
    fn words(self) -> &'static [u8] {
        match self {
            Open::Call => b"  in the call that opens at ",
            Open::Parameters => b"  in the parameters that open at ",
            Open::Parentheses => b"  in the parentheses that open at ",
            Open::Map => b"  in the map that opens at ",
            Open::Block => b"  in the block that opens at ",
            Open::Lambda => b"  in the lambda that starts at ",
            Open::If => b"  in the `if` that starts at ",
            Open::Sign => b"  after the sign at ",
            Open::Expression => b"  in the expression that starts at ",
        }
    }
}

// At most so many lines are shown.
const MOST: u32 = 5;

impl Script<'_> {
    // The last `|` before a token.
    fn bar_before(self, token: u32) -> Option<u32> {
        (0..token).rev().find(|t| self.kind(*t) == kinds::PIPE)
    }

    // The first `|` of a lambda whose names are open at a token: between its two `|` there are only names and commas, so that every second one before the token closes.
    fn names_before(self, token: u32) -> Option<u32> {
        let mut bar = None;
        for t in 0..token {
            if self.kind(t) == kinds::PIPE {
                bar = bar.xor(Some(t));
            }
        }
        bar
    }

    // What a `(` opens: a call after a name or a `)`, but after `fun` and a name the parameters.
    fn parenthesis(self, token: u32) -> Open {
        match self.before(token, 1) {
            Some(kinds::RIGHT_PAREN) => Open::Call,
            Some(kinds::IDENTIFIER) if self.before(token, 2) == Some(kinds::FUNCTION) => {
                Open::Parameters
            }
            Some(kinds::IDENTIFIER) => Open::Call,
            _ => Open::Parentheses,
        }
    }

    // What a `{` opens.
    fn brace(self, token: u32) -> Open {
        match self.before(token, 1) {
            Some(kinds::HASH) => Open::Map,
            _ => Open::Block,
        }
    }

    // The first token of a construct that is met at this one: a map's is the `#` before its brace, and a lambda's the first `|` of the two before its body.
    fn first_of(self, open: Open, token: u32) -> u32 {
        let last = token.saturating_sub(1);
        match open {
            Open::Map => last,
            Open::Lambda => self.bar_before(last).unwrap_or(last),
            _ => token,
        }
    }
}

// A walk from the refused token `at` back to the first one. `all` says whether signs, and expressions that nothing else speaks for, are said. Then come how many
// brackets were met that close one further back, whether a line speaks for the expression around what was met last, how many lines there are, with those that are not
// shown, the style of the next one, and where the last token ends if the file ends at the place.
#[derive(Clone, Copy)]
struct Walk<'a> {
    script: Script<'a>,
    at: u32,
    all: bool,
    closed: u32,
    kept: bool,
    lines: u32,
    style: Style,
    mark: Option<usize>,
}

impl Walk<'_> {
    // What an entry of the chain is said as. A block's `{` speaks for it. An expression or a block after a `|` is the body of a lambda. What opens at the refused token
    // is not said.
    fn entry(&self, entry: Opening) -> Option<Open> {
        if entry.at == self.at {
            return None;
        }
        let is_body = self.script.before(entry.at, 1) == Some(kinds::PIPE);
        match entry.sort {
            sorts::EXPRESSION | sorts::BLOCK if is_body => Some(Open::Lambda),
            sorts::IF => Some(Open::If),
            sorts::SIGN if self.all => Some(Open::Sign),
            sorts::EXPRESSION if self.all && !self.kept => Some(Open::Expression),
            _ => None,
        }
    }

    // A line: what is open, and where it starts.
    fn show(&mut self, open: Open, here: Place, line: &mut Line) {
        line.put(open.words());
        put_spot(here, line);
        self.style = line.end_hint(self.style);
    }

    // The line of the text of what is open at the end of the file, with a caret below its start, unless the last token ends on that line.
    fn show_start(&self, start: usize, here: Place, line: &mut Line) {
        let Some(mark) = self.mark else {
            return;
        };
        let text = self.script.text;
        if self.style == Style::Lines && here.line < place(text, mark).line {
            line.show_line(text, start, here.column);
        }
    }

    // Goes on with one more line, which is shown if few enough are.
    fn say(&mut self, open: Open, token: u32, line: &mut Line) {
        if self.lines < MOST {
            let start = self.script.start(token).unwrap_or(0);
            let here = place(self.script.text, start);
            self.show(open, here, line);
            if self.lines == 0 {
                self.show_start(start, here, line);
            }
        }
        self.lines = self.lines.saturating_add(1);
        self.kept = open != Open::Expression;
    }

    // Goes on over a bracket that opens something, unless one was met that closes it.
    fn pass_opener(&mut self, open: Open, token: u32, line: &mut Line) {
        if self.closed == 0 {
            self.say(open, self.script.first_of(open, token), line);
        } else {
            self.closed -= 1;
        }
    }

    // Goes on over a token.
    fn pass_token(&mut self, token: u32, line: &mut Line) {
        match self.script.kind(token) {
            kinds::LEFT_PAREN => self.pass_opener(self.script.parenthesis(token), token, line),
            kinds::LEFT_BRACE => self.pass_opener(self.script.brace(token), token, line),
            kinds::RIGHT_PAREN | kinds::RIGHT_BRACE => self.closed = self.closed.saturating_add(1),
            _ => {}
        }
    }

    // Goes on over the tokens from one up to another, the last first.
    fn pass_tokens(&mut self, from: u32, upto: u32, line: &mut Line) {
        for t in (from..upto).rev() {
            self.pass_token(t, line);
        }
    }

    // Goes on over an entry of the chain.
    fn pass_entry(&mut self, entry: Opening, line: &mut Line) {
        if let Some(open) = self.entry(entry) {
            self.say(open, self.script.first_of(open, entry.at), line);
        } else if entry.sort == sorts::EXPRESSION {
            self.kept = false;
        }
    }

    // The first step: a lambda whose names are open, or whose body is to start at the place.
    fn pass_lambda(&mut self, line: &mut Line) {
        if let Some(bar) = self.script.names_before(self.at) {
            self.say(Open::Lambda, bar, line);
        } else if self.script.before(self.at, 1) == Some(kinds::PIPE) {
            self.say(
                Open::Lambda,
                self.script.first_of(Open::Lambda, self.at),
                line,
            );
        }
    }

    // The whole walk.
    fn pass_all(&mut self, chain: &Chain, line: &mut Line) {
        self.pass_lambda(line);
        let mut upto = self.at;
        for entry in chain.entries[..chain.count.min(64)].iter().rev() {
            self.pass_tokens(entry.at, upto, line);
            self.pass_entry(*entry, line);
            upto = entry.at;
        }
        self.pass_tokens(0, upto, line);
    }
}

// Where the last token ends, if the file ends at this one.
fn end_of_last(script: Script, at: u32) -> Option<usize> {
    if script.kind(at) != kinds::EOF {
        return None;
    }
    script.end_before(at)
}

// Shows what is open at a token. The answer is the walk at its end.
fn walked<'a>(
    script: Script<'a>,
    chain: &Chain,
    at: u32,
    all: bool,
    style: Style,
    line: &mut Line,
) -> Walk<'a> {
    let mut walk = Walk {
        script,
        at,
        all,
        closed: 0,
        kept: false,
        lines: 0,
        style,
        mark: end_of_last(script, at),
    };
    walk.pass_all(chain, line);
    walk
}

// What is said of the lines that are not shown. The answer is the style of the next line.
fn conclude(walk: Walk, line: &mut Line) -> Style {
    if walk.lines <= MOST {
        return walk.style;
    }
    line.put(b"  and ");
    line.put_number(walk.lines - MOST);
    line.put(b" more around it");
    line.end_hint(walk.style)
}

// Shows what is open at a token; `all` of it, where the depth is what is wrong. Where nothing else is open, signs and expressions are said too. The answer is the style
// of the next line.
pub(crate) fn show_open(
    script: Script,
    chain: &Chain,
    at: u32,
    all: bool,
    style: Style,
    line: &mut Line,
) -> Style {
    let short = walked(script, chain, at, all, style, line);
    if short.lines > 0 {
        return conclude(short, line);
    }
    conclude(walked(script, chain, at, true, short.style, line), line)
}

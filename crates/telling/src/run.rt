// A run over the bytes of a script, for refusals that leave no tokens: where each token starts, which string goes on past the end of its line, and where a
// comment of another language starts.
ghost use Rattle.std.specs.Prelude.{◌≤◌, ◌<◌, length};

use diagnostics::line::ends_line;

// What a byte belongs to: nothing that goes on, a word, a number (its digits, those after the point, its `e`, those after that), a string, a backslash in one, or a sign
// that `=` may follow.
#[derive(Clone, Copy, PartialEq, Eq)]
pub enum State {
    Between,
    Word,
    Digits,
    Fraction,
    Power,
    Exponent,
    String,
    Escape,
    Sign,
}

// Whether a byte starts a token or goes on, and what it belongs to.
#[derive(Clone, Copy)]
enum Step {
    Starts(State),
    GoesOn(State),
}

// Whether a byte may go on a word.
pub(crate) fn in_word(byte: u8) -> bool {
    matches!(byte, b'0'..=b'9' | b'A'..=b'Z' | b'_' | b'a'..=b'z')
}

// What a byte starts after the end of a token.
fn fresh(byte: u8) -> Step {
    match byte {
        9 | 10 | 12 | 13 | 32 => Step::GoesOn(State::Between),
        b'"' => Step::Starts(State::String),
        b'0'..=b'9' => Step::Starts(State::Digits),
        b'A'..=b'Z' | b'_' | b'a'..=b'z' => Step::Starts(State::Word),
        b'!' | b'<'..=b'>' => Step::Starts(State::Sign),
        _ => Step::Starts(State::Between),
    }
}

// Whether bytes start with a digit.
fn has_digit(rest: &[u8]) -> bool {
    matches!(rest, [b'0'..=b'9', ..])
}

// Whether digits follow the `e` of a number, with a sign or none.
fn has_power(rest: &[u8]) -> bool {
    match rest {
        [b'+' | b'-', digits @ ..] => has_digit(digits),
        _ => has_digit(rest),
    }
}

// What a byte before others belongs to in a string.
fn in_string(byte: u8) -> State {
    match byte {
        b'"' => State::Between,
        b'\\' => State::Escape,
        _ => State::String,
    }
}

impl State {
    // What a byte before others does after a number.
    fn number(self, byte: u8, rest: &[u8]) -> Step {
        match byte {
            b'0'..=b'9' => Step::GoesOn(self),
            b'.' if self == State::Digits && has_digit(rest) => Step::GoesOn(State::Fraction),
            b'E' | b'e' if self != State::Exponent && has_power(rest) => Step::GoesOn(State::Power),
            _ => fresh(byte),
        }
    }

    // What a byte before others does after this.
    fn step(self, byte: u8, rest: &[u8]) -> Step {
        match self {
            State::Word if in_word(byte) => Step::GoesOn(State::Word),
            State::Digits | State::Fraction | State::Exponent => self.number(byte, rest),
            State::Power => Step::GoesOn(State::Exponent),
            State::String => Step::GoesOn(in_string(byte)),
            State::Escape => Step::GoesOn(State::String),
            State::Sign if byte == b'=' => Step::GoesOn(State::Between),
            _ => fresh(byte),
        }
    }
}

// Whether a comment of another language starts with these bytes: `//`, `/*`, or a `#` that opens no map.
fn starts_note(rest: &[u8]) -> bool {
    match rest {
        [b'/', b'/' | b'*', ..] => true,
        [b'#', b'{', ..] => false,
        [b'#', ..] => true,
        _ => false,
    }
}

// What the last byte belongs to, how many tokens there were, where the last one starts, where the first string starts that holds the end of a line, and where a comment
// of another language starts on this line.
#[derive(Clone, Copy)]
pub struct Gone {
    pub state: State,
    pub count: u32,
    pub last: Option<usize>,
    pub broken: Option<usize>,
    pub note: Option<usize>,
}

impl Gone {
    // Goes on over a byte at which a token starts.
    fn start(&mut self, text: &[u8], i: usize, state: State)
        requires { i < length text.now }
    {
        self.state = state;
        self.count = self.count.saturating_add(1);
        self.last = Some(i);
        if self.note.is_none() && starts_note(&text[i..]) {
            self.note = Some(i);
        }
    }

    // Goes on over a byte that goes on with a token or stands between two.
    fn go_on(&mut self, text: &[u8], i: usize, state: State)
        requires { i < length text.now }
    {
        self.state = state;
        if ends_line(text, i) {
            self.note = None;
            if state == State::String {
                self.broken = self.broken.or(self.last);
            }
        }
    }

    // Goes on over a byte.
    fn pass(&mut self, text: &[u8], i: usize)
        requires { i < length text.now }
    {
        match self.state.step(text[i], &text[i + 1..]) {
            Step::Starts(state) => self.start(text, i, state),
            Step::GoesOn(state) => self.go_on(text, i, state),
        }
    }
}

// The run over the bytes before an offset, or up to the start of so many tokens.
pub(crate) fn run(text: &[u8], upto: usize, most: u32) -> Gone
    requires { upto ≤ length text.now }
{
    let mut gone = Gone {
        state: State::Between,
        count: 0,
        last: None,
        broken: None,
        note: None,
    };
    for i in 0..upto {
        gone.pass(text, i);
        if gone.count == most {
            return gone;
        }
    }
    gone
}

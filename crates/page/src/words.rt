// Words of a table, and parts of the text.
ghost use Rattle.std.specs.Prelude.{◌≤◌, ◌<◌, length};

use crate::Line;
use diagnostics::line::{NEWLINE, RETURN, ends_line};

// What a byte of a table is shown as: a blank for `_`.
fn spaced(byte: u8) -> u8 {
    match byte {
        b'_' => b' ',
        _ => byte,
    }
}

// Whether a return stands at a place, after a backslash.
fn is_escaped(text: &[u8], i: usize) -> bool
    requires { i < length text.now }
{
    text[i] == RETURN && i > 0 && text[i - 1] == b'\\'
}

// A blank, a tab, or the end of a line.
fn is_blank(byte: u8) -> bool {
    matches!(byte, 9..=13 | 32)
}

// How the bytes of a script are read: out of a string, in one, or after a backslash in one.
#[derive(Clone, Copy, PartialEq, Eq)]
enum State {
    Out,
    In,
    Escaped,
}

impl State {
    // How the byte after this one is read.
    fn next(self, byte: u8) -> Self {
        match (self, byte) {
            (State::Out, b'"') => State::In,
            (State::In, b'"') => State::Out,
            (State::In, b'\\') => State::Escaped,
            (State::Escaped, _) => State::In,
            _ => self,
        }
    }
}

// The offset after byte i of a text; where that byte is a blank out of a string, after the blanks that follow it too.
fn past(text: &[u8], state: State, i: usize, upto: usize) -> usize
    requires { (i < upto) × (upto ≤ length text.now) }
    ensures { (i < result) × (result ≤ upto) }
{
    if state != State::Out || !is_blank(text[i]) {
        return i + 1;
    }
    for next in i + 1..upto {
        if !is_blank(text[next]) {
            return next;
        }
    }
    upto
}

// The letter of a byte that is shown by a backslash and a letter.
fn letter(byte: u8) -> Option<u8> {
    match byte {
        9 => Some(b't'),
        10 => Some(b'n'),
        13 => Some(b'r'),
        _ => None,
    }
}

impl Line {
    // The bytes of a cell of a table up to the first blank.
    pub fn put_cell(&mut self, cell: &[u8]) {
        for &byte in cell {
            if byte == b' ' {
                return;
            }
            self.put_byte(spaced(byte));
        }
    }

    // A byte of the text; a newline for the byte with which a line ends, and nothing for the return of a pair. A newline after a backslash would end the string, so a
    // return is escaped there.
    fn put_text_byte(&mut self, text: &[u8], i: usize)
        requires { i < length text.now }
    {
        let byte = text[i];
        if byte == 9 {
            self.put_byte(byte);
        } else if is_escaped(text, i) {
            self.put_visible(byte);
        } else if ends_line(text, i) {
            self.put_byte(NEWLINE);
        } else if byte != RETURN {
            self.put_visible(byte);
        }
    }

    // A word or a string of the text from an offset up to another. It stays one: a newline stands for each end of a line, and what is escaped in it are signs of a string.
    pub fn put_text(&mut self, text: &[u8], start: u32, end: u32) {
        let upto = text.len().min(end as usize);
        for i in start as usize..upto {
            self.put_text_byte(text, i);
        }
    }

    // A byte of a string on one line: the end of a line as `\n` or `\r`, and a tab as `\t`.
    fn put_quoted(&mut self, byte: u8) {
        match letter(byte) {
            Some(sign) => self.put(&[b'\\', sign]),
            None => self.put_visible(byte),
        }
    }

    // A byte of an excerpt: out of a string a blank for any blank.
    fn put_seen(&mut self, state: State, byte: u8) {
        if state == State::Out && is_blank(byte) {
            self.put_byte(b' ');
        } else {
            self.put_quoted(byte);
        }
    }

    // The text from an offset up to another on one line, where no string is open at the first: each run of blanks out of strings as one blank, strings as they are, and `..`
    // for what is past `most` bytes.
    pub fn put_excerpt(&mut self, text: &[u8], start: u32, end: u32, most: usize) {
        let upto = text.len().min(end as usize);
        let mut i = start as usize;
        let mut left = most;
        let mut state = State::Out;
        while i < upto {
            if left == 0 {
                self.put(b"..");
                return;
            }
            left -= 1;
            let byte = text[i];
            self.put_seen(state, byte);
            i = past(text, state, i, upto);
            state = state.next(byte);
        }
    }
}

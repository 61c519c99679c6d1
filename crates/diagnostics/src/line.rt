// The line and the column of an offset in a text, the offset of a line and a column, and where what is written on a line ends.
ghost use Rattle.std.specs.Prelude.{◌+◌, ◌≤◌, ◌<◌, ◌≡◌, length, take_while};
ghost use Rattle.grammar.specs.Run.{Ran};
ghost use Rattle.spelling.specs.Decides.{Decides};
ghost use Rattle.diagnostics.specs.Line.{BytePlaced, IsAt, Placed, OffsetGiven, refusal, ends, line_of, inner};

use crate::Place;

pub const NEWLINE: u8 = 10;

pub const RETURN: u8 = 13;

// Where a text starts.
const START: Place = Place {
    code: 0,
    line: 1,
    column: 1,
};

// Whether the line ends with byte i of a text: a newline, or a return that no newline follows. It asks that the text has a byte i.
// Ruled out: true for the return of a pair; false for a return that is the last byte.
pub fn ends_line(text: &[u8], i: usize) -> bool
    requires { i < length text.now }
    ensures { result ≡ ends text.now i }
{
    match text[i] {
        NEWLINE => true,
        RETURN => text.get(i + 1) != Some(&NEWLINE),
        _ => false,
    }
}

// No place, but a refusal.
fn refused(code: u32) -> Place
    ensures { result ≡ refusal code }
{
    Place {
        code,
        line: 0,
        column: 0,
    }
}

// The place after byte i of a text, from the place of that byte.
fn after(text: &[u8], i: usize, here: Place) -> Place
    requires { BytePlaced text.now i here }
    ensures { result ≡ line_of text.now (i + 1) }
{
    if ends_line(text, i) {
        return Place {
            code: 0,
            line: here.line + 1,
            column: 1,
        };
    }
    Place {
        code: 0,
        line: here.line,
        column: here.column + 1,
    }
}

// The place of an offset, by one pass over the bytes before it.
// Ruled out: 14 at the end of the text; 14 where the text is too long as well; the column counted from 0; the column going on past a line's end; two lines for a
// return with its newline; the next line at that newline.
pub fn place(text: &[u8], offset: usize) -> Place
    ensures { Placed text.now offset result }
{
    if text.len() > 65536 {
        return refused(2);
    }
    if offset > text.len() {
        return refused(14);
    }
    let mut here = START;
    for i in 0..offset {
        here = after(text, i, here);
    }
    here
}

// Whether a place has this line and this column.
fn is_at(here: Place, line: u32, column: u32) -> bool
    ensures { Decides (IsAt line column here) result }
{
    here.line == line && here.column == column
}

// The offset that has a line and a column, by one pass over the bytes before it; the text's length and one where no offset has them, and for a text over 65,536 bytes.
// Ruled out: the start of the next line for a column past a line's end; the text's length for a line that is not there.
pub fn offset(text: &[u8], line: u32, column: u32) -> usize
    ensures { OffsetGiven text.now line column result }
{
    let n = text.len();
    if n > 65536 {
        return n + 1;
    }
    let mut here = START;
    for i in 0..n {
        if is_at(here, line, column) {
            return i;
        }
        here = after(text, i, here);
    }
    if is_at(here, line, column) { n } else { n + 1 }
}

// Whether a byte is part of what is written on a line, and of no line's end.
fn is_inner(byte: u8) -> bool
    ensures { result ≡ inner byte }
{
    byte != RETURN && byte != NEWLINE
}

// How many bytes at the front of a text are written on its first line.
fn written(text: &[u8]) -> usize
    ensures { result ≡ length (take_while inner text.now) }
{
    text.iter().take_while(|byte| is_inner(**byte)).count()
}

// Where what is written on a line ends, from an offset in it: at the first newline or return, or with the text. It asks that the offset is not past the text.
// Ruled out: the offset of a pair's newline, with the return still on the line; the end of the text where a return stands alone.
pub fn writing_end(text: &[u8], offset: usize) -> usize
    requires { offset ≤ length text.now }
    ensures { Ran inner text.now offset (length text.now) result }
{
    offset + written(&text[offset..])
}

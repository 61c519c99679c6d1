// A place in a file, and the line of the text that it is in, with what stands below the line.
ghost use Rattle.std.specs.Prelude.{◌≤◌, length};

use crate::Line;
use crate::visible::is_plain;
use diagnostics::Place;
use diagnostics::line::{place, writing_end};

// Where the line of an offset starts: as many bytes before it as the column says, which is 1 at the start. The offset itself, where there are not so many.
pub fn line_start(offset: usize, column: u32) -> usize
    ensures { result ≤ offset }
{
    let back = column as usize;
    if back == 0 || back - 1 > offset {
        return offset;
    }
    offset - (back - 1)
}

impl Line {
    // A line's number, and a column.
    fn put_numbers(&mut self, here: Place) {
        self.put_number(here.line);
        self.put_byte(b':');
        self.put_number(here.column);
    }

    // Line and column of an offset.
    pub fn put_place(&mut self, text: &[u8], offset: u32) {
        self.put_numbers(place(text, offset as usize));
    }

    // A file and a place in it, before a message.
    pub fn put_where(&mut self, path: &[u8], here: Place) {
        self.put_path(path);
        self.put_byte(b':');
        self.put_numbers(here);
        self.put(b": ");
    }

    // A byte of a line: a tab is one, and others are escaped unless they are shown as they are.
    fn put_written(&mut self, byte: u8) {
        match byte {
            9 => self.put_byte(9),
            _ => self.put_visible(byte),
        }
    }

    // What stands below a byte: a tab below a tab, a sign below a byte that is shown as it is, and four below one that is escaped.
    fn put_below(&mut self, byte: u8, sign: u8) {
        match byte {
            9 => self.put_byte(9),
            _ if is_plain(byte) => self.put_byte(sign),
            _ => self.put(&[sign; 4]),
        }
    }

    // A sign below each byte of the text from an offset up to another.
    pub fn put_under(&mut self, text: &[u8], start: usize, end: usize, sign: u8)
        requires { end ≤ length text.now }
    {
        for i in start..end {
            self.put_below(text[i], sign);
        }
    }

    // What is written on the line that starts at an offset.
    pub fn show_written(&mut self, text: &[u8], start: usize)
        requires { start ≤ length text.now }
    {
        let end = writing_end(text, start);
        for &byte in &text[start..end] {
            self.put_written(byte);
        }
        self.end();
    }

    // What is written on the line of an offset, and a caret below the offset.
    pub fn show_line(&mut self, text: &[u8], offset: usize, column: u32) {
        if offset > text.len() {
            return;
        }
        let start = line_start(offset, column);
        self.show_written(text, start);
        self.put_under(text, start, offset, b' ');
        self.put_byte(b'^');
        self.end();
    }
}

// What is put on a line, and what becomes of it.
ghost use Rattle.std.specs.Prelude.{◌≡◌, []};
ghost use Rattle.page.specs.Line.{held, after, puts};

use crate::Line;
use diagnostics::line::NEWLINE;

// The descriptors of standard output and of standard error.
const STDOUT_FILENO: i32 = 1;

const STDERR_FILENO: i32 = 2;

impl Line {
    // An empty line of a descriptor.
    fn empty(to: i32) -> Self
        ensures { held result ≡ [] }
    {
        Line {
            room: [0; 4096],
            at: 0,
            to,
        }
    }

    // An empty line of standard output.
    pub fn new() -> Self
        ensures { held result ≡ [] }
    {
        Self::empty(STDOUT_FILENO)
    }

    // An empty line of standard error.
    pub fn error() -> Self
        ensures { held result ≡ [] }
    {
        Self::empty(STDERR_FILENO)
    }

    // What is not written yet.
    pub fn bytes(&self) -> &[u8]
        ensures { result.now ≡ held self.now }
    {
        &self.room[..self.at]
    }

    // Nothing of it is written.
    pub(crate) fn clear(&mut self)
        ensures { held self.new ≡ [] }
    {
        self.at = 0;
    }

    // Adds a byte.
    pub fn put_byte(&mut self, byte: u8)
        ensures { held self.new ≡ after byte (held self.old) }
    {
        if self.at < 4096 {
            self.room[self.at] = byte;
            self.at += 1;
        } else {
            self.write();
            self.room[0] = byte;
            self.at = 1;
        }
    }

    // Adds bytes: at once, where the room has place for them.
    pub fn put(&mut self, part: &[u8])
        ensures { held self.new ≡ puts part.now (held self.old) }
    {
        if part.len() <= 4096 - self.at {
            let end = self.at + part.len();
            self.room[self.at..end].copy_from_slice(part);
            self.at = end;
            return;
        }
        for &byte in part {
            self.put_byte(byte);
        }
    }

    // Adds blanks up to a column, and one where the column is passed already.
    pub fn pad(&mut self, column: usize) {
        let next = self.at + 1;
        self.put_byte(b' ');
        for _ in next..column {
            self.put_byte(b' ');
        }
    }

    // Adds a number in decimal.
    pub fn put_number(&mut self, n: u32) {
        let mut digits = [0u8; 20];
        let k = io::decimal(n as u64, &mut digits);
        self.put(&digits[..k]);
    }

    // Writes what is not written yet.
    pub fn write(&mut self)
        ensures { held self.new ≡ [] }
    {
        io::write_all(self.to, &self.room[..self.at]);
        self.at = 0;
    }

    // Ends the line, and writes it.
    pub fn end(&mut self)
        ensures { held self.new ≡ [] }
    {
        self.put_byte(NEWLINE);
        self.write();
    }

    // A line of its own.
    pub fn put_line(&mut self, part: &[u8])
        ensures { held self.new ≡ [] }
    {
        self.put(part);
        self.end();
    }
}

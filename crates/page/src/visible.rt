// Bytes that are no printed signs of ASCII: a terminal would act on them, or show something else. Each is shown by its two hexadecimal digits, as `\x1b`.
ghost use Rattle.std.specs.Prelude.{◌<◌};

use crate::Line;

// Whether a byte is shown as it is.
pub fn is_plain(byte: u8) -> bool {
    matches!(byte, 32..=126)
}

// A hexadecimal digit.
fn digit(n: u8) -> u8
    requires { n < 16 }
{
    if n < 10 {
        return b'0' + n;
    }
    n - 10 + b'a'
}

impl Line {
    // A lead, and the two digits of a byte.
    pub fn put_escape(&mut self, lead: &[u8], byte: u8) {
        self.put(lead);
        self.put_byte(digit(byte / 16));
        self.put_byte(digit(byte % 16));
    }

    // A byte, escaped unless it is shown as it is.
    pub fn put_visible(&mut self, byte: u8) {
        if is_plain(byte) {
            self.put_byte(byte);
        } else {
            self.put_escape(b"\\x", byte);
        }
    }

    // The name of a file, or a word of the command.
    pub fn put_path(&mut self, path: &[u8]) {
        for &byte in path {
            self.put_visible(byte);
        }
    }
}

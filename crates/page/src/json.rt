// Objects of JSON, one a line: strings in which any byte may stand, and numbers.
use crate::Line;
use diagnostics::line::place;

impl Line {
    // A byte of a string. Each byte is a sign of its own, numbered as in Latin 1.
    fn put_json(&mut self, byte: u8) {
        match byte {
            b'"' | b'\\' => self.put(&[b'\\', byte]),
            32..=126 => self.put_byte(byte),
            _ => self.put_escape(b"\\u00", byte),
        }
    }

    // A lead, and the string of the bytes of a part.
    pub fn put_string(&mut self, lead: &[u8], part: &[u8]) {
        self.put(lead);
        self.put_byte(b'"');
        for &byte in part {
            self.put_json(byte);
        }
        self.put_byte(b'"');
    }

    // A lead, and a number.
    pub fn put_count(&mut self, lead: &[u8], n: u32) {
        self.put(lead);
        self.put_number(n);
    }

    // The place of a part of the text: the line and the column where it starts, and its offsets.
    pub fn put_part(&mut self, text: &[u8], start: u32, end: u32) {
        let here = place(text, start as usize);
        self.put_count(b",\"line\":", here.line);
        self.put_count(b",\"column\":", here.column);
        self.put_count(b",\"start\":", start);
        self.put_count(b",\"end\":", end);
    }

    // What an object on a part of a script starts with: the file, the place, and whether it is an error or a warning.
    pub fn put_note(&mut self, path: &[u8], text: &[u8], start: u32, end: u32, severity: &[u8]) {
        self.put_string(b"{\"file\":", path);
        self.put_part(text, start, end);
        self.put_string(b",\"severity\":", severity);
    }
}

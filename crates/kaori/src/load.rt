// The bytes of a file or of standard input, and what is said on standard error where there are none.
ghost use Rattle.std.specs.Prelude.{◌≤◌, length, IfSome};

use page::Line;
use std::fs::File;
use std::io::{Error, Read, Write};
use std::os::fd::AsRawFd;
use std::str;

// So much of a file's name is said, that what is said of it fits in a room: a byte may take four.
const LONGEST: usize = 960;

// What a line on standard error starts with: a file or a word.
pub(crate) fn error(what: &[u8]) -> Line {
    let mut line = Line::error();
    line.put(b"kaori: ");
    line.put_path(&what[..what.len().min(LONGEST)]);
    line
}

// The same for a line of a file.
pub(crate) fn error_at(path: &[u8], at: u32) -> Line {
    let mut line = error(path);
    line.put_byte(b':');
    line.put_number(at);
    line
}

// One line on standard error: a file or a word, and what is wrong with it.
pub(crate) fn complain(what: &[u8], why: &[u8]) {
    error(what).put_line(why);
}

// Where the system's words end in the text of an error, as in `No such file or directory (os error 2)`; zeros follow the text.
fn words(text: &[u8]) -> &[u8]
    ensures { length result.now ≤ length text.now }
{
    for n in 0..text.len() {
        if text[n] == 0 || text[n..].starts_with(b" (os error ") {
            return &text[..n];
        }
    }
    text
}

// One line on standard error: a file or a word, and the system's reason.
pub(crate) fn fail(what: &[u8], reason: Error) {
    let mut text = [0u8; 256];
    let mut rest: &mut [u8] = &mut text;
    let _ = write!(rest, "{reason}");
    let mut line = error(what);
    line.put(b": ");
    line.put_line(words(&text));
}

// Fills a room from an open file, and answers what it holds then. A read that fails and the end of the file both end `read_full`; one more read tells them apart, and whether
// the file is too large.
fn fill<'a, R: Read + AsRawFd + Drop>(
    path: &[u8],
    mut from: R,
    large: &[u8],
    room: &'a mut [u8],
) -> Option<&'a [u8]>
    ensures { IfSome result (λ text. length text.now ≤ length room.old) }
{
    let n = io::read_full(from.as_raw_fd(), room);
    let mut more = [0u8; 1];
    match from.read(&mut more) {
        Ok(0) => Some(&room[..n]),
        Ok(_) => {
            complain(path, large);
            None
        }
        Err(error) => {
            fail(path, error);
            None
        }
    }
}

// Fills a room from a file, or from standard input where its name is `-`. Where it cannot be read, or the room is too small for it, there is a complaint; `large` is the
// second one's words. std opens no file whose name is not UTF-8.
pub(crate) fn load<'a>(
    rt: &HostRuntime,
    path: &[u8],
    large: &[u8],
    room: &'a mut [u8],
) -> Option<&'a [u8]>
    ensures { IfSome result (λ text. length text.now ≤ length room.old) }
{
    if path == b"-".as_slice() {
        return fill(path, rt.stdin(), large, room);
    }
    let Ok(name) = str::from_utf8(path) else {
        complain(path, b": the name is not UTF-8");
        return None;
    };
    match File::open(rt, name) {
        Ok(file) => fill(path, file, large, room),
        Err(error) => {
            fail(path, error);
            None
        }
    }
}

// The built-in names that a file lists: a name a line, and empty lines between them. The file's text is their text, and a name's row is where its line starts and
// ends. What a name is, and that no two are the same, is for crate builtins to say.
ghost use Rattle.std.specs.Prelude.{◌+◌, ◌*◌, ◌≤◌, length};

use crate::load::error_at;
use builtins::{INDEX, MOST, NAME_WIDTH, right};
use diagnostics::line::{place, writing_end};

// The numbers of all rows that there may be.
pub(crate) const ROWS: usize = NAME_WIDTH * MOST;

// Built-in names, which scripts are read beside: their text, and their rows.
#[derive(Clone, Copy)]
pub(crate) struct Names<'a> {
    pub(crate) text: &'a [u8],
    pub(crate) rows: &'a [u32],
}

impl Names<'_> {
    // None.
    pub(crate) const NONE: Names<'static> = Names {
        text: &[],
        rows: &[],
    };

    // How many there are.
    pub(crate) fn count(self) -> usize {
        self.rows.len() / NAME_WIDTH
    }
}

// One line on standard error: the line of a file that an offset of its text is in, and what is wrong with it.
fn complain_at(path: &[u8], text: &[u8], offset: usize, why: &[u8]) {
    let here = place(text, offset);
    error_at(path, here.line).put_line(why);
}

// Where the first line starts that is not empty, from an offset on that is the start of a line, or the newline of a pair.
fn line_from(text: &[u8], offset: usize) -> usize
    ensures { offset ≤ result }
{
    for at in offset..text.len() {
        if writing_end(text, at) != at {
            return at;
        }
    }
    offset.max(text.len())
}

// Puts the row of one more name after those of `count` others, and says whether all of them are right.
fn enter(text: &[u8], start: usize, end: usize, rows: &mut [u32; ROWS], count: usize) -> bool
    requires { (start ≤ end) × (end ≤ 65536) × (2 * count + 2 ≤ 128) }
{
    let at = NAME_WIDTH * count;
    rows[at] = start as u32;
    rows[at + 1] = end as u32;
    let mut index: [u32; INDEX] = [0; INDEX];
    right(text, &rows[..at + NAME_WIDTH], &mut index)
}

// The names that a text lists. None, with a complaint, where a line is no name, or is one above it again, or one too many.
pub(crate) fn list<'a>(path: &[u8], text: &'a [u8], rows: &'a mut [u32; ROWS]) -> Option<Names<'a>>
    requires { length text.now ≤ 65536 }
{
    let mut count = 0;
    let mut at = line_from(text, 0);
    while at < text.len() {
        let end = writing_end(text, at);
        if count == MOST {
            complain_at(path, text, at, b": more than 64 names");
            return None;
        }
        if !enter(text, at, end, rows, count) {
            complain_at(path, text, at, b": not a name, or one that stands above it");
            return None;
        }
        count += 1;
        at = line_from(text, end + 1);
    }
    Some(Names {
        text,
        rows: &rows[..NAME_WIDTH * count],
    })
}

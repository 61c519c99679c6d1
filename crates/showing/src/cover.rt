// The text that a row covers: from the leftmost start to the rightmost end of the row and of all that stands below it, with the parentheses that were
// opened or closed in between. (A row's own span is less: that of a call starts at its `(`.) Children stand before their parents, so one pass over the rows
// finds all.
ghost use Rattle.std.specs.Prelude.{◌≡◌, length, take};
ghost use Rattle.showing.specs.Noted.{Noted};

use crate::{Row, Tree};
use token::kinds;

// Offsets in the text.
#[derive(Clone, Copy)]
pub struct Part {
    pub start: u32,
    pub end: u32,
}

// A room for the parts of 4,096 rows, as many as the rooms of the command hold.
pub fn noted() -> [Part; 4096] {
    [Part::NONE; 4096]
}

impl Part {
    // The empty part at 0.
    pub const NONE: Part = Part { start: 0, end: 0 };

    // What of a text it is.
    pub(crate) fn of(self, text: &[u8]) -> &[u8] {
        let start = self.start as usize;
        let end = text.len().min(self.end as usize);
        if start <= end { &text[start..end] } else { b"" }
    }

    // Whether nothing is in it.
    pub(crate) fn is_empty(self) -> bool {
        self.start == self.end
    }

    // Whether it has this offset in it.
    pub(crate) fn holds(self, offset: usize) -> bool {
        self.start as usize <= offset && offset < self.end as usize
    }

    // The least part that holds two.
    fn joined(self, other: Part) -> Part {
        Part {
            start: self.start.min(other.start),
            end: self.end.max(other.end),
        }
    }
}

// What row `id` covers, where that is noted; the empty part at 0 where it is not.
// Ruled out: the part of the row before it; the empty part for the last one that is noted.
pub fn part_of(covers: &[Part], id: u32) -> Part
    ensures { Noted covers.now id result }
{
    match covers.get(id as usize) {
        Some(part) => *part,
        None => Part::NONE,
    }
}

// A part of the text, and how many parentheses in it are without their counterparts: `(` and `)`.
#[derive(Clone, Copy)]
struct Stretch {
    part: Part,
    open: u32,
    shut: u32,
}

impl Stretch {
    // Counts a token where it lies in the part. Any kind but those of the parentheses changes nothing.
    fn count(&mut self, token: [u32; 3]) {
        let [kind, start, end] = token;
        if start < self.part.start || end > self.part.end {
            return;
        }
        match kind {
            kinds::LEFT_PAREN => self.open = self.open.saturating_add(1),
            kinds::RIGHT_PAREN if self.open > 0 => self.open -= 1,
            kinds::RIGHT_PAREN => self.shut = self.shut.saturating_add(1),
            _ => {}
        }
    }

    // Goes on up to a token that closes it: the `)` of a `(` in it.
    fn close(&mut self, token: [u32; 3]) {
        let [kind, start, end] = token;
        if self.open > 0 && kind == kinds::RIGHT_PAREN && start >= self.part.end {
            self.part.end = end;
            self.open -= 1;
        }
    }

    // Begins at a token that opens it: the `(` of a `)` in it.
    fn begin(&mut self, token: [u32; 3]) {
        let [kind, start, end] = token;
        if self.shut > 0 && kind == kinds::LEFT_PAREN && end <= self.part.start {
            self.part.start = start;
            self.shut -= 1;
        }
    }
}

// The numbers of the tokens of a list, up to Eof, which is the last.
pub(crate) fn up_to_end(list: &[u32]) -> &[u32]
    ensures { result.now ≡ take (length result.now) list.now }
{
    let (tokens, _) = list.as_chunks::<3>();
    match tokens.iter().position(|token| token[0] == kinds::EOF) {
        Some(k) => &list[..3 * k + 3],
        None => list,
    }
}

impl Tree<'_> {
    // The tokens, three numbers each.
    fn each_token(&self) -> &[[u32; 3]] {
        let (tokens, _) = self.tokens.as_chunks::<3>();
        tokens
    }

    // A part with the counterparts of its lone parentheses: those of `(` are looked for from the left, those of `)` from the right.
    fn balanced(&self, part: Part) -> Part {
        let mut s = Stretch {
            part,
            open: 0,
            shut: 0,
        };
        for token in self.each_token() {
            s.count(*token);
        }
        for token in self.each_token() {
            s.close(*token);
        }
        for token in self.each_token().iter().rev() {
            s.begin(*token);
        }
        s.part
    }
}

impl Row<'_, '_> {
    // The row with all that stands below it.
    fn reach(self) -> Part {
        let mut part = Part {
            start: self.number(1),
            end: self.number(2),
        };
        for place in 0..self.places() {
            if let Some(kid) = self.child(place) {
                part = part.joined(kid.part());
            }
        }
        part
    }

    // What the row covers, where that is noted of all that stands below it.
    pub(crate) fn whole(self) -> Part {
        self.tree.balanced(self.reach())
    }
}

// A line below a message that says more of it. It starts with two blanks.
ghost use Rattle.std.specs.Prelude.{◌≡◌};
ghost use Rattle.page.specs.Hint.{style_of};

use crate::Line;

// What becomes of such lines: each is a line; or each is a string of a list of JSON, of which this is the first, or one more.
#[derive(Clone, Copy, PartialEq, Eq)]
pub enum Style {
    Lines,
    First,
    More,
}

// The style of a number, for whoever has one: 0 is Lines and 2 is More; any other is First.
// Ruled out: a comma before the first string; a line of its own for a number that is not 0.
impl From<u32> for Style {
    ghost from_gives = { λ n s. s ≡ style_of n };

    fn from(style: u32) -> Style {
        match style {
            0 => Style::Lines,
            2 => Style::More,
            _ => Style::First,
        }
    }
}

// What of a line is a string of a list: the bytes from the third on.
fn said(line: &[u8]) -> &[u8] {
    match line {
        [_, _, said @ ..] => said,
        _ => b"",
    }
}

impl Line {
    // Writes the line as a string of a list.
    fn write_string(&self, style: Style) {
        let mut list = Line::new();
        if style == Style::More {
            list.put_byte(b',');
        }
        list.put_string(b"", said(self.bytes()));
        list.write();
    }

    // Ends a line of this style, and writes it. The answer is the style of the next one.
    pub fn end_hint(&mut self, style: Style) -> Style {
        if style == Style::Lines {
            self.end();
            return Style::Lines;
        }
        self.write_string(style);
        self.clear();
        Style::More
    }
}

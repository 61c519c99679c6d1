// The words of each warning, and how to write what was perhaps meant, in the script's own words.
use crate::Warning;
use ast::kinds;
use diagnostics::line::place;
use lint::Rule;
use page::Line;
use page::hint::Style;
use showing::cover::Part;

// The most bytes of the script in a message, and in each of the two parts of what is to be written. A byte may take four places, and a line stays in its room: else its
// first half would be written before it is made a string of JSON.
const MOST: usize = 72;

const WHOLE: usize = 480;

// Whether a row of this kind is an operand once it stands in parentheses, and a token of this kind joins operands.
fn can_go_on(sort: u32, sign: Option<u32>) -> bool {
    matches!(sort, kinds::BLOCK | kinds::IF)
        && matches!(sign, Some(token::kinds::PLUS | token::kinds::MINUS))
}

impl Warning<'_, '_> {
    // A part of the script on one line: MOST bytes of it in a message, and WHOLE where it is to be written.
    fn put_part(self, part: Part, most: usize, line: &mut Line) {
        line.put_excerpt(self.row.tree.text, part.start, part.end, most);
    }

    // What the row covers, from the first token after its own on.
    fn after_not(self) -> Part {
        let part = self.row.part();
        let after = self.part_after(self.first_past(part.start));
        Part {
            start: after.start,
            end: part.end,
        }
    }

    // A `not` that took an `and` or an `or`.
    fn put_taken(self, line: &mut Line) {
        line.put(b"`not` takes all of this: ");
        self.put_part(self.after_not(), MOST, line);
    }

    // A call or a sum over the end of a line.
    fn put_going_on(self, line: &mut Line) {
        line.put(b"this `");
        self.put_part(self.token_part(self.going_on()), MOST, line);
        line.put(b"` goes on from the line before: ");
        self.put_part(self.row.part(), MOST, line);
    }

    // A string over the end of a line.
    fn put_long(self, line: &mut Line) {
        line.put(b"this string goes on over the end of its line, up to ");
        if let Some(last) = self.row.part().end.checked_sub(1) {
            line.put_place(self.row.tree.text, last);
        }
    }

    // What is said of the row.
    pub(crate) fn put_what(self, line: &mut Line) {
        match self.rule {
            Rule::ReachingNot => self.put_taken(line),
            Rule::CutOff => {
                line.put(b"a new statement starts here: the one before ends at its `}`")
            }
            Rule::GoingOn => self.put_going_on(line),
            _ => self.put_long(line),
        }
    }

    // A `not` on the first of what it took in parentheses; that in its own, where it is a sum or the like, so that both editions read it alike.
    fn put_first_not(self, first: Part, bare: bool, line: &mut Line) {
        line.put(b"  for `not` on the first alone, write: (not ");
        if bare {
            line.put_byte(b'(');
        }
        self.put_part(first, WHOLE, line);
        if bare {
            line.put_byte(b')');
        }
        line.put(b") ");
    }

    // `not` on its first operand, and on all that it took; row x is the leftmost `and` or `or`.
    fn show_nots(self, x: u32, style: Style, line: &mut Line) {
        let part = self.row.part();
        let taken = self.after_not();
        let k = self.sign(x);
        let first = Part {
            start: taken.start,
            end: self.part_before(k).end,
        };
        let rest = Part {
            start: self.token_part(k).start,
            end: part.end,
        };
        self.put_first_not(first, self.is_bare(self.node(x, 3), part.start), line);
        self.put_part(rest, WHOLE, line);
        let more = line.end_hint(style);
        line.put(b"  for `not` on all of it, write: not (");
        self.put_part(taken, WHOLE, line);
        line.put_byte(b')');
        line.end_hint(more);
    }

    // A statement in parentheses, with which a sum can start; its sign is a token.
    fn show_grouped(self, sign: Part, style: Style, line: &mut Line) -> Style {
        line.put(b"  to go on with it, write: (");
        self.put_part(self.row.part(), WHOLE, line);
        line.put(b") ");
        self.put_part(sign, MOST, line);
        line.put(b" ..");
        line.end_hint(style)
    }

    // What to write after a `}`.
    fn show_cut(self, style: Style, line: &mut Line) {
        let k = self.after_brace();
        let mut more = style;
        if can_go_on(self.row.kind(), self.token_kind(k)) {
            more = self.show_grouped(self.token_part(k), style, line);
        }
        line.put(b"  to keep it a new statement, write `;` after the `}`");
        line.end_hint(more);
    }

    // A lead, and the line of an offset.
    fn put_line_of(self, lead: &[u8], offset: u32, line: &mut Line) {
        line.put(lead);
        line.put_number(place(self.row.tree.text, offset as usize).line);
    }

    // What to write at the end of the line before token k: the token, to go on.
    fn show_end(self, k: usize, style: Style, line: &mut Line) {
        line.put(b"  to go on, write the `");
        self.put_part(self.token_part(k), MOST, line);
        self.put_line_of(b"` at the end of line ", self.part_before(k).end, line);
        line.end_hint(style);
    }

    // And a `;`, to start a statement at token k.
    fn show_start(self, k: usize, style: Style, line: &mut Line) -> Style {
        let end = self.part_before(k).end;
        self.put_line_of(
            b"  to start a new statement, write `;` at the end of line ",
            end,
            line,
        );
        line.end_hint(style)
    }

    // The two, but no statement starts in a condition.
    fn show_ends(self, style: Style, line: &mut Line) {
        let k = self.going_on();
        let mut more = style;
        if !self.in_condition() {
            more = self.show_start(k, style, line);
        }
        self.show_end(k, more, line);
    }

    // What to write for a string.
    fn show_quote(self, style: Style, line: &mut Line) {
        let start = self.row.part().start;
        self.put_line_of(
            b"  if its closing quote is missing, write it on line ",
            start,
            line,
        );
        line.end_hint(style);
    }

    // Shows how to write what was perhaps meant. A `not` that meets its rule took something.
    pub(crate) fn show_forms(self, style: Style, line: &mut Line) {
        match self.rule {
            Rule::ReachingNot => {
                if let Some(x) = self.first_joined() {
                    self.show_nots(x, style, line);
                }
            }
            Rule::CutOff => self.show_cut(style, line),
            Rule::GoingOn => self.show_ends(style, line),
            _ => self.show_quote(style, line),
        }
    }
}

// A statement once more, as it is read: every operand that is more than a word, a literal or a chain stands in parentheses, but for the left one of two that is read from
// left to right in any case.
ghost use Rattle.std.specs.Prelude.{◌<◌};

use crate::Row;
use crate::words::{DEEPEST, indent};
use ast::{ABSENT, kinds};
use children::{Children, link, linked};
use page::Line;

// Whether a node of this kind takes more than its own token and a chain: an operator, a lambda, a block or an `if`.
fn is_compound(kind: u32) -> bool {
    matches!(kind, kinds::BINARY..=kinds::UNARY | kinds::LAMBDA..=kinds::IF)
}

// Whether a node of this kind reaches as far to the right as it can: a lambda, a block or an `if`.
fn is_open(kind: u32) -> bool {
    matches!(kind, kinds::LAMBDA..=kinds::IF)
}

// Whether a node of this kind is a name or a chain: what a call or a dot follows without parentheses.
fn is_chain(kind: u32) -> bool {
    matches!(
        kind,
        kinds::IDENTIFIER | kinds::FUNCTION_CALL..=kinds::PROPERTY_ACCESS
    )
}

// Whether a statement of this kind stands without `;`: a function, a block, an `if` or a `while`.
pub(crate) fn is_closed(kind: u32) -> bool {
    matches!(kind, kinds::FUNCTION | kinds::BLOCK..=kinds::WHILE_LOOP)
}

// The level of a Binary's operator, as ops.rs counts operators: the tightest is 1.
fn level_of(operator: u32) -> u32 {
    match operator {
        0..=1 => 2,
        2..=4 => 1,
        5..=6 => 4,
        _ => 3,
    }
}

// A new line at a level.
fn new_line(level: u32, line: &mut Line) {
    line.end();
    indent(4, level, line);
}

// What stands before an entry of a map, or before its value.
fn before_entry(place: usize, line: &mut Line) {
    if place % 2 == 0 {
        line.put(b": ");
    } else if place == 1 {
        line.put_byte(b' ');
    } else {
        line.put(b", ");
    }
}

// What stands before the block or the `else` of `if` and `while`.
fn before_block(place: usize, line: &mut Line) {
    match place {
        0 => {}
        1 => line.put_byte(b' '),
        _ => line.put(b" else "),
    }
}

// Whether `;` is put after the statement at a place of a block. The tail has none; where the last statement is no tail, it has one in any case, since
// it would be the tail without.
fn is_ended(b: Children, place: usize, kid: u32) -> bool {
    let many = linked(b);
    place <= many && (!is_closed(kid) || place == many && b.second == ABSENT)
}

impl Row<'_, '_> {
    // The name that a row has: its start and its end are the row's numbers from `start` on.
    fn put_named(self, start: u32, line: &mut Line)
        requires { start < 9 }
    {
        line.put_text(self.tree.text, self.number(start), self.number(start + 1));
    }

    // The names of a list, with a comma or a dot between two. The row's numbers from `list` on say which links have them.
    fn put_names(self, list: u32, between: &[u8], line: &mut Line)
        requires { list < 9 }
    {
        let from = self.number(list) as usize;
        for i in 0..self.number(list + 1) as usize {
            if i > 0 {
                line.put(between);
            }
            let k = from + i;
            line.put_text(
                self.tree.text,
                link(self.tree.links, k, 1),
                link(self.tree.links, k, 2),
            );
        }
    }

    // `let`, `const` or `ref`, a name, and `=`.
    fn put_binding(self, lead: &[u8], line: &mut Line) {
        line.put(lead);
        self.put_named(4, line);
        line.put(b" = ");
    }

    // `fun`, a name, and the names in parentheses.
    fn put_function(self, line: &mut Line) {
        line.put(b"fun ");
        self.put_named(4, line);
        line.put_byte(b'(');
        self.put_names(6, b", ", line);
        line.put(b") ");
    }

    // The names of a lambda between bars.
    fn put_bars(self, line: &mut Line) {
        line.put_byte(b'|');
        self.put_names(3, b", ", line);
        line.put(b"| ");
    }

    // A whole import: its path, and its bindings where it has some.
    fn put_import(self, line: &mut Line) {
        line.put(b"import ");
        self.put_names(3, b".", line);
        if self.number(6) > 0 {
            line.put(b": ");
            self.put_names(5, b", ", line);
        }
    }

    // `return`, with a blank before its value where it has one.
    fn put_return(self, line: &mut Line) {
        line.put(b"return");
        if self.number(3) != ABSENT {
            line.put_byte(b' ');
        }
    }

    // What a row starts with, before its first child; all of a row that has no child.
    fn opening(self, line: &mut Line) {
        match self.kind() {
            kinds::LOGICAL_NOT => line.put(b"not "),
            kinds::UNARY => self.put_sign(line),
            kinds::VARIABLE => self.put_binding(b"let ", line),
            kinds::CONSTANT => self.put_binding(b"const ", line),
            kinds::REF => self.put_binding(b"ref ", line),
            kinds::IDENTIFIER..=kinds::NIL | kinds::BREAK..=kinds::CONTINUE => {
                self.put_named(1, line)
            }
            kinds::MAP => line.put(b"#{"),
            kinds::FUNCTION => self.put_function(line),
            kinds::LAMBDA => self.put_bars(line),
            kinds::BLOCK => line.put_byte(b'{'),
            kinds::IF => line.put(b"if "),
            kinds::WHILE_LOOP => line.put(b"while "),
            kinds::RETURN => self.put_return(line),
            kinds::IMPORT => self.put_import(line),
            _ => {}
        }
    }

    // The level of a row that joins two operands.
    fn level(self) -> Option<u32> {
        match self.kind() {
            kinds::BINARY => Some(level_of(self.number(3))),
            kinds::LOGICAL_AND => Some(5),
            kinds::LOGICAL_OR => Some(6),
            _ => None,
        }
    }

    // Whether the operand of an operator is put in parentheses. The left one of two is not, where it is of the operator's own level: it is read first in any case.
    fn is_operand_grouped(self, place: usize, kid: Self) -> bool {
        let same = kid.level().is_some() && kid.level() == self.level();
        is_compound(kid.kind()) && !(place == 0 && same)
    }

    // Whether a child is put in parentheses: the operand of an operator, and the body of a lambda; what a block or `=` follows, where it would not end there; and what a
    // call or a dot follows, where it is no chain.
    fn is_grouped(self, place: usize, kid: Self) -> bool {
        let sort = kid.kind();
        match self.kind() {
            kinds::BINARY..=kinds::UNARY => self.is_operand_grouped(place, kid),
            kinds::LAMBDA => sort != kinds::BLOCK && is_compound(sort),
            kinds::FUNCTION_CALL..=kinds::PROPERTY_ACCESS => place == 0 && !is_chain(sort),
            kinds::ASSIGN | kinds::IF..=kinds::WHILE_LOOP => place == 0 && is_open(sort),
            _ => false,
        }
    }

    // The level of what stands below a row: a block's is one deeper, up to the deepest indent.
    fn deeper(self, level: u32) -> u32 {
        if self.kind() == kinds::BLOCK && level < DEEPEST {
            level + 1
        } else {
            level
        }
    }

    // A row's sign between blanks.
    fn put_between(self, line: &mut Line) {
        line.put_byte(b' ');
        self.put_sign(line);
        line.put_byte(b' ');
    }

    // What stands before the child at a place of a row.
    fn before(self, place: usize, level: u32, line: &mut Line) {
        match self.kind() {
            kinds::BINARY..=kinds::LOGICAL_OR | kinds::ASSIGN if place > 0 => {
                self.put_between(line)
            }
            kinds::FUNCTION_CALL if place > 1 => line.put(b", "),
            kinds::MAP => before_entry(place, line),
            kinds::BLOCK => new_line(self.deeper(level), line),
            kinds::IF..=kinds::WHILE_LOOP => before_block(place, line),
            _ => {}
        }
    }

    // What stands after the child at a place of a row.
    fn after(self, place: usize, kid: Self, line: &mut Line) {
        match self.kind() {
            kinds::FUNCTION_CALL if place == 0 => line.put_byte(b'('),
            kinds::BLOCK if is_ended(self.below(), place, kid.kind()) => { line.put_byte(b';') }
            _ => {}
        }
    }

    // The end of a block: its own line, where the block holds something.
    fn close_block(self, level: u32, line: &mut Line) {
        let b = self.below();
        if b.count > 0 || b.second != ABSENT {
            new_line(level, line);
        }
        line.put_byte(b'}');
    }

    // The end of a map.
    fn close_map(self, line: &mut Line) {
        if self.below().count > 0 {
            line.put_byte(b' ');
        }
        line.put_byte(b'}');
    }

    // What a row ends with, after its last child.
    fn closing(self, level: u32, line: &mut Line) {
        match self.kind() {
            kinds::FUNCTION_CALL => line.put_byte(b')'),
            kinds::PROPERTY_ACCESS => {
                line.put_byte(b'.');
                self.put_named(5, line);
            }
            kinds::MAP => self.close_map(line),
            kinds::BLOCK => self.close_block(level, line),
            _ => {}
        }
    }

    // A row as it is read. A child has a lower number than its parent: so the walk ends.
    pub(crate) fn say(self, level: u32, line: &mut Line) {
        self.opening(line);
        for place in 0..self.places() {
            if let Some(kid) = self.child(place) {
                let grouped = self.is_grouped(place, kid);
                self.before(place, level, line);
                if grouped {
                    line.put_byte(b'(');
                }
                kid.say(self.deeper(level), line);
                if grouped {
                    line.put_byte(b')');
                }
                self.after(place, kid, line);
            }
        }
        self.closing(level, line);
    }
}

// The statements of a script, one after the other: where each starts, how it is read, and its tree. And a guard.
use crate::reads::is_closed;
use crate::words::indent;
use crate::{Row, Tree};
use diagnostics::line::place;
use page::Line;

// What ends a statement of this kind, as it is read.
fn end_of(kind: u32) -> &'static [u8] {
    if is_closed(kind) { b"" } else { b";" }
}

impl Row<'_, '_> {
    // What stands on the first line of an expression or a statement, how it is read, with its end, and its tree.
    fn show_whole(self, end: &[u8], line: &mut Line) {
        self.put_first_line(line);
        line.end();
        line.put_line(b"  reads as");
        indent(4, 0, line);
        self.say(0, line);
        line.put_line(end);
        line.put_line(b"  tree");
        self.show_tree(0, false, line);
    }

    // A statement, below an empty line, with the line where it starts.
    fn show_statement(self, line: &mut Line) {
        let here = place(self.tree.text, self.part().start as usize);
        line.end();
        line.put(b"line ");
        line.put_number(here.line);
        line.put(b": ");
        self.show_whole(end_of(self.kind()), line);
    }
}

impl Tree<'_> {
    // Shows the statements of a script: its root is the last row.
    pub fn show_statements(&self, line: &mut Line) {
        let Some(root) = self.root() else {
            return;
        };
        for i in 0..root.places() {
            if let Some(kid) = root.child(i) {
                kid.show_statement(line);
            }
        }
    }

    // Shows a guard: its expression has the last row.
    pub fn show_guard(&self, line: &mut Line) {
        if let Some(root) = self.root() {
            root.show_whole(b"", line);
        }
    }
}

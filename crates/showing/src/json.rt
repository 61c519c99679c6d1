// The rows of a script that is read, an object of JSON each, in the order of their numbers: children before their parents, and the script last.
use crate::{Row, Tree};
use ast::{PARENT, kinds};
use page::Line;

// A lead, and whether something holds.
fn put_flag(lead: &[u8], holds: bool, line: &mut Line) {
    line.put(lead);
    if holds {
        line.put(b"true");
    } else {
        line.put(b"false");
    }
}

impl Row<'_, '_> {
    // The kind, and the operator where there is one.
    fn put_sort(self, line: &mut Line) {
        line.put(b",\"kind\":\"");
        self.put_kind(line);
        if self.has_sign() {
            line.put(b"\",\"operator\":\"");
            self.put_sign(line);
        }
        line.put_byte(b'"');
    }

    // The row above, and the kind. The root is the script.
    fn put_parent(self, line: &mut Line) {
        if self.is_root() {
            line.put(b",\"parent\":null,\"kind\":\"Script\"");
        } else {
            line.put_count(b",\"parent\":", self.number(PARENT as u32));
            self.put_sort(line);
        }
    }

    // Whether a row is the tail of the block that it stands in.
    fn is_last(self) -> bool {
        let parent = self.tree.row(self.number(PARENT as u32));
        parent.kind() == kinds::BLOCK && parent.below().second == self.id
    }

    // The place of a row, and the text that it covers.
    fn put_covered(self, line: &mut Line) {
        let part = self.part();
        line.put_part(self.tree.text, part.start, part.end);
        line.put_string(b",\"text\":", part.of(self.tree.text));
    }

    // The object of a row.
    fn show_row(self, path: &[u8], line: &mut Line) {
        line.put_string(b"{\"file\":", path);
        line.put_count(b",\"row\":", self.id);
        self.put_parent(line);
        put_flag(b",\"tail\":", self.is_last(), line);
        put_flag(b",\"built_in\":", self.is_built_in(), line);
        put_flag(b",\"warning\":", self.is_marked(), line);
        self.put_covered(line);
        line.put_line(b"}");
    }
}

impl Tree<'_> {
    // Shows the rows.
    pub fn show_json(&self, path: &[u8], line: &mut Line) {
        for id in 0..self.rows {
            self.row(id).show_row(path, line);
        }
    }
}

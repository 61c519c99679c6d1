// What stands at an offset: the innermost row that covers it, and then outward to the root, a line each.
use crate::{Row, Tree};
use page::Line;

impl Row<'_, '_> {
    // The innermost row that covers an offset, of those before this one: children stand before their parents, so it is the first that does. This one where no other does.
    fn innermost(self, offset: usize) -> Self {
        let tree = self.tree;
        match (0..self.id).find(|&id| tree.part_of(id).holds(offset)) {
            Some(id) => Row { tree, id },
            None => self,
        }
    }

    // The line of a row. The root is the script.
    fn show_role(self, line: &mut Line) {
        self.lead(0, line);
        if self.is_root() {
            line.put(b"Script");
        } else {
            self.put_node(line);
        }
        self.finish(line);
    }

    // The lines of a row and of all rows that it stands below, up to the root.
    fn show_outward(self, line: &mut Line) {
        let mut row = self;
        row.show_role(line);
        while let Some(above) = row.parent() {
            above.show_role(line);
            row = above;
        }
    }
}

impl Tree<'_> {
    // Shows what stands at an offset.
    pub fn show_at(&self, offset: usize, line: &mut Line) {
        if let Some(root) = self.root() {
            root.innermost(offset).show_outward(line);
        }
    }
}

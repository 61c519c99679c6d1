// The tree of a statement: a line for each node, with its place, its name and operator, and the text that it covers.
use crate::Row;
use crate::words::indent;
use ast::kinds;
use children::linked;
use lint::{Rule, meets};
use page::Line;

// Whether a row of this kind is a name, or declares one: the row's first number is then the name's symbol.
fn is_named(kind: u32) -> bool {
    matches!(kind, kinds::VARIABLE..=kinds::IDENTIFIER | kinds::FUNCTION)
}

impl Row<'_, '_> {
    // Whether a row is a built-in name, or declares one: `built` of them stand before all other symbols. A string or a property that spells one has its symbol, and is no name.
    pub(crate) fn is_built_in(self) -> bool {
        is_named(self.kind()) && (self.number(3) as usize) < self.tree.built
    }

    // Whether a row deserves a warning.
    pub(crate) fn is_marked(self) -> bool {
        meets(
            Rule::Any,
            self.tree.text,
            self.tree.tokens,
            self.tree.nodes,
            self.id,
        )
    }

    // Whether a row has an operator.
    pub(crate) fn has_sign(self) -> bool {
        self.kind() <= kinds::ASSIGN
    }

    // What a node is: its kind, with its operator where it has one, or the mark of a built-in name.
    pub(crate) fn put_node(self, line: &mut Line) {
        self.put_kind(line);
        if self.has_sign() {
            line.put_byte(b' ');
            self.put_sign(line);
        } else if self.is_built_in() {
            line.put(b" (built-in)");
        }
    }

    // What a line starts with: where the row's part of the text starts, and the indent of a level.
    pub(crate) fn lead(self, level: u32, line: &mut Line) {
        line.pad(4);
        line.put_place(self.tree.text, self.part().start);
        indent(13, level, line);
    }

    // Ends a line with what the part has; nothing where the part is empty.
    pub(crate) fn finish(self, line: &mut Line) {
        let part = self.part();
        if !part.is_empty() {
            line.pad(46);
            line.put_excerpt(self.tree.text, part.start, part.end, 52);
        }
        line.end();
    }

    // The line of a node.
    fn show_node(self, level: u32, tail: bool, line: &mut Line) {
        self.lead(level, line);
        self.put_node(line);
        if tail {
            line.put(b" (tail)");
        }
        if self.is_marked() {
            line.put(b" (warning)");
        }
        self.finish(line);
    }

    // Whether a place of a row is its tail: only a block has one.
    fn is_tail(self, place: usize) -> bool {
        self.kind() == kinds::BLOCK && place > linked(self.below())
    }

    // The lines of a row and of all that stands below it. A child has a lower number than its parent: so the walk ends.
    pub(crate) fn show_tree(self, level: u32, tail: bool, line: &mut Line) {
        self.show_node(level, tail, line);
        for place in 0..self.places() {
            if let Some(kid) = self.child(place) {
                kid.show_tree(level.saturating_add(1), self.is_tail(place), line);
            }
        }
    }
}

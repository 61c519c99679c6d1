// The rooms that a text is read into, and what they hold then: its tokens, and the rows of its tree.
use crate::builtin::Names;
use reader::{read_guard_with, read_with};
use showing::Tree;
use showing::cover::Part;
use syntax::Numbers;
use telling::DEPTH;

// Rooms of 4,096 tokens, rows and links. The symbol room has 64 rows more, for built-in names.
#[derive(Drop)]
pub(crate) struct Rooms {
    pub(crate) list: [u32; 12288],
    pub(crate) nodes: [u32; 40960],
    pub(crate) links: [u32; 12288],
    pub(crate) symbols: [u32; 8320],
    pub(crate) scratch: [u32; 12288],
}

impl Rooms {
    // Rooms of zeros.
    pub(crate) fn new() -> Self {
        Rooms {
            list: [0; 12288],
            nodes: [0; 40960],
            links: [0; 12288],
            symbols: [0; 8320],
            scratch: [0; 12288],
        }
    }

    // Reads a script in an edition beside built-in names.
    pub(crate) fn read(&mut self, names: Names, edition: u32, text: &[u8]) -> Numbers {
        read_with(
            names.text,
            names.rows,
            text,
            &mut self.list,
            edition,
            DEPTH,
            &mut self.nodes,
            &mut self.links,
            &mut self.symbols,
            &mut self.scratch,
        )
    }

    // Reads a guard in an edition beside built-in names.
    pub(crate) fn read_guard(&mut self, names: Names, edition: u32, text: &[u8]) -> Numbers {
        read_guard_with(
            names.text,
            names.rows,
            text,
            &mut self.list,
            edition,
            DEPTH,
            &mut self.nodes,
            &mut self.links,
            &mut self.symbols,
            &mut self.scratch,
        )
    }

    // The tree of a text that was read, of so many rows; what they cover is noted in a lent room.
    pub(crate) fn tree<'a>(
        &'a self,
        names: Names,
        text: &'a [u8],
        rows: u32,
        covers: &'a mut [Part],
    ) -> Tree<'a> {
        Tree::new(
            text,
            &self.list,
            &self.nodes,
            &self.links,
            rows,
            names.count(),
            covers,
        )
    }
}

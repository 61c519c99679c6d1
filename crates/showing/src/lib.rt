#![tactic(auto)]
// What is shown of a script that is read.
pub mod at;
pub mod cover;
pub mod json;
pub mod listing;
mod nodes;
mod reads;
pub mod statements;
mod words;

ghost use Rattle.std.specs.Prelude.{◌+◌, ◌*◌, ◌≡◌, ◌<◌, MatchOption, length, take};
ghost use Rattle.grammar.specs.Room.{node_width};
ghost use Rattle.children.specs.Below.{Number};
ghost use Rattle.showing.specs.Noted.{Noted};

use ast::PARENT;
use children::{Children, below, child, node, places};
use cover::{Part, part_of, up_to_end};

// A script that is read, or a guard: its text; the numbers of its tokens up to Eof; its rows and links; how many rows there are, and how many of the names are built in;
// and what each row covers, of as many rows as the lent room has parts for.
#[derive(Drop)]
pub struct Tree<'a> {
    pub text: &'a [u8],
    pub tokens: &'a [u32],
    pub nodes: &'a [u32],
    pub links: &'a [u32],
    pub rows: u32,
    pub built: usize,
    pub covers: &'a [Part],
}

impl<'a> Tree<'a> {
    // A tree of lent numbers, with what its rows cover, which is noted in a lent room. It has as many parts as that room. The tokens stand first in the list.
    // Ruled out: the links in the place of the nodes; one row fewer; the parts of the rows alone, where the room has more.
    pub fn new(
        text: &'a [u8],
        list: &'a [u32],
        nodes: &'a [u32],
        links: &'a [u32],
        rows: u32,
        built: usize,
        covers: &'a mut [Part],
    ) -> Self
        ensures text { result.text.now ≡ text.now }
        ensures tokens { result.tokens.now ≡ take (length result.tokens.now) list.now }
        ensures nodes { result.nodes.now ≡ nodes.now }
        ensures links { result.links.now ≡ links.now }
        ensures rows { result.rows ≡ rows }
        ensures built { result.built ≡ built }
        ensures covers { length result.covers.now ≡ length covers.old }
    {
        let tokens = up_to_end(list);
        for id in 0..rows {
            let so_far = Tree {
                text,
                tokens,
                nodes,
                links,
                rows,
                built,
                covers: &*covers,
            };
            let part = so_far.row(id).whole();
            if let Some(noted) = covers.get_mut(id as usize) {
                *noted = part;
            }
        }
        Tree {
            text,
            tokens,
            nodes,
            links,
            rows,
            built,
            covers,
        }
    }

    // A row.
    // Ruled out: the row before it; a row of another tree.
    pub fn row(&self, id: u32) -> Row<'_, 'a>
        ensures tree { result.tree.now ≡ self.now }
        ensures id { result.id ≡ id }
    {
        Row { tree: self, id }
    }

    // The last row: the root of a script, or of a guard.
    pub(crate) fn root(&self) -> Option<Row<'_, 'a>> {
        let id = self.rows.checked_sub(1)?;
        Some(self.row(id))
    }

    // Number i of a row.
    // Ruled out: the number before it; 0 past the room.
    pub fn node(&self, id: u32, i: u32) -> u32
        ensures { Number self.now.nodes.now (node_width * id + i) result }
    {
        node(self.nodes, id, i)
    }

    // What a row covers, where it is known; the empty part at 0 where it is not.
    // Ruled out: the part of the row before it; the row's own span.
    pub fn part_of(&self, id: u32) -> Part
        ensures { Noted self.now.covers.now id result }
    {
        part_of(self.covers, id)
    }
}

// A row of a tree.
#[derive(Clone, Copy)]
pub struct Row<'a, 't> {
    pub tree: &'a Tree<'t>,
    pub id: u32,
}

impl Row<'_, '_> {
    // Number i of the row.
    // Ruled out: the number before it; 0 past the room.
    pub fn number(self, i: u32) -> u32
        ensures { Number self.entry.tree.now.nodes.now (node_width * self.entry.id + i) result }
    {
        self.tree.node(self.id, i)
    }

    // Its kind, a number of the C interface (`Node` in ast.rs).
    // Ruled out: the kind of the row before it; the number of its operator.
    pub fn kind(self) -> u32
        ensures { Number self.entry.tree.now.nodes.now (node_width * self.entry.id) result }
    {
        self.number(0)
    }

    // What it covers, where that is known; the empty part at 0 where it is not.
    // Ruled out: the part of the row before it; the row's own span.
    pub fn part(self) -> Part
        ensures { Noted self.entry.tree.now.covers.now self.entry.id result }
    {
        self.tree.part_of(self.id)
    }

    // Whether it is the last row.
    pub(crate) fn is_root(self) -> bool {
        self.tree.rows.checked_sub(1) == Some(self.id)
    }

    // The row above it. A parent has a greater number than its child, or it is left out.
    // Ruled out: the row itself; a row before it.
    pub fn parent(self) -> Option<Self>
        ensures { MatchOption result (Unit {0}) (λ above. (self.entry.id < above.id) × Number self.entry.tree.now.nodes.now (node_width * self.entry.id + 9) above.id) }
    {
        let id = self.number(PARENT as u32);
        if self.id < id && id < self.tree.rows {
            Some(self.tree.row(id))
        } else {
            None
        }
    }

    // What stands below it.
    pub(crate) fn below(self) -> Children {
        below(self.tree.nodes, self.id)
    }

    // How many places for children it has.
    pub(crate) fn places(self) -> usize {
        places(self.below())
    }

    // The child at a place. A child has a lower number than its parent, or it is left out.
    pub(crate) fn child(self, place: usize) -> Option<Self>
        ensures { MatchOption result (Unit {0}) (λ kid. kid.id < self.entry.id) }
    {
        let id = child(self.tree.links, self.below(), place);
        if id < self.id {
            Some(self.tree.row(id))
        } else {
            None
        }
    }
}

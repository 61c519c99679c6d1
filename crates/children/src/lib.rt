#![tactic(auto)]
// What stands below a row of a tree, in the order of the text. Every function answers for any numbers: what is not there is ABSENT, so that a walk needs no promise
// about the rows.
ghost use Rattle.std.specs.Prelude.{◌+◌, ◌*◌, ◌≡◌};
ghost use Rattle.grammar.specs.Handle.{absent};
ghost use Rattle.grammar.specs.Room.{node_width, link_width};
ghost use Rattle.children.specs.Below.{Number, three, Below, Linked, Places, Child};

use ast::{ABSENT, LINK_WIDTH, NODE_WIDTH, kinds};

// A number of a room.
fn number(room: &[u32], at: usize) -> u32
    ensures { Number room.now at result }
{
    room.get(at).copied().unwrap_or(ABSENT)
}

// Number i of a node row.
// Ruled out: the number before it; 0 past the room.
pub fn node(nodes: &[u32], row: u32, i: u32) -> u32
    ensures { Number nodes.now (node_width * row + i) result }
{
    number(nodes, NODE_WIDTH * (row as usize) + (i as usize))
}

// Number i of a link row, or of the rows after it.
// Ruled out: a number of the row before it; 0 past the room.
pub fn link(links: &[u32], row: usize, i: u32) -> u32
    ensures { Number links.now (link_width * row + i) result }
{
    if row >= links.len() {
        return ABSENT;
    }
    number(links, LINK_WIDTH * row + (i as usize))
}

// What stands below a row: a child, links that hold so many children each, and two more children. Each of the three may be ABSENT. They are numbers, no Option and no enum: `child`
// hands them on to the C interface as they stand in a row (`kaori_child`), and the specs' `placed` has `each` as the number 0, 1 or 2.
#[derive(Clone, Copy)]
pub struct Children {
    pub first: u32,
    pub from: u32,
    pub count: u32,
    pub each: u32,
    pub second: u32,
    pub third: u32,
}

// Children that are no list.
fn fixed(first: u32, second: u32, third: u32) -> Children
    ensures { result ≡ three first second third }
{
    Children {
        first,
        from: 0,
        count: 0,
        each: 0,
        second,
        third,
    }
}

// Children of which some are a list.
fn listed(first: u32, from: u32, count: u32, each: u32, second: u32) -> Children
    ensures { result ≡ record { first = first; from = from; count = count; each = each; second = second; third = absent } }
{
    Children {
        first,
        from,
        count,
        each,
        second,
        third: ABSENT,
    }
}

// What stands below a row, by its kind. A row that does not stand wholly in the room has no children.
// Ruled out: the arguments of a call before its callee; a list's numbers for a row that has no list.
pub fn below(nodes: &[u32], row: u32) -> Children
    ensures { Below nodes.now row result }
{
    if nodes.len() < NODE_WIDTH * (row as usize) + NODE_WIDTH {
        return fixed(ABSENT, ABSENT, ABSENT);
    }
    let a = node(nodes, row, 3);
    let b = node(nodes, row, 4);
    let c = node(nodes, row, 5);
    match node(nodes, row, 0) {
        kinds::BINARY => fixed(b, c, ABSENT),
        kinds::LOGICAL_AND | kinds::LOGICAL_OR | kinds::ASSIGN | kinds::WHILE_LOOP => fixed(
            a, b, ABSENT,
        ),
        kinds::LOGICAL_NOT | kinds::PROPERTY_ACCESS | kinds::RETURN => fixed(a, ABSENT, ABSENT),
        kinds::UNARY => fixed(b, ABSENT, ABSENT),
        kinds::VARIABLE..=kinds::REF => fixed(node(nodes, row, 6), ABSENT, ABSENT),
        kinds::FUNCTION_CALL => listed(a, b, c, 1, ABSENT),
        kinds::MAP => listed(ABSENT, a, b, 2, ABSENT),
        kinds::FUNCTION => fixed(node(nodes, row, 8), ABSENT, ABSENT),
        kinds::LAMBDA => fixed(c, ABSENT, ABSENT),
        kinds::BLOCK => listed(ABSENT, a, b, 1, c),
        kinds::IF => fixed(a, b, c),
        _ => fixed(ABSENT, ABSENT, ABSENT),
    }
}

// How many children the links of a row hold.
// Ruled out: one for each of a map's entries; some where there are no links.
pub fn linked(b: Children) -> usize
    ensures { Linked b result }
{
    let count = b.count as usize;
    let each = b.each;
    match each {
        0 => 0,
        1 => count,
        _ => 2 * count,
    }
}

// The child at a place: the first child has place 0, those of the links follow from 1 on, then the other two. ABSENT for a link that is not in the room, and past the
// last place.
// Ruled out: a map's values before its keys; 0 for a link that is not in the room.
pub fn child(links: &[u32], b: Children, place: usize) -> u32
    ensures { Child links.now b place result }
{
    if place == 0 {
        return b.first;
    }
    let many = linked(b);
    if place <= many {
        let from = b.from as usize;
        let before = place - 1;
        if b.each == 1 {
            return link(links, from + before, 0);
        }
        return link(links, from + before / 2, (before % 2) as u32);
    }
    if place == many + 1 {
        return b.second;
    }
    if place == many + 2 {
        return b.third;
    }
    ABSENT
}

// How many places there are.
// Ruled out: the links' alone; one less.
pub fn places(b: Children) -> usize
    ensures { Places b result }
{
    linked(b) + 3
}

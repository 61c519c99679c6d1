// Rows and links moved to the front, in place: each goes to its own place or before it, so what is still to be moved is not yet overwritten.
ghost use Rattle.std.specs.Prelude.{◌+◌, ◌*◌, ◌≤◌, [], ◌∷◌, ◌≡◌, length};
ghost use Rattle.grammar.specs.Room.{node_width, link_width};
ghost use Rattle.ast.specs.Written.{Written};
ghost use Rattle.packing.specs.Digits.{digit};
ghost use Rattle.packing.specs.Roles.{rows, StandsRow, list_moved, numbers_moved, lists_moved, lists_size};
ghost use Rattle.packing.specs.Rows.{MovesList, MovesRow, MovesLists, Packable, PacksRows, Listable, Lists, root_numbers, PackableAll, PacksAll};
ghost use Rattle.packing.specs.Seen.{maps_of, moves_of};

use crate::maps::Maps;
use crate::roles::Role;
use ast::{ABSENT, LINK_WIDTH, NODE_WIDTH, PARENT, kinds};

// The three numbers of a link row.
// Ruled out: the numbers of the row before; a fourth number that changes.
fn put_link(links: &mut [u32], k: usize, x: u32, y: u32, z: u32)
    requires { link_width * k + link_width ≤ length links.old }
    ensures { Written (link_width * k) (link_width * k + link_width) (x ∷ y ∷ z ∷ []) links.old links.new }
{
    let i = LINK_WIDTH * k;
    links[i..i + LINK_WIDTH].copy_from_slice(&[x, y, z]);
}

// The links of a list, to a place at or before theirs.
// Ruled out: the last link left behind; a name's place moved.
fn move_list(links: &mut [u32], m: Maps, role: Role, from: usize, to: usize, count: usize)
    requires { MovesList (maps_of m) (digit role) links.old from to count }
    ensures { Written (link_width * to) (link_width * (to + count)) (list_moved (moves_of m.entry) (digit role) links.old from count) links.old links.new }
{
    for k in 0..count {
        let i = LINK_WIDTH * (from + k);
        let x = m.link_first(role, links[i]);
        let y = m.link_second(role, links[i + 1]);
        let z = links[i + 2];
        put_link(links, to + k, x, y, z);
    }
}

// The links of all lists of a row, to where m says.
// Ruled out: an import's second list before its first.
fn move_lists(nodes: &[u32], links: &mut [u32], m: Maps, row: usize)
    requires { MovesLists (maps_of m) nodes.now links.old row }
    ensures { Written (link_width * m.entry.to) (link_width * (m.entry.to + lists_size nodes.now row 9)) (lists_moved (moves_of m.entry) nodes.now links.old row 9) links.old links.new }
{
    let base = NODE_WIDTH * row;
    let kind = nodes[base];
    let mut to = m.to;
    for j in 0..PARENT {
        let role = Role::at(kind, j);
        if role.is_list() {
            let count = nodes[base + j + 1] as usize;
            move_list(links, m, role, nodes[base + j] as usize, to, count);
            to += count;
        }
    }
}

// How many links the lists of a row have.
// Ruled out: an import's second list left out.
fn row_links(nodes: &[u32], row: usize) -> usize
    requires { StandsRow nodes.now row }
    ensures { result ≡ lists_size nodes.now row 9 }
{
    let base = NODE_WIDTH * row;
    let kind = nodes[base];
    let mut size = 0;
    for j in 0..PARENT {
        if Role::at(kind, j).is_list() {
            size += nodes[base + j + 1] as usize;
        }
    }
    size
}

// A row, number by number, to a place at or before its own.
// Ruled out: a parent that stays where it was.
fn move_row(nodes: &mut [u32], m: Maps, row: usize, to: usize)
    requires { MovesRow (maps_of m) nodes.old row to }
    ensures { Written (node_width * to) (node_width * to + node_width) (numbers_moved (moves_of m.entry) nodes.old row 10) nodes.old nodes.new }
{
    let from = NODE_WIDTH * row;
    let kind = nodes[from];
    for j in 0..NODE_WIDTH {
        nodes[NODE_WIDTH * to + j] = m.number(Role::at(kind, j), nodes[from + j]);
    }
}

// All rows that stay but the root, and the links of their lists; how many links they are.
// Ruled out: a dropped row that is packed; lists that leave a gap.
pub(crate) fn pack_rows(
    nodes: &mut [u32],
    links: &mut [u32],
    words: &[u32],
    places: &[u32],
    symbols: u32,
    root: usize,
) -> usize
    requires { Packable (rows nodes.old links.old) symbols root words.now places.now }
    ensures { PacksRows (rows nodes.old links.old) symbols words.now places.now nodes.new links.new result }
{
    let mut from = 0;
    let mut to = 0;
    for i in 0..root {
        let place = places[i];
        let size = row_links(nodes, i);
        if places[i + 1] != place {
            let m = Maps {
                words,
                places,
                symbols,
                from,
                to,
            };
            move_lists(nodes, links, m, i);
            move_row(nodes, m, i, place as usize);
            to += size;
        }
        from += size;
    }
    to
}

// The root's list, without those that are dropped, from link `to` on; where it ends.
// Ruled out: a dropped statement that stays in the list.
fn pack_list(links: &mut [u32], places: &[u32], choice: &[u8], first: usize, to: usize) -> usize
    requires { Listable links.old places.now choice.now first to }
    ensures { Lists links.old places.now choice.now first to links.new result }
{
    let mut at = to;
    for (j, kept) in choice.iter().enumerate() {
        if *kept != 0 {
            let row = links[LINK_WIDTH * (first + j)] as usize;
            put_link(links, at, places[row], 0, 0);
            at += 1;
        }
    }
    at
}

// The root's row, at its new place.
fn pack_root(nodes: &mut [u32], root: usize, to: usize, first: u32, count: u32)
    requires { (to ≤ root) × (node_width * root + node_width ≤ length nodes.old) }
    ensures { Written (node_width * to) (node_width * to + node_width) (root_numbers nodes.old root first count) nodes.old nodes.new }
{
    let start = nodes[NODE_WIDTH * root + 1];
    let end = nodes[NODE_WIDTH * root + 2];
    let i = NODE_WIDTH * to;
    let row = [
        kinds::BLOCK,
        start,
        end,
        first,
        count,
        ABSENT,
        0,
        0,
        0,
        ABSENT,
    ];
    nodes[i..i + NODE_WIDTH].copy_from_slice(&row);
}

// All rows, the root and its list too; how many links there are.
pub(crate) fn pack(
    nodes: &mut [u32],
    links: &mut [u32],
    words: &[u32],
    places: &[u32],
    symbols: u32,
    choice: &[u8],
    first: usize,
    root: usize,
) -> usize
    requires { PackableAll (rows nodes.old links.old) symbols choice.now first root words.now places.now }
    ensures { PacksAll (rows nodes.old links.old) symbols choice.now words.now places.now nodes.new links.new result }
{
    let to = pack_rows(nodes, links, words, places, symbols, root);
    let end = pack_list(links, places, choice, first, to);
    let place = places[root] as usize;
    pack_root(nodes, root, place, to as u32, (end - to) as u32);
    end
}

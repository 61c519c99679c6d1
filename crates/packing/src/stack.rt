// What waits to be heard, on a stack of its own: rows, and names and strings that stand in rows and links. Two numbers each.
// `stack` and `top` stay two parameters, which is plainer: a struct with the lent slice in it would owe, in each function, that this is still the same slice and as long.
ghost use Rattle.std.specs.Prelude.{◌+◌, ◌*◌, ◌≤◌, ◌∷◌, [], ◌≡◌, length, set};
ghost use Rattle.grammar.specs.Room.{link_width};
ghost use Rattle.grammar.specs.Rows.{Rows as Lines};
ghost use Rattle.parts.specs.Spoken.{row as row_part};
ghost use Rattle.packing.specs.Digits.{digit};
ghost use Rattle.packing.specs.Good.{Sound, In};
ghost use Rattle.packing.specs.Roles.{link_parts, list_parts, number_parts, numbers_parts};
ghost use Rattle.packing.specs.Seen.{seen};
ghost use Rattle.packing.specs.Stack.{present, RoomFor, Pushed, HoldsNumber};

use crate::roles::Role;
use crate::rows::Rows;
use ast::{ABSENT, LINK_WIDTH, NODE_WIDTH, PARENT};

// What a part is: a row; the name in a link row; a string, whose symbol stands at that number of its row, and LETTERS more. Another number is the place of a name in a row.
// Numbers, since the stack is a part of the lent room (no heap; fixed memory): Stack.antt's `source` says what each stands for.
pub(crate) const ROW: u32 = 0;

pub(crate) const LINK: u32 = 1;

pub(crate) const LETTERS: u32 = 16;

// One more.
pub(crate) fn push(stack: &mut [u32], top: usize, tag: u32, x: u32) -> usize
    requires { RoomFor top 1 (length stack.old) }
    ensures { (stack.new ≡ set (set stack.old (2 * top) tag) (2 * top + 1) x) × (result ≡ top + 1) }
{
    let i = 2 * top;
    stack[i] = tag;
    stack[i + 1] = x;
    top + 1
}

// A row, if it is not absent.
// Ruled out: an absent row that waits.
fn push_row(stack: &mut [u32], top: usize, x: u32) -> usize
    requires { RoomFor top (length (present (row_part x ∷ []))) (length stack.old) }
    ensures { (w : Lines) → Pushed w top (row_part x ∷ []) stack.old stack.new result }
{
    if x == ABSENT {
        return top;
    }
    push(stack, top, ROW, x)
}

// What a link row of a list holds.
// Ruled out: a key before its value, which then goes first; a name's place taken for a row.
fn push_link(stack: &mut [u32], top: usize, rows: Rows, role: Role, k: u32) -> usize
    requires { (link_width * k + link_width ≤ length rows.links.now) × RoomFor top (length (present (link_parts (digit role) rows.links.now k))) (length stack.old) }
    ensures { Pushed (seen rows.entry) top (link_parts (digit role) rows.entry.links.now k) stack.old stack.new result }
{
    let i = LINK_WIDTH * (k as usize);
    match role {
        Role::Names => push(stack, top, LINK, k),
        Role::Entries => {
            let above = push_row(stack, top, rows.links[i + 1]);
            push_row(stack, above, rows.links[i])
        }
        _ => push_row(stack, top, rows.links[i]),
    }
}

// What all link rows of a list hold, the last one first.
// Ruled out: the first link left out; the order turned round.
fn push_list(stack: &mut [u32], top: usize, rows: Rows, role: Role, from: u32, count: u32) -> usize
    requires { (link_width * (from + count) ≤ length rows.links.now) × (from + count ≤ 4294967295) × RoomFor top (length (present (list_parts (digit role) rows.links.now from count))) (length stack.old) }
    ensures { Pushed (seen rows.entry) top (list_parts (digit role) rows.entry.links.now from count) stack.old stack.new result }
{
    let mut above = top;
    for left in (0..count).rev() {
        above = push_link(stack, above, rows, role, from + left);
    }
    above
}

// What number j of a row holds.
// Ruled out: a list of names taken for one of rows.
fn push_number(stack: &mut [u32], top: usize, rows: Rows, row: u32, j: usize, role: Role) -> usize
    requires { HoldsNumber rows.nodes.now rows.links.now row j (digit role) × RoomFor top (length (present (number_parts rows.nodes.now rows.links.now row j (digit role)))) (length stack.old) }
    ensures { Pushed (seen rows.entry) top (number_parts rows.entry.nodes.now rows.entry.links.now row j (digit role)) stack.old stack.new result }
{
    let i = NODE_WIDTH * (row as usize) + j;
    match role {
        Role::Plain => top,
        Role::Child => push_row(stack, top, rows.nodes[i]),
        Role::Letters => push(stack, top, LETTERS + j as u32, row),
        Role::Name => push(stack, top, j as u32, row),
        Role::Nodes | Role::Names | Role::Entries => {
            push_list(stack, top, rows, role, rows.nodes[i], rows.nodes[i + 1])
        }
    }
}

// What a row holds, its last number first.
// Ruled out: the parent among what it holds; its first number left out.
pub(crate) fn push_parts(stack: &mut [u32], top: usize, rows: Rows, row: u32) -> usize
    requires { Sound (seen rows) × In (seen rows) row × RoomFor top (length (present (numbers_parts rows.nodes.now rows.links.now row 0 9))) (length stack.old) }
    ensures { Pushed (seen rows.entry) top (numbers_parts rows.entry.nodes.now rows.entry.links.now row 0 9) stack.old stack.new result }
{
    let kind = rows.nodes[NODE_WIDTH * (row as usize)];
    let mut above = top;
    for j in (0..PARENT).rev() {
        above = push_number(stack, above, rows, row, j, Role::at(kind, j));
    }
    above
}

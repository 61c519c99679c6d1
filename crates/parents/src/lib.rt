#![tactic(auto)]
// Each row's parent, put in once all rows are written: one pass over the rows, in their order. What a row names is read off by its kind, as the grammar's Layout.antt
// and Naming.antt have it; any numbers have an answer, if the room has the row.
ghost use Rattle.std.specs.Prelude.{◌*◌, ◌&&◌, ◌∷◌, [], ◌≡◌, leb, drop, get_or};
ghost use Rattle.grammar.specs.Label.{Node as Form, number_of};
ghost use Rattle.grammar.specs.Naming.{named_by};
ghost use Rattle.grammar.specs.Room.{link_width};
ghost use Rattle.parents.specs.Adopted.{rows, claim, claims, listed, orphaned, InRoom, Adoptable, Adopted};

use ast::{ABSENT, NODE_WIDTH, PARENT, kinds};

// Row x has `row` as its parent, if it is an earlier one.
fn take(nodes: &mut [u32], row: u32, x: u32)
    requires { InRoom row nodes.old }
    ensures { nodes.new ≡ claim row x nodes.old }
{
    if x < row {
        let at = NODE_WIDTH * (x as usize) + PARENT;
        nodes[at] = row;
    }
}

// A number of the links, 0 past their end.
fn held(links: &[u32], at: usize) -> u32
    ensures { result ≡ get_or links.now at 0 }
{
    links.get(at).copied().unwrap_or(0)
}

// So have the rows that `count` link rows from row `from` on name, EACH of them: one, or two, where they are map entries, a key and a value.
fn take_listed<const EACH: usize>(nodes: &mut [u32], links: &[u32], row: u32, from: u32, count: u32)
    requires { InRoom row nodes.old }
    ensures { nodes.new ≡ claims row (listed EACH count (drop (link_width * from) links.now)) nodes.old }
{
    let first = from as usize;
    for i in 0..count as usize {
        let at = 3 * (first + i);
        take(nodes, row, held(links, at));
        if EACH == 2 {
            take(nodes, row, held(links, at + 1));
        }
    }
}

// Two rows.
fn take_two(nodes: &mut [u32], row: u32, x: u32, y: u32)
    requires { InRoom row nodes.old }
    ensures { nodes.new ≡ claims row (x ∷ y ∷ []) nodes.old }
{
    take(nodes, row, x);
    take(nodes, row, y);
}

// Whether rows of a kind name none: names and literals, which are half of the rows of a screen.
fn is_leaf(kind: u32) -> bool
    ensures { result ≡ (leb (number_of Form.Identifier) kind && leb kind (number_of Form.Nil)) }
{
    matches!(kind, kinds::IDENTIFIER..=kinds::NIL)
}

// The rows that a row names have it as their parent.
fn family(nodes: &mut [u32], links: &[u32], row: u32)
    requires { InRoom row nodes.old }
    ensures { nodes.new ≡ claims row (named_by (rows nodes.old links.now) row) nodes.old }
{
    let at = NODE_WIDTH * (row as usize);
    let kind = nodes[at];
    if is_leaf(kind) {
        return;
    }
    let a = nodes[at + 3];
    let b = nodes[at + 4];
    let c = nodes[at + 5];
    let d = nodes[at + 6];
    let f = nodes[at + 8];
    match kind {
        kinds::BINARY => take_two(nodes, row, b, c),
        kinds::LOGICAL_AND | kinds::LOGICAL_OR | kinds::ASSIGN | kinds::WHILE_LOOP => take_two(
            nodes, row, a, b,
        ),
        kinds::LOGICAL_NOT | kinds::PROPERTY_ACCESS | kinds::RETURN => take(nodes, row, a),
        kinds::UNARY => take(nodes, row, b),
        kinds::VARIABLE..=kinds::REF => take(nodes, row, d),
        kinds::FUNCTION_CALL => {
            take(nodes, row, a);
            take_listed::<1>(nodes, links, row, b, c)
        }
        kinds::MAP => take_listed::<2>(nodes, links, row, a, b),
        kinds::FUNCTION => take(nodes, row, f),
        kinds::LAMBDA => take(nodes, row, c),
        kinds::BLOCK => {
            take_listed::<1>(nodes, links, row, a, b);
            take(nodes, row, c)
        }
        kinds::IF => {
            take_two(nodes, row, a, b);
            take(nodes, row, c)
        }
        _ => {}
    }
}

// A row has no parent.
fn orphan(nodes: &mut [u32], row: u32)
    requires { InRoom row nodes.old }
    ensures { nodes.new ≡ orphaned row nodes.old }
{
    let at = NODE_WIDTH * (row as usize) + PARENT;
    nodes[at] = ABSENT;
}

// Puts in the parents of the first `count` rows. It asks that the room has them and that each names earlier rows alone.
// Ruled out: a last row with a parent; rows after the first `count` that change.
pub fn adopt(nodes: &mut [u32], links: &[u32], count: u32)
    requires { Adoptable count links.now nodes.old }
    ensures { Adopted count links.now nodes.old nodes.new }
{
    for row in 0..count {
        orphan(nodes, row);
        family(nodes, links, row);
    }
}

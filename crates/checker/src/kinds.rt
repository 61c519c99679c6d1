// Rules 1 and 5, which look at kinds.
ghost use Rattle.std.specs.Prelude.{◌*◌, ◌≤◌, ◌≡◌, length};
ghost use Rattle.grammar.specs.Room.{node_width};
ghost use Rattle.checker.specs.Pass.{Passes};
ghost use Rattle.checker.specs.Test.{known_kind, is_rooted};

use crate::rows::Rows;
use crate::rule::{Broken, Rule, each};
use ast::{ABSENT, NODE_WIDTH, kinds};

// Where a Block's tail stands in its row.
const TAIL: usize = 5;

// Rule 1: whether each row's kind is one of 1 to 26.
// Ruled out: kind 0; kind 27.
pub(crate) fn known(rows: &Rows<'_>) -> Result<(), Broken>
    requires { node_width * rows.now.count ≤ length rows.now.nodes.now }
    ensures { Passes Rule.Kinds (known_kind rows.now.nodes.now) rows.now.count result }
{
    each(Rule::Kinds, rows.count, |row| {
        let kind = rows.nodes[NODE_WIDTH * (row as usize)];
        matches!(kind, kinds::BINARY..=kinds::IMPORT)
    })
}

// Rule 5: whether the last row is a Block with no tail.
// Ruled out: no rows; a tail.
pub(crate) fn rooted(rows: &Rows<'_>) -> bool
    requires { node_width * rows.now.count ≤ length rows.now.nodes.now }
    ensures { result ≡ is_rooted rows.now.nodes.now rows.now.count }
{
    if rows.count == 0 {
        return false;
    }
    let at = NODE_WIDTH * ((rows.count - 1) as usize);
    rows.nodes[at] == kinds::BLOCK && rows.nodes[at + TAIL] == ABSENT
}

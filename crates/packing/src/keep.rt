// Which rows stay, and where each goes: a row stays as the statement does that it is below. The room has one number for each node row.
ghost use Rattle.std.specs.Prelude.{◌≡◌, length};
ghost use Rattle.grammar.specs.Naming.{height};
ghost use Rattle.parts.specs.Packed.{keeps};
ghost use Rattle.packing.specs.Good.{Sound};
ghost use Rattle.packing.specs.Kept.{Marked, Spreads, Countable, Counted, Placed, Markable};
ghost use Rattle.packing.specs.Seen.{seen};

use crate::rows::Rows;
use ast::{LINK_WIDTH, NODE_WIDTH, PARENT};

// 1 at each statement that is kept.
// Ruled out: a dropped statement that is marked.
fn mark(rows: Rows, choice: &[u8], first: usize, marks: &mut [u32])
    requires { Markable (seen rows) choice.now first (length marks.old) }
    ensures { Marked (keeps choice.now) (seen rows.entry) (length choice.now) (length marks.old) marks.new }
{
    marks.fill(0);
    for (j, kept) in choice.iter().enumerate() {
        if *kept != 0 {
            let row = rows.links[LINK_WIDTH * (first + j)] as usize;
            marks[row] = 1;
        }
    }
}

// And at each row below one. Parents stand later, so the last row is looked at first.
// Ruled out: a row that stays though its parent does not.
fn spread(rows: Rows, marks: &mut [u32])
    requires { Sound (seen rows) × (length marks.old ≡ height (seen rows)) }
    ensures { Spreads (seen rows.entry) marks.old marks.new }
{
    let root = marks.len() - 1;
    for i in (0..root).rev() {
        let parent = rows.nodes[NODE_WIDTH * i + PARENT] as usize;
        if parent != root {
            marks[i] = marks[parent];
        }
    }
}

// Then how many stay before each.
// Ruled out: a row's own place counted.
fn count(marks: &mut [u32])
    requires { Countable marks.old }
    ensures { Counted marks.old marks.new }
{
    let root = marks.len() - 1;
    let mut before = 0;
    for i in 0..root {
        let stays = marks[i];
        marks[i] = before;
        before += stays;
    }
    marks[root] = before;
}

// Where each row goes, once those are dropped that the choice does not keep.
pub(crate) fn keep(rows: Rows, choice: &[u8], first: usize, marks: &mut [u32])
    requires { Markable (seen rows) choice.now first (length marks.old) }
    ensures { Placed (keeps choice.now) (seen rows.entry) marks.new }
{
    mark(rows, choice, first, marks);
    spread(rows, marks);
    count(marks);
}

// Rule 6: whether lists follow each other, in the order of the rows.
ghost use Rattle.std.specs.Prelude.{◌≤◌};
ghost use Rattle.checker.specs.Follow.{GoesOn, in_slots, FollowsAll};
ghost use Rattle.checker.specs.Slots.{held};
ghost use Rattle.checker.specs.Test.{AllStanding};

use crate::rows::Rows;
use crate::rule::{Broken, Rule};
use crate::slots::{Content, Cut, Slot, cut_row};

// Where the links go on after a slot, if its list, where it has one, starts there.
// Ruled out: a list that starts one further on; a list's count left out.
fn after_slot(s: Slot, from: usize) -> Option<usize>
    requires { from ≤ 8589934590 }
    ensures { GoesOn from (λ ls. held ls s) result }
{
    let Content::List(_, first, count) = s.content() else {
        return Some(from);
    };
    if first as usize != from {
        return None;
    }
    Some(from + (count as usize))
}

// After all slots of a row.
// Ruled out: the second list of an import left out.
fn after_row(c: Cut, from: usize) -> Option<usize>
    requires { from ≤ 8589934590 }
    ensures { GoesOn from (in_slots c) result }
{
    let one = after_slot(c.first, from)?;
    let two = after_slot(c.second, one)?;
    after_slot(c.third, two)
}

// How many links the lists of the rows have, if those of each follow those before it.
// Ruled out: a later row that breaks it; the links of the last row left out.
pub(crate) fn follow(rows: &Rows<'_>) -> Result<usize, Broken>
    requires { AllStanding rows.now.table.now rows.now.nodes.now rows.now.count }
    ensures { FollowsAll rows.now.table.now rows.now.nodes.now rows.now.count result }
{
    let mut links = 0;
    for row in 0..rows.count {
        let Some(next) = after_row(cut_row(rows.table, rows.nodes, row), links) else {
            return Err(Broken {
                rule: Rule::Follows,
                row,
            });
        };
        links = next;
    }
    Ok(links)
}

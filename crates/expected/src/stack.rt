// A stack of what is left to read, and a token's kind: cells that pass the kind on are left behind, up to one that takes it or bars it.
ghost use Rattle.std.specs.Prelude.{◌≤◌, ◌<◌, ◌≡◌, length, drop};
ghost use Rattle.grammar.specs.Edition.{edition as the-edition};
ghost use Rattle.grammar.proofs.Stopping.{marks};
ghost use Rattle.expected.specs.Cells.{decoded, Sound};
ghost use Rattle.expected.specs.Steps.{Stepped, Stops, Admits};

use crate::tables::{Action, Bar, MARK, action_on, opens, push};

// A kind is taken: the stack's top is then here, and so many constructs are open. Or nothing was left to read. Or the cell here bars it, with so many open below it.
#[derive(Drop)]
pub(crate) enum Step {
    Took(usize, usize),
    Over,
    Barred(usize, usize, Bar),
}

// The first cell that doesn't pass a kind on, how many marks stand above it, and what it does to the kind.
#[derive(Drop)]
struct Stop {
    at: usize,
    marks: usize,
    action: Action,
}

// Where a stack whose top is here stops a kind; nowhere, where all of its cells pass it on.
fn first_stop(room: &[u32], top: usize, edition: u32, kind: u32) -> Option<Stop>
    requires kind_bound { kind < 45 }
    requires top_in_bounds { top ≤ length room.now }
    requires sound { Sound (drop top room.now) }
    ensures { Stops (the-edition edition) kind top room.now result }
{
    let mut marks = 0;
    for at in top..room.len() {
        let v = room[at];
        if v >= MARK {
            marks += 1;
            continue;
        }
        if let Some(action) = action_on(edition, v as usize, kind) {
            return Some(Stop { at, marks, action });
        }
    }
    None
}

// What comes of a kind before a stack whose top is here, with so many constructs open.
pub(crate) fn advance(
    room: &mut [u32],
    top: usize,
    depth: usize,
    edition: u32,
    kind: u32,
    at: u32,
) -> Step
    requires kind_bound { kind < 45 }
    requires at_bound { at < 4096 }
    requires le_top { 8 ≤ top }
    requires top_in_bounds { top ≤ length room.old }
    requires sound { Sound (drop top room.old) }
    requires depth_value { depth ≡ marks (decoded (drop top room.old)) }
    requires depth_bound { depth ≤ 64 }
    ensures { Stepped (the-edition edition) kind at top room.old room.new result }
{
    let Some(stop) = first_stop(room, top, edition, kind) else {
        return Step::Over;
    };
    let left = depth - stop.marks;
    match stop.action {
        Action::Bars(bar) => Step::Barred(stop.at, left, bar),
        Action::Takes(list) => {
            let below = push(room, stop.at + 1, list, at);
            Step::Took(below, left + opens(list))
        }
    }
}

// Whether a kind is not barred before a stack whose top is here.
pub(crate) fn admits(room: &[u32], top: usize, edition: u32, kind: u32) -> bool
    requires kind_bound { kind < 45 }
    requires top_in_bounds { top ≤ length room.now }
    requires sound { Sound (drop top room.now) }
    ensures { Admits (the-edition edition) kind (decoded (drop top room.now)) result }
{
    match first_stop(room, top, edition, kind) {
        Some(stop) => matches!(stop.action, Action::Takes(_)),
        None => true,
    }
}

// Marks on links, in a lent room from a place on: links that are settled are passed over, so that lists that overlap are not gone through again and again.
// The place is a number beside the room: one room has the marks of rows and of two sorts of lists, and `Settled` speaks of all of it; `&mut marks[base..]` at each call says no less.
ghost use Rattle.std.specs.Prelude.{◌+◌, ◌≤◌, ◌<◌, ◌≡◌, length, set};
ghost use Rattle.checker.specs.Marks.{Skips};

// Where to go on from a link: past it, where it is settled, by its mark and the next one, which it then has; else itself.
fn jump(marks: &mut [u32], base: usize, at: usize, end: usize) -> usize
    requires { (at < end) × (base + end ≤ length marks.old) }
    ensures { Skips base at end marks.old marks.new result }
{
    let to = marks[base + at] as usize;
    if to <= at {
        return at;
    }
    if to >= end {
        return to;
    }
    let on = marks[base + to];
    if on as usize <= to {
        return to;
    }
    marks[base + at] = on;
    on as usize
}

// The next link from one on that is not settled, or past the last.
// Ruled out: a link that is not settled passed over; a mark outside the links' that changes.
pub(crate) fn skip(marks: &mut [u32], base: usize, from: usize, end: usize) -> usize
    requires { base + end ≤ length marks.old }
    ensures { Skips base from end marks.old marks.new result }
{
    let mut at = from;
    while at < end {
        let next = jump(marks, base, at, end);
        if next == at {
            return at;
        }
        at = next;
    }
    at
}

// A link is settled.
pub(crate) fn settle(marks: &mut [u32], base: usize, at: u32)
    requires { (at < 4294967295) × (base + at < length marks.old) }
    ensures { marks.new ≡ set marks.old (base + at) (at + 1) }
{
    marks[base + (at as usize)] = at + 1;
}

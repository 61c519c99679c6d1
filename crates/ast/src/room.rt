// How the rooms are written.
ghost use Rattle.std.specs.Prelude.{◌∷◌, [], ◌+◌, ◌-◌, ◌*◌, ◌≤◌, length, take, drop, replicate};
ghost use Rattle.grammar.specs.Room.{link_width, scratch_width};
ghost use Rattle.ast.specs.Written.{Written, Cleared};

// Numbers of a row, put at a place of a room. It asks for room for them.
pub(crate) fn put<const N: usize>(room: &mut [u32], i: usize, numbers: [u32; N])
    requires { i + N ≤ length room.old }
    ensures { Written i (i + N) numbers.entry room.old room.new }
{
    room[i..i + N].copy_from_slice(&numbers);
}

// The first n numbers from a place of one room, put at a place of another. It asks that they are there, and for room for them.
// Ruled out: the numbers from one further on; a number before the place or behind them that changes.
pub fn copy(to: &mut [u32], at: usize, from: &[u32], first: usize, n: usize)
    requires { (at + n ≤ length to.old) × (first + n ≤ length from.now) }
    ensures { Written at (at + n) (take n (drop first from.now)) to.old to.new }
{
    // No `copy_from_slice`: lists are short, and its call costs more than it saves (nesting, blocks: 273 instructions a token with this loop, 290 with the call).
    for i in 0..n {
        to[at + i] = from[first + i];
    }
}

// One row more on the scratch stack, above the `held` that wait there. It asks for room for it.
// Ruled out: a row that overwrites one below it; the three numbers in another order.
pub fn push(scratch: &mut [u32], held: usize, a: u32, b: u32, c: u32)
    requires { scratch_width * (held + 1) ≤ length scratch.old }
    ensures { Written (scratch_width * held) (scratch_width * (held + 1)) (a ∷ b ∷ c ∷ []) scratch.old scratch.new }
{
    put(scratch, 3 * held, [a, b, c]);
}

// The `count` rows of the scratch stack from row `base` on become the link rows from `used` on, in their order. It asks that they are there, and
// for room for them.
// Ruled out: the rows from one further up the stack; a link row below `used` that changes.
pub fn link(links: &mut [u32], used: usize, scratch: &[u32], base: usize, count: usize)
    requires { (link_width * (used + count) ≤ length links.old) × (scratch_width * (base + count) ≤ length scratch.now) }
    ensures { Written (link_width * used) (link_width * (used + count)) (take (scratch_width * count) (drop (scratch_width * base) scratch.now)) links.old links.new }
{
    copy(links, 3 * used, scratch, 3 * base, 3 * count);
}

// Zeros from a number on up to another. It asks that the room has them.
// Ruled out: a number before the first or past the last that is cleared; one between them that stays.
pub fn zero(room: &mut [u32], from: usize, upto: usize)
    requires { (from ≤ upto) × (upto ≤ length room.old) }
    ensures { Written from upto (replicate (upto - from) 0) room.old room.new }
{
    room[from..upto].fill(0);
}

// Zeros from a number on to the room's end.
// Ruled out: a number before it that is cleared; a last number that stays.
pub fn clear(room: &mut [u32], from: usize)
    ensures { Cleared from room.old room.new }
{
    let end = room.len();
    if from < end {
        zero(room, from, end);
    }
}

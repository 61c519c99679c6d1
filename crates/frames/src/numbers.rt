// Lists of numbers in a frame: four bytes each, the lowest first.
ghost use Rattle.std.specs.Prelude.{◌+◌, ◌*◌, ◌<◌, ◌≤◌, ◌≡◌, ℕ, EachIndex, length, slice_index, take};
ghost use Rattle.frames.specs.Numbers.{put_at, put_from, taken};

use wire::input::four;

// Puts a number as four bytes.
fn put(n: u32, out: &mut [u8], at: usize)
    requires { at + 4 ≤ length out.old }
    ensures { out.new ≡ put_at n out.old at }
{
    out[at..at + 4].copy_from_slice(&n.to_le_bytes());
}

// Puts all numbers of a list, from a place on, and says where they end. It asks for room for them.
// Ruled out: the highest byte first; the last number left out.
pub fn put_all(list: &[u32], out: &mut [u8], from: usize) -> usize
    requires { from + 4 * length list.now ≤ length out.old }
    ensures numbers { out.new ≡ put_from list.now out.old from }
    ensures end { result ≡ from + 4 * length list.now }
{
    for (i, n) in list.iter().enumerate() {
        put(*n, out, from + 4 * i);
    }
    from + 4 * list.len()
}

// Fills a list with the numbers that stand from a place on, and says where they end. It asks that they are there.
// Ruled out: the numbers from the next place on; a last number that stays.
pub fn take_all(frame: &[u8], from: usize, list: &mut [u32]) -> usize
    requires { from + 4 * length list.old ≤ length frame.now }
    ensures numbers { list.new ≡ taken (length list.old) frame.now from list.old 0 }
    ensures end { result ≡ from + 4 * length list.old }
{
    for (i, n) in list.iter_mut().enumerate() {
        *n = four(frame, from + 4 * i);
    }
    from + 4 * list.len()
}

// The first numbers of a room: as many as another number says, or all of it where it has fewer.
// Ruled out: a number more than are asked for; fewer than the room has and are asked for.
pub fn lend(room: &mut [u32], n: u32) -> &mut [u32]
    ensures part { result.now ≡ take n room.old }
    ensures few { length result.now ≤ length room.old }
{
    let n = room.len().min(n as usize);
    &mut room[..n]
}

// Puts i + 1 at each number i of a list, so that a number that is kept can be told from a zero and from one that was moved. It asks that the numbers fit.
// Ruled out: a zero at the first number; a last number that stays.
pub fn mark(list: &mut [u32])
    requires { length list.old < 4294967296 }
    ensures { EachIndex list.new (λ i. slice_index list.new i ≡ i + 1) }
{
    for (i, n) in list.iter_mut().enumerate() {
        *n = (i + 1) as u32;
    }
}

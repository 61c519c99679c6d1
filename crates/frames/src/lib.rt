#![tactic(auto)]
// Frames on standard input and output: four bytes of length, the lowest first, and then so many bytes. No contract can say which bytes are read or written.
pub mod numbers;

ghost use Rattle.frames.specs.Frame.{Framed, Sent};

use wire::input::four;

// Reads a frame into a room, and says how many bytes it has. Where there is none that fits, nothing is said of the room.
// Ruled out: a frame that is longer than the room; a byte after the frame that changes.
pub fn read(room: &mut [u8]) -> Option<usize>
    ensures { Framed room.old room.new result }
{
    let mut head = [0; 4];
    if io::read_full(0, &mut head) < 4 {
        return None;
    }
    let size = four(&head, 0) as usize;
    if room.len() < size || io::read_full(0, &mut room[..size]) < size {
        return None;
    }
    Some(size)
}

// Writes a frame, and says whether it could.
// Ruled out: `true` for a part whose length four bytes cannot say. Not ruled out: `true` where the system took something else, and `false` where it took all.
pub fn write(part: &[u8]) -> bool
    ensures { Sent part.now result }
{
    let Ok(n) = u32::try_from(part.len()) else {
        return false;
    };
    io::write_all(1, &n.to_le_bytes()) && io::write_all(1, part)
}

// Answers the frames that are read, each in the room, up to the first that is not read or not answered.
// A proved loop has to end, and nothing says that a stream does: so there is a last turn, which no run comes to.
// Nothing is ruled out: which frames come no contract can say, and of the answers it asks alone that each call may be made.
pub fn each<F: FnMut(&[u8]) -> bool>(room: &mut [u8], mut answered: F)
    requires { F.IsAlwaysCallable answered }
{
    for _ in 0..u64::MAX {
        let Some(n) = read(room) else {
            return;
        };
        if !answered(&room[..n]) {
            return;
        }
    }
}

// The input of the program `rows`: the record of a text, and then a record for each token.
ghost use Rattle.std.specs.Prelude.{◌≡◌, ◌+◌, ◌*◌, ◌<◌, ◌≤◌, length};
ghost use Rattle.spelling.specs.Decides.{Decides};
ghost use Rattle.wire.specs.Input.{Marked};
ghost use Rattle.wire.specs.Number.{number};
ghost use Rattle.wire.specs.Scanned.{Marks, Scanned, TokensFilled};

// What an input is: bad, or the records of a text of so many bytes and of so many tokens.
// No Option: `scan` is public, and crates listing and batch match on its two cases (`Scanned`).
#[derive(Drop)]
pub enum Script {
    Bad,
    Sized(usize, usize),
}

// The number of the four bytes from a place on. It asks that they are there.
// Ruled out: the bytes in another order; those from the next place on.
pub fn four(input: &[u8], at: usize) -> u32
    requires { at + 4 ≤ length input.now }
    ensures { result ≡ number input.now at }
{
    u32::from_le_bytes([input[at], input[at + 1], input[at + 2], input[at + 3]])
}

// Whether a mark with this second byte stands at a place. It asks that its two bytes are there.
fn is_marked(input: &[u8], at: usize, second: u8) -> bool
    requires { at + 2 ≤ length input.now }
    ensures { Decides (Marked input.now at second) result }
{
    input[at] == b'K' && input[at + 1] == second
}

// Whether n records from a place on have the mark of a token.
fn marked(input: &[u8], from: usize, n: usize) -> bool
    requires { from + 11 * n ≤ length input.now }
    ensures { Decides (Marks input.now from n) result }
{
    for i in 0..n {
        if !is_marked(input, from + 11 * i, b'T') {
            return false;
        }
    }
    true
}

// The form of an input.
// Ruled out: an input with one byte more that is not bad; a length of the text that is read with its bytes in another order.
pub fn scan(input: &[u8]) -> Script
    ensures { Scanned input.now result }
{
    if input.len() < 6 || !is_marked(input, 0, b'S') {
        return Script::Bad;
    }
    let size = four(input, 2) as usize;
    if size > 8192 || input.len() < 6 + size {
        return Script::Bad;
    }
    let from = 6 + size;
    let left = input.len() - from;
    let n = left / 11;
    if left % 11 != 0 || n > 512 || !marked(input, from, n) {
        return Script::Bad;
    }
    Script::Sized(size, n)
}

// Writes the n tokens whose records stand from a place on into a list, three numbers each. It asks that the records are there with their marks, and that the list has
// room for the tokens.
// Ruled out: a token's end in the place of its start; a number of the list after the n tokens that changes.
pub fn fill(input: &[u8], from: usize, n: usize, tokens: &mut [u32])
    requires { Marks input.now from n × (from + 11 * n ≤ length input.now) × (3 * n ≤ length tokens.old) }
    ensures { TokensFilled input.now from n tokens.old tokens.new }
{
    for i in 0..n {
        let at = from + 11 * i;
        tokens[3 * i] = u32::from(input[at + 2]);
        tokens[3 * i + 1] = four(input, at + 3);
        tokens[3 * i + 2] = four(input, at + 7);
    }
}

#![tactic(auto)]
// What the program `rows` prints for its input, as one function.
ghost use Rattle.wire.specs.Output.{Zeros, OutputGiven};
ghost use Rattle.wire.specs.Scanned.{Sizes};

use spelling::display::put;
use syntax::parse;
use wire::input::{Script, fill, scan};
use wire::output::{listed, refused};

// 262,144 zeros: a room that has space for any output.
// Ruled out: a room of another length; one with a byte that is not 0.
pub fn blank() -> [u8; 262144]
    ensures { Zeros 262144 result }
{
    [0; 262144]
}

// The output for an input that holds a text of this size and n tokens: those of `parse` with a limit of 64 and rooms of 512 rows.
fn script(input: &[u8], size: usize, n: usize, out: &mut [u8; 262144]) -> usize
    requires { Sizes input.now size n }
    ensures { OutputGiven input.now out.old out.new result }
{
    let from = 6 + size;
    let used = 3 * n;
    let mut tokens: [u32; 1536] = [0; 1536];
    fill(input, from, n, &mut tokens);
    let mut nodes: [u32; 5120] = [0; 5120];
    let mut links: [u32; 1536] = [0; 1536];
    let mut symbols: [u32; 1024] = [0; 1024];
    let mut scratch: [u32; 1536] = [0; 1536];
    let a = parse(
        &input[6..from],
        &tokens[..used],
        64,
        &mut nodes,
        &mut links,
        &mut symbols,
        &mut scratch,
    );
    if a.code == 0 {
        return listed(&nodes, &links, &symbols, a.nodes, a.links, a.symbols, out);
    }
    refused(
        &tokens[..used],
        a.code,
        a.at,
        a.start,
        a.end,
        a.expected,
        out,
    )
}

// The output for an input, at the start of `out`, and its length. No output fills the 262,144 bytes; the rest of them stays.
// Ruled out: `bad input` for a list of no tokens, which is refusal 1; rows for a text or a list that the input does not hold.
pub fn answer(input: &[u8], out: &mut [u8; 262144]) -> usize
    ensures { OutputGiven input.now out.old out.new result }
{
    let form = scan(input);
    match form {
        Script::Bad => put(b"bad input\n", out, 0),
        Script::Sized(size, n) => script(input, size, n, out),
    }
}

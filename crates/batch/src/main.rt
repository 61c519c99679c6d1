#![tactic(auto)]
// Answers a stream of cases, each in a frame, by a stream of frames. A case is an input of the program `rows`, and its answer what that prints. Or a limit and the
// sizes of rooms stand before such an input, after the mark 52 4D; the answer is then what a call in these rooms answers, and all numbers that it leaves in them. Or
// built-in names stand there, too, after the mark 52 4E; the call is then beside these names. Or after the mark 52 4F stands an edition, and then what stands after 52 4E;
// the call is then of that edition, and otherwise of edition 1. Or the same stands after the mark 52 51; the call then reads a guard. Or after the mark 52 50 stand an edition, a limit, a code and a token, and an input; the answer is then
// what could have stood at that token, and what was open there.
ghost use Rattle.std.specs.Prelude.{◌+◌, ◌*◌, ◌≤◌, length};
ghost use Rattle.wire.specs.Scanned.{Sizes};

use expected::expected;
use frames::numbers::{lend, take_all};
use frames::{each, write};
use listing::{answer, blank};
use spelling::display::put;
use syntax::parse_as;
use token::editions::FIRST;
use token::profiles::Profile;
use wire::input::{Script, fill, four, scan};
use wire::output::numbers;

// A line of numbers, each after a blank.
fn line(values: &[u32], out: &mut [u8], at: usize) -> usize
    requires { at + 11 * length values.now + 1 ≤ length out.old }
    ensures { result ≤ at + 11 * length values.now + 1 }
{
    let end = numbers(values, out, at);
    put(b"\n", out, end)
}

// The n tokens of an input whose text has this size, in a list.
fn filled<'a>(input: &[u8], size: usize, n: usize, tokens: &'a mut [u32; 1536]) -> &'a [u32]
    requires { Sizes input.now size n }
{
    fill(input, 6 + size, n, tokens);
    &tokens[..3 * n]
}

// How an input is read: beside these built-in names, as a script or a guard, and in this edition.
#[derive(Drop)]
struct Terms<'a> {
    names: &'a [u8],
    rows: &'a [u32],
    profile: Profile,
    edition: u32,
}

// The rooms that a call is lent.
struct Rooms<'a> {
    nodes: &'a mut [u32],
    links: &'a mut [u32],
    symbols: &'a mut [u32],
    scratch: &'a mut [u32],
}

// What a call answers to an input of a text of this size and n tokens, and the rooms as it left them: a line each.
fn called(
    input: &[u8],
    size: usize,
    n: usize,
    terms: Terms,
    limit: u32,
    rooms: Rooms,
    out: &mut [u8; 262144],
) -> usize
    requires input { Sizes input.now size n }
    requires nodes { length rooms.nodes.now ≤ 5129 }
    requires links { length rooms.links.now ≤ 1538 }
    requires symbols { length rooms.symbols.now ≤ 1025 }
    requires scratch { length rooms.scratch.now ≤ 1538 }
    ensures { result ≤ 262144 }
{
    let Rooms {
        nodes,
        links,
        symbols,
        scratch,
    } = rooms;
    let mut tokens = [0; 1536];
    let tokens = filled(input, size, n, &mut tokens);
    let a = parse_as(
        terms.names,
        terms.rows,
        &input[6..6 + size],
        tokens,
        terms.profile,
        terms.edition,
        limit,
        nodes,
        links,
        symbols,
        scratch,
    );
    let values = [
        a.code, a.nodes, a.links, a.symbols, a.at, a.start, a.end, a.expected,
    ];
    let at = line(&values, out, 0);
    let at = line(nodes, out, at);
    let at = line(links, out, at);
    let at = line(symbols, out, at);
    line(scratch, out, at)
}

// The answer to what is no case.
fn bad(out: &mut [u8; 262144]) -> usize
    ensures { result ≤ 262144 }
{
    put(b"bad input\n", out, 0)
}

// Where the limit of a case that has one stands, and the input of one that has no names.
const LIMIT: usize = 2;

const INPUT: usize = 22;

// The answer to a case with a limit and rooms of its own, whose input stands from `at` on and is read so. After the mark stand the limit, and how many numbers the rooms of
// nodes, links, symbols and scratch have (4 bytes each, little-endian; at most 512 rows and what can be left over). Each number of the rooms is 7 before the call.
fn lent(case: &[u8], at: usize, terms: Terms, out: &mut [u8; 262144]) -> usize
    requires { (22 ≤ length case.now) × (at ≤ length case.now) }
    ensures { result ≤ 262144 }
{
    let input = &case[at..];
    let form = scan(input);
    let Script::Sized(size, n) = form else {
        return bad(out);
    };
    let mut head = [0; 5];
    take_all(case, LIMIT, &mut head);
    let [limit, a, b, c, d] = head;
    let mut nodes = [7; 5129];
    let mut links = [7; 1538];
    let mut symbols = [7; 1025];
    let mut scratch = [7; 1538];
    let rooms = Rooms {
        nodes: lend(&mut nodes, a),
        links: lend(&mut links, b),
        symbols: lend(&mut symbols, c),
        scratch: lend(&mut scratch, d),
    };
    called(input, size, n, terms, limit, rooms, out)
}

// Where a case with built-in names says how many bytes their text has and how many numbers their rows, and where the text stands; and the most of both.
const TEXT_SIZE: usize = 22;

const ROWS_SIZE: usize = 26;

const TEXT: usize = 30;

const MOST_BYTES: usize = 8192;

const MOST_NUMBERS: usize = 133;

// The answer to a case with built-in names, read so, in this edition. After the sizes of the rooms stand those of the names' text and rows, then the text, the numbers of the
// rows (4 bytes each, little-endian), and an input.
fn beside(case: &[u8], profile: Profile, edition: u32, out: &mut [u8; 262144]) -> usize
    ensures { result ≤ 262144 }
{
    if case.len() < TEXT {
        return bad(out);
    }
    let size = four(case, TEXT_SIZE) as usize;
    let n = four(case, ROWS_SIZE) as usize;
    if size > MOST_BYTES || n > MOST_NUMBERS || case.len() < TEXT + size + 4 * n {
        return bad(out);
    }
    let mut rows = [0; MOST_NUMBERS];
    let rows = &mut rows[..n];
    let names = &case[TEXT..TEXT + size];
    let at = take_all(case, TEXT + size, rows);
    let terms = Terms {
        names,
        rows,
        profile,
        edition,
    };
    lent(case, at, terms, out)
}

// The halves of a number.
fn low(x: u64) -> u32 {
    (x % 4294967296) as u32
}

fn high(x: u64) -> u32 {
    (x / 4294967296) as u32
}

// What could have stood at a token, and what was open there: a line with the halves of the set, how many kinds, the lowest and how many constructs, and a line with the
// chain, sort and token of each entry.
fn stood(a: expected::Told, out: &mut [u8; 262144]) -> usize
    ensures { result ≤ 262144 }
{
    let open = a.chain.count as u64;
    let values = [low(a.kinds), high(a.kinds), a.count, a.lowest, low(open)];
    let at = line(&values, out, 0);
    let mut pairs = [0; 128];
    for (i, entry) in a.chain.entries.iter().enumerate() {
        pairs[2 * i] = entry.sort;
        pairs[2 * i + 1] = entry.at;
    }
    line(&pairs, out, at)
}

// Where the edition, the limit, the code and the token of a case about a refused token stand (4 bytes each, little-endian), and its input.
const QUESTION: usize = 2;

const REFUSED: usize = 18;

// The answer to a case about a refused token.
fn refused(case: &[u8], out: &mut [u8; 262144]) -> usize
    requires { 22 ≤ length case.now }
    ensures { result ≤ 262144 }
{
    let input = &case[REFUSED..];
    let form = scan(input);
    let Script::Sized(size, n) = form else {
        return bad(out);
    };
    let mut question = [0; 4];
    take_all(case, QUESTION, &mut question);
    let [edition, limit, code, at] = question;
    let mut tokens = [0; 1536];
    let tokens = filled(input, size, n, &mut tokens);
    stood(expected(tokens, edition, limit, code, at), out)
}

// The first byte of a case that is no input of `rows`; the second tells whether it has names, and an edition, and reads a guard, or is about a refused token.
const MARK: u8 = 0x52;

const ROOMS: u8 = 0x4D;

const NAMES: u8 = 0x4E;

const EDITION: u8 = 0x4F;

const KINDS: u8 = 0x50;

const GUARD: u8 = 0x51;

// The answer to a case with this mark.
fn marked(case: &[u8], out: &mut [u8; 262144]) -> usize
    requires { 22 ≤ length case.now }
    ensures { result ≤ 262144 }
{
    match case[1] {
        ROOMS => {
            let terms = Terms {
                names: &[],
                rows: &[],
                profile: Profile::Script,
                edition: FIRST,
            };
            lent(case, INPUT, terms, out)
        }
        NAMES => beside(case, Profile::Script, FIRST, out),
        KINDS => refused(case, out),
        // the last two bytes of the edition stand where the mark would
        EDITION => beside(&case[4..], Profile::Script, four(case, 2), out),
        GUARD => beside(&case[4..], Profile::Guard, four(case, 2), out),
        _ => bad(out),
    }
}

// Answers one case, and says whether the answer was written.
fn answered(case: &[u8], out: &mut [u8; 262144]) -> bool {
    let k = if case.len() < INPUT || case[0] != MARK {
        answer(case, out)
    } else {
        marked(case, out)
    };
    write(&out[..k])
}

fn main() {
    let mut case = io::large_buffer();
    let mut out = blank();
    each(&mut case, |case| answered(case, &mut out));
}

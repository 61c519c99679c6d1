#![tactic(auto)]
// Answers a stream of station's calls, each in a frame, by a stream of frames: the code of the call, and what it leaves in the joined list, the four rooms and the room for
// the answers. A frame is numbers of four bytes: whether the lists are given (0) or the token maker makes them (any other), the edition, the limit, the rows of a part; how
// many bytes the built-in names' text has, and how many numbers their rows; how many bytes the joined text has; how many numbers the joined list and the cuts have, and the
// rooms of nodes, links, symbols, scratch and answers. Then stand the names' text, their rows, the joined text, the joined list and the cuts.
ghost use Rattle.std.specs.Prelude.{◌+◌, ◌*◌, ◌≤◌, length};

use frames::numbers::{lend, mark, put_all, take_all};
use frames::{each, write};
use scripts::{parse_scripts, read_scripts};

// The most bytes or numbers of each: two texts that are as long as one may be; a list of 4,200 tokens; 35 scripts; and 4,100 rows with something left over.
const NAMES: usize = 8192;

const ROWS: usize = 133;

const TEXT: usize = 131200;

const LIST: usize = 12600;

const CUTS: usize = 70;

const NODES: usize = 41100;

const LINKS: usize = 12400;

const SYMBOLS: usize = 8300;

const SCRATCH: usize = 12400;

const ANSWERS: usize = 300;

// The bytes of a frame before the names' text, of the largest frame, and of the largest answer.
const HEAD: usize = 56;

const FRAME: usize = 190660;

const ANSWER: usize = 348404;

// What a call reads beside its list, and whether the list is given.
struct Call<'a> {
    is_given: bool,
    names: &'a [u8],
    rows: &'a [u32],
    text: &'a [u8],
    cuts: &'a [u32],
    edition: u32,
    limit: u32,
    part: u32,
}

// What a call writes to.
struct Rooms<'a> {
    list: &'a mut [u32],
    nodes: &'a mut [u32],
    links: &'a mut [u32],
    symbols: &'a mut [u32],
    scratch: &'a mut [u32],
    answers: &'a mut [u32],
}

// Makes a call in rooms that are marked but for the list, and writes its code, and all numbers of the list and the rooms one behind the other. Says whether it could.
fn told(call: Call, rooms: Rooms, out: &mut [u8; ANSWER]) -> bool
    requires list { length rooms.list.now ≤ 12600 }
    requires nodes { length rooms.nodes.now ≤ 41100 }
    requires links { length rooms.links.now ≤ 12400 }
    requires symbols { length rooms.symbols.now ≤ 8300 }
    requires scratch { length rooms.scratch.now ≤ 12400 }
    requires answers { length rooms.answers.now ≤ 300 }
{
    let Call {
        is_given,
        names,
        rows,
        text,
        cuts,
        edition,
        limit,
        part,
    } = call;
    let Rooms {
        list,
        nodes,
        links,
        symbols,
        scratch,
        answers,
    } = rooms;
    mark(nodes);
    mark(links);
    mark(symbols);
    mark(scratch);
    mark(answers);
    let code = if is_given {
        parse_scripts(
            names, rows, text, list, cuts, edition, limit, part, nodes, links, symbols, scratch,
            answers,
        )
    } else {
        read_scripts(
            names, rows, text, list, cuts, edition, limit, part, nodes, links, symbols, scratch,
            answers,
        )
    };
    let at = put_all(&[code], out, 0);
    let at = put_all(list, out, at);
    let at = put_all(nodes, out, at);
    let at = put_all(links, out, at);
    let at = put_all(symbols, out, at);
    let at = put_all(scratch, out, at);
    let end = put_all(answers, out, at);
    write(&out[..end])
}

// Answers a frame in lists and rooms of the sizes that it tells, and says whether it is one and the answer was written.
fn answered(case: &[u8], out: &mut [u8; ANSWER]) -> bool {
    if case.len() < HEAD {
        return false;
    }
    let mut head = [0; 14];
    take_all(case, 0, &mut head);
    let [
        source,
        edition,
        limit,
        part,
        name_bytes,
        r,
        text_bytes,
        l,
        c,
        n,
        m,
        s,
        k,
        a,
    ] = head;
    let mut rows = [0; ROWS];
    let mut list = [0; LIST];
    let mut cuts = [0; CUTS];
    let rows = lend(&mut rows, r);
    let list = lend(&mut list, l);
    let cuts = lend(&mut cuts, c);
    let rows_at = HEAD + NAMES.min(name_bytes as usize);
    let text_at = rows_at + 4 * rows.len();
    let list_at = text_at + TEXT.min(text_bytes as usize);
    if case.len() != list_at + 4 * (list.len() + cuts.len()) {
        return false;
    }
    take_all(case, rows_at, rows);
    let cuts_at = take_all(case, list_at, list);
    take_all(case, cuts_at, cuts);
    let mut nodes = [0; NODES];
    let mut links = [0; LINKS];
    let mut symbols = [0; SYMBOLS];
    let mut scratch = [0; SCRATCH];
    let mut answers = [0; ANSWERS];
    told(
        Call {
            is_given: source == 0,
            names: &case[HEAD..rows_at],
            rows,
            text: &case[text_at..list_at],
            cuts,
            edition,
            limit,
            part,
        },
        Rooms {
            list,
            nodes: lend(&mut nodes, n),
            links: lend(&mut links, m),
            symbols: lend(&mut symbols, s),
            scratch: lend(&mut scratch, k),
            answers: lend(&mut answers, a),
        },
        out,
    )
}

fn main() {
    let mut room = [0; FRAME];
    let mut out = [0; ANSWER];
    each(&mut room, |case| answered(case, &mut out));
}

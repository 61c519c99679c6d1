#![tactic(auto)]
// A station's scripts in one call: one joined text and one joined token list with cuts, and rooms that are cut into equal parts. Each script is read by itself, from its own
// part of the text and the list and into its own part of each room, as `parse_with` or `read_with` reads it: none is seen by another.
ghost use Rattle.std.specs.Prelude.{◌+◌, ◌*◌, ◌≤◌, ◌<◌, ◌++◌, ◌≡◌, length, drop};
ghost use Rattle.grammar.specs.Builtin.{builtins as names_in};
ghost use Rattle.spelling.specs.Decides.{Decides};
ghost use Rattle.scripts.specs.Joined.{cut_end, cut_start, scripts, Forward, RightCuts, RoomFor, Fits, listed, Source, AnswersAll, lent, joined};
ghost use Rattle.scripts.specs.Steps.{Placed, Step};

mod tokens;

use ast::{LINK_WIDTH, NODE_WIDTH};
use syntax::Numbers;
use tokens::{Given, Made, Tokens};

// The code of a call whose cuts are not right or whose rooms are too small.
pub const TURNED_AWAY: u32 = 19;

// How many scripts a call may have.
pub const MOST_SCRIPTS: usize = 32;

// The numbers of an answer, of a symbol row and of a scratch row.
pub const ANSWER_WIDTH: usize = 8;

const SYMBOL_WIDTH: usize = 2;

const SCRATCH_WIDTH: usize = 3;

// Puts the eight numbers of an answer at the start of a room. It asks for so much room.
// Ruled out: a count of links in the place of the nodes'; a ninth number that changes.
pub fn put(a: Numbers, room: &mut [u32])
    requires { 8 ≤ length room.old }
    ensures { room.new ≡ listed a ++ drop 8 room.old }
{
    room[0] = a.code;
    room[1] = a.nodes;
    room[2] = a.links;
    room[3] = a.symbols;
    room[4] = a.at;
    room[5] = a.start;
    room[6] = a.end;
    room[7] = a.expected;
}

// Which of a script's two cuts: its end in the text, or in the list.
const OF_TEXT: usize = 0;

const OF_LIST: usize = 1;

// Where script i starts and ends on a side.
fn cut_end(cuts: &[u32], side: usize, i: usize) -> usize
    requires { (2 * i + side < length cuts.now) × (i < 32) × (side < 2) }
    ensures { result ≡ cut_end cuts.now side i }
{
    cuts[2 * i + side] as usize
}

fn cut_start(cuts: &[u32], side: usize, i: usize) -> usize
    requires { (2 * i + side < length cuts.now) × (i < 32) × (side < 2) }
    ensures { result ≡ cut_start cuts.now side i }
{
    if i == 0 {
        return 0;
    }
    cut_end(cuts, side, i - 1)
}

// Whether no cut of a side goes back, or past the end of a text or a list of this length.
fn forward(cuts: &[u32], side: usize, long: usize) -> bool
    requires { (length cuts.now ≡ 2 * scripts cuts.now) × (scripts cuts.now ≤ 32) × (side < 2) }
    ensures { Decides (Forward cuts.now side long) result }
{
    (0..cuts.len() / 2).all(|i| {
        let upto = cut_end(cuts, side, i);
        cut_start(cuts, side, i) <= upto && upto <= long
    })
}

// Whether the cuts are right for a text and a list of these lengths.
fn right_cuts(cuts: &[u32], text: usize, list: usize) -> bool
    ensures { Decides (RightCuts cuts.now text list) result }
{
    let n = cuts.len() / 2;
    if n < 1 {
        return false;
    }
    if MOST_SCRIPTS < n {
        return false;
    }
    if cuts.len() != 2 * n {
        return false;
    }
    if forward(cuts, OF_TEXT, text) {
        return forward(cuts, OF_LIST, list);
    }
    false
}

// Whether rooms of these lengths hold n parts of so many rows, and n answers.
fn room_for(
    n: usize,
    part: u32,
    nodes: usize,
    links: usize,
    symbols: usize,
    scratch: usize,
    answers: usize,
) -> bool
    requires { n ≤ 32 }
    ensures { Decides (RoomFor n part nodes links symbols scratch answers) result }
{
    let rows = (part as usize) * n;
    if nodes < NODE_WIDTH * rows {
        return false;
    }
    if links < LINK_WIDTH * rows {
        return false;
    }
    if symbols < SYMBOL_WIDTH * rows {
        return false;
    }
    if scratch < SCRATCH_WIDTH * rows {
        return false;
    }
    if answers < ANSWER_WIDTH * n {
        return false;
    }
    true
}

// Where the parts of a script start and end: in the text, in the list's numbers, and in the rows of each room.
#[derive(Clone, Copy)]
struct Place {
    from: usize,
    upto: usize,
    first: usize,
    past: usize,
    row: usize,
    next: usize,
}

fn locate(cuts: &[u32], part: u32, i: usize) -> Place
    requires { (2 * i + 1 < length cuts.now) × (i < 32) }
    ensures { Placed cuts.now part i result }
{
    let size = part as usize;
    Place {
        from: cut_start(cuts, OF_TEXT, i),
        upto: cut_end(cuts, OF_TEXT, i),
        first: cut_start(cuts, OF_LIST, i),
        past: cut_end(cuts, OF_LIST, i),
        row: size * i,
        next: size * (i + 1),
    }
}

// Answers script i, and puts its answer.
fn one_script<T: Tokens>(
    names: &[u8],
    rows: &[u32],
    text: &[u8],
    tokens: &mut T,
    cuts: &[u32],
    i: usize,
    edition: u32,
    limit: u32,
    part: u32,
    nodes: &mut [u32],
    links: &mut [u32],
    symbols: &mut [u32],
    scratch: &mut [u32],
    answers: &mut [u32],
)
    requires { (i < scripts cuts.now) × Fits (joined (names_in names.now rows.now) text.now cuts.now edition limit part (lent (T.numbers tokens.old) nodes.old links.old symbols.old scratch.old answers.old)) }
    ensures step { Step T.source (joined (names_in names.now rows.now) text.now cuts.now edition limit part (lent (T.numbers tokens.old) nodes.old links.old symbols.old scratch.old answers.old)) i (lent (T.numbers tokens.new) nodes.new links.new symbols.new scratch.new answers.new) }
    ensures same_name { T.name tokens.new ≡ T.name tokens.old }
    ensures same_kept { T.kept tokens.new ≡ T.kept tokens.old }
{
    let p = locate(cuts, part, i);
    let from = p.from;
    let upto = p.upto;
    let first = p.first;
    let past = p.past;
    let row = p.row;
    let next = p.next;
    let a = tokens.answer(
        first,
        past,
        names,
        rows,
        &text[from..upto],
        edition,
        limit,
        &mut nodes[NODE_WIDTH * row..NODE_WIDTH * next],
        &mut links[LINK_WIDTH * row..LINK_WIDTH * next],
        &mut symbols[SYMBOL_WIDTH * row..SYMBOL_WIDTH * next],
        &mut scratch[SCRATCH_WIDTH * row..SCRATCH_WIDTH * next],
    );
    put(a, &mut answers[ANSWER_WIDTH * i..ANSWER_WIDTH * (i + 1)]);
}

// Answers one script after another, wherever the tokens come from, unless the cuts or the rooms are not right.
fn all_scripts<T: Tokens>(
    names: &[u8],
    rows: &[u32],
    text: &[u8],
    tokens: &mut T,
    cuts: &[u32],
    edition: u32,
    limit: u32,
    part: u32,
    nodes: &mut [u32],
    links: &mut [u32],
    symbols: &mut [u32],
    scratch: &mut [u32],
    answers: &mut [u32],
) -> u32
    ensures answered { AnswersAll T.source (joined (names_in names.now rows.now) text.now cuts.now edition limit part (lent (T.numbers tokens.old) nodes.old links.old symbols.old scratch.old answers.old)) result (lent (T.numbers tokens.new) nodes.new links.new symbols.new scratch.new answers.new) }
    ensures same_name { T.name tokens.new ≡ T.name tokens.old }
    ensures same_kept { T.kept tokens.new ≡ T.kept tokens.old }
{
    if !right_cuts(cuts, text.len(), tokens.count()) {
        return TURNED_AWAY;
    }
    let n = cuts.len() / 2;
    if !room_for(
        n,
        part,
        nodes.len(),
        links.len(),
        symbols.len(),
        scratch.len(),
        answers.len(),
    ) {
        return TURNED_AWAY;
    }
    for i in 0..n {
        one_script(
            names, rows, text, tokens, cuts, i, edition, limit, part, nodes, links, symbols,
            scratch, answers,
        );
    }
    0
}

// Reads up to 32 scripts that are given as one joined text and one joined list of tokens, in an edition and beside built-in names that are one for all. `cuts` has two
// numbers for each script: where it ends in the text, and where in the list's numbers. Each room is cut into parts of `part` rows, one for each script, and script i's
// answer stands in `answers` from number 8 * i on. Each script is answered as `parse_with` answers it, whatever the others are; what is past the parts stays. 19 is for 0
// or more than 32 scripts, an odd list of cuts, a cut that goes back or past an end, and rooms that are smaller than the parts need; nothing is changed then.
// Ruled out: a script's spans counted in the joined text; a script behind a refused one that is not read; a part that reaches into the next one.
pub fn parse_scripts(
    names: &[u8],
    rows: &[u32],
    text: &[u8],
    tokens: &[u32],
    cuts: &[u32],
    edition: u32,
    limit: u32,
    part: u32,
    nodes: &mut [u32],
    links: &mut [u32],
    symbols: &mut [u32],
    scratch: &mut [u32],
    answers: &mut [u32],
) -> u32
    ensures { AnswersAll Source.given (joined (names_in names.now rows.now) text.now cuts.now edition limit part (lent tokens.now nodes.old links.old symbols.old scratch.old answers.old)) result (lent tokens.now nodes.new links.new symbols.new scratch.new answers.new) }
{
    all_scripts(
        names,
        rows,
        text,
        &mut Given { tokens },
        cuts,
        edition,
        limit,
        part,
        nodes,
        links,
        symbols,
        scratch,
        answers,
    )
}

// Reads up to 32 scripts that are given as one joined text: as `parse_scripts`, but the token maker makes each script's list, in the part of `list` that its cuts give it,
// and each is answered as `read_with` answers it.
// Ruled out: tokens that run on from one script into the next; a list in another script's part; an answer that leaves a script's part of the list as it was where one is made.
pub fn read_scripts(
    names: &[u8],
    rows: &[u32],
    text: &[u8],
    list: &mut [u32],
    cuts: &[u32],
    edition: u32,
    limit: u32,
    part: u32,
    nodes: &mut [u32],
    links: &mut [u32],
    symbols: &mut [u32],
    scratch: &mut [u32],
    answers: &mut [u32],
) -> u32
    ensures { AnswersAll Source.made (joined (names_in names.now rows.now) text.now cuts.now edition limit part (lent list.old nodes.old links.old symbols.old scratch.old answers.old)) result (lent list.new nodes.new links.new symbols.new scratch.new answers.new) }
{
    all_scripts(
        names,
        rows,
        text,
        &mut Made { list },
        cuts,
        edition,
        limit,
        part,
        nodes,
        links,
        symbols,
        scratch,
        answers,
    )
}

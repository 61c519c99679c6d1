#![tactic(auto)]
// The public entries: a port of `parse` of parser.rs, and of its reader of one expression for guards. The door, then the symbols of all names, the statements up to Eof
// and the root's row, or a guard's expression and the Eof, then the parents, and zeros. `parse` is `parse_with` of edition 1 beside no built-in names.
ghost use Rattle.std.specs.Prelude.{◌≡◌, ◌≤◌, ◌<◌, length};
ghost use Rattle.grammar.specs.Answer.{refuse};
ghost use Rattle.grammar.specs.Builtin.{builtins as names_in, none};
ghost use Rattle.builtins.specs.Known.{blank_index};
ghost use Rattle.door.specs.Entry.{Checked};
ghost use Rattle.grammar.specs.Door.{Lent};
ghost use Rattle.grammar.specs.Kaori as form;
ghost use Rattle.grammar.specs.Phrase.{empty, chain, whole};
ghost use Rattle.grammar.specs.Profile.{script as a-script, guard as a-guard};
ghost use Rattle.grammar.specs.Token.{count};
ghost use Rattle.reading.specs.Clauses.{opened, lists};
ghost use Rattle.syntax.specs.Parsed.{numbers, rooms, begin, completes, Parsed, LetIn, Cut, AllThere, Finished};
ghost use Rattle.token.specs.Profiled.{profiled};

use ast::room::{clear, link, push};
use ast::{ABSENT, LINK_WIDTH, NODE_WIDTH, Node};
use builtins::INDEX;
use door::{admit, check, within};
use names::resolve;
use parents::adopt;
use parser::readers::{expression, statement};
use reading::lists::consume;
use reading::pieces::no_room;
use reading::{Cursor, Read, Refusal, Terms, codes};
use token::list::{end_at, kind_at, start_at};
use token::profiles::Profile;
use token::{editions, kinds};

// The answer of a call: a code, which is 0 or a refusal's; how many rows each room has, 0 for a refusal; and a refusal's place and the kind that was
// required there (255: no certain kind). It is no Result, since these are the eight numbers that C is answered (`put` of crate scripts).
#[derive(Clone, Copy)]
pub struct Numbers {
    pub code: u32,
    pub nodes: u32,
    pub links: u32,
    pub symbols: u32,
    pub at: u32,
    pub start: u32,
    pub end: u32,
    pub expected: u32,
}

// The answer of a refusal: no rows are counted. It is public for crate reader, which has refusals of its own.
// Ruled out: a count that is not 0; a start and an end in each other's place.
pub fn refused(code: u32, at: u32, start: u32, end: u32, expected: u32) -> Numbers
    ensures { numbers result ≡ refuse code at start end expected }
{
    let rows = 0;
    Numbers {
        code,
        nodes: rows,
        links: rows,
        symbols: rows,
        at,
        start,
        end,
        expected,
    }
}

// The statements up to Eof: their rows are held, as those of a list.
fn statements(
    tokens: &[u32],
    nodes: &mut [u32],
    links: &mut [u32],
    scratch: &mut [u32],
    terms: Terms,
    cur: Cursor,
) -> Read
    requires { opened tokens nodes links scratch terms 0 cur }
    ensures { lists (whole (chain empty form.script_items)) tokens nodes links scratch terms 0 cur result }
{
    let mut now = cur;
    let first = cur.at;
    let mut kind = kind_at(tokens, first);
    'list: loop {
        if kind == kinds::EOF {
            break 'list;
        }
        let read = statement(tokens, nodes, links, scratch, terms, 0, now);
        let Read::Node(item, end) = read else {
            return read;
        };
        let held = end.held;
        push(scratch, held, item.id, 0, 0);
        now = Cursor {
            held: held + 1,
            at: end.at,
            links: end.links,
            nodes: end.nodes,
        };
        let next = end.at;
        kind = kind_at(tokens, next);
    }
    let list = Node {
        id: 0,
        start: 0,
        end: 0,
    };
    Read::Node(list, now)
}

// Where reading begins: at the first token, and with no rows.
const BEGIN: Cursor = Cursor {
    held: 0,
    at: 0,
    links: 0,
    nodes: 0,
};

// A whole script: the statements that are held become the root's links, and the root is the last row. Without room for these it is refused, at the Eof.
fn whole(
    tokens: &[u32],
    nodes: &mut [u32],
    links: &mut [u32],
    scratch: &mut [u32],
    terms: Terms,
) -> Read
    requires { opened tokens nodes links scratch terms 0 begin }
    ensures { completes a-script tokens nodes links scratch terms result }
{
    let read = statements(tokens, nodes, links, scratch, terms, BEGIN);
    let Read::Node(_, end) = read else {
        return read;
    };
    let first = end.links;
    let count = end.held;
    let used = first + count;
    let n = end.nodes;
    if links.len() < LINK_WIDTH * used {
        return no_room(end.at);
    }
    if nodes.len() < NODE_WIDTH * (n + 1) {
        return no_room(end.at);
    }
    link(links, first, scratch, 0, count);
    let root = ast::block(nodes, n, first as u32, count as u32, ABSENT, 0, 0);
    let all = Cursor {
        held: 0,
        at: end.at,
        links: used,
        nodes: n + 1,
    };
    Read::Node(root, all)
}

// A whole guard: one expression, and then Eof is required. The expression's row is the last.
fn guarded(
    tokens: &[u32],
    nodes: &mut [u32],
    links: &mut [u32],
    scratch: &mut [u32],
    terms: Terms,
) -> Read
    requires { opened tokens nodes links scratch terms 0 begin }
    ensures { completes a-guard tokens nodes links scratch terms result }
{
    let read = expression(tokens, nodes, links, scratch, terms, 0, BEGIN);
    let Read::Node(_, end) = read else {
        return read;
    };
    let eof = consume(tokens, end, kinds::EOF);
    let Read::Node(_, _) = eof else {
        return eof;
    };
    read
}

// What a call of this profile reads.
fn tree(
    tokens: &[u32],
    nodes: &mut [u32],
    links: &mut [u32],
    scratch: &mut [u32],
    terms: Terms,
    profile: Profile,
) -> Read
    requires { opened tokens nodes links scratch terms 0 begin }
    ensures { completes (profiled profile) tokens nodes links scratch terms result }
{
    match profile {
        Profile::Script => whole(tokens, nodes, links, scratch, terms),
        Profile::Guard => guarded(tokens, nodes, links, scratch, terms),
    }
}

// The answer of what is read: each row gets its parent, and zeros follow in each room. `known` is the number of symbol rows.
fn finish(
    nodes: &mut [u32],
    links: &mut [u32],
    symbols: &mut [u32],
    scratch: &mut [u32],
    known: usize,
    end: Cursor,
) -> Numbers
    requires { AllThere end known (rooms nodes.old links.old symbols.old scratch.old) }
    ensures { Finished end known (rooms nodes.old links.old symbols.old scratch.old) (rooms nodes.new links.new symbols.new scratch.new) result }
{
    let used = end.links;
    let n = end.nodes;
    adopt(nodes, &links[..LINK_WIDTH * used], n as u32);
    clear(nodes, NODE_WIDTH * n);
    clear(links, LINK_WIDTH * used);
    clear(symbols, 2 * known);
    clear(scratch, 0);
    Numbers {
        code: 0,
        nodes: n as u32,
        links: used as u32,
        symbols: known as u32,
        at: 0,
        start: 0,
        end: 0,
        expected: codes::NO_KIND,
    }
}

// The answer of a reading that is refused: zeros in each room.
fn cut(
    tokens: &[u32],
    nodes: &mut [u32],
    links: &mut [u32],
    symbols: &mut [u32],
    scratch: &mut [u32],
    why: Refusal,
) -> Numbers
    requires { (why.at < count tokens.now) × (count tokens.now ≤ 4096) }
    ensures { Cut tokens.now why (rooms nodes.old links.old symbols.old scratch.old) (rooms nodes.new links.new symbols.new scratch.new) result }
{
    clear(nodes, 0);
    clear(links, 0);
    clear(symbols, 0);
    clear(scratch, 0);
    let at = why.at;
    let start = start_at(tokens, at);
    let end = end_at(tokens, at);
    refused(why.code, at as u32, start, end, why.expected)
}

// The answer of a call that is let in.
fn answer(
    names: &[u8],
    rows: &[u32],
    index: &[u32],
    text: &[u8],
    tokens: &[u32],
    profile: Profile,
    edition: u32,
    limit: u32,
    nodes: &mut [u32],
    links: &mut [u32],
    symbols: &mut [u32],
    scratch: &mut [u32],
) -> Numbers
    requires { LetIn (profiled profile) (names_in names.now rows.now) index.now text.now tokens.now edition limit (rooms nodes.old links.old symbols.old scratch.old) }
    ensures { Parsed (profiled profile) (names_in names.now rows.now) text.now tokens.now edition limit (rooms nodes.old links.old symbols.old scratch.old) (rooms nodes.new links.new symbols.new scratch.new) result }
{
    let known = resolve(names, rows, index, text, tokens, symbols, scratch);
    let terms = Terms { edition, limit };
    let read = tree(tokens, nodes, links, scratch, terms, profile);
    match read {
        Read::Refused(why) => cut(tokens, nodes, links, symbols, scratch, why),
        Read::Node(_, end) => finish(nodes, links, symbols, scratch, known, end),
    }
}

// The answer of a call, of what the door says of it.
fn enter(
    entry: Result<(), door::Refusal>,
    names: &[u8],
    rows: &[u32],
    index: &[u32],
    text: &[u8],
    tokens: &[u32],
    profile: Profile,
    edition: u32,
    limit: u32,
    nodes: &mut [u32],
    links: &mut [u32],
    symbols: &mut [u32],
    scratch: &mut [u32],
) -> Numbers
    requires { Checked (profiled profile) (names_in names.now rows.now) text.now tokens.now edition limit (length symbols.old) (length scratch.old) index.now entry }
    ensures { Parsed (profiled profile) (names_in names.now rows.now) text.now tokens.now edition limit (rooms nodes.old links.old symbols.old scratch.old) (rooms nodes.new links.new symbols.new scratch.new) result }
{
    match entry {
        Err(why) => refused(why.code, why.at, why.start, why.end, codes::NO_KIND),
        Ok(()) => answer(
            names, rows, index, text, tokens, profile, edition, limit, nodes, links, symbols,
            scratch,
        ),
    }
}

// What the door says of a call whose text and list have what checks 1 and 5 to 7 ask: where it is let in, `index` is the built-in names' own.
fn lent(
    names: &[u8],
    rows: &[u32],
    index: &mut [u32],
    text: &[u8],
    tokens: &[u32],
    profile: Profile,
    edition: u32,
    limit: u32,
    symbols: usize,
    scratch: usize,
) -> Result<(), door::Refusal>
    requires { (index.old ≡ blank_index) × Lent text.now tokens.now }
    ensures { Checked (profiled profile) (names_in names.now rows.now) text.now tokens.now edition limit symbols scratch index.new result }
{
    admit(
        names,
        rows,
        index,
        tokens.len(),
        text.len(),
        edition,
        limit,
        symbols,
        scratch,
    )?;
    within(tokens, profile)
}

// Reads a script or a guard as `parse_as` does, but looks at lengths, the edition, the limit, the built-in names and the profile alone. It asks that text and list have
// what checks 1 and 5 to 7 ask: the crates above know that of a list that they made. Ruled out: 21 where the limit is 0; a reading whose rows do not fit.
pub fn parse_checked(
    names: &[u8],
    rows: &[u32],
    text: &[u8],
    tokens: &[u32],
    profile: Profile,
    edition: u32,
    limit: u32,
    nodes: &mut [u32],
    links: &mut [u32],
    symbols: &mut [u32],
    scratch: &mut [u32],
) -> Numbers
    requires { Lent text.now tokens.now }
    ensures { Parsed (profiled profile) (names_in names.now rows.now) text.now tokens.now edition limit (rooms nodes.old links.old symbols.old scratch.old) (rooms nodes.new links.new symbols.new scratch.new) result }
{
    let mut index: [u32; INDEX] = [0; INDEX];
    let entry = lent(
        names,
        rows,
        &mut index,
        text,
        tokens,
        profile,
        edition,
        limit,
        symbols.len(),
        scratch.len(),
    );
    enter(
        entry, names, rows, &index, text, tokens, profile, edition, limit, nodes, links, symbols,
        scratch,
    )
}

// Reads a script or a guard, of edition 1 or 2, beside built-in names: `names` is their text, and `rows` has two numbers for each, where it starts and ends there. They
// are symbols 0 onward. What the door refuses, by 1 to 7, by 21 for another edition, by 18 for names that are not right or by 17 for a token that no guard has, leaves
// the rooms as they are; a refusal in reading, by 4 or 8 to 11, leaves zeros throughout; success leaves the rows and then zeros, and zeros throughout in `scratch`. Any
// names, text, list, profile, edition, limit and rooms have an answer.
// Ruled out: a reading as the other edition or the other profile has it; a row count that is not the tree's; a room that is not zero after a refusal in reading; a built-in
// name with another symbol than its row's number.
pub fn parse_as(
    names: &[u8],
    rows: &[u32],
    text: &[u8],
    tokens: &[u32],
    profile: Profile,
    edition: u32,
    limit: u32,
    nodes: &mut [u32],
    links: &mut [u32],
    symbols: &mut [u32],
    scratch: &mut [u32],
) -> Numbers
    ensures { Parsed (profiled profile) (names_in names.now rows.now) text.now tokens.now edition limit (rooms nodes.old links.old symbols.old scratch.old) (rooms nodes.new links.new symbols.new scratch.new) result }
{
    let mut index: [u32; INDEX] = [0; INDEX];
    let entry = check(
        names,
        rows,
        &mut index,
        text,
        tokens,
        profile,
        edition,
        limit,
        symbols.len(),
        scratch.len(),
    );
    enter(
        entry, names, rows, &index, text, tokens, profile, edition, limit, nodes, links, symbols,
        scratch,
    )
}

// Reads a script of edition 1 or 2 beside built-in names: `parse_as` of a script.
// Ruled out: a guard's answer; a reading as the other edition has it.
pub fn parse_with(
    names: &[u8],
    rows: &[u32],
    text: &[u8],
    tokens: &[u32],
    edition: u32,
    limit: u32,
    nodes: &mut [u32],
    links: &mut [u32],
    symbols: &mut [u32],
    scratch: &mut [u32],
) -> Numbers
    ensures { Parsed a-script (names_in names.now rows.now) text.now tokens.now edition limit (rooms nodes.old links.old symbols.old scratch.old) (rooms nodes.new links.new symbols.new scratch.new) result }
{
    parse_as(
        names,
        rows,
        text,
        tokens,
        Profile::Script,
        edition,
        limit,
        nodes,
        links,
        symbols,
        scratch,
    )
}

// Reads a guard of edition 1 or 2 beside built-in names: `parse_as` of a guard.
// Ruled out: a `;` behind the expression let through; a root behind its row; 17 at a token that is not the first of the four.
pub fn guard_with(
    names: &[u8],
    rows: &[u32],
    text: &[u8],
    tokens: &[u32],
    edition: u32,
    limit: u32,
    nodes: &mut [u32],
    links: &mut [u32],
    symbols: &mut [u32],
    scratch: &mut [u32],
) -> Numbers
    ensures { Parsed a-guard (names_in names.now rows.now) text.now tokens.now edition limit (rooms nodes.old links.old symbols.old scratch.old) (rooms nodes.new links.new symbols.new scratch.new) result }
{
    parse_as(
        names,
        rows,
        text,
        tokens,
        Profile::Guard,
        edition,
        limit,
        nodes,
        links,
        symbols,
        scratch,
    )
}

// Reads a script of edition 1 beside no built-in names: document 01's call.
// Ruled out: a reading as edition 2 has it; a row count that is not the tree's; a room that is not zero after a refusal in reading.
pub fn parse(
    text: &[u8],
    tokens: &[u32],
    limit: u32,
    nodes: &mut [u32],
    links: &mut [u32],
    symbols: &mut [u32],
    scratch: &mut [u32],
) -> Numbers
    ensures { Parsed a-script none text.now tokens.now 1 limit (rooms nodes.old links.old symbols.old scratch.old) (rooms nodes.new links.new symbols.new scratch.new) result }
{
    let names: [u8; 0] = [0; 0];
    let rows: [u32; 0] = [0; 0];
    parse_with(
        &names,
        &rows,
        text,
        tokens,
        editions::FIRST,
        limit,
        nodes,
        links,
        symbols,
        scratch,
    )
}

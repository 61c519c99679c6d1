// Tokens, names, and lists of names.
ghost use Rattle.std.specs.Prelude.{◌+◌, ◌*◌, ◌≤◌, ◌<◌, length};
ghost use Rattle.grammar.specs.Handle.{absent};
ghost use Rattle.grammar.specs.Kaori as form;
ghost use Rattle.grammar.specs.Phrase.{part, choice, chain, empty, whole};
ghost use Rattle.grammar.specs.Token.{count};
ghost use Rattle.reading.specs.Answers.{node_of, name_of, Consumed};
ghost use Rattle.reading.specs.Clauses.{ready, opened, answered, lists};
ghost use Rattle.reading.specs.Parts.{Closer, Separated, Gathered};

use crate::pieces::{made_list, no_room};
use crate::{Cursor, Read, Refusal, Terms, codes};
use ast::room::{link, push};
use ast::{ABSENT, LINK_WIDTH, Node};
use names::symbol_at;
use token::kinds;
use token::list::{end_at, kind_at, start_at};

// A token of one certain kind: its span. It asks that there is a token.
// Ruled out: another kind let through; a refusal at the token after it.
pub fn consume(tokens: &[u32], cur: Cursor, expected: u32) -> Read
    requires { cur.at < count tokens.now }
    ensures { Consumed tokens.now cur expected result }
{
    let at = cur.at;
    if kind_at(tokens, at) != expected {
        return Read::Refused(Refusal {
            code: codes::KIND_REQUIRED,
            at,
            expected,
        });
    }
    let start = start_at(tokens, at);
    let end = end_at(tokens, at);
    let past = Cursor {
        held: cur.held,
        at: at + 1,
        links: cur.links,
        nodes: cur.nodes,
    };
    Read::Node(Node { id: 0, start, end }, past)
}

// After an item of a list: its closer, which stays, or a comma. It asks that there is a token.
// Ruled out: a closer that is taken; the closer required where neither stands.
pub fn comma(tokens: &[u32], item: Node, cur: Cursor, closer: u32) -> Read
    requires { cur.at < count tokens.now }
    ensures { Separated tokens.now item cur closer result }
{
    let at = cur.at;
    if kind_at(tokens, at) == closer {
        return Read::Node(item, cur);
    }
    let read = consume(tokens, cur, kinds::COMMA);
    let Read::Node(_, past) = read else {
        return read;
    };
    Read::Node(item, past)
}

// The rows held since `base` become links, in their order, if there is room for them; they are counted in any case, and `made_list` refuses then. It asks that so
// many are held, and that the scratch room has them.
// Ruled out: a row held before `base` that becomes a link; one that is still held.
pub fn gather(links: &mut [u32], scratch: &[u32], base: usize, cur: Cursor) -> Cursor
    requires { (base ≤ cur.held) × (3 * cur.held ≤ length scratch.now) × (cur.links + cur.held < absent) }
    ensures { Gathered base cur scratch.now links.old links.new result }
{
    let used = cur.links;
    let count = cur.held - base;
    let all = used + count;
    if LINK_WIDTH * all <= links.len() {
        link(links, used, scratch, base, count);
    }
    Cursor {
        held: base,
        at: cur.at,
        links: all,
        nodes: cur.nodes,
    }
}

// A name: its symbol, if there is room for it, and its place. It asks `Ready`.
// Ruled out: a keyword taken for a name; the symbol of another name.
pub fn name(
    tokens: &[u32],
    nodes: &mut [u32],
    links: &mut [u32],
    scratch: &mut [u32],
    terms: Terms,
    depth: u32,
    cur: Cursor,
) -> Read
    requires { ready tokens nodes links scratch terms depth cur }
    ensures { answered name_of (whole form.name) tokens nodes links scratch terms depth cur result }
{
    let read = consume(tokens, cur, kinds::IDENTIFIER);
    let Read::Node(place, next) = read else {
        return read;
    };
    let at = cur.at;
    let symbol = symbol_at(tokens, scratch, at);
    if symbol == ABSENT {
        return no_room(at);
    }
    let word = Node {
        id: symbol,
        start: place.start,
        end: place.end,
    };
    Read::Node(word, next)
}

// A name, and the comma after it.
fn listed(
    tokens: &[u32],
    nodes: &mut [u32],
    links: &mut [u32],
    scratch: &mut [u32],
    terms: Terms,
    depth: u32,
    cur: Cursor,
    closer: u32,
) -> Read
    requires closer { Closer closer }
    requires ready { ready tokens nodes links scratch terms depth cur }
    ensures { answered name_of (whole (part form.name (choice (form.comma closer)))) tokens nodes links scratch terms depth cur result }
{
    let read = name(tokens, nodes, links, scratch, terms, depth, cur);
    let Read::Node(item, end) = read else {
        return read;
    };
    comma(tokens, item, end, closer)
}

// Names up to a closer, held as a list. It asks `Ready`, and `|`, `)` or `;` for the closer.
// Ruled out: a name after which neither the closer nor a comma stands; a second comma after the last name.
pub fn names(
    tokens: &[u32],
    nodes: &mut [u32],
    links: &mut [u32],
    scratch: &mut [u32],
    terms: Terms,
    depth: u32,
    cur: Cursor,
    closer: u32,
) -> Read
    requires closer { Closer closer }
    requires opened { opened tokens nodes links scratch terms depth cur }
    ensures { lists (whole (chain empty (form.names closer))) tokens nodes links scratch terms depth cur result }
{
    let mut now = cur;
    'list: loop {
        let at = now.at;
        let kind = kind_at(tokens, at);
        if kind == closer || kind == kinds::EOF {
            break 'list;
        }
        let read = listed(tokens, nodes, links, scratch, terms, depth, now, closer);
        let Read::Node(item, end) = read else {
            return read;
        };
        let held = end.held;
        push(scratch, held, item.id, item.start, item.end);
        now = Cursor {
            held: held + 1,
            at: end.at,
            links: end.links,
            nodes: end.nodes,
        };
    }
    Read::Node(
        Node {
            id: 0,
            start: 0,
            end: 0,
        },
        now,
    )
}

// A name of an import's path, or nothing at Eof.
fn step(
    tokens: &[u32],
    nodes: &mut [u32],
    links: &mut [u32],
    scratch: &mut [u32],
    terms: Terms,
    depth: u32,
    cur: Cursor,
) -> Read
    requires { opened tokens nodes links scratch terms depth cur }
    ensures { lists (whole (choice form.path_name)) tokens nodes links scratch terms depth cur result }
{
    let at = cur.at;
    if kind_at(tokens, at) == kinds::EOF {
        return Read::Node(
            Node {
                id: 0,
                start: 0,
                end: 0,
            },
            cur,
        );
    }
    let read = name(tokens, nodes, links, scratch, terms, depth, cur);
    let Read::Node(item, end) = read else {
        return read;
    };
    let held = end.held;
    push(scratch, held, item.id, item.start, item.end);
    let past = Cursor {
        held: held + 1,
        at: end.at,
        links: end.links,
        nodes: end.nodes,
    };
    Read::Node(
        Node {
            id: 0,
            start: 0,
            end: 0,
        },
        past,
    )
}

// The names of an import's path, joined by dots.
fn path(
    tokens: &[u32],
    nodes: &mut [u32],
    links: &mut [u32],
    scratch: &mut [u32],
    terms: Terms,
    depth: u32,
    cur: Cursor,
) -> Read
    requires { opened tokens nodes links scratch terms depth cur }
    ensures { lists (whole (chain (choice form.path_name) form.dots)) tokens nodes links scratch terms depth cur result }
{
    let read = step(tokens, nodes, links, scratch, terms, depth, cur);
    let Read::Node(_, first) = read else {
        return read;
    };
    let mut now = first;
    'path: loop {
        let at = now.at;
        if kind_at(tokens, at) != kinds::DOT {
            break 'path;
        }
        let next = Cursor {
            held: now.held,
            at: at + 1,
            links: now.links,
            nodes: now.nodes,
        };
        let turn = step(tokens, nodes, links, scratch, terms, depth, next);
        let Read::Node(_, end) = turn else {
            return turn;
        };
        now = end;
    }
    Read::Node(
        Node {
            id: 0,
            start: 0,
            end: 0,
        },
        now,
    )
}

// The names after an import's colon, if there is one.
fn bindings(
    tokens: &[u32],
    nodes: &mut [u32],
    links: &mut [u32],
    scratch: &mut [u32],
    terms: Terms,
    depth: u32,
    cur: Cursor,
) -> Read
    requires { ready tokens nodes links scratch terms depth cur }
    ensures { lists (whole (choice form.bindings)) tokens nodes links scratch terms depth cur result }
{
    let at = cur.at;
    if kind_at(tokens, at) != kinds::COLON {
        return Read::Node(
            Node {
                id: 0,
                start: 0,
                end: 0,
            },
            cur,
        );
    }
    let next = Cursor {
        held: cur.held,
        at: at + 1,
        links: cur.links,
        nodes: cur.nodes,
    };
    let closer = kinds::SEMICOLON;
    names(tokens, nodes, links, scratch, terms, depth, next, closer)
}

// An import: its span ends with the token after it. It asks `Ready`.
// Ruled out: bindings among the path's links; a span that ends with its last name.
pub fn import(
    tokens: &[u32],
    nodes: &mut [u32],
    links: &mut [u32],
    scratch: &mut [u32],
    terms: Terms,
    depth: u32,
    cur: Cursor,
) -> Read
    requires { ready tokens nodes links scratch terms depth cur }
    ensures { answered node_of (whole form.import) tokens nodes links scratch terms depth cur result }
{
    let read = consume(tokens, cur, kinds::IMPORT);
    let Read::Node(lead, next) = read else {
        return read;
    };
    let read = path(tokens, nodes, links, scratch, terms, depth, next);
    let Read::Node(_, middle) = read else {
        return read;
    };
    let read = bindings(tokens, nodes, links, scratch, terms, depth, middle);
    let Read::Node(_, end) = read else {
        return read;
    };
    let base = cur.held;
    let length = middle.held - base;
    let count = end.held - middle.held;
    let first = end.links;
    let past = gather(links, scratch, base, end);
    let at = past.at;
    let upto = end_at(tokens, at);
    let n = past.nodes;
    let node = ast::import(
        nodes,
        n,
        first as u32,
        length as u32,
        (first + length) as u32,
        count as u32,
        lead.start,
        upto,
    );
    made_list(links, node, past)
}

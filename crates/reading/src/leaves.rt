// Nodes of one token, and a dot with its name.
ghost use Rattle.std.specs.Prelude.{◌≡◌, ◌+◌, ◌<◌};
ghost use Rattle.ast.specs.Inserted.{Tried};
ghost use Rattle.grammar.specs.Handle.{absent};
ghost use Rattle.grammar.specs.Kaori as form;
ghost use Rattle.grammar.specs.Kind.{Dot, StringLiteral, Identifier};
ghost use Rattle.grammar.specs.Label.{Node as Label, number_of};
ghost use Rattle.grammar.specs.Phrase.{whole};
ghost use Rattle.grammar.specs.Token.{kind};
ghost use Rattle.reading.specs.Answers.{node_of};
ghost use Rattle.reading.specs.Clauses.{ready, answered, called, onward};
ghost use Rattle.reading.specs.Parts.{Single, single_node, single_fields};

use crate::lists::{consume, name};
use crate::pieces::{made, no_room};
use crate::{Cursor, Read, Terms};
use ast::{ABSENT, Node};
use names::symbol_at;
use token::kinds;

// The row of a node that is one token of this kind.
fn row(nodes: &mut [u32], n: usize, kind: u32, start: u32, end: u32) -> Node
    requires { n < absent }
    ensures { Tried n (number_of (single_node kind)) start end (single_fields kind) nodes.old nodes.new result }
{
    match kind {
        kinds::BREAK => ast::break_(nodes, n, start, end),
        kinds::CONTINUE => ast::continue_(nodes, n, start, end),
        kinds::TRUE => ast::boolean(nodes, n, 1, start, end),
        kinds::FALSE => ast::boolean(nodes, n, 0, start, end),
        kinds::NIL => ast::nil(nodes, n, start, end),
        _ => ast::number(nodes, n, start, end),
    }
}

// `break`, `continue`, `true`, `false`, `nil` and numbers. It asks `Ready`, and one of these kinds.
// Ruled out: `true` with the value 0; a span that is not the token's.
pub fn single(
    tokens: &[u32],
    nodes: &mut [u32],
    links: &mut [u32],
    scratch: &mut [u32],
    terms: Terms,
    depth: u32,
    cur: Cursor,
    kind: u32,
) -> Read
    requires single { Single kind }
    requires ready { ready tokens nodes links scratch terms depth cur }
    ensures { answered node_of (whole (form.leaf (single_node kind) kind)) tokens nodes links scratch terms depth cur result }
{
    let read = consume(tokens, cur, kind);
    let Read::Node(place, next) = read else {
        return read;
    };
    let n = next.nodes;
    let node = row(nodes, n, kind, place.start, place.end);
    made(node, next)
}

// A string: its symbol is that of its inside, if there is room for it. It asks `Ready`.
// Ruled out: the symbol of the string with its quotes; the inside's span.
pub fn string(
    tokens: &[u32],
    nodes: &mut [u32],
    links: &mut [u32],
    scratch: &mut [u32],
    terms: Terms,
    depth: u32,
    cur: Cursor,
) -> Read
    requires { ready tokens nodes links scratch terms depth cur }
    ensures { answered node_of (whole (form.leaf Label.String StringLiteral)) tokens nodes links scratch terms depth cur result }
{
    let read = consume(tokens, cur, kinds::STRING_LITERAL);
    let Read::Node(place, next) = read else {
        return read;
    };
    let at = cur.at;
    let symbol = symbol_at(tokens, scratch, at);
    if symbol == ABSENT {
        return no_room(at);
    }
    let n = next.nodes;
    let node = ast::string(nodes, n, symbol, place.start, place.end);
    made(node, next)
}

// An identifier's row. It asks `Ready`.
// Ruled out: the symbol of another name; a row where the token is no identifier.
pub fn identifier(
    tokens: &[u32],
    nodes: &mut [u32],
    links: &mut [u32],
    scratch: &mut [u32],
    terms: Terms,
    depth: u32,
    cur: Cursor,
) -> Read
    requires { ready tokens nodes links scratch terms depth cur }
    ensures { answered node_of (whole (form.leaf Label.Identifier Identifier)) tokens nodes links scratch terms depth cur result }
{
    let read = name(tokens, nodes, links, scratch, terms, depth, cur);
    let Read::Node(word, next) = read else {
        return read;
    };
    let n = next.nodes;
    let node = ast::identifier(nodes, n, word.id, word.start, word.end);
    made(node, next)
}

// A dot and a name after what stands before them. It asks `Ready`, and that the token is a dot.
// Ruled out: a span that starts with the object; the object's row left out.
pub fn property_access(
    tokens: &[u32],
    nodes: &mut [u32],
    links: &mut [u32],
    scratch: &mut [u32],
    terms: Terms,
    depth: u32,
    cur: Cursor,
    object: Node,
) -> Read
    requires at_value { kind tokens.now cur.at ≡ Dot }
    requires ready { ready tokens nodes links scratch terms depth cur }
    ensures { onward called object (cur.at + 1) tokens nodes links scratch terms depth cur result }
{
    let read = consume(tokens, cur, kinds::DOT);
    let Read::Node(dot, next) = read else {
        return read;
    };
    let read = name(tokens, nodes, links, scratch, terms, depth, next);
    let Read::Node(word, end) = read else {
        return read;
    };
    let n = end.nodes;
    let node = ast::property_access(
        nodes, n, object.id, word.id, word.start, word.end, dot.start, word.end,
    );
    made(node, end)
}

// What a kind decides about a row, and about the end of a statement.
ghost use Rattle.std.specs.Prelude.{◌∷◌, [], ◌≡◌, ◌≤◌, ◌<◌, length};
ghost use Rattle.ast.specs.Inserted.{Tried};
ghost use Rattle.grammar.specs.Handle.{absent};
ghost use Rattle.grammar.specs.Label.{number_of};
ghost use Rattle.grammar.specs.Operator.{joining};
ghost use Rattle.grammar.specs.Token.{count};
ghost use Rattle.reading.specs.Parts.{no_room, Makes, MakesList, Ended, Untailed, Bare, Lone, binding_node, joined_fields};
ghost use Rattle.reading.specs.declared.Read.{Read};

use crate::{Cursor, Read, Refusal, codes};
use ast::{ABSENT, LINK_WIDTH, Node};
use token::list::kind_at;
use token::ops::operator_of;
use token::{editions, kinds};

// The row of two operands and the operator of this kind between them. It asks that its number is below absent.
// Ruled out: a Binary for `and`; the operands in each other's place.
pub fn joined(
    nodes: &mut [u32],
    n: usize,
    kind: u32,
    left: u32,
    right: u32,
    start: u32,
    end: u32,
) -> Node
    requires { n < absent }
    ensures { Tried n (number_of (joining kind)) start end (joined_fields kind left right) nodes.old nodes.new result }
{
    match kind {
        kinds::AND => ast::logical_and(nodes, n, left, right, start, end),
        kinds::OR => ast::logical_or(nodes, n, left, right, start, end),
        _ => ast::binary(nodes, n, operator_of(kind), left, right, start, end),
    }
}

// The row of a name that `let`, `const` or `ref` binds. It asks that its number is below absent.
// Ruled out: a Variable for `const`; the name's place left out.
pub fn bound(
    nodes: &mut [u32],
    n: usize,
    kind: u32,
    word: Node,
    right: u32,
    start: u32,
    end: u32,
) -> Node
    requires { n < absent }
    ensures { Tried n (number_of (binding_node kind)) start end (word.id ∷ word.start ∷ word.end ∷ right ∷ []) nodes.old nodes.new result }
{
    match kind {
        kinds::LET => ast::variable(nodes, n, word.id, word.start, word.end, right, start, end),
        kinds::CONST => ast::constant(nodes, n, word.id, word.start, word.end, right, start, end),
        _ => ast::ref_(nodes, n, word.id, word.start, word.end, right, start, end),
    }
}

// Refusal 4 at a token: a row that has to be written there has no room.
// Ruled out: another token; another code.
pub fn no_room(at: usize) -> Read
    ensures { result ≡ Read.Refused (no_room at) }
{
    Read::Refused(Refusal {
        code: codes::NO_ROOM,
        at,
        expected: codes::NO_KIND,
    })
}

// The answer of a reader that made one row more: its node, and the cursor past that row; or, where the row had no room, a refusal at the token after it. The node's
// answer is made first and replaced then, which is faster than a choice of two answers. It asks that the number of rows stays below absent.
// Ruled out: a cursor that does not count the row; a node that has no row.
pub fn made(node: Node, cur: Cursor) -> Read
    requires { cur.nodes < absent }
    ensures { Makes node cur result }
{
    let past = Cursor {
        held: cur.held,
        at: cur.at,
        links: cur.links,
        nodes: cur.nodes + 1,
    };
    let mut read = Read::Node(node, past);
    if node.id == ABSENT {
        read = Read::Refused(Refusal {
            code: codes::NO_ROOM,
            at: cur.at,
            expected: codes::NO_KIND,
        });
    }
    read
}

// And of one whose row has links: these too must have had room. It asks that the number of rows stays below absent, and that of links.
// Ruled out: a row whose links are not there; a refusal at another token than the one after the node.
pub fn made_list(links: &[u32], node: Node, cur: Cursor) -> Read
    requires { (cur.nodes < absent) × (cur.links < absent) }
    ensures { MakesList (length links.now) node cur result }
{
    let mut read = made(node, cur);
    if links.len() < LINK_WIDTH * cur.links {
        read = Read::Refused(Refusal {
            code: codes::NO_ROOM,
            at: cur.at,
            expected: codes::NO_KIND,
        });
    }
    read
}

// After a statement that began with a token of kind `first`: a `;` is taken. If there is none, the statement may be a tail, unless the `;` is required. It asks that
// there is a token. Ruled out: a tail after a `;`; a `let` without one before another statement.
pub fn semicolon(tokens: &[u32], node: Node, cur: Cursor, first: u32) -> Read
    requires { cur.at < count tokens.now }
    ensures { Ended tokens.now node cur first result }
{
    let at = cur.at;
    let kind = kind_at(tokens, at);
    if kind == kinds::SEMICOLON {
        let past = Cursor {
            held: cur.held,
            at: at + 1,
            links: cur.links,
            nodes: cur.nodes,
        };
        let ended = Node {
            id: node.id,
            start: 0,
            end: ABSENT,
        };
        return Read::Node(ended, past);
    }
    let open = Node {
        id: node.id,
        start: 0,
        end: node.id,
    };
    if kind == kinds::RIGHT_BRACE {
        return Read::Node(open, cur);
    }
    match first {
        kinds::LEFT_BRACE | kinds::FUNCTION | kinds::WHILE | kinds::IF => Read::Node(open, cur),
        _ => Read::Refused(Refusal {
            code: codes::KIND_REQUIRED,
            at,
            expected: kinds::SEMICOLON,
        }),
    }
}

// A tail is no list item: it is not held. It asks that something is held where there is one.
// Ruled out: a tail that is a list item too; a statement dropped where there is no tail.
pub fn untailed(tail: u32, cur: Cursor) -> Read
    requires { (tail ≡ absent → ⊥) → 1 ≤ cur.held }
    ensures { Untailed tail cur result }
{
    let list = Node {
        id: tail,
        start: 0,
        end: 0,
    };
    if tail == ABSENT {
        return Read::Node(list, cur);
    }
    let held = cur.held;
    let past = Cursor {
        held: held - 1,
        at: cur.at,
        links: cur.links,
        nodes: cur.nodes,
    };
    Read::Node(list, past)
}

// Whether a `return` stands alone before a token of this kind: in edition 2 it does before `;` and `}`.
// Ruled out: a `return` alone in edition 1; one that is alone at Eof.
pub fn bare(edition: u32, kind: u32) -> bool
    ensures { Bare edition kind result }
{
    if edition != editions::SECOND {
        return false;
    }
    kind == kinds::SEMICOLON || kind == kinds::RIGHT_BRACE
}

// Whether nothing may follow what a chain could start with, by the kind of its first token: so it is with parentheses in edition 1.
// Ruled out: a name that stands alone; parentheses that do in edition 2.
pub fn lone(edition: u32, kind: u32) -> bool
    ensures { Lone edition kind result }
{
    if kind != kinds::LEFT_PAREN {
        return false;
    }
    if edition == editions::SECOND {
        return false;
    }
    true
}

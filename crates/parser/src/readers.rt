// The readers that call each other: a block holds statements, a statement holds expressions, an expression may hold a block.
ghost use Rattle.std.specs.Prelude.{◌≡◌, ◌+◌, ◌≤◌};
ghost use Rattle.grammar.specs.Edition.{Edition, edition};
ghost use Rattle.grammar.specs.Kaori as form;
ghost use Rattle.grammar.specs.Kind.{LeftParen, RightParen, RightBrace};
ghost use Rattle.grammar.specs.Label.{Label};
ghost use Rattle.grammar.specs.Phrase.{part, node, choice, chain, empty, whole};
ghost use Rattle.grammar.specs.Token.{kind};
ghost use Rattle.reading.specs.Answers.{node_of, entry_of};
ghost use Rattle.reading.specs.Clauses.{ready, opened, answered, lists, fills, states, called, all_called, onward};
ghost use Rattle.reading.specs.Parts.{Binder, Sign, Other, form_of, binding_node, head_form, chained_form};

use ast::room::push;
use ast::{ABSENT, Node};
use reading::leaves::{identifier, property_access, single, string};
use reading::lists::{comma, consume, gather, import, name, names};
use reading::pieces::{bare, bound, joined, lone, made, made_list, no_room, semicolon, untailed};
use reading::{Cursor, Read, Refusal, Terms, codes};
use token::list::kind_at;
use token::ops::{level_of, sign_of};
use token::{editions, kinds};

// A statement: its row, and at its node's end the row once more if it may be a tail, or else absent; the node's start is 0.
// It asks for a list that the door lets in, a cursor at a token of it, room in each room for a row of each token, no more rows so far than tokens before the
// cursor, items that are held below the symbols, and a depth no more than the limit. It is public for crate syntax.
// Ruled out: a call whose span starts at its callee; a `not` whose operand ends at the first operator.
#[cycle(readers)]
pub fn statement(
    tokens: &[u32],
    nodes: &mut [u32],
    links: &mut [u32],
    scratch: &mut [u32],
    terms: Terms,
    depth: u32,
    cur: Cursor,
) -> Read
    requires { ready tokens nodes links scratch terms depth cur }
    ensures { states tokens nodes links scratch terms depth cur result }
{
    let at = cur.at;
    let kind = kind_at(tokens, at);
    let read = form(tokens, nodes, links, scratch, terms, depth, cur);
    let Read::Node(node, end) = read else {
        return read;
    };
    semicolon(tokens, node, end, kind)
}

// Which token starts a statement decides its form.
#[cycle(readers)]
fn form(
    tokens: &[u32],
    nodes: &mut [u32],
    links: &mut [u32],
    scratch: &mut [u32],
    terms: Terms,
    depth: u32,
    cur: Cursor,
) -> Read
    requires { ready tokens nodes links scratch terms depth cur }
    ensures { answered node_of (whole (form_of (kind tokens.now cur.at))) tokens nodes links scratch terms depth cur result }
{
    let at = cur.at;
    let kind = kind_at(tokens, at);
    match kind {
        kinds::LEFT_BRACE => block(tokens, nodes, links, scratch, terms, depth, cur),
        kinds::LET..=kinds::REF => bind(tokens, nodes, links, scratch, terms, depth, cur, kind),
        kinds::FUNCTION => fun_(tokens, nodes, links, scratch, terms, depth, cur),
        kinds::FOR => Read::Refused(Refusal {
            code: codes::STARTS_WITH_FOR,
            at,
            expected: codes::NO_KIND,
        }),
        kinds::WHILE => while_(tokens, nodes, links, scratch, terms, depth, cur),
        kinds::BREAK..=kinds::CONTINUE => single(
            tokens, nodes, links, scratch, terms, depth, cur, kind,
        ),
        kinds::IF => if_(tokens, nodes, links, scratch, terms, depth, cur),
        kinds::RETURN => return_(tokens, nodes, links, scratch, terms, depth, cur),
        kinds::IMPORT => import(tokens, nodes, links, scratch, terms, depth, cur),
        _ => assign(tokens, nodes, links, scratch, terms, depth, cur),
    }
}

// An expression, or an assignment to one.
#[cycle(readers)]
fn assign(
    tokens: &[u32],
    nodes: &mut [u32],
    links: &mut [u32],
    scratch: &mut [u32],
    terms: Terms,
    depth: u32,
    cur: Cursor,
) -> Read
    requires { ready tokens nodes links scratch terms depth cur }
    ensures { answered node_of (whole form.assignment) tokens nodes links scratch terms depth cur result }
{
    let read = expression(tokens, nodes, links, scratch, terms, depth, cur);
    let Read::Node(left, middle) = read else {
        return read;
    };
    let at = middle.at;
    if kind_at(tokens, at) != kinds::ASSIGN {
        return read;
    }
    let next = Cursor {
        held: middle.held,
        at: at + 1,
        links: middle.links,
        nodes: middle.nodes,
    };
    let turn = expression(tokens, nodes, links, scratch, terms, depth, next);
    let Read::Node(right, end) = turn else {
        return turn;
    };
    let n = end.nodes;
    let node = ast::assign(nodes, n, left.id, right.id, left.start, right.end);
    made(node, end)
}

#[cycle(readers)]
fn return_(
    tokens: &[u32],
    nodes: &mut [u32],
    links: &mut [u32],
    scratch: &mut [u32],
    terms: Terms,
    depth: u32,
    cur: Cursor,
) -> Read
    requires { ready tokens nodes links scratch terms depth cur }
    ensures { answered node_of (whole form.return) tokens nodes links scratch terms depth cur result }
{
    let read = consume(tokens, cur, kinds::RETURN);
    let Read::Node(lead, next) = read else {
        return read;
    };
    let at = next.at;
    if bare(terms.edition, kind_at(tokens, at)) {
        let n = next.nodes;
        let node = ast::return_(nodes, n, ABSENT, lead.start, lead.end);
        return made(node, next);
    }
    let read = expression(tokens, nodes, links, scratch, terms, depth, next);
    let Read::Node(child, end) = read else {
        return read;
    };
    let n = end.nodes;
    let node = ast::return_(nodes, n, child.id, lead.start, child.end);
    made(node, end)
}

#[cycle(readers)]
fn block(
    tokens: &[u32],
    nodes: &mut [u32],
    links: &mut [u32],
    scratch: &mut [u32],
    terms: Terms,
    depth: u32,
    cur: Cursor,
) -> Read
    requires { ready tokens nodes links scratch terms depth cur }
    ensures { answered node_of (whole form.block) tokens nodes links scratch terms depth cur result }
{
    if terms.limit <= depth {
        return Read::Refused(Refusal {
            code: codes::TOO_DEEP,
            at: cur.at,
            expected: codes::NO_KIND,
        });
    }
    let read = consume(tokens, cur, kinds::LEFT_BRACE);
    let Read::Node(open, next) = read else {
        return read;
    };
    let read = items(tokens, nodes, links, scratch, terms, depth + 1, next);
    let Read::Node(tail, last) = read else {
        return read;
    };
    let read = consume(tokens, last, kinds::RIGHT_BRACE);
    let Read::Node(close, end) = read else {
        return read;
    };
    let base = cur.held;
    let count = end.held - base;
    let first = end.links;
    let done = gather(links, scratch, base, end);
    let n = done.nodes;
    let node = ast::block(
        nodes,
        n,
        first as u32,
        count as u32,
        tail.id,
        open.start,
        close.end,
    );
    made_list(links, node, done)
}

// The statements of a block: the tail's row, or absent; the others are held.
#[cycle(readers)]
fn items(
    tokens: &[u32],
    nodes: &mut [u32],
    links: &mut [u32],
    scratch: &mut [u32],
    terms: Terms,
    depth: u32,
    cur: Cursor,
) -> Read
    requires { opened tokens nodes links scratch terms depth cur }
    ensures { fills tokens nodes links scratch terms depth cur result }
{
    let mut now = cur;
    let mut tail = ABSENT;
    'list: loop {
        let at = now.at;
        let kind = kind_at(tokens, at);
        match kind {
            kinds::RIGHT_BRACE | kinds::EOF => break 'list,
            _ => {}
        }
        let read = statement(tokens, nodes, links, scratch, terms, depth, now);
        let Read::Node(item, end) = read else {
            return read;
        };
        let held = end.held;
        push(scratch, held, item.id, 0, 0);
        now = Cursor {
            held: held + 1,
            at: end.at,
            links: end.links,
            nodes: end.nodes,
        };
        tail = item.end;
    }
    untailed(tail, now)
}

#[cycle(readers)]
fn if_(
    tokens: &[u32],
    nodes: &mut [u32],
    links: &mut [u32],
    scratch: &mut [u32],
    terms: Terms,
    depth: u32,
    cur: Cursor,
) -> Read
    requires { ready tokens nodes links scratch terms depth cur }
    ensures { answered node_of (whole form.conditional) tokens nodes links scratch terms depth cur result }
{
    if terms.limit <= depth {
        return Read::Refused(Refusal {
            code: codes::TOO_DEEP,
            at: cur.at,
            expected: codes::NO_KIND,
        });
    }
    let read = consume(tokens, cur, kinds::IF);
    let Read::Node(lead, next) = read else {
        return read;
    };
    let read = expression(tokens, nodes, links, scratch, terms, depth + 1, next);
    let Read::Node(condition, middle) = read else {
        return read;
    };
    let read = block(tokens, nodes, links, scratch, terms, depth + 1, middle);
    let Read::Node(then, end) = read else {
        return read;
    };
    let at = end.at;
    if kind_at(tokens, at) != kinds::ELSE {
        let n = end.nodes;
        let node = ast::if_(
            nodes,
            n,
            condition.id,
            then.id,
            ABSENT,
            lead.start,
            then.end,
        );
        return made(node, end);
    }
    let further = Cursor {
        held: end.held,
        at: at + 1,
        links: end.links,
        nodes: end.nodes,
    };
    let read = else_(tokens, nodes, links, scratch, terms, depth + 1, further);
    let Read::Node(other, last) = read else {
        return read;
    };
    let n = last.nodes;
    let node = ast::if_(
        nodes,
        n,
        condition.id,
        then.id,
        other.id,
        lead.start,
        other.end,
    );
    made(node, last)
}

// After `else`: another `if`, or a block.
#[cycle(readers)]
fn else_(
    tokens: &[u32],
    nodes: &mut [u32],
    links: &mut [u32],
    scratch: &mut [u32],
    terms: Terms,
    depth: u32,
    cur: Cursor,
) -> Read
    requires { ready tokens nodes links scratch terms depth cur }
    ensures { answered node_of (whole (choice form.branch)) tokens nodes links scratch terms depth cur result }
{
    let at = cur.at;
    let kind = kind_at(tokens, at);
    match kind {
        kinds::IF => if_(tokens, nodes, links, scratch, terms, depth, cur),
        _ => block(tokens, nodes, links, scratch, terms, depth, cur),
    }
}

#[cycle(readers)]
fn while_(
    tokens: &[u32],
    nodes: &mut [u32],
    links: &mut [u32],
    scratch: &mut [u32],
    terms: Terms,
    depth: u32,
    cur: Cursor,
) -> Read
    requires { ready tokens nodes links scratch terms depth cur }
    ensures { answered node_of (whole form.while_loop) tokens nodes links scratch terms depth cur result }
{
    let read = consume(tokens, cur, kinds::WHILE);
    let Read::Node(lead, next) = read else {
        return read;
    };
    let read = expression(tokens, nodes, links, scratch, terms, depth, next);
    let Read::Node(condition, middle) = read else {
        return read;
    };
    let read = block(tokens, nodes, links, scratch, terms, depth, middle);
    let Read::Node(body, end) = read else {
        return read;
    };
    let n = end.nodes;
    let node = ast::while_loop(nodes, n, condition.id, body.id, lead.start, body.end);
    made(node, end)
}

#[cycle(readers)]
fn fun_(
    tokens: &[u32],
    nodes: &mut [u32],
    links: &mut [u32],
    scratch: &mut [u32],
    terms: Terms,
    depth: u32,
    cur: Cursor,
) -> Read
    requires { ready tokens nodes links scratch terms depth cur }
    ensures { answered node_of (whole form.function) tokens nodes links scratch terms depth cur result }
{
    let read = consume(tokens, cur, kinds::FUNCTION);
    let Read::Node(lead, next) = read else {
        return read;
    };
    let read = name(tokens, nodes, links, scratch, terms, depth, next);
    let Read::Node(word, named) = read else {
        return read;
    };
    let read = consume(tokens, named, kinds::LEFT_PAREN);
    let Read::Node(_, open) = read else {
        return read;
    };
    let closer = kinds::RIGHT_PAREN;
    let read = names(tokens, nodes, links, scratch, terms, depth, open, closer);
    let Read::Node(_, listed) = read else {
        return read;
    };
    let read = consume(tokens, listed, kinds::RIGHT_PAREN);
    let Read::Node(_, close) = read else {
        return read;
    };
    let read = block(tokens, nodes, links, scratch, terms, depth, close);
    let Read::Node(body, end) = read else {
        return read;
    };
    let base = cur.held;
    let count = end.held - base;
    let first = end.links;
    let done = gather(links, scratch, base, end);
    let n = done.nodes;
    let node = ast::function(
        nodes,
        n,
        word.id,
        word.start,
        word.end,
        first as u32,
        count as u32,
        body.id,
        lead.start,
        body.end,
    );
    made_list(links, node, done)
}

// `let`, `const` and `ref`.
#[cycle(readers)]
fn bind(
    tokens: &[u32],
    nodes: &mut [u32],
    links: &mut [u32],
    scratch: &mut [u32],
    terms: Terms,
    depth: u32,
    cur: Cursor,
    kind: u32,
) -> Read
    requires binder { Binder kind }
    requires ready { ready tokens nodes links scratch terms depth cur }
    ensures { answered node_of (whole (form.binding (binding_node kind) kind)) tokens nodes links scratch terms depth cur result }
{
    let read = consume(tokens, cur, kind);
    let Read::Node(lead, next) = read else {
        return read;
    };
    let read = name(tokens, nodes, links, scratch, terms, depth, next);
    let Read::Node(word, named) = read else {
        return read;
    };
    let read = consume(tokens, named, kinds::ASSIGN);
    let Read::Node(_, middle) = read else {
        return read;
    };
    let read = expression(tokens, nodes, links, scratch, terms, depth, middle);
    let Read::Node(right, end) = read else {
        return read;
    };
    let n = end.nodes;
    let node = bound(nodes, n, kind, word, right.id, lead.start, right.end);
    made(node, end)
}

// An expression is one opening deeper. It asks for what a statement does, and is public for crate syntax: a guard is an expression.
// Ruled out: an expression that ends before an operator; one that the depth does not count.
#[cycle(readers)]
pub fn expression(
    tokens: &[u32],
    nodes: &mut [u32],
    links: &mut [u32],
    scratch: &mut [u32],
    terms: Terms,
    depth: u32,
    cur: Cursor,
) -> Read
    requires { ready tokens nodes links scratch terms depth cur }
    ensures { answered node_of (whole form.expression) tokens nodes links scratch terms depth cur result }
{
    if terms.limit <= depth {
        return Read::Refused(Refusal {
            code: codes::TOO_DEEP,
            at: cur.at,
            expected: codes::NO_KIND,
        });
    }
    binary(tokens, nodes, links, scratch, terms, depth + 1, cur, 6)
}

// The levels of binary operators below one, counted from the tightest: an operand, and each operator after it that binds tighter, with its right operand.
#[cycle(readers)]
fn binary(
    tokens: &[u32],
    nodes: &mut [u32],
    links: &mut [u32],
    scratch: &mut [u32],
    terms: Terms,
    depth: u32,
    cur: Cursor,
    level: u32,
) -> Read
    requires level_bound { level ≤ 6 }
    requires ready { ready tokens nodes links scratch terms depth cur }
    ensures { answered node_of (whole (form.above level)) tokens nodes links scratch terms depth cur result }
{
    let read = prefix(tokens, nodes, links, scratch, terms, depth, cur);
    let Read::Node(first, past) = read else {
        return read;
    };
    let mut node = first;
    let mut now = past;
    loop {
        let at = now.at;
        let kind = kind_at(tokens, at);
        let tier = level_of(kind);
        if level <= tier {
            break Read::Node(node, now);
        }
        let next = Cursor {
            held: now.held,
            at: at + 1,
            links: now.links,
            nodes: now.nodes,
        };
        let turn = binary(tokens, nodes, links, scratch, terms, depth, next, tier);
        let Read::Node(right, end) = turn else {
            return turn;
        };
        let n = end.nodes;
        let whole = joined(nodes, n, kind, node.id, right.id, node.start, right.end);
        if whole.id == ABSENT {
            return no_room(end.at);
        }
        node = whole;
        now = Cursor {
            held: end.held,
            at: end.at,
            links: end.links,
            nodes: n + 1,
        };
    }
}

// The kind of its first token picks an operand's form. What most operands are stands here, and the rest in `primary`.
#[cycle(readers)]
fn prefix(
    tokens: &[u32],
    nodes: &mut [u32],
    links: &mut [u32],
    scratch: &mut [u32],
    terms: Terms,
    depth: u32,
    cur: Cursor,
) -> Read
    requires { ready tokens nodes links scratch terms depth cur }
    ensures { answered node_of (whole (choice form.operand)) tokens nodes links scratch terms depth cur result }
{
    let at = cur.at;
    let kind = kind_at(tokens, at);
    match kind {
        kinds::PLUS => plus(tokens, nodes, links, scratch, terms, depth, cur),
        kinds::MINUS | kinds::CARET => unary(
            tokens, nodes, links, scratch, terms, depth, cur, kind,
        ),
        kinds::LEFT_PAREN | kinds::IDENTIFIER => chained(
            tokens, nodes, links, scratch, terms, depth, cur, kind,
        ),
        kinds::NOT => {
            if terms.edition == editions::SECOND {
                return deny(tokens, nodes, links, scratch, terms, depth, cur);
            }
            not_(tokens, nodes, links, scratch, terms, depth, cur)
        }
        kinds::NUMBER_LITERAL => single(tokens, nodes, links, scratch, terms, depth, cur, kind),
        kinds::STRING_LITERAL => string(tokens, nodes, links, scratch, terms, depth, cur),
        _ => primary(tokens, nodes, links, scratch, terms, depth, cur),
    }
}

// A `+` makes nothing. What follows is an operand: the tightest level.
#[cycle(readers)]
fn plus(
    tokens: &[u32],
    nodes: &mut [u32],
    links: &mut [u32],
    scratch: &mut [u32],
    terms: Terms,
    depth: u32,
    cur: Cursor,
) -> Read
    requires { ready tokens nodes links scratch terms depth cur }
    ensures { answered node_of (whole form.plus) tokens nodes links scratch terms depth cur result }
{
    if terms.limit <= depth {
        return Read::Refused(Refusal {
            code: codes::TOO_DEEP,
            at: cur.at,
            expected: codes::NO_KIND,
        });
    }
    let read = consume(tokens, cur, kinds::PLUS);
    let Read::Node(_, next) = read else {
        return read;
    };
    binary(tokens, nodes, links, scratch, terms, depth + 1, next, 0)
}

// `-` and `^`.
#[cycle(readers)]
fn unary(
    tokens: &[u32],
    nodes: &mut [u32],
    links: &mut [u32],
    scratch: &mut [u32],
    terms: Terms,
    depth: u32,
    cur: Cursor,
    kind: u32,
) -> Read
    requires sign { Sign kind }
    requires ready { ready tokens nodes links scratch terms depth cur }
    ensures { answered node_of (whole (form.unary kind)) tokens nodes links scratch terms depth cur result }
{
    if terms.limit <= depth {
        return Read::Refused(Refusal {
            code: codes::TOO_DEEP,
            at: cur.at,
            expected: codes::NO_KIND,
        });
    }
    let read = consume(tokens, cur, kind);
    let Read::Node(lead, next) = read else {
        return read;
    };
    let read = binary(tokens, nodes, links, scratch, terms, depth + 1, next, 0);
    let Read::Node(child, end) = read else {
        return read;
    };
    let n = end.nodes;
    let node = ast::unary(nodes, n, sign_of(kind), child.id, lead.start, child.end);
    made(node, end)
}

// In edition 2 `not` takes an operand, as a sign does; its span runs to the operand's end.
#[cycle(readers)]
fn deny(
    tokens: &[u32],
    nodes: &mut [u32],
    links: &mut [u32],
    scratch: &mut [u32],
    terms: Terms,
    depth: u32,
    cur: Cursor,
) -> Read
    requires { ready tokens nodes links scratch terms depth cur }
    ensures { answered node_of (whole (form.denial Edition.second)) tokens nodes links scratch terms depth cur result }
{
    if terms.limit <= depth {
        return Read::Refused(Refusal {
            code: codes::TOO_DEEP,
            at: cur.at,
            expected: codes::NO_KIND,
        });
    }
    let read = consume(tokens, cur, kinds::NOT);
    let Read::Node(lead, next) = read else {
        return read;
    };
    let read = binary(tokens, nodes, links, scratch, terms, depth + 1, next, 0);
    let Read::Node(child, end) = read else {
        return read;
    };
    let n = end.nodes;
    let node = ast::logical_not(nodes, n, child.id, lead.start, child.end);
    made(node, end)
}

// In edition 1 `not` takes a whole expression, which is one opening deeper and has every level; its span is that of its own token.
#[cycle(readers)]
fn not_(
    tokens: &[u32],
    nodes: &mut [u32],
    links: &mut [u32],
    scratch: &mut [u32],
    terms: Terms,
    depth: u32,
    cur: Cursor,
) -> Read
    requires { ready tokens nodes links scratch terms depth cur }
    ensures { answered node_of (whole (form.denial Edition.first)) tokens nodes links scratch terms depth cur result }
{
    let read = consume(tokens, cur, kinds::NOT);
    let Read::Node(lead, next) = read else {
        return read;
    };
    if terms.limit <= depth {
        return Read::Refused(Refusal {
            code: codes::TOO_DEEP,
            at: next.at,
            expected: codes::NO_KIND,
        });
    }
    let level = 6;
    let read = binary(tokens, nodes, links, scratch, terms, depth + 1, next, level);
    let Read::Node(child, end) = read else {
        return read;
    };
    let n = end.nodes;
    let node = ast::logical_not(nodes, n, child.id, lead.start, lead.end);
    made(node, end)
}

// The forms of operands that are rarer.
#[cycle(readers)]
fn primary(
    tokens: &[u32],
    nodes: &mut [u32],
    links: &mut [u32],
    scratch: &mut [u32],
    terms: Terms,
    depth: u32,
    cur: Cursor,
) -> Read
    requires other { Other (kind tokens.now cur.at) }
    requires ready { ready tokens nodes links scratch terms depth cur }
    ensures { answered node_of (whole (choice form.operand)) tokens nodes links scratch terms depth cur result }
{
    let at = cur.at;
    let kind = kind_at(tokens, at);
    match kind {
        kinds::PIPE => lambda(tokens, nodes, links, scratch, terms, depth, cur),
        kinds::HASH => map_(tokens, nodes, links, scratch, terms, depth, cur),
        kinds::LEFT_BRACE => block(tokens, nodes, links, scratch, terms, depth, cur),
        kinds::IF => if_(tokens, nodes, links, scratch, terms, depth, cur),
        kinds::TRUE..=kinds::NIL => single(tokens, nodes, links, scratch, terms, depth, cur, kind),
        _ => Read::Refused(Refusal {
            code: codes::OPERAND_REQUIRED,
            at,
            expected: codes::NO_KIND,
        }),
    }
}

// Parentheses make nothing.
#[cycle(readers)]
fn group(
    tokens: &[u32],
    nodes: &mut [u32],
    links: &mut [u32],
    scratch: &mut [u32],
    terms: Terms,
    depth: u32,
    cur: Cursor,
) -> Read
    requires { ready tokens nodes links scratch terms depth cur }
    ensures { answered node_of (whole form.group) tokens nodes links scratch terms depth cur result }
{
    let read = consume(tokens, cur, kinds::LEFT_PAREN);
    let Read::Node(_, next) = read else {
        return read;
    };
    let read = expression(tokens, nodes, links, scratch, terms, depth, next);
    let Read::Node(inner, last) = read else {
        return read;
    };
    let read = consume(tokens, last, kinds::RIGHT_PAREN);
    let Read::Node(_, end) = read else {
        return read;
    };
    Read::Node(inner, end)
}

#[cycle(readers)]
fn map_(
    tokens: &[u32],
    nodes: &mut [u32],
    links: &mut [u32],
    scratch: &mut [u32],
    terms: Terms,
    depth: u32,
    cur: Cursor,
) -> Read
    requires { ready tokens nodes links scratch terms depth cur }
    ensures { answered node_of (whole form.map_literal) tokens nodes links scratch terms depth cur result }
{
    let read = consume(tokens, cur, kinds::HASH);
    let Read::Node(lead, hash) = read else {
        return read;
    };
    let read = consume(tokens, hash, kinds::LEFT_BRACE);
    let Read::Node(_, open) = read else {
        return read;
    };
    let read = pairs(tokens, nodes, links, scratch, terms, depth, open);
    let Read::Node(_, last) = read else {
        return read;
    };
    let read = consume(tokens, last, kinds::RIGHT_BRACE);
    let Read::Node(close, end) = read else {
        return read;
    };
    let base = cur.held;
    let count = end.held - base;
    let first = end.links;
    let done = gather(links, scratch, base, end);
    let n = done.nodes;
    let node = ast::map(nodes, n, first as u32, count as u32, lead.start, close.end);
    made_list(links, node, done)
}

// The entries of a map, up to what ends them.
#[cycle(readers)]
fn pairs(
    tokens: &[u32],
    nodes: &mut [u32],
    links: &mut [u32],
    scratch: &mut [u32],
    terms: Terms,
    depth: u32,
    cur: Cursor,
) -> Read
    requires { opened tokens nodes links scratch terms depth cur }
    ensures { lists (whole (chain empty form.entries)) tokens nodes links scratch terms depth cur result }
{
    let mut now = cur;
    'list: loop {
        let at = now.at;
        let kind = kind_at(tokens, at);
        match kind {
            kinds::RIGHT_BRACE | kinds::EOF => break 'list,
            _ => {}
        }
        let read = pair(tokens, nodes, links, scratch, terms, depth, now);
        let Read::Node(item, end) = read else {
            return read;
        };
        let held = end.held;
        push(scratch, held, item.id, item.start, 0);
        now = Cursor {
            held: held + 1,
            at: end.at,
            links: end.links,
            nodes: end.nodes,
        };
    }
    Read::Node(
        Node {
            id: 0,
            start: 0,
            end: 0,
        },
        now,
    )
}

// A key, and its value if it has one: their rows, and the comma after them.
#[cycle(readers)]
fn pair(
    tokens: &[u32],
    nodes: &mut [u32],
    links: &mut [u32],
    scratch: &mut [u32],
    terms: Terms,
    depth: u32,
    cur: Cursor,
) -> Read
    requires { ready tokens nodes links scratch terms depth cur }
    ensures { answered entry_of (whole (part (node Label.Entry (part form.expression (choice form.value))) (choice (form.comma RightBrace)))) tokens nodes links scratch terms depth cur result }
{
    let read = expression(tokens, nodes, links, scratch, terms, depth, cur);
    let Read::Node(key, middle) = read else {
        return read;
    };
    let at = middle.at;
    if kind_at(tokens, at) != kinds::COLON {
        let lone = Node {
            id: key.id,
            start: ABSENT,
            end: 0,
        };
        return comma(tokens, lone, middle, kinds::RIGHT_BRACE);
    }
    let next = Cursor {
        held: middle.held,
        at: at + 1,
        links: middle.links,
        nodes: middle.nodes,
    };
    let turn = expression(tokens, nodes, links, scratch, terms, depth, next);
    let Read::Node(value, end) = turn else {
        return turn;
    };
    let pair = Node {
        id: key.id,
        start: value.id,
        end: 0,
    };
    comma(tokens, pair, end, kinds::RIGHT_BRACE)
}

#[cycle(readers)]
fn lambda(
    tokens: &[u32],
    nodes: &mut [u32],
    links: &mut [u32],
    scratch: &mut [u32],
    terms: Terms,
    depth: u32,
    cur: Cursor,
) -> Read
    requires { ready tokens nodes links scratch terms depth cur }
    ensures { answered node_of (whole form.lambda) tokens nodes links scratch terms depth cur result }
{
    let read = consume(tokens, cur, kinds::PIPE);
    let Read::Node(lead, next) = read else {
        return read;
    };
    let closer = kinds::PIPE;
    let read = names(tokens, nodes, links, scratch, terms, depth, next, closer);
    let Read::Node(_, listed) = read else {
        return read;
    };
    let read = consume(tokens, listed, kinds::PIPE);
    let Read::Node(_, middle) = read else {
        return read;
    };
    let read = body(tokens, nodes, links, scratch, terms, depth, middle);
    let Read::Node(body, end) = read else {
        return read;
    };
    let base = cur.held;
    let count = end.held - base;
    let first = end.links;
    let done = gather(links, scratch, base, end);
    let n = done.nodes;
    let node = ast::lambda(
        nodes,
        n,
        first as u32,
        count as u32,
        body.id,
        lead.start,
        body.end,
    );
    made_list(links, node, done)
}

// A lambda's: a block, or a whole expression.
#[cycle(readers)]
fn body(
    tokens: &[u32],
    nodes: &mut [u32],
    links: &mut [u32],
    scratch: &mut [u32],
    terms: Terms,
    depth: u32,
    cur: Cursor,
) -> Read
    requires { ready tokens nodes links scratch terms depth cur }
    ensures { answered node_of (whole (choice form.body)) tokens nodes links scratch terms depth cur result }
{
    let at = cur.at;
    let kind = kind_at(tokens, at);
    match kind {
        kinds::LEFT_BRACE => block(tokens, nodes, links, scratch, terms, depth, cur),
        _ => expression(tokens, nodes, links, scratch, terms, depth, cur),
    }
}

// An identifier, with the calls and dots after it; or parentheses, with those that edition 2 lets follow.
#[cycle(readers)]
fn chained(
    tokens: &[u32],
    nodes: &mut [u32],
    links: &mut [u32],
    scratch: &mut [u32],
    terms: Terms,
    depth: u32,
    cur: Cursor,
    kind: u32,
) -> Read
    requires { ready tokens nodes links scratch terms depth cur }
    ensures { answered node_of (whole (chained_form (edition terms.edition) kind)) tokens nodes links scratch terms depth cur result }
{
    let read = head(tokens, nodes, links, scratch, terms, depth, cur, kind);
    let Read::Node(node, end) = read else {
        return read;
    };
    if lone(terms.edition, kind) {
        return Read::Node(node, end);
    }
    let at = end.at;
    let next = kind_at(tokens, at);
    match next {
        kinds::DOT | kinds::LEFT_PAREN => {}
        _ => return Read::Node(node, end),
    }
    postfix(tokens, nodes, links, scratch, terms, depth, end, node)
}

// What a chain starts with.
#[cycle(readers)]
fn head(
    tokens: &[u32],
    nodes: &mut [u32],
    links: &mut [u32],
    scratch: &mut [u32],
    terms: Terms,
    depth: u32,
    cur: Cursor,
    kind: u32,
) -> Read
    requires { ready tokens nodes links scratch terms depth cur }
    ensures { answered node_of (whole (head_form kind)) tokens nodes links scratch terms depth cur result }
{
    match kind {
        kinds::LEFT_PAREN => group(tokens, nodes, links, scratch, terms, depth, cur),
        _ => identifier(tokens, nodes, links, scratch, terms, depth, cur),
    }
}

// The calls and dots after what a chain starts with, whatever it is: the outermost node is the chain's.
#[cycle(readers)]
fn postfix(
    tokens: &[u32],
    nodes: &mut [u32],
    links: &mut [u32],
    scratch: &mut [u32],
    terms: Terms,
    depth: u32,
    cur: Cursor,
    first: Node,
) -> Read
    requires { ready tokens nodes links scratch terms depth cur }
    ensures { onward all_called first cur.at tokens nodes links scratch terms depth cur result }
{
    let mut node = first;
    let mut now = cur;
    loop {
        let at = now.at;
        let kind = kind_at(tokens, at);
        match kind {
            kinds::DOT => {
                let read = property_access(tokens, nodes, links, scratch, terms, depth, now, node);
                let Read::Node(outer, end) = read else {
                    return read;
                };
                node = outer;
                now = end;
            }
            kinds::LEFT_PAREN => {
                let read = call(tokens, nodes, links, scratch, terms, depth, now, node);
                let Read::Node(outer, end) = read else {
                    return read;
                };
                node = outer;
                now = end;
            }
            _ => break Read::Node(node, now),
        }
    }
}

// A call of what stands before it.
#[cycle(readers)]
fn call(
    tokens: &[u32],
    nodes: &mut [u32],
    links: &mut [u32],
    scratch: &mut [u32],
    terms: Terms,
    depth: u32,
    cur: Cursor,
    callee: Node,
) -> Read
    requires at_value { kind tokens.now cur.at ≡ LeftParen }
    requires ready { ready tokens nodes links scratch terms depth cur }
    ensures { onward called callee (cur.at + 1) tokens nodes links scratch terms depth cur result }
{
    let read = consume(tokens, cur, kinds::LEFT_PAREN);
    let Read::Node(paren, next) = read else {
        return read;
    };
    let read = args(tokens, nodes, links, scratch, terms, depth, next);
    let Read::Node(_, last) = read else {
        return read;
    };
    let read = consume(tokens, last, kinds::RIGHT_PAREN);
    let Read::Node(close, end) = read else {
        return read;
    };
    let base = cur.held;
    let count = end.held - base;
    let first = end.links;
    let done = gather(links, scratch, base, end);
    let n = done.nodes;
    let node = ast::function_call(
        nodes,
        n,
        callee.id,
        first as u32,
        count as u32,
        paren.start,
        close.end,
    );
    made_list(links, node, done)
}

// The arguments of a call, up to what ends them.
#[cycle(readers)]
fn args(
    tokens: &[u32],
    nodes: &mut [u32],
    links: &mut [u32],
    scratch: &mut [u32],
    terms: Terms,
    depth: u32,
    cur: Cursor,
) -> Read
    requires { opened tokens nodes links scratch terms depth cur }
    ensures { lists (whole (chain empty form.arguments)) tokens nodes links scratch terms depth cur result }
{
    let mut now = cur;
    'list: loop {
        let at = now.at;
        let kind = kind_at(tokens, at);
        match kind {
            kinds::RIGHT_PAREN | kinds::EOF => break 'list,
            _ => {}
        }
        let read = arg(tokens, nodes, links, scratch, terms, depth, now);
        let Read::Node(item, end) = read else {
            return read;
        };
        let held = end.held;
        push(scratch, held, item.id, 0, 0);
        now = Cursor {
            held: held + 1,
            at: end.at,
            links: end.links,
            nodes: end.nodes,
        };
    }
    Read::Node(
        Node {
            id: 0,
            start: 0,
            end: 0,
        },
        now,
    )
}

// An argument, and the comma after it.
#[cycle(readers)]
fn arg(
    tokens: &[u32],
    nodes: &mut [u32],
    links: &mut [u32],
    scratch: &mut [u32],
    terms: Terms,
    depth: u32,
    cur: Cursor,
) -> Read
    requires { ready tokens nodes links scratch terms depth cur }
    ensures { answered node_of (whole (part form.expression (choice (form.comma RightParen)))) tokens nodes links scratch terms depth cur result }
{
    let read = expression(tokens, nodes, links, scratch, terms, depth, cur);
    let Read::Node(item, end) = read else {
        return read;
    };
    comma(tokens, item, end, kinds::RIGHT_PAREN)
}

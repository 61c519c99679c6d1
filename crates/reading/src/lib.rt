#![tactic(auto)]
// What the readers stand on: where a reading is, what a reader answers, and the readers that call no other form: tokens, names, lists of names, leaves. A port of the
// part of parser.rs that needs no recursion. Each reader asks `Ready`: a list that the door let in, a place in it, and a scratch room with a row for each token.
// A row that has no room ends the reading: refusal 4. The rooms, the terms and the cursor are parameters of their own, since the clauses of specs/Clauses.antt take them so.
// The loops of the readers walk a cursor, whose place the readers that they call move on: they count no index.
pub mod codes;
pub mod leaves;
pub mod lists;
pub mod pieces;

use ast::Node;

// Where a reading is: the next token, and how many rows each room holds. Lists that are not whole wait on the scratch room as on a stack.
#[derive(Clone, Copy)]
pub struct Cursor {
    pub held: usize,
    pub at: usize,
    pub links: usize,
    pub nodes: usize,
}

// What a caller names for a reading: the edition, and how many openings may be taken at a place.
#[derive(Clone, Copy)]
pub struct Terms {
    pub edition: u32,
    pub limit: u32,
}

// Why the reading ends: the code, the token, and the kind that was required there (255: no certain kind).
#[derive(Drop)]
pub struct Refusal {
    pub code: u32,
    pub expected: u32,
    pub at: usize,
}

// What a reader answers. Of a token that was taken the node has the span alone, of a name the symbol and the span, of a list zeros: its items are held.
// An enum of its own, and no Result: every reader takes node and cursor apart by `let .. else`, or hands the refusal on as it stands (docs/RULES.md; `passed` of Replies).
#[derive(Drop)]
pub enum Read {
    Node(Node, Cursor),
    Refused(Refusal),
}

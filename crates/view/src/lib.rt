#![tactic(auto)]
// A look at the finished rows: the last row, and the kind, span and parent of a row. The functions on a slice of node numbers and a count come first; a view holds
// the two together.
ghost use Rattle.std.specs.Prelude.{◌*◌, ◌<◌, ◌≤◌, ◌↔◌, IsTrue, length};
ghost use Rattle.grammar.specs.Room.{node_width};
ghost use Rattle.view.specs.View.{LastTold, KindTold, SpanTold, ParentTold};

// The numbers of a node row, and which of them is its parent's row.
const WIDTH: usize = 10;

const PARENT: usize = 9;

// The answers: code 0, or refusal 15 with the other numbers 0. They are no Result: document 01 has the other numbers of a refusal 0, as `Told` says (edit refusal_with_a_row).
#[derive(Drop)]
pub struct RowAnswer {
    pub code: u32,
    pub row: usize,
}

#[derive(Drop)]
pub struct KindAnswer {
    pub code: u32,
    pub kind: u32,
}

#[derive(Drop)]
pub struct SpanAnswer {
    pub code: u32,
    pub start: u32,
    pub end: u32,
}

#[derive(Drop)]
pub struct ParentAnswer {
    pub code: u32,
    pub parent: u32,
}

// Whether a row is below the count, in a room that has so many rows.
fn has_row(nodes: &[u32], count: usize, row: usize) -> bool
    ensures { IsTrue result ↔ ((node_width * count ≤ length nodes.now) × (row < count)) }
{
    count <= nodes.len() / WIDTH && row < count
}

// The number of the last of `count` rows.
// Ruled out: the count itself; row 0 of no rows.
pub fn last_row(nodes: &[u32], count: usize) -> RowAnswer
    ensures { LastTold nodes.now count result }
{
    if count == 0 || !has_row(nodes, count, count - 1) {
        return RowAnswer { code: 15, row: 0 };
    }
    RowAnswer {
        code: 0,
        row: count - 1,
    }
}

// The kind of a row.
// Ruled out: the kind of row `count`, though its numbers may stand there; a kind of another row.
pub fn kind_of(nodes: &[u32], count: usize, row: usize) -> KindAnswer
    ensures { KindTold nodes.now count row result }
{
    if !has_row(nodes, count, row) {
        return KindAnswer { code: 15, kind: 0 };
    }
    KindAnswer {
        code: 0,
        kind: nodes[WIDTH * row],
    }
}

// The span of a row.
// Ruled out: start and end the other way round; a refusal that still has the row's numbers.
pub fn span_of(nodes: &[u32], count: usize, row: usize) -> SpanAnswer
    ensures { SpanTold nodes.now count row result }
{
    if !has_row(nodes, count, row) {
        return SpanAnswer {
            code: 15,
            start: 0,
            end: 0,
        };
    }
    let at = WIDTH * row;
    SpanAnswer {
        code: 0,
        start: nodes[at + 1],
        end: nodes[at + 2],
    }
}

// The row of which a row is a child; the absent number for a script's root.
// Ruled out: another number of the row; a row's parent where the row is not below the count.
pub fn parent_of(nodes: &[u32], count: usize, row: usize) -> ParentAnswer
    ensures { ParentTold nodes.now count row result }
{
    if !has_row(nodes, count, row) {
        return ParentAnswer {
            code: 15,
            parent: 0,
        };
    }
    ParentAnswer {
        code: 0,
        parent: nodes[WIDTH * row + PARENT],
    }
}

// A view of the finished rows: the node numbers, and how many rows stand in them.
#[derive(Drop)]
pub struct View<'a> {
    pub nodes: &'a [u32],
    pub count: usize,
}

// The number of a view's last row.
// Ruled out: the count itself; row 0 of a view of no rows.
pub fn last<'a>(v: View<'a>) -> RowAnswer
    ensures { LastTold v.entry.nodes.now v.entry.count result }
{
    last_row(v.nodes, v.count)
}

// The kind of a row of a view.
// Ruled out: a kind for a row number not below the count; the kind of another row.
pub fn kind<'a>(v: View<'a>, row: usize) -> KindAnswer
    ensures { KindTold v.entry.nodes.now v.entry.count row result }
{
    kind_of(v.nodes, v.count, row)
}

// The span of a row of a view.
// Ruled out: start and end the other way round; the span of another row.
pub fn span<'a>(v: View<'a>, row: usize) -> SpanAnswer
    ensures { SpanTold v.entry.nodes.now v.entry.count row result }
{
    span_of(v.nodes, v.count, row)
}

// The parent of a row of a view.
// Ruled out: a parent for a row number not below the count; the parent of another row.
pub fn parent<'a>(v: View<'a>, row: usize) -> ParentAnswer
    ensures { ParentTold v.entry.nodes.now v.entry.count row result }
{
    parent_of(v.nodes, v.count, row)
}

#![tactic(auto)]
// Node rows: a port of ast.rs. Each function here writes one row to the lent node room, at row `n`, and hands its handle back. Where the room has no such row it
// writes nothing, and the handle's number is ABSENT. It asks that `n` itself is below that. A list (L) is its first link row and its count; a name (N) is its symbol
// and its place, `from` up to `upto`; a row's span comes last.
// Ruled out, for each: its numbers in another order; another kind's number; an unused number that is not 0.
pub mod kinds;
pub mod room;

ghost use Rattle.std.specs.Prelude.{◌∷◌, [], ◌<◌, ◌≤◌};
ghost use Rattle.grammar.specs.Handle.{absent};
ghost use Rattle.grammar.specs.Edition.{Edition};
ghost use Rattle.grammar.specs.Label.{Node as Form, number_of};
ghost use Rattle.ast.specs.Inserted.{Tried};

// The numbers of a node row, and which of them is its parent's row.
pub const NODE_WIDTH: usize = 10;

pub const PARENT: usize = 9;

// And those of a link row.
pub const LINK_WIDTH: usize = 3;

// No row.
pub const ABSENT: u32 = 4294967295;

// The handle of a row: its number and span, so that a merged span needs no look back into the room.
#[derive(Clone, Copy)]
pub struct Node {
    pub id: u32,
    pub start: u32,
    pub end: u32,
}

// One row more, of a kind, a span, and as many numbers as a kind has; the rest of its ten numbers are 0, and so is the last one, the place of its parent. It is written if
// there is room for it.
// Ruled out: a row that changes another one; a handle without its row's end.
fn insert<const N: usize>(
    nodes: &mut [u32],
    n: usize,
    kind: u32,
    start: u32,
    end: u32,
    fields: [u32; N],
) -> Node
    requires { (n < absent) × (N ≤ 6) }
    ensures { Tried n kind start end fields.entry nodes.old nodes.new result }
{
    let i = NODE_WIDTH * n;
    let mut node = Node {
        id: ABSENT,
        start,
        end,
    };
    if nodes.len() < i + NODE_WIDTH {
        return node;
    }
    room::put(nodes, i, [kind, start, end]);
    room::put(nodes, i + 3, fields);
    room::zero(nodes, i + 3 + N, i + NODE_WIDTH);
    node.id = n as u32;
    node
}

pub fn binary(
    nodes: &mut [u32],
    n: usize,
    operator: u32,
    left: u32,
    right: u32,
    start: u32,
    end: u32,
) -> Node
    requires { n < absent }
    ensures { Tried n (number_of Form.Binary) start end (operator ∷ left ∷ right ∷ []) nodes.old nodes.new result }
{
    insert(nodes, n, kinds::BINARY, start, end, [operator, left, right])
}

pub fn logical_and(nodes: &mut [u32], n: usize, left: u32, right: u32, start: u32, end: u32) -> Node
    requires { n < absent }
    ensures { Tried n (number_of Form.LogicalAnd) start end (left ∷ right ∷ []) nodes.old nodes.new result }
{
    insert(nodes, n, kinds::LOGICAL_AND, start, end, [left, right])
}

pub fn logical_or(nodes: &mut [u32], n: usize, left: u32, right: u32, start: u32, end: u32) -> Node
    requires { n < absent }
    ensures { Tried n (number_of Form.LogicalOr) start end (left ∷ right ∷ []) nodes.old nodes.new result }
{
    insert(nodes, n, kinds::LOGICAL_OR, start, end, [left, right])
}

// Of either edition: the kind is one, and the span is the caller's.
pub fn logical_not(nodes: &mut [u32], n: usize, expression: u32, start: u32, end: u32) -> Node
    requires { n < absent }
    ensures { Tried n (number_of (Form.LogicalNot Edition.first)) start end (expression ∷ []) nodes.old nodes.new result }
{
    insert(nodes, n, kinds::LOGICAL_NOT, start, end, [expression])
}

pub fn unary(nodes: &mut [u32], n: usize, operator: u32, operand: u32, start: u32, end: u32) -> Node
    requires { n < absent }
    ensures { Tried n (number_of Form.Unary) start end (operator ∷ operand ∷ []) nodes.old nodes.new result }
{
    insert(nodes, n, kinds::UNARY, start, end, [operator, operand])
}

pub fn assign(nodes: &mut [u32], n: usize, left: u32, right: u32, start: u32, end: u32) -> Node
    requires { n < absent }
    ensures { Tried n (number_of Form.Assign) start end (left ∷ right ∷ []) nodes.old nodes.new result }
{
    insert(nodes, n, kinds::ASSIGN, start, end, [left, right])
}

pub fn variable(
    nodes: &mut [u32],
    n: usize,
    symbol: u32,
    from: u32,
    upto: u32,
    right: u32,
    start: u32,
    end: u32,
) -> Node
    requires { n < absent }
    ensures { Tried n (number_of Form.Variable) start end (symbol ∷ from ∷ upto ∷ right ∷ []) nodes.old nodes.new result }
{
    insert(
        nodes,
        n,
        kinds::VARIABLE,
        start,
        end,
        [symbol, from, upto, right],
    )
}

pub fn constant(
    nodes: &mut [u32],
    n: usize,
    symbol: u32,
    from: u32,
    upto: u32,
    right: u32,
    start: u32,
    end: u32,
) -> Node
    requires { n < absent }
    ensures { Tried n (number_of Form.Constant) start end (symbol ∷ from ∷ upto ∷ right ∷ []) nodes.old nodes.new result }
{
    insert(
        nodes,
        n,
        kinds::CONSTANT,
        start,
        end,
        [symbol, from, upto, right],
    )
}

pub fn ref_(
    nodes: &mut [u32],
    n: usize,
    symbol: u32,
    from: u32,
    upto: u32,
    right: u32,
    start: u32,
    end: u32,
) -> Node
    requires { n < absent }
    ensures { Tried n (number_of Form.Ref) start end (symbol ∷ from ∷ upto ∷ right ∷ []) nodes.old nodes.new result }
{
    insert(
        nodes,
        n,
        kinds::REF,
        start,
        end,
        [symbol, from, upto, right],
    )
}

// Its span is its name's place.
pub fn identifier(nodes: &mut [u32], n: usize, symbol: u32, start: u32, end: u32) -> Node
    requires { n < absent }
    ensures { Tried n (number_of Form.Identifier) start end (symbol ∷ start ∷ end ∷ []) nodes.old nodes.new result }
{
    insert(
        nodes,
        n,
        kinds::IDENTIFIER,
        start,
        end,
        [symbol, start, end],
    )
}

pub fn string(nodes: &mut [u32], n: usize, symbol: u32, start: u32, end: u32) -> Node
    requires { n < absent }
    ensures { Tried n (number_of Form.String) start end (symbol ∷ []) nodes.old nodes.new result }
{
    insert(nodes, n, kinds::STRING, start, end, [symbol])
}

// Its value stays in the text.
pub fn number(nodes: &mut [u32], n: usize, start: u32, end: u32) -> Node
    requires { n < absent }
    ensures { Tried n (number_of Form.Number) start end ([]) nodes.old nodes.new result }
{
    insert(nodes, n, kinds::NUMBER, start, end, [])
}

// Its value is 0 or 1.
pub fn boolean(nodes: &mut [u32], n: usize, value: u32, start: u32, end: u32) -> Node
    requires { n < absent }
    ensures { Tried n (number_of Form.Boolean) start end (value ∷ []) nodes.old nodes.new result }
{
    insert(nodes, n, kinds::BOOLEAN, start, end, [value])
}

pub fn nil(nodes: &mut [u32], n: usize, start: u32, end: u32) -> Node
    requires { n < absent }
    ensures { Tried n (number_of Form.Nil) start end ([]) nodes.old nodes.new result }
{
    insert(nodes, n, kinds::NIL, start, end, [])
}

pub fn function_call(
    nodes: &mut [u32],
    n: usize,
    callee: u32,
    first: u32,
    count: u32,
    start: u32,
    end: u32,
) -> Node
    requires { n < absent }
    ensures { Tried n (number_of Form.FunctionCall) start end (callee ∷ first ∷ count ∷ []) nodes.old nodes.new result }
{
    insert(
        nodes,
        n,
        kinds::FUNCTION_CALL,
        start,
        end,
        [callee, first, count],
    )
}

pub fn property_access(
    nodes: &mut [u32],
    n: usize,
    object: u32,
    symbol: u32,
    from: u32,
    upto: u32,
    start: u32,
    end: u32,
) -> Node
    requires { n < absent }
    ensures { Tried n (number_of Form.PropertyAccess) start end (object ∷ symbol ∷ from ∷ upto ∷ []) nodes.old nodes.new result }
{
    insert(
        nodes,
        n,
        kinds::PROPERTY_ACCESS,
        start,
        end,
        [object, symbol, from, upto],
    )
}

pub fn map(nodes: &mut [u32], n: usize, first: u32, count: u32, start: u32, end: u32) -> Node
    requires { n < absent }
    ensures { Tried n (number_of Form.Map) start end (first ∷ count ∷ []) nodes.old nodes.new result }
{
    insert(nodes, n, kinds::MAP, start, end, [first, count])
}

pub fn function(
    nodes: &mut [u32],
    n: usize,
    symbol: u32,
    from: u32,
    upto: u32,
    first: u32,
    count: u32,
    block: u32,
    start: u32,
    end: u32,
) -> Node
    requires { n < absent }
    ensures { Tried n (number_of Form.Function) start end (symbol ∷ from ∷ upto ∷ first ∷ count ∷ block ∷ []) nodes.old nodes.new result }
{
    insert(
        nodes,
        n,
        kinds::FUNCTION,
        start,
        end,
        [symbol, from, upto, first, count, block],
    )
}

pub fn lambda(
    nodes: &mut [u32],
    n: usize,
    first: u32,
    count: u32,
    block: u32,
    start: u32,
    end: u32,
) -> Node
    requires { n < absent }
    ensures { Tried n (number_of Form.Lambda) start end (first ∷ count ∷ block ∷ []) nodes.old nodes.new result }
{
    insert(nodes, n, kinds::LAMBDA, start, end, [first, count, block])
}

// A tail may be absent.
pub fn block(
    nodes: &mut [u32],
    n: usize,
    first: u32,
    count: u32,
    tail: u32,
    start: u32,
    end: u32,
) -> Node
    requires { n < absent }
    ensures { Tried n (number_of Form.Block) start end (first ∷ count ∷ tail ∷ []) nodes.old nodes.new result }
{
    insert(nodes, n, kinds::BLOCK, start, end, [first, count, tail])
}

// What is done otherwise may be absent.
pub fn if_(
    nodes: &mut [u32],
    n: usize,
    condition: u32,
    then: u32,
    otherwise: u32,
    start: u32,
    end: u32,
) -> Node
    requires { n < absent }
    ensures { Tried n (number_of Form.If) start end (condition ∷ then ∷ otherwise ∷ []) nodes.old nodes.new result }
{
    insert(
        nodes,
        n,
        kinds::IF,
        start,
        end,
        [condition, then, otherwise],
    )
}

pub fn while_loop(
    nodes: &mut [u32],
    n: usize,
    condition: u32,
    block: u32,
    start: u32,
    end: u32,
) -> Node
    requires { n < absent }
    ensures { Tried n (number_of Form.WhileLoop) start end (condition ∷ block ∷ []) nodes.old nodes.new result }
{
    insert(nodes, n, kinds::WHILE_LOOP, start, end, [condition, block])
}

pub fn return_(nodes: &mut [u32], n: usize, expression: u32, start: u32, end: u32) -> Node
    requires { n < absent }
    ensures { Tried n (number_of Form.Return) start end (expression ∷ []) nodes.old nodes.new result }
{
    insert(nodes, n, kinds::RETURN, start, end, [expression])
}

pub fn break_(nodes: &mut [u32], n: usize, start: u32, end: u32) -> Node
    requires { n < absent }
    ensures { Tried n (number_of Form.Break) start end ([]) nodes.old nodes.new result }
{
    insert(nodes, n, kinds::BREAK, start, end, [])
}

pub fn continue_(nodes: &mut [u32], n: usize, start: u32, end: u32) -> Node
    requires { n < absent }
    ensures { Tried n (number_of Form.Continue) start end ([]) nodes.old nodes.new result }
{
    insert(nodes, n, kinds::CONTINUE, start, end, [])
}

// The path's first link row and how many steps it has, and the bindings' first link row and how many names they are.
pub fn import(
    nodes: &mut [u32],
    n: usize,
    path: u32,
    steps: u32,
    bindings: u32,
    names: u32,
    start: u32,
    end: u32,
) -> Node
    requires { n < absent }
    ensures { Tried n (number_of Form.Import) start end (path ∷ steps ∷ bindings ∷ names ∷ []) nodes.old nodes.new result }
{
    insert(
        nodes,
        n,
        kinds::IMPORT,
        start,
        end,
        [path, steps, bindings, names],
    )
}

// Where a warning stands: parts of the text and tokens that a row is to be marked at.
use crate::Warning;
use ast::kinds;
use lint::reach::{brackets, first_past, last, sign};
use lint::{Rule, reached};
use showing::cover::Part;

impl Warning<'_, '_> {
    // Number i of a row of the same tree.
    pub(crate) fn node(self, id: u32, i: u32) -> u32 {
        self.row.tree.node(id, i)
    }

    // The three numbers of a token.
    fn token(self, k: usize) -> Option<[u32; 3]> {
        let (tokens, _) = self.row.tree.tokens.as_chunks::<3>();
        tokens.get(k).copied()
    }

    // The kind of a token.
    pub(crate) fn token_kind(self, k: usize) -> Option<u32> {
        let [kind, _, _] = self.token(k)?;
        Some(kind)
    }

    // Where a token stands; as of a row, the empty part at 0 where there is none: nothing is shown of it, with no case of its own.
    pub(crate) fn token_part(self, k: usize) -> Part {
        let Some(token) = self.token(k) else {
            return Part::NONE;
        };
        let [_, start, end] = token;
        Part { start, end }
    }

    // The token before one.
    pub(crate) fn part_before(self, k: usize) -> Part {
        match k.checked_sub(1) {
            Some(before) => self.token_part(before),
            None => Part::NONE,
        }
    }

    // The token after one.
    pub(crate) fn part_after(self, k: usize) -> Part {
        self.token_part(k.saturating_add(1))
    }

    // The first token from an offset on that is no `)`.
    pub(crate) fn first_past(self, offset: u32) -> usize {
        first_past(self.row.tree.tokens, offset)
    }

    // The token that joins the operands of a row.
    pub(crate) fn sign(self, id: u32) -> usize {
        sign(self.row.tree.tokens, self.row.tree.nodes, id)
    }

    // Whether row x is joined outside of the brackets that are opened after the row starts.
    fn reached(self, x: u32) -> bool {
        reached(self.row.tree.tokens, self.row.tree.nodes, self.row.id, x)
    }

    // The leftmost of the rows from x on to the left that are joined there.
    fn leftmost(self, x: u32) -> u32 {
        let mut at = x;
        let mut left = self.node(x, 3);
        while left < at && self.reached(left) {
            at = left;
            left = self.node(at, 3);
        }
        at
    }

    // The leftmost `and` or `or` that a `not` took by reaching on.
    pub(crate) fn first_joined(self) -> Option<u32> {
        let mut above = self.row.id;
        let mut x = last(self.row.tree.nodes, above);
        while x < above {
            if self.reached(x) {
                return Some(self.leftmost(x));
            }
            above = x;
            x = last(self.row.tree.nodes, x);
        }
        None
    }

    // Whether a row is of an operator that binds tighter than `and`, outside of the brackets that are opened past an offset.
    pub(crate) fn is_bare(self, id: u32, offset: u32) -> bool {
        let tokens = self.row.tree.tokens;
        let k = self.sign(id);
        self.node(id, 0) == kinds::BINARY
            && k <= tokens.len() / 3
            && brackets(tokens, offset, k) == 0
    }

    // Whether the row stands in the condition of an `if` or a `while`, and in no block of its own there: no statement can end in it.
    pub(crate) fn in_condition(self) -> bool {
        let mut row = self.row;
        while let Some(above) = row.parent() {
            match above.kind() {
                kinds::BLOCK => return false,
                kinds::IF | kinds::WHILE_LOOP => return above.number(3) == row.id,
                _ => row = above,
            }
        }
        false
    }

    // The token at which a call or a sum goes on.
    pub(crate) fn going_on(self) -> usize {
        if self.row.kind() == kinds::FUNCTION_CALL {
            self.first_past(self.row.number(1))
        } else {
            self.sign(self.row.id)
        }
    }

    // The token after the `}` at which a statement ends.
    pub(crate) fn after_brace(self) -> usize {
        self.first_past(self.row.number(2))
    }

    // What the warning marks: all that a `not` took, a string, or the token that starts a statement or goes on.
    pub(crate) fn spot(self) -> Part {
        match self.rule {
            Rule::CutOff => self.token_part(self.after_brace()),
            Rule::GoingOn => self.token_part(self.going_on()),
            _ => self.row.part(),
        }
    }
}

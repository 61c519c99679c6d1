#![tactic(auto)]
// Which rows of a script deserve a warning: what they are may not be what the writer meant. It reads finished rows, tokens and the text, and asks nothing of them: every
// rule is decided for any numbers.
pub mod reach;

ghost use Rattle.std.specs.Prelude.{◌+◌, ◌<◌, true, ◌≡◌};
ghost use Rattle.grammar.specs.Pattern.{among};
ghost use Rattle.grammar.specs.Token.{count};
ghost use Rattle.spelling.specs.Decides.{Decides};
ghost use Rattle.lint.specs.Rules.{LineEnds, OnNewLine, joining, Reached, ReachingNot, closed, going_on, CutAt, CutOff, GoingOn, LongString, Any, Meets, Next};

use crate::reach::{brackets, first_past, in_block, last, sign};
use ast::{ABSENT, PARENT, kinds};
use children::node;
use diagnostics::line::ends_line;
use token::list::{end_at, kind_at, start_at};

// The rules: each has rows that meet it.
#[derive(Clone, Copy)]
pub enum Rule {
    // a `not` that took an `and` or an `or` by reaching on
    ReachingNot,
    // a statement that ends at a `}`, before a token that could have gone on with it
    CutOff,
    // a call or a sum that goes on over the end of a line
    GoingOn,
    // a string in which a line ends
    LongString,
    // any of these
    Any,
}

// Whether a line ends from an offset of the text up to another.
fn breaks(text: &[u8], from: u32, upto: u32) -> bool
    ensures { Decides (LineEnds text.now from upto) result }
{
    for i in from as usize..text.len().min(upto as usize) {
        if ends_line(text, i) {
            return true;
        }
    }
    false
}

// Whether a row of this kind is an `and` or an `or`.
fn joins(kind: u32) -> bool
    ensures { result ≡ among joining kind }
{
    matches!(kind, kinds::LOGICAL_AND | kinds::LOGICAL_OR)
}

// Whether row x is an `and` or an `or` whose sign stands outside of all brackets that are opened after row `row` starts.
// Ruled out: true of an `or` in parentheses; false of an `and` whose left operand stands in parentheses.
pub fn reached(tokens: &[u32], nodes: &[u32], row: u32, x: u32) -> bool
    ensures { Decides (Reached tokens.now nodes.now row x) result }
{
    joins(node(nodes, x, 0)) && brackets(tokens, node(nodes, row, 1), sign(tokens, nodes, x)) == 0
}

// Whether a token of this kind may start an operand, and go on with one.
fn goes_on(kind: u32) -> bool
    ensures { result ≡ among going_on kind }
{
    matches!(
        kind,
        token::kinds::PLUS | token::kinds::MINUS | token::kinds::CARET | token::kinds::LEFT_PAREN
    )
}

// Whether a token is a `}` that ends at an offset, and the next could go on.
fn is_cut(tokens: &[u32], offset: u32, k: usize) -> bool
    requires { k + 1 < count tokens.now }
    ensures { Decides (CutAt tokens.now offset k) result }
{
    end_at(tokens, k) == offset
        && kind_at(tokens, k) == token::kinds::RIGHT_BRACE
        && goes_on(kind_at(tokens, k + 1))
}

// Whether a statement of this kind ends at a `}` of its own.
fn is_closed(kind: u32) -> bool
    ensures { result ≡ among closed kind }
{
    matches!(
        kind,
        kinds::FUNCTION | kinds::BLOCK | kinds::IF | kinds::WHILE_LOOP
    )
}

// A text, its tokens and the rows that were read from them.
#[derive(Clone, Copy)]
struct Script<'a> {
    text: &'a [u8],
    tokens: &'a [u32],
    nodes: &'a [u32],
}

impl<'a> Script<'a> {
    // Whether a token stands on another line than the one before it, in no parentheses and no map.
    fn on_new_line(self, k: usize) -> bool
        ensures { Decides (OnNewLine self.entry.text.now self.entry.tokens.now k) result }
    {
        if k == 0 || k >= self.tokens.len() / 3 {
            return false;
        }
        in_block(self.tokens, k)
            && breaks(
                self.text,
                end_at(self.tokens, k - 1),
                start_at(self.tokens, k),
            )
    }

    // Rule ReachingNot.
    fn is_reaching(self, row: u32) -> bool
        ensures { Decides (ReachingNot self.entry.tokens.now self.entry.nodes.now row) result }
    {
        if node(self.nodes, row, 0) != kinds::LOGICAL_NOT {
            return false;
        }
        let mut above = row;
        let mut x = last(self.nodes, row);
        while x < above {
            if reached(self.tokens, self.nodes, row, x) {
                return true;
            }
            above = x;
            x = last(self.nodes, x);
        }
        false
    }

    // Rule CutOff.
    fn is_cut_off(self, row: u32) -> bool
        ensures { Decides (CutOff self.entry.tokens.now self.entry.nodes.now row) result }
    {
        if !is_closed(node(self.nodes, row, 0)) {
            return false;
        }
        let parent = node(self.nodes, row, PARENT as u32);
        if node(self.nodes, parent, 0) != kinds::BLOCK {
            return false;
        }
        let end = node(self.nodes, row, 2);
        for k in 0..(self.tokens.len() / 3).saturating_sub(1) {
            if is_cut(self.tokens, end, k) {
                return true;
            }
        }
        false
    }

    // Rule GoingOn.
    fn is_going_on(self, row: u32) -> bool
        ensures { Decides (GoingOn self.entry.text.now self.entry.tokens.now self.entry.nodes.now row) result }
    {
        match node(self.nodes, row, 0) {
            kinds::FUNCTION_CALL => {
                self.on_new_line(first_past(self.tokens, node(self.nodes, row, 1)))
            }
            kinds::BINARY => {
                node(self.nodes, row, 3) <= 1
                    && self.on_new_line(sign(self.tokens, self.nodes, row))
            }
            _ => false,
        }
    }

    // Rule LongString.
    fn is_long(self, row: u32) -> bool
        ensures { Decides (LongString self.entry.text.now self.entry.nodes.now row) result }
    {
        node(self.nodes, row, 0) == kinds::STRING
            && breaks(
                self.text,
                node(self.nodes, row, 1),
                node(self.nodes, row, 2),
            )
    }

    // Rule Any.
    fn is_any(self, row: u32) -> bool
        ensures { Decides (Any self.entry.text.now self.entry.tokens.now self.entry.nodes.now row) result }
    {
        self.is_reaching(row) || self.is_cut_off(row) || self.is_going_on(row) || self.is_long(row)
    }

    // Whether a row meets a rule.
    fn meets(self, rule: Rule, row: u32) -> bool
        ensures { Decides (Meets rule self.entry.text.now self.entry.tokens.now self.entry.nodes.now row) result }
    {
        match rule {
            Rule::ReachingNot => self.is_reaching(row),
            Rule::CutOff => self.is_cut_off(row),
            Rule::GoingOn => self.is_going_on(row),
            Rule::LongString => self.is_long(row),
            Rule::Any => self.is_any(row),
        }
    }
}

// Whether a row meets a rule.
// Ruled out: true of a `not` before parentheses that hold an `and`; false of a `-` on a line of its own that a `)` stands before.
pub fn meets(rule: Rule, text: &[u8], tokens: &[u32], nodes: &[u32], row: u32) -> bool
    ensures { Decides (Meets rule text.now tokens.now nodes.now row) result }
{
    Script {
        text,
        tokens,
        nodes,
    }
    .meets(rule, row)
}

// The first of `count` rows, from row `from` on, that meets a rule; ABSENT where none does: no Option, since `Next` is what this public function promises.
// Ruled out: a row that meets it where an earlier one does too; ABSENT where the last row meets it; row `count`.
pub fn next(rule: Rule, text: &[u8], tokens: &[u32], nodes: &[u32], count: u32, from: u32) -> u32
    ensures { Next (Meets rule text.now tokens.now nodes.now) from count result }
{
    let script = Script {
        text,
        tokens,
        nodes,
    };
    for row in from..count {
        if script.meets(rule, row) {
            return row;
        }
    }
    ABSENT
}

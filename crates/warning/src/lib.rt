#![tactic(auto)]
// What is said of a row that deserves a warning: its place, what it is, the line of the text, and below it how to write what was perhaps meant. Crate lint says which rows
// these are.
mod forms;
mod spots;

ghost use Rattle.std.specs.Prelude.{◌^◌, ◌≤◌, ◌<◌, MatchOption};

use diagnostics::line::{place, writing_end};
use lint::{Rule, meets, next};
use page::Line;
use page::hint::Style;
use page::source::line_start;
use showing::cover::Part;
use showing::{Row, Tree};

// The rules, in the order in which a row is warned of.
const RULES: [Rule; 4] = [
    Rule::ReachingNot,
    Rule::CutOff,
    Rule::GoingOn,
    Rule::LongString,
];

// The name of a rule, for programs.
fn name_of(rule: Rule) -> &'static [u8] {
    match rule {
        Rule::ReachingNot => b"reaching-not",
        Rule::CutOff => b"cut-off",
        Rule::GoingOn => b"going-on",
        _ => b"long-string",
    }
}

// A row that meets a rule.
#[derive(Clone, Copy)]
pub(crate) struct Warning<'a, 't> {
    rule: Rule,
    row: Row<'a, 't>,
}

impl Warning<'_, '_> {
    // The line of a part of the text, and marks below the part, up to the end of the line.
    fn show_marked(self, part: Part, column: u32, line: &mut Line) {
        let text = self.row.tree.text;
        let start = part.start as usize;
        if start > text.len() {
            return;
        }
        let from = line_start(start, column);
        line.show_written(text, from);
        line.put_under(text, from, start, b' ');
        line.put_under(
            text,
            start,
            writing_end(text, start).min(part.end as usize),
            b'^',
        );
        line.end();
    }

    // As lines: the place with the message, the line of the text, and how to write what was perhaps meant.
    fn show(self, path: &[u8], line: &mut Line) {
        let part = self.spot();
        let here = place(self.row.tree.text, part.start as usize);
        line.put_where(path, here);
        line.put(b"warning: ");
        self.put_what(line);
        line.end();
        self.show_marked(part, here.column, line);
        self.show_forms(Style::Lines, line);
    }

    // As an object of JSON. The message is made in a room of its own.
    fn show_object(self, path: &[u8], line: &mut Line) {
        let part = self.spot();
        let mut what = Line::new();
        self.put_what(&mut what);
        line.put_note(path, self.row.tree.text, part.start, part.end, b"warning");
        line.put_string(b",\"code\":", name_of(self.rule));
        line.put_string(b",\"message\":", what.bytes());
        line.put(b",\"hints\":[");
        line.write();
        self.show_forms(Style::First, line);
        line.put_line(b"]}");
    }
}

// Warns of a row by each rule that it meets.
fn warn_of(row: Row, path: &[u8], json: bool, line: &mut Line) {
    let tree = row.tree;
    for rule in RULES {
        if meets(rule, tree.text, tree.tokens, tree.nodes, row.id) {
            let warning = Warning { rule, row };
            if json {
                warning.show_object(path, line);
            } else {
                warning.show(path, line);
            }
        }
    }
}

// The first row from row `from` on that meets a rule.
fn next_of(tree: &Tree, from: u32) -> Option<u32>
    ensures { MatchOption result (Unit {0}) (λ row. (from ≤ row) × (row < tree.now.rows) × (tree.now.rows < 2 ^ 32)) }
{
    let row = next(
        Rule::Any,
        tree.text,
        tree.tokens,
        tree.nodes,
        tree.rows,
        from,
    );
    if row < tree.rows { Some(row) } else { None }
}

// Warns of all rows of a script that meet a rule, in the order of the rows, as lines or as JSON. The answer is whether there are some.
pub fn warn(tree: &Tree, path: &[u8], json: bool, line: &mut Line) -> bool {
    let mut some = false;
    let mut from = 0;
    while let Some(row) = next_of(tree, from) {
        warn_of(tree.row(row), path, json, line);
        some = true;
        from = row + 1;
    }
    some
}

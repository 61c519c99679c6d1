// Rules 2, 3, 7 and 8: those that speak of what stands in a row and its links, item by item. Each function is asked of one rule, and is true of what has nothing to do with it.
ghost use Rattle.std.specs.Prelude.{◌+◌, ◌-◌, ◌*◌, ◌/◌, ◌≤◌, ◌<◌, ◌||◌, ◌≡◌, ◌↔◌, eqb, ltb, length, drop, IsTrue, EachIndex, slice_index};
ghost use Rattle.foreign.specs.Check.{Item};
ghost use Rattle.grammar.specs.Handle.{absent};
ghost use Rattle.grammar.specs.Room.{node_width, own_width, link_width};
ghost use Rattle.checker.specs.Pass.{number, Passes};
ghost use Rattle.checker.specs.Slots.{link_items, contents, held, held_in, spared};
ghost use Rattle.checker.specs.Test.{keep as keeps, keep_all, concerns, Linkable, Linked, Marked, Keeps, AllStanding, row_keeps};

use crate::marks::{settle, skip};
use crate::rows::Rows;
use crate::rule::{Broken, Rule};
use crate::slots::{Content, Cut, Slot, Sort, cut_row};
use ast::room::zero;
use ast::{ABSENT, LINK_WIDTH, NODE_WIDTH, PARENT};

// Ruled out: a number past the first left out.
fn zeros(xs: &[u32]) -> bool
    ensures { IsTrue result ↔ EachIndex xs.now (λ k. slice_index xs.now k ≡ 0) }
{
    xs.iter().all(|x| *x == 0)
}

// What is asked of a row: the rule, the row's number, and how many symbols there are.
#[derive(Clone, Copy)]
pub struct Asked {
    pub rule: Rule,
    pub row: u32,
    pub symbols: u32,
}

impl Asked {
    // A number that has to be below a limit: rule 2.
    // Ruled out: the limit itself.
    fn below(self, limit: u32, x: u32) -> bool
        ensures { result ≡ keeps (number self.rule) self.row self.symbols 0 (Item.number limit x) }
    {
        self.rule != Rule::Ranges || x < limit
    }

    // A row that is an earlier one, or absent: rule 3.
    // Ruled out: the row itself.
    fn earlier(self, x: u32) -> bool
        ensures { result ≡ (ltb x self.row || eqb x absent) }
    {
        x < self.row || x == ABSENT
    }

    // A row that has to be there: rules 3 and 7.
    // Ruled out: absent where rule 7 is asked.
    fn child(self, x: u32) -> bool
        ensures { result ≡ keeps (number self.rule) self.row self.symbols 0 (Item.child x) }
    {
        match self.rule {
            Rule::Earlier => self.earlier(x),
            Rule::Present => x != ABSENT,
            _ => true,
        }
    }

    // A row that may be absent: rule 3.
    fn option(self, x: u32) -> bool
        ensures { result ≡ keeps (number self.rule) self.row self.symbols 0 (Item.option x) }
    {
        self.rule != Rule::Earlier || self.earlier(x)
    }

    // An unused number: rule 8.
    fn unused(self, x: u32) -> bool
        ensures { result ≡ keeps (number self.rule) self.row self.symbols 0 (Item.unused x) }
    {
        self.rule != Rule::Clean || x == 0
    }

    // A link row of a list of this sort.
    // Ruled out: a name's span taken for unused numbers.
    fn link(self, of: Sort, x: u32, y: u32, z: u32) -> bool
        ensures { result ≡ keep_all (number self.rule) self.row self.symbols 0 (link_items of x y z) }
    {
        match of {
            Sort::Nodes => self.child(x) && self.unused(y) && self.unused(z),
            Sort::Names => self.below(self.symbols, x),
            Sort::Entries => self.child(x) && self.option(y) && self.unused(z),
        }
    }

    // The link rows of a list, but for those that are settled; then all of them are.
    // Ruled out: the last link left out; a link that is settled for a list of another sort.
    fn linked(
        self,
        of: Sort,
        links: &[u32],
        marks: &mut [u32],
        base: usize,
        from: usize,
        count: usize,
    ) -> bool
        requires { Linkable (number self.rule) self.row self.symbols of links.now marks.old base from count }
        ensures { Linked (number self.rule) self.row self.symbols of links.now base from count marks.old marks.new result }
    {
        let end = from + count;
        let mut at = skip(marks, base, from, end);
        while at < end {
            let i = LINK_WIDTH * at;
            if !self.link(of, links[i], links[i + 1], links[i + 2]) {
                return false;
            }
            settle(marks, base, at as u32);
            at = skip(marks, base, at + 1, end);
        }
        true
    }

    // Whether the rule has to do with links of a sort: rule 2 with names, the others with rows.
    fn concerned(self, of: Sort) -> bool
        ensures { result ≡ concerns (number self.rule) of }
    {
        (self.rule == Rule::Ranges) == (of == Sort::Names)
    }

    // A list: whether it is in range, and its links.
    // Ruled out: links of a list that is not in range.
    fn list(self, of: Sort, from: u32, count: u32, links: &[u32], marks: &mut [u32]) -> bool
        requires { Marked (number self.rule) self.row self.symbols links.now marks.old }
        ensures { Keeps (number self.rule) self.row self.symbols links.now (contents links.now (Content.List of from count)) marks.new result }
    {
        let from = from as usize;
        let count = count as usize;
        let all = links.len() / LINK_WIDTH;
        if from + count > all {
            return false;
        }
        if !self.concerned(of) {
            return true;
        }
        match of {
            Sort::Entries => self.linked(of, links, marks, all, from, count),
            _ => self.linked(of, links, marks, 0, from, count),
        }
    }

    // A slot, with its links. The hint saves good rows a third of their instructions: most slots hold no list, and are then looked at in the loop over the rows.
    #[inline(always)]
    fn slot(self, s: Slot, links: &[u32], marks: &mut [u32]) -> bool
        requires { Marked (number self.rule) self.row self.symbols links.now marks.old }
        ensures { Keeps (number self.rule) self.row self.symbols links.now (held links.now s) marks.new result }
    {
        match s.content() {
            Content::Nothing => true,
            Content::Child(x) => self.child(x),
            Content::Option(x) => self.option(x),
            Content::Symbol(x) => self.below(self.symbols, x),
            Content::List(of, from, count) => self.list(of, from, count, links, marks),
            Content::Number(limit, x) => self.below(limit, x),
        }
    }

    // Numbers that are left over, up to a place: rule 8.
    // Ruled out: the last of them left out.
    fn spare(self, nodes: &[u32], from: usize, upto: usize) -> bool
        requires { (from ≤ upto) × (upto ≤ length nodes.now) }
        ensures { result ≡ keep_all (number self.rule) self.row self.symbols 0 (spared (upto - from) (drop from nodes.now)) }
    {
        match self.rule {
            Rule::Clean => zeros(&nodes[from..upto]),
            _ => true,
        }
    }

    // Whether all that stands in a row and in its links keeps the rule.
    // Ruled out: the third slot left out; the parent's number taken for an unused one.
    fn row(self, c: Cut, nodes: &[u32], links: &[u32], marks: &mut [u32]) -> bool
        requires { (c.rest ≤ node_width * self.row + own_width) × (node_width * self.row + own_width ≤ length nodes.now) × Marked (number self.rule) self.row self.symbols links.now marks.old }
        ensures { Keeps (number self.rule) self.row self.symbols links.now (held_in nodes.now links.now self.row c) marks.new result }
    {
        self.slot(c.first, links, marks)
            && self.slot(c.second, links, marks)
            && self.slot(c.third, links, marks)
            && self.spare(nodes, c.rest, NODE_WIDTH * (self.row as usize) + PARENT)
    }
}

// Whether each row keeps a rule, itself and in its links. Two marks a link are lent. Not by `each`: what a row leaves in the marks is known of the next row (`Marked`), and a
// closure's contract tells of one call.
// Ruled out: a later row that breaks it; a row whose links were settled by a row that they broke it in.
pub(crate) fn pass(
    rows: &Rows<'_>,
    rule: Rule,
    symbols: u32,
    marks: &mut [u32],
) -> Result<(), Broken>
    requires { AllStanding rows.now.table.now rows.now.nodes.now rows.now.count × (length rows.now.links.now / link_width ≤ absent) × (2 * (length rows.now.links.now / link_width) ≤ length marks.old) }
    ensures { Passes rule (row_keeps (number rule) symbols rows.now.table.now rows.now.nodes.now rows.now.links.now) rows.now.count result }
{
    let Rows {
        table,
        nodes,
        links,
        count,
    } = *rows;
    zero(marks, 0, 2 * (links.len() / LINK_WIDTH));
    for row in 0..count {
        let a = Asked { rule, row, symbols };
        if !a.row(cut_row(table, nodes, row), nodes, links, marks) {
            return Err(Broken { rule, row });
        }
    }
    Ok(())
}

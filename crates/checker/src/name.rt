// Rules 4 and 9: which rows are named, and by which row. One pass marks each row that is named, in the order of the rows that name it; then the marks tell.
// A mark is a number, as it lies in the lent room: 0, the row that names this one, or absent where several do (`mark_of` of specs/Named.antt).
ghost use Rattle.std.specs.Prelude.{◌+◌, ◌-◌, ◌*◌, ◌/◌, ◌≤◌, ◌<◌, cond, ◌&&◌, ◌++◌, ◌≡◌, length, set};
ghost use Rattle.grammar.specs.Room.{node_width, link_width};
ghost use Rattle.checker.specs.Named.{noted, known as is_Known, second_of, names_from, names_in, Ready, Listed, Noted, InLists, Nameable, AllNamed, is_once, is_parent};
ghost use Rattle.checker.specs.Pass.{Passes};
ghost use Rattle.checker.specs.Slots.{rows as rows_of, held};

use crate::marks::{settle, skip};
use crate::rows::Rows;
use crate::rule::{Broken, Rule, each};
use crate::slots::{Content, Cut, Slot, Sort, cut_row};
use ast::room::zero;
use ast::{ABSENT, LINK_WIDTH, NODE_WIDTH, PARENT};

// Row x is named by a row, if it is an earlier one.
// Ruled out: a second name that leaves the mark of the first.
fn mark(marks: &mut [u32], row: u32, x: u32)
    requires { row ≤ length marks.old }
    ensures { marks.new ≡ noted row x marks.old }
{
    if x >= row {
        return;
    }
    let i = x as usize;
    marks[i] = if marks[i] == 0 { row } else { ABSENT };
}

// Whether there is nothing to be learnt of a row that is named: it is absent, or has been named more than once.
fn known(marks: &[u32], rows: usize, x: u32) -> bool
    requires { rows ≤ length marks.now }
    ensures { result ≡ is_Known rows marks.now x }
{
    x == ABSENT || (x as usize) < rows && marks[x as usize] == ABSENT
}

// The second row that a link names: a value, or none. A link itself has absent for no value, so one number says both, where an Option would say it twice.
fn other(links: &[u32], at: usize, two: bool) -> u32
    requires { link_width * at + 2 ≤ length links.now }
    ensures { result ≡ second_of two links.now at }
{
    if two {
        links[LINK_WIDTH * at + 1]
    } else {
        ABSENT
    }
}

// Where the marks of a list's links stand, from the first link's mark on.
fn place(links: &[u32], two: bool) -> usize
    ensures { result ≡ cond two (length links.now / link_width) 0 }
{
    if two { links.len() / LINK_WIDTH } else { 0 }
}

// A link that names these is settled, if nothing is to be learnt of them.
fn note(marks: &mut [u32], rows: usize, base: usize, at: u32, x: u32, y: u32)
    requires { (rows ≤ length marks.old) × (at < 4294967295) × (base + at < length marks.old) }
    ensures { marks.new ≡ cond (is_Known rows marks.old x && is_Known rows marks.old y) (set marks.old (base + at) (at + 1)) marks.old }
{
    if known(marks, rows, x) && known(marks, rows, y) {
        settle(marks, base, at);
    }
}

// A row names what the links of a list do, one row each or two. Those that are settled are passed over.
// Ruled out: a list's last link left out; a link that is settled though one of its rows is named once only.
fn name_links(
    marks: &mut [u32],
    rows: usize,
    links: &[u32],
    row: u32,
    from: usize,
    count: usize,
    two: bool,
)
    requires { Listed rows row links.now from count marks.old }
    ensures { Noted rows row links.now (names_from two links.now from count) marks.old marks.new }
{
    let base = rows + place(links, two);
    let end = from + count;
    let mut at = skip(marks, base, from, end);
    while at < end {
        let x = links[LINK_WIDTH * at];
        let y = other(links, at, two);
        mark(marks, row, x);
        mark(marks, row, y);
        note(marks, rows, base, at as u32, x, y);
        at = skip(marks, base, at + 1, end);
    }
}

// A row names what a slot and its links do.
fn name_slot(marks: &mut [u32], rows: usize, links: &[u32], row: u32, s: Slot)
    requires { (row ≤ rows) × InLists links.now s × Ready rows links.now marks.old }
    ensures { Noted rows row links.now (names_in (held links.now s)) marks.old marks.new }
{
    match s.content() {
        Content::Child(x) | Content::Option(x) => mark(marks, row, x),
        Content::List(of, from, count) => {
            let from = from as usize;
            let count = count as usize;
            match of {
                Sort::Nodes => name_links(marks, rows, links, row, from, count, false),
                Sort::Names => {}
                Sort::Entries => name_links(marks, rows, links, row, from, count, true),
            }
        }
        Content::Nothing | Content::Symbol(_) | Content::Number(_, _) => {}
    }
}

// A row names what its slots do. No struct for the four that travel together: each of these has one caller, and the lent marks would be put into it anew for each row.
fn name_row(marks: &mut [u32], rows: usize, links: &[u32], row: u32, c: Cut)
    requires { (row ≤ rows) × InLists links.now c.first × InLists links.now c.second × InLists links.now c.third × Ready rows links.now marks.old }
    ensures { Noted rows row links.now (names_in (held links.now c.first ++ (held links.now c.second ++ held links.now c.third))) marks.old marks.new }
{
    name_slot(marks, rows, links, row, c.first);
    name_slot(marks, rows, links, row, c.second);
    name_slot(marks, rows, links, row, c.third);
}

// Marks all rows. It asks that each names earlier rows alone, and for a mark a row and two a link.
// Ruled out: a row that two rows name marked as the first's; a mark that was there before.
pub(crate) fn name(rows: &Rows<'_>, marks: &mut [u32])
    requires { Nameable rows.now.table.now rows.now.nodes.now rows.now.links.now rows.now.count marks.old }
    ensures { AllNamed (rows_of rows.now.nodes.now rows.now.links.now) rows.now.count marks.new }
{
    let count = rows.count as usize;
    zero(marks, 0, count + 2 * (rows.links.len() / LINK_WIDTH));
    for row in 0..rows.count {
        let c = cut_row(rows.table, rows.nodes, row);
        name_row(marks, count, rows.links, row, c);
    }
}

// Rule 4: whether each row but the last is marked as named once.
// Ruled out: the last row, which nobody names.
pub(crate) fn once(marks: &[u32], count: u32) -> Result<(), Broken>
    requires { count ≤ length marks.now }
    ensures { Passes Rule.Once (is_once marks.now) (count - 1) result }
{
    each(Rule::Once, count.saturating_sub(1), |row| {
        let mark = marks[row as usize];
        !matches!(mark, 0 | ABSENT)
    })
}

// Whether the parent that a row has is its mark, or absent where it has none.
fn adopted(nodes: &[u32], marks: &[u32], row: u32) -> bool
    requires { (node_width * row + node_width ≤ length nodes.now) × (row < length marks.now) }
    ensures { result ≡ is_parent nodes.now marks.now row }
{
    let i = row as usize;
    let own = if marks[i] == 0 { ABSENT } else { marks[i] };
    nodes[NODE_WIDTH * i + PARENT] == own
}

// Rule 9: whether each row's parent is right.
// Ruled out: 0 for the last row's.
pub(crate) fn parents(rows: &Rows<'_>, marks: &[u32]) -> Result<(), Broken>
    requires { (node_width * rows.now.count ≤ length rows.now.nodes.now) × (rows.now.count ≤ length marks.now) }
    ensures { Passes Rule.Parents (is_parent rows.now.nodes.now marks.now) rows.now.count result }
{
    each(
        Rule::Parents,
        rows.count,
        |row| adopted(rows.nodes, marks, row),
    )
}

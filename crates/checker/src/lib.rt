#![tactic(auto)]
// Whether rows that another build wrote are those of a tree: nine rules, in their order. Each is a pass over the rows, and no pass looks at a link more than four times,
// also where lists overlap.
mod follow;
mod keep;
mod kinds;
mod marks;
mod name;
mod rows;
mod rule;
mod slots;

ghost use Rattle.std.specs.Prelude.{◌≡◌, length};
ghost use Rattle.checker.specs.Slots.{rows as rows_of};
ghost use Rattle.checker.specs.Verdict.{rooms, given, Judgeable, EarlierKept, Judged, Tells};

use crate::follow::follow;
use crate::keep::pass;
use crate::kinds::{known, rooted};
use crate::name::{name, once, parents};
use crate::rows::Rows;
use crate::rule::{Broken, Rule};
use crate::slots::slots;
use ast::room::clear;
use ast::{LINK_WIDTH, NODE_WIDTH};
use token::editions;

// The numbers of a symbol row.
const SYMBOL_WIDTH: usize = 2;

// The codes of the answer, and below the answer itself, are the C interface's: `Tells` of `check` holds them.
const UNKNOWN: u32 = 15;

const NO_EDITION: u32 = 21;

const BROKEN: u32 = 22;

// The answer: code 0; or 15 or 21, with the other numbers 0; or 22 with the first failed rule and the first row that breaks it.
#[derive(Clone, Copy)]
pub struct Verdict {
    pub code: u32,
    pub rule: u32,
    pub row: u32,
}

fn plain(code: u32) -> Verdict
    ensures { result ≡ record { code = code; rule = 0; row = 0 } }
{
    Verdict {
        code,
        rule: 0,
        row: 0,
    }
}

// Rules 4 to 9, where those before them hold. The parents are looked at while the marks are there, and told of last.
// Ruled out: the first row where links are left over.
fn judge_tree(rows: &Rows<'_>, symbols: u32, scratch: &mut [u32]) -> Result<(), Broken>
    requires { Judgeable rows.now.table.now rows.now.nodes.now rows.now.links.now rows.now.count (length scratch.old) × EarlierKept rows.now.table.now rows.now.nodes.now rows.now.links.now rows.now.count symbols }
    ensures { Judged rows.now.table.now symbols (rows_of rows.now.nodes.now rows.now.links.now) result }
{
    name(rows, scratch);
    once(scratch, rows.count)?;
    let end = rows.count.saturating_sub(1);
    if !rooted(rows) {
        return Err(Broken {
            rule: Rule::Rooted,
            row: end,
        });
    }
    if follow(rows)? != rows.links.len() / LINK_WIDTH {
        return Err(Broken {
            rule: Rule::Follows,
            row: end,
        });
    }
    let orphans = parents(rows, scratch);
    pass(rows, Rule::Present, symbols, scratch)?;
    pass(rows, Rule::Clean, symbols, scratch)?;
    orphans
}

// All nine rules, of rows that are there.
// Ruled out: a later rule, though an earlier one is broken by a later row.
fn judge(rows: &Rows<'_>, symbols: u32, scratch: &mut [u32]) -> Result<(), Broken>
    requires { Judgeable rows.now.table.now rows.now.nodes.now rows.now.links.now rows.now.count (length scratch.old) }
    ensures { Judged rows.now.table.now symbols (rows_of rows.now.nodes.now rows.now.links.now) result }
{
    known(rows)?;
    pass(rows, Rule::Ranges, symbols, scratch)?;
    pass(rows, Rule::Earlier, symbols, scratch)?;
    judge_tree(rows, symbols, scratch)
}

// Whether rows that another build wrote keep the rules, in an edition. It looks at the first rows of each room, as the counts n, m and s say; the symbols' numbers are not looked at. The
// scratch room, of which it asks a number for each node row and two for each link row, is zero afterwards, unless the answer is 15 or 21; every other room is as it was.
// Ruled out: 22 where a count passes what was lent; a rule that a row after the count breaks.
pub fn check(
    nodes: &[u32],
    links: &[u32],
    symbols: &[u32],
    n: u32,
    m: u32,
    s: u32,
    edition: u32,
    scratch: &mut [u32],
) -> Verdict
    ensures { Tells (given edition n m s (rooms nodes.now links.now symbols.now scratch.old)) (rooms nodes.now links.now symbols.now scratch.new) result }
{
    let high = NODE_WIDTH * (n as usize);
    let long = LINK_WIDTH * (m as usize);
    if nodes.len() < high
        || links.len() < long
        || symbols.len() < SYMBOL_WIDTH * (s as usize)
        || scratch.len() < (n as usize) + 2 * (m as usize)
    {
        return plain(UNKNOWN);
    }
    if edition != editions::FIRST && edition != editions::SECOND {
        return plain(NO_EDITION);
    }
    let table = slots(edition);
    let rows = Rows {
        table: &table,
        nodes: &nodes[..high],
        links: &links[..long],
        count: n,
    };
    let judged = judge(&rows, s, scratch);
    clear(scratch, 0);
    match judged {
        Ok(()) => plain(0),
        Err(broken) => Verdict {
            code: BROKEN,
            rule: broken.rule.number(),
            row: broken.row,
        },
    }
}

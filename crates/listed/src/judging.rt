// What is said of the rows of a listing: nothing where they are those of a tree; else which rule is broken, and the line of the row that breaks it.
ghost use Rattle.std.specs.Prelude.{◌≤◌, length};

use crate::Listed;
use ast::NODE_WIDTH;
use checker::{Verdict, check};
use diagnostics::line::NEWLINE;
use page::Line;

// Rule 6, that lists of links follow each other and hold all links.
const FOLLOWS: u32 = 6;

// Where the list of a Block stands in its row: its first link, and how many it has.
const FIRST: usize = 3;

const COUNT: usize = 4;

// What is shown of a rule that is broken: its words, and which line of the listing, from 0 on.
#[derive(Clone, Copy)]
struct Told {
    words: &'static [u8],
    line: usize,
}

// A rule in words.
fn words_of(rule: u32) -> &'static [u8] {
    match rule {
        2 => b"operators, Booleans, symbols and lists of links are in range, in its links too",
        3 => b"a row names only rows before it, in its links too",
        4 => b"every row but the last is named once",
        5 => b"the last row is a Block with no tail",
        6 => b"lists of links follow each other, in the order of the rows",
        7 => b"a row is absent, 4294967295, only where its kind allows that, in its links too",
        8 => b"numbers that its kind does not use are 0, in its links too",
        9 => b"the tenth number is the row that names this one, and 4294967295 in the last row",
        _ => b"a kind is a number from 1 to 26",
    }
}

// What is shown where the lists hold so many links.
fn choose(l: Listed, v: Verdict, held: u32) -> Told {
    if l.nodes == 0 {
        return Told {
            words: b"the last row is a Block with no tail, and there is no row",
            line: 0,
        };
    }
    if held < l.links {
        return Told {
            words: b"lists of links hold all links, and none holds this one",
            line: 1 + l.nodes as usize + held as usize,
        };
    }
    Told {
        words: words_of(v.rule),
        line: 1 + v.row as usize,
    }
}

// Where a line of a text starts, from 0 on, by the newlines before it.
fn line_at(text: &[u8], line: usize) -> usize
    ensures { result ≤ length text.now }
{
    let mut left = line;
    for (at, &byte) in text.iter().enumerate() {
        if left == 0 {
            return at;
        }
        if byte == NEWLINE {
            left -= 1;
        }
    }
    text.len()
}

// The rule that is broken, and below it the line of the text that breaks it.
fn show_rule(path: &[u8], text: &[u8], v: Verdict, told: Told, line: &mut Line) {
    line.put_path(path);
    line.put_count(b": row ", v.row);
    line.put_count(b" breaks rule ", v.rule);
    line.put(b": ");
    line.put(told.words);
    line.end();
    line.show_written(text, line_at(text, told.line));
}

// The verdict as an object of JSON.
fn show_object(path: &[u8], v: Verdict, line: &mut Line) {
    line.put_string(b"{\"file\":", path);
    if v.code == 0 {
        line.put(b",\"ok\":true}");
    } else {
        line.put(b",\"ok\":false");
        line.put_count(b",\"rule\":", v.rule);
        line.put_count(b",\"row\":", v.row);
        line.put(b"}");
    }
    line.end();
}

// Where the list of the last row ends, if that is before the last link; else how many links there are.
fn list_end(nodes: &[u32], l: Listed) -> u32 {
    let end = NODE_WIDTH * l.nodes as usize;
    if end > nodes.len() || end < NODE_WIDTH {
        return l.links;
    }
    let row = end - NODE_WIDTH;
    let after = nodes[row + FIRST] as u64 + nodes[row + COUNT] as u64;
    after.min(l.links as u64) as u32
}

// How many links the lists hold, where a rule is broken. Rule 6 is broken by a list that does not follow those before it, or by links that are left over behind the last row's
// list. In the second case, and only there, the links up to the end of that list break no rule up to 6.
fn held(
    nodes: &[u32],
    links: &[u32],
    symbols: &[u32],
    l: Listed,
    v: Verdict,
    edition: u32,
    scratch: &mut [u32],
) -> u32 {
    if v.rule != FOLLOWS {
        return l.links;
    }
    let end = list_end(nodes, l);
    let w = check(
        nodes, links, symbols, l.nodes, end, l.symbols, edition, scratch,
    );
    if w.code == 0 || w.rule > FOLLOWS {
        return end;
    }
    l.links
}

// Checks the rows of a listing in an edition, and shows what the check answers. The answer is whether they are those of a tree.
pub fn judge(
    path: &[u8],
    text: &[u8],
    l: Listed,
    edition: u32,
    json: bool,
    nodes: &[u32; 40960],
    links: &[u32; 12288],
    symbols: &[u32; 8320],
    scratch: &mut [u32; 12288],
    line: &mut Line,
) -> bool {
    let v = check(
        nodes, links, symbols, l.nodes, l.links, l.symbols, edition, scratch,
    );
    if json {
        show_object(path, v, line);
    } else if v.code != 0 {
        let all = held(nodes, links, symbols, l, v, edition, scratch);
        show_rule(path, text, v, choose(l, v, all), line);
    }
    v.code == 0
}

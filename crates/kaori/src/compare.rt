// What the two editions of Kaori group differently. Edition 2 accepts every script that edition 1 accepts, and groups it in the same way but for `not`, which takes the
// whole expression after it in edition 1 and the next operand in edition 2. So a script is read in both, and each `not` that takes another part of the text is shown.
ghost use Rattle.std.specs.Prelude.{◌≡◌, ◌≤◌, length};
ghost use Rattle.kaori.specs.declared.status.Status.TheVariants.{Stopped};

use crate::builtin::Names;
use crate::rooms::Rooms;
use crate::status::Status;
use ast::kinds::LOGICAL_NOT;
use diagnostics::line::{place, writing_end};
use page::Line;
use page::source::line_start;
use showing::Tree;
use showing::cover::noted;
use syntax::Numbers;
use telling::tell;
use token::{editions, kinds};

// Where the part of the text ends that the `not` at an offset covers; 0 where no row is a `not` there.
fn end_of(tree: &Tree, start: u32) -> u32 {
    for row in 0..tree.rows {
        if tree.node(row, 0) == LOGICAL_NOT && tree.node(row, 1) == start {
            return tree.part_of(row).end;
        }
    }
    0
}

// Where the part of each `not` ends, one a token of a list; 0 for a token that is no `not`.
fn ends_of(list: &[u32; 12288], tree: &Tree) -> [u32; 4096] {
    let mut ends = [0; 4096];
    for i in 0..4096 {
        if list[3 * i] == kinds::NOT {
            ends[i] = end_of(tree, list[3 * i + 1]);
        }
    }
    ends
}

// Reads a text in an edition into rooms, and answers where what each `not` covers ends; zeros for a script that is refused.
fn read_ends(names: Names, edition: u32, text: &[u8], rooms: &mut Rooms) -> (Numbers, [u32; 4096]) {
    let a = rooms.read(names, edition, text);
    if a.code != 0 {
        return (a, [0; 4096]);
    }
    let mut covers = noted();
    let tree = rooms.tree(names, text, a.nodes, &mut covers);
    (a, ends_of(&rooms.list, &tree))
}

// A line of marks below the line that starts at `start`: what the `not` at `offset` covers in an edition, up to `end`; and where its last byte stands, if that is past what is
// written on the line.
fn show_marks(text: &[u8], start: usize, offset: usize, end: u32, edition: u32, line: &mut Line)
    requires { (start ≤ offset) × (offset ≤ length text.now) }
{
    let written = writing_end(text, offset);
    line.put_under(text, start, offset, b' ');
    line.put_under(text, offset, written.min(end as usize), b'^');
    if written < end as usize {
        line.put(b" .. to ");
        line.put_place(text, end - 1);
    }
    line.put(b" in edition ");
    line.put_number(edition);
    line.end();
}

// A `not`: its place, its line, and what it covers in each edition.
fn show_not(path: &[u8], text: &[u8], start: u32, first: u32, second: u32, line: &mut Line) {
    let offset = start as usize;
    let here = place(text, offset);
    line.put_where(path, here);
    line.put_line(b"`not` takes less in edition 2");
    if offset > text.len() {
        return;
    }
    let from = line_start(offset, here.column);
    line.show_written(text, from);
    show_marks(text, from, offset, first, editions::FIRST, line);
    show_marks(text, from, offset, second, editions::SECOND, line);
}

// Shows every `not` whose part ends elsewhere in edition 2. The answer is how many there are.
fn show_nots(
    path: &[u8],
    text: &[u8],
    list: &[u32; 12288],
    first: &[u32; 4096],
    second: &[u32; 4096],
    line: &mut Line,
) -> u32 {
    let mut shown = 0;
    for i in 0..4096 {
        if first[i] != second[i] {
            show_not(path, text, list[3 * i + 1], first[i], second[i], line);
            shown += 1;
        }
    }
    shown
}

// The last line of a comparison.
fn conclude(path: &[u8], what: &[u8], line: &mut Line) {
    line.put_path(path);
    line.put_line(what);
}

// What is shown of a script that edition 1 refuses; `code` is what edition 2 answers.
fn show_refused(path: &[u8], text: &[u8], list: &[u32], a: Numbers, code: u32, line: &mut Line) {
    tell(editions::FIRST, path, text, list, a, line);
    if code != 0 {
        conclude(path, b": refused in both editions", line);
    } else {
        conclude(path, b": refused in edition 1, accepted in edition 2", line);
    }
}

// The last line where there are so many differences.
fn conclude_many(path: &[u8], shown: u32, line: &mut Line) {
    line.put_path(path);
    line.put(b": ");
    line.put_number(shown);
    match shown {
        1 => line.put(b" difference"),
        _ => line.put(b" differences"),
    }
    line.put_line(b" between the editions");
}

// Reads a text in both editions beside built-in names, and shows what they group differently: nothing of a script that both group alike, which is good.
pub(crate) fn compare(names: Names, path: &[u8], text: &[u8], line: &mut Line) -> Status
    ensures { result ≡ Stopped → ⊥ }
{
    let mut rooms = Rooms::new();
    let (a, first) = read_ends(names, editions::FIRST, text, &mut rooms);
    let mut rooms = Rooms::new();
    let (b, second) = read_ends(names, editions::SECOND, text, &mut rooms);
    if a.code != 0 {
        show_refused(path, text, &rooms.list, a, b.code, line);
        return Status::Refused;
    }
    match show_nots(path, text, &rooms.list, &first, &second, line) {
        0 => {
            conclude(path, b": both editions group it alike", line);
            Status::Good
        }
        shown => {
            conclude_many(path, shown, line);
            Status::Refused
        }
    }
}

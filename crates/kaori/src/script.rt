// One file: its text is read, then its tokens and rows are made, and what the command asks for is shown. What rows cover is found for trees, places and warnings alone: a listing of
// rows and a place that the text has not need none of it.
ghost use Rattle.std.specs.Prelude.{◌≡◌};
ghost use Rattle.kaori.specs.declared.status.Status.TheVariants.{Stopped};

use crate::builtin::Names;
use crate::load::error;
use crate::rooms::Rooms;
use crate::status::Status;
use crate::wish::{Command, Spot, Wish};
use diagnostics::line::offset;
use page::Line;
use showing::Tree;
use showing::cover::noted;
use showing::listing::{list_refusal, list_rows};
use syntax::Numbers;
use telling::{tell, tell_json};
use warning::warn;

// The name of a file above what is shown of it, where there are several.
fn show_name(wish: Wish, path: &[u8], line: &mut Line) {
    if wish.heads {
        line.put(b"== ");
        line.put_path(path);
        line.end();
    }
}

// One line on standard error: a file has no such place.
fn lacks(path: &[u8], spot: Spot) {
    let mut line = error(path);
    line.put(b": no place ");
    line.put_number(spot.line);
    line.put_byte(b':');
    line.put_number(spot.column);
    line.put_line(b" in it");
}

// What stands at a place, if the text has it.
fn show_spot(
    names: Names,
    path: &[u8],
    text: &[u8],
    rooms: &Rooms,
    a: Numbers,
    spot: Spot,
    line: &mut Line,
) -> Status
    ensures { result ≡ Stopped → ⊥ }
{
    let here = offset(text, spot.line, spot.column);
    if here > text.len() {
        lacks(path, spot);
        return Status::Undone;
    }
    let mut covers = noted();
    rooms
        .tree(names, text, a.nodes, &mut covers)
        .show_at(here, line);
    Status::Good
}

// What is shown of a script that is refused: a report, and its numbers as the listing has them.
fn show_refused(wish: Wish, path: &[u8], text: &[u8], list: &[u32], a: Numbers, line: &mut Line) {
    if wish.json {
        tell_json(wish.edition, path, text, list, a, line);
        return;
    }
    show_name(wish, path, line);
    if wish.command != Command::Rows {
        tell(wish.edition, path, text, list, a, line);
    }
    if wish.command.lists_rows() {
        list_refusal(list, a.code, a.at, a.start, a.end, a.expected, line);
    }
}

// The warnings of a script that is read. Where they count, it is refused for one.
fn show_warnings(wish: Wish, path: &[u8], tree: &Tree, line: &mut Line) -> Status
    ensures { result ≡ Stopped → ⊥ }
{
    if warn(tree, path, wish.json, line) && wish.strict {
        return Status::Refused;
    }
    Status::Good
}

// The listing of the rows, for programs.
fn show_rows(rooms: &Rooms, a: Numbers, line: &mut Line) {
    list_rows(
        &rooms.nodes,
        &rooms.links,
        &rooms.symbols,
        a.nodes,
        a.links,
        a.symbols,
        line,
    );
}

// The statements with their trees, and the rows where the command lists them too. There are no statements where the root is the only row.
fn show_tree(wish: Wish, path: &[u8], rooms: &Rooms, a: Numbers, tree: &Tree, line: &mut Line) {
    if wish.command.lists_rows() || a.nodes > 1 {
        show_name(wish, path, line);
    }
    tree.show_statements(line);
    if wish.command.lists_rows() {
        show_rows(rooms, a, line);
    }
}

// What is shown of a script that is read.
fn show_read(
    names: Names,
    wish: Wish,
    path: &[u8],
    text: &[u8],
    rooms: &Rooms,
    a: Numbers,
    line: &mut Line,
) -> Status
    ensures { result ≡ Stopped → ⊥ }
{
    if let Some(spot) = wish.spot {
        return show_spot(names, path, text, rooms, a, spot, line);
    }
    if wish.command == Command::Rows {
        show_name(wish, path, line);
        show_rows(rooms, a, line);
        return Status::Good;
    }
    let mut covers = noted();
    let tree = rooms.tree(names, text, a.nodes, &mut covers);
    if wish.command == Command::Check {
        return show_warnings(wish, path, &tree, line);
    }
    if wish.json {
        tree.show_json(path, line);
    } else {
        show_tree(wish, path, rooms, a, &tree, line);
    }
    Status::Good
}

// Reads a text beside built-in names, and shows what is asked for.
pub(crate) fn script(names: Names, wish: Wish, path: &[u8], text: &[u8], line: &mut Line) -> Status
    ensures { result ≡ Stopped → ⊥ }
{
    let mut rooms = Rooms::new();
    let a = rooms.read(names, wish.edition, text);
    if a.code != 0 {
        show_refused(wish, path, text, &rooms.list, a, line);
        return Status::Refused;
    }
    show_read(names, wish, path, text, &rooms, a, line)
}

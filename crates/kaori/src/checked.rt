// Rows that another build wrote: the listing in a file is read, and what the check of its rows answers is shown.
ghost use Rattle.std.specs.Prelude.{◌≡◌};
ghost use Rattle.kaori.specs.declared.status.Status.TheVariants.{Stopped};

use crate::load::error_at;
use crate::status::Status;
use listed::judging::judge;
use listed::{Fault, Wrong, read};
use page::Line;

// A row that should stand at a line, where the file ends or another line stands there; and what its line is.
fn put_lacking(wrong: Wrong, name: &[u8], form: &[u8], line: &mut Line) {
    let led: &[u8] = if wrong.ends {
        b"the file ends before "
    } else {
        b"not "
    };
    line.put(led);
    line.put(name);
    line.put_number(wrong.row);
    if !wrong.ends {
        line.put(form);
    }
}

// What is wrong with a line.
fn put_wrong(wrong: Wrong, line: &mut Line) {
    match wrong.fault {
        Fault::Head => line.put(b"not the first line of a listing: ok, three counts and a newline"),
        Fault::Large => line.put(b"more than 4,096 rows, 4,096 links or 4,160 symbols"),
        Fault::Row => put_lacking(
            wrong,
            b"row ",
            b": its number, ten numbers and a newline",
            line,
        ),
        Fault::Link => put_lacking(
            wrong,
            b"link ",
            b": link, its number, three numbers and a newline",
            line,
        ),
        Fault::Symbol => put_lacking(
            wrong,
            b"symbol ",
            b": sym, its number, two numbers and a newline",
            line,
        ),
        Fault::More => line.put(b"a line after the last one of the listing"),
    }
}

// One line on standard error: what is wrong with a line of a file that is no listing.
fn complain_of(path: &[u8], wrong: Wrong) {
    let mut line = error_at(path, wrong.line);
    line.put(b": ");
    put_wrong(wrong, &mut line);
    line.end();
}

// Reads the listing that a text is, and shows what the check of its rows answers in an edition: `Good` for rows of a tree, `Refused` for rows that break a rule, and `Undone` for
// a text that is no listing.
pub(crate) fn check_rows(
    edition: u32,
    json: bool,
    path: &[u8],
    text: &[u8],
    line: &mut Line,
) -> Status
    ensures { result ≡ Stopped → ⊥ }
{
    let mut nodes = [0; 40960];
    let mut links = [0; 12288];
    let mut symbols = [0; 8320];
    let l = match read(text, &mut nodes, &mut links, &mut symbols) {
        Ok(l) => l,
        Err(wrong) => {
            complain_of(path, wrong);
            return Status::Undone;
        }
    };
    let mut scratch = [0; 12288];
    if judge(
        path,
        text,
        l,
        edition,
        json,
        &nodes,
        &links,
        &symbols,
        &mut scratch,
        line,
    ) {
        return Status::Good;
    }
    Status::Refused
}

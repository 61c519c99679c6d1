// What is asked of each file or guard that the arguments name, and how it went.
ghost use Rattle.std.specs.Prelude.{◌≤◌};

use crate::arguments::read;
use crate::builtin::Names;
use crate::checked::check_rows;
use crate::compare::compare;
use crate::digits::decimal;
use crate::guard::guard;
use crate::load::{complain, fail, load};
use crate::options::{Choice, Word, refuse, word_at};
use crate::script::script;
use crate::status::Status;
use crate::wish::{Command, Spot, Wish};
use page::Line;
use std_io::io::last_error;

// The descriptor of standard output.
const STDOUT_FILENO: i32 = 1;

// Writes a text.
pub(crate) fn written_out(text: &[u8]) -> Status {
    if io::write_all(STDOUT_FILENO, text) {
        return Status::Good;
    }
    fail(b"standard output", last_error());
    Status::Stopped
}

// The status, once something is shown. An argument that is read leaves no last error of the system, and a file that is read leaves that so: if there is one in the end, it is that
// of a write.
fn written(status: Status) -> Status {
    if status == Status::Undone {
        return status;
    }
    let error = last_error();
    if error.raw_os_error() != Some(0) {
        fail(b"standard output", error);
        return Status::Stopped;
    }
    status
}

// The number from 1 on that argument i writes; none, with a complaint, where it writes none.
fn number(rt: &HostRuntime, i: usize) -> Option<u32> {
    let mut room = io::buffer();
    match read(rt, i, &mut room) {
        Ok(word) => {
            let value = decimal(word);
            if value.is_none() {
                complain(word, b": not a number from 1 to 999,999,999");
            }
            value
        }
        Err(error) => {
            fail(b"number", error);
            None
        }
    }
}

// The place that two arguments name.
fn spot(rt: &HostRuntime, line: usize, column: usize) -> Option<Spot> {
    Some(Spot {
        line: number(rt, line)?,
        column: number(rt, column)?,
    })
}

// A room for a listing: more bytes than one has that fits in the rooms of rows.
fn listing_room() -> [u8; 1048576] {
    [0; 1048576]
}

// What is asked for, beside built-in names, of the arguments of a program.
#[derive(Clone, Copy)]
pub(crate) struct Asked<'a> {
    rt: &'a HostRuntime,
    names: Names<'a>,
    wish: Wish,
}

impl<'a> Asked<'a> {
    // What a command with its options asks for. Names of files stand above trees and rows, where there are several up to `end`.
    pub(crate) fn new(
        rt: &'a HostRuntime,
        names: Names<'a>,
        command: Command,
        choice: Choice,
        end: usize,
    ) -> Self
        requires { choice.next ≤ end }
    {
        let heads = (command.shows_tree() || command.lists_rows()) && end - choice.next > 1;
        Asked {
            rt,
            names,
            wish: Wish {
                command,
                edition: choice.edition,
                json: choice.json,
                strict: choice.strict,
                heads,
                spot: None,
            },
        }
    }

    // What is shown of the script in a file.
    fn show(self, path: &[u8], text: &[u8], line: &mut Line) -> Status {
        if self.wish.command == Command::Compare {
            return compare(self.names, path, text, line);
        }
        script(self.names, self.wish, path, text, line)
    }

    // The script in a file.
    fn file(self, path: &[u8], line: &mut Line) -> Status {
        let mut room = io::large_buffer();
        let large = b": file too large: a script has at most 65,536 bytes";
        match load(self.rt, path, large, &mut room) {
            Some(text) => written(self.show(path, text, line)),
            None => Status::Undone,
        }
    }

    // The listing in a file.
    fn listing(self, path: &[u8], line: &mut Line) -> Status {
        let mut room = listing_room();
        let large = b": file too large: a listing has at most 1,048,576 bytes";
        match load(self.rt, path, large, &mut room) {
            Some(text) => written(check_rows(self.wish.edition, self.wish.json, path, text, line)),
            None => Status::Undone,
        }
    }

    // The guard that argument i is.
    fn guarded(self, i: usize, line: &mut Line) -> Status {
        let mut room = io::large_buffer();
        match read(self.rt, i, &mut room) {
            Ok(text) => written(guard(self.names, self.wish.edition, text, line)),
            Err(_) => {
                complain(
                    b"guard",
                    b": text too large: a guard has at most 65,536 bytes",
                );
                Status::Undone
            }
        }
    }

    // The file that argument i names, or the guard that it is.
    fn argument(self, i: usize, line: &mut Line) -> Status {
        if let Some(Word::Flag(_)) = word_at(self.rt, i) {
            return refuse(
                self.rt,
                i,
                b": options stand before the files; see kaori help",
            );
        }
        if self.wish.command == Command::Guard {
            return self.guarded(i, line);
        }
        let mut room = io::buffer();
        match read(self.rt, i, &mut room) {
            Ok(path) if self.wish.command == Command::CheckRows => self.listing(path, line),
            Ok(path) => self.file(path, line),
            Err(error) => {
                fail(b"file name", error);
                Status::Undone
            }
        }
    }

    // What is said where there is no argument left.
    fn unnamed(self) -> Status {
        if self.wish.command == Command::Guard {
            complain(b"guard", b" takes a text; see kaori help");
        } else {
            complain(b"no file", b" is named; see kaori help");
        }
        Status::Undone
    }

    // The files, or guards, of the arguments from `first` up to `end`. The answer is the worst status.
    fn files(self, first: usize, end: usize) -> Status {
        if first >= end {
            return self.unnamed();
        }
        let mut line = Line::new();
        let mut status = Status::Good;
        for i in first..end {
            status = status.max(self.argument(i, &mut line));
            if status == Status::Stopped {
                return status;
            }
        }
        status
    }

    // What stands at the place that three arguments name: a file, a line and a column.
    fn place(self, first: usize, end: usize) -> Status
        requires { first ≤ end }
    {
        if end - first != 3 {
            complain(b"at", b" takes a file, a line and a column; see kaori help");
            return Status::Undone;
        }
        let spot = spot(self.rt, first + 1, first + 2);
        if spot.is_none() {
            return Status::Undone;
        }
        let there = Asked {
            wish: Wish { spot, ..self.wish },
            ..self
        };
        there.argument(first, &mut Line::new())
    }

    // What is asked for, of the arguments from `first` up to `end`.
    pub(crate) fn answer(self, first: usize, end: usize) -> Status
        requires { first ≤ end }
    {
        if self.wish.command == Command::At {
            return self.place(first, end);
        }
        self.files(first, end)
    }
}

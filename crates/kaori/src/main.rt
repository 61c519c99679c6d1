#![tactic(auto)]
// The command `kaori`, for those who write scripts: what a script reads as, what is wrong with it, what stands at a place of it, what the editions group differently, and what a guard reads as. And for
// those who write rows: whether they are those of a tree.
mod arguments;
mod asked;
mod builtin;
mod checked;
mod compare;
mod digits;
mod guard;
mod load;
mod options;
mod rooms;
mod script;
mod status;
mod wish;

ghost use Rattle.std.specs.Prelude.{◌≤◌, length};

use asked::{Asked, written_out};
use builtin::{Names, ROWS, list};
use load::{complain, fail, load};
use options::{Choice, Word, is_word, options, refuse, word_at};
use status::Status;
use token::editions;
use wish::Command;

// The text of `help`. It is one string, since each one is checked by itself.
const HELP: &[u8] = b"\
    kaori shows how Kaori reads a script.\n\
    \n\
    \x20 kaori check FILE ..         says what is wrong with a script, and where, and warns of what may not be meant\n\
    \x20 kaori tree FILE ..          shows each statement with its groups in parentheses, and its tree\n\
    \x20 kaori rows FILE ..          lists the rows of the tree, for programs\n\
    \x20 kaori all FILE ..           the tree and then the rows\n\
    \x20 kaori at FILE LINE COLUMN   shows what stands at a place, from the innermost node outward\n\
    \x20 kaori compare FILE ..       shows what editions 1 and 2 of Kaori group differently\n\
    \x20 kaori guard TEXT ..         shows what a guard reads as: one expression, with no ;\n\
    \x20 kaori check-rows FILE ..    says whether rows that another build wrote are those of a tree; FILE is one listing\n\
    \x20 kaori .. then ..            one after the other\n\
    \x20 kaori help                  this text; so do --help and -h\n\
    \x20 kaori --version             which kaori this is\n\
    \n\
    FILE is the name of a file, or - for standard input. Options stand before the command or right after it:\n\
    \n\
    \x20 --edition 2                 edition 2 of Kaori; without it, edition 1\n\
    \x20 --names FILE                built-in names, a line each in FILE; the tree marks them\n\
    \x20 --json                      of check, check-rows and tree: an object of JSON a line, for programs\n\
    \x20 --strict                    of check: a warning makes the exit status 1\n\
    \n\
    A script has at most 65,536 bytes and 4,095 tokens, and is nested at most 64 deep. There are at most 64 built-in names.\n\
    A listing is what rows prints of one script; it has at most 4,096 rows, 4,096 links and 4,160 symbols.\n\
    A byte that is no printed sign of ASCII is shown as \\x and two digits.\n\
    Exit status: 0 if all scripts and rows are good, 1 if one is not or the editions differ, 2 if a file cannot be read, has no such place, is no listing or lists no right names, or if what is shown cannot be written.\n";

const VERSION_LINE: &[u8] = b"kaori 1.0.0: the syntax of Kaori, editions 1 and 2\n";

// A command beside the names of a file, whose name and text these are.
fn run_named(
    rt: &HostRuntime,
    path: &[u8],
    text: &[u8],
    command: Command,
    choice: Choice,
    end: usize,
) -> Status
    requires { (length text.now ≤ 65536) × (choice.next ≤ end) }
{
    let mut rows = [0; ROWS];
    match list(path, text, &mut rows) {
        Some(names) => Asked::new(rt, names, command, choice, end).answer(choice.next, end),
        None => Status::Undone,
    }
}

// A command beside the names of the file that an argument names.
fn run_beside(
    rt: &HostRuntime,
    names: usize,
    command: Command,
    choice: Choice,
    end: usize,
) -> Status
    requires { choice.next ≤ end }
{
    let mut room = io::buffer();
    let path = match arguments::read(rt, names, &mut room) {
        Ok(path) => path,
        Err(error) => {
            fail(b"file name", error);
            return Status::Undone;
        }
    };
    let mut room = io::large_buffer();
    let large = b": file too large: built-in names have at most 65,536 bytes";
    match load(rt, path, large, &mut room) {
        Some(text) => run_named(rt, path, text, command, choice, end),
        None => Status::Undone,
    }
}

// Whether a command has its options, with a complaint where it has not.
fn takes(command: Command, choice: Choice) -> bool {
    if choice.json && !command.has_objects() {
        complain(
            b"--json",
            b" goes with check, check-rows or tree; see kaori help",
        );
        return false;
    }
    if choice.names.is_some() && command == Command::CheckRows {
        complain(b"--names", b" goes with scripts; see kaori help");
        return false;
    }
    if choice.strict && command != Command::Check {
        complain(b"--strict", b" goes with check; see kaori help");
        return false;
    }
    true
}

// A command that shows files or guards, with its options.
fn run(rt: &HostRuntime, command: Command, choice: Choice, end: usize) -> Status
    requires { choice.next ≤ end }
{
    if !takes(command, choice) {
        return Status::Undone;
    }
    match choice.names {
        Some(names) => run_beside(rt, names, command, choice, end),
        None => Asked::new(rt, Names::NONE, command, choice, end).answer(choice.next, end),
    }
}

// The command of the arguments from i up to `end`. Options stand before it or after it; help where there is none.
fn start(rt: &HostRuntime, i: usize, end: usize) -> Status
    requires { i ≤ end }
{
    let choice = Choice {
        edition: editions::FIRST,
        json: false,
        strict: false,
        names: None,
        next: i,
    };
    let Some(mut choice) = options(rt, choice, end) else {
        return Status::Undone;
    };
    if choice.next == end {
        return written_out(HELP);
    }
    let at = choice.next;
    choice.next += 1;
    match word_at(rt, at) {
        Some(Word::Command(command)) => match options(rt, choice, end) {
            Some(choice) => run(rt, command, choice, end),
            None => Status::Undone,
        },
        Some(Word::Help) => written_out(HELP),
        Some(Word::Version) => written_out(VERSION_LINE),
        _ => refuse(rt, at, b": no such command; see kaori help"),
    }
}

// Where the command ends that begins at argument i: at the next `then`, or after the last of n arguments.
fn end_from(rt: &HostRuntime, i: usize, n: usize) -> usize
    ensures { i ≤ result }
{
    for at in i..n {
        if is_word(rt, at, b"then") {
            return at;
        }
    }
    i.max(n)
}

// The commands from argument `first` on, with `then` between two. The answer is the worst status.
fn commands(rt: &HostRuntime, first: usize) -> Status {
    let n = arguments::count(rt);
    let mut end = end_from(rt, first, n);
    let mut status = start(rt, first, end);
    while end < n && status != Status::Stopped {
        let next = end + 1;
        end = end_from(rt, next, n);
        status = status.max(start(rt, next, end));
    }
    status
}

// A program answers no status. Where its first argument is `--status`, it writes the digit to descriptor 3 instead, for the script that starts it.
fn main(rt: HostRuntime) {
    if is_word(&rt, 1, b"--status") {
        io::write_all(3, commands(&rt, 2).digit());
    } else {
        commands(&rt, 1);
    }
}

// The words that an argument may be, and the options before and behind a command.
ghost use Rattle.std.specs.Prelude.{◌≡◌, ◌≤◌, ◌<◌, IfSome};

use crate::arguments::read;
use crate::load::{complain, fail};
use crate::status::Status;
use crate::wish::Command;
use token::editions;

// The options.
#[derive(Clone, Copy)]
pub(crate) enum Flag {
    Edition,
    Names,
    Json,
    Strict,
}

// The words that a command has.
#[derive(Clone, Copy)]
pub(crate) enum Word {
    Command(Command),
    Help,
    Version,
    Flag(Flag),
}

impl Word {
    // The word that these bytes are.
    fn of(bytes: &[u8]) -> Option<Self> {
        match bytes {
            b"check" => Some(Word::Command(Command::Check)),
            b"tree" => Some(Word::Command(Command::Tree)),
            b"rows" => Some(Word::Command(Command::Rows)),
            b"all" => Some(Word::Command(Command::All)),
            b"at" => Some(Word::Command(Command::At)),
            b"compare" => Some(Word::Command(Command::Compare)),
            b"guard" => Some(Word::Command(Command::Guard)),
            b"check-rows" => Some(Word::Command(Command::CheckRows)),
            b"help" | b"--help" | b"-h" => Some(Word::Help),
            b"--version" => Some(Word::Version),
            b"--edition" => Some(Word::Flag(Flag::Edition)),
            b"--names" => Some(Word::Flag(Flag::Names)),
            b"--json" => Some(Word::Flag(Flag::Json)),
            b"--strict" => Some(Word::Flag(Flag::Strict)),
            _ => None,
        }
    }
}

// The word that argument i is.
pub(crate) fn word_at(rt: &HostRuntime, i: usize) -> Option<Word> {
    let mut room = [0; 16];
    Word::of(read(rt, i, &mut room).ok()?)
}

// Whether argument i is this word.
pub(crate) fn is_word(rt: &HostRuntime, i: usize, word: &[u8]) -> bool {
    let mut room = [0; 16];
    match read(rt, i, &mut room) {
        Ok(bytes) => bytes == word,
        Err(_) => false,
    }
}

// What is said of argument i, where it has no place.
pub(crate) fn refuse(rt: &HostRuntime, i: usize, why: &[u8]) -> Status {
    let mut room = io::buffer();
    match read(rt, i, &mut room) {
        Ok(word) => complain(word, why),
        Err(error) => fail(b"word", error),
    }
    Status::Undone
}

// The options: the edition; whether what is shown is for programs, and whether warnings count; the argument that names the file of built-in names; and the argument that is next.
#[derive(Clone, Copy)]
pub(crate) struct Choice {
    pub(crate) edition: u32,
    pub(crate) json: bool,
    pub(crate) strict: bool,
    pub(crate) names: Option<usize>,
    pub(crate) next: usize,
}

// The edition that argument i names.
fn edition_at(rt: &HostRuntime, i: usize) -> Option<u32> {
    if is_word(rt, i, b"1") {
        return Some(editions::FIRST);
    }
    if is_word(rt, i, b"2") {
        return Some(editions::SECOND);
    }
    None
}

// The argument that is an option's value, with a complaint where there is none left.
fn value(choice: Choice, end: usize, option: &[u8], why: &[u8]) -> Option<usize>
    requires { choice.next ≤ end }
    ensures { IfSome result (λ i. (i ≡ choice.next) × (i < end)) }
{
    if choice.next < end {
        return Some(choice.next);
    }
    complain(option, why);
    None
}

// The options after the one that argument `next` is; none, with a complaint, where it is wrong.
fn option(rt: &HostRuntime, choice: Choice, flag: Flag, end: usize) -> Option<Choice>
    requires { choice.next < end }
    ensures { IfSome result (λ after. (choice.next < after.next) × (after.next ≤ end)) }
{
    let mut after = choice;
    after.next += 1;
    match flag {
        Flag::Json => after.json = true,
        Flag::Strict => after.strict = true,
        Flag::Names => {
            after.names = Some(value(after, end, b"--names", b" takes a file; see kaori help")?);
            after.next += 1;
        }
        Flag::Edition => {
            let why = b" takes 1 or 2; see kaori help";
            let Some(edition) = edition_at(rt, value(after, end, b"--edition", why)?) else {
                complain(b"--edition", why);
                return None;
            };
            after.edition = edition;
            after.next += 1;
        }
    }
    Some(after)
}

// The options that stand from argument `next` on, up to `end` or to any other word; none, with a complaint, where one is wrong.
pub(crate) fn options(rt: &HostRuntime, choice: Choice, end: usize) -> Option<Choice>
    requires { choice.next ≤ end }
    ensures { IfSome result (λ after. (choice.next ≤ after.next) × (after.next ≤ end)) }
{
    let mut now = choice;
    while now.next < end {
        let Some(Word::Flag(flag)) = word_at(rt, now.next) else {
            return Some(now);
        };
        now = option(rt, now, flag, end)?;
    }
    Some(now)
}

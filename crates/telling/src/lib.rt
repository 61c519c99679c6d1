#![tactic(auto)]
// What is said of a script or a guard that is refused: the place and the message, the line of the text, and below it what could have stood there and what is open.
mod could;
mod hints;
mod open;
mod report;
mod run;
mod seen;
mod tokens;

use could::show_could;
use expected::expected;
use hints::show_hint;
use open::show_open;
use page::Line;
use page::hint::Style;
use reading::codes;
use report::{is_of_tokens, put_why, report};
use seen::{seen_at, seen_in};
use syntax::Numbers;
use tokens::Script;

// How deep a script may be nested.
pub const DEPTH: u32 = 64;

// Says what could have stood at a token, and what is open there, where reading in an edition is refused; and a hint, if there is one.
fn tell_more(edition: u32, script: Script, a: Numbers, style: Style, line: &mut Line) {
    if !is_of_tokens(a.code) {
        show_hint(&seen_in(script.text, a.code, a.start as usize), style, line);
        return;
    }
    let told = expected(script.list, edition, DEPTH, a.code, a.at);
    let next = show_could(told.kinds, style, line);
    let all = a.code == codes::TOO_DEEP;
    let last = show_open(script, &told.chain, a.at, all, next, line);
    show_hint(&seen_at(script, a, told.kinds), last, line);
}

// Says what is wrong with a script that is refused in an edition.
pub fn tell(edition: u32, path: &[u8], text: &[u8], list: &[u32], a: Numbers, line: &mut Line) {
    let script = Script { text, list };
    report(path, script, a, line);
    tell_more(edition, script, a, Style::Lines, line);
}

// Says what is wrong with a guard. What could have stood there is told of scripts alone.
pub fn tell_guard(path: &[u8], text: &[u8], list: &[u32], a: Numbers, line: &mut Line) {
    report(path, Script { text, list }, a, line);
}

// The message as a string of JSON. It is made in a room of its own.
fn put_message(script: Script, a: Numbers, line: &mut Line) {
    let mut said = Line::new();
    put_why(script, a, &mut said);
    line.put_string(b",\"message\":", said.bytes());
}

// Says the same in one object of JSON, on a line of its own.
pub fn tell_json(
    edition: u32,
    path: &[u8],
    text: &[u8],
    list: &[u32],
    a: Numbers,
    line: &mut Line,
) {
    let script = Script { text, list };
    line.put_note(path, text, a.start, a.end, b"error");
    line.put_count(b",\"code\":", a.code);
    put_message(script, a, line);
    line.put(b",\"hints\":[");
    line.write();
    tell_more(edition, script, a, Style::First, line);
    line.put_line(b"]}");
}

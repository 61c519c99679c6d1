// What is said of a script that is refused: the place, the message, the line of the text, and a caret.
use crate::tokens::Script;
use diagnostics::Place;
use diagnostics::line::place;
use diagnostics::reason::reason;
use page::Line;
use reading::codes;
use syntax::Numbers;
use token::kinds;

// Whether reading the tokens is what is refused by this code.
pub(crate) fn is_of_tokens(code: u32) -> bool {
    matches!(code, codes::KIND_REQUIRED..=codes::TOO_DEEP)
}

// Where the caret stands: at the refused token, but at the end of the file after the last one.
fn caret_of(script: Script, a: Numbers) -> usize {
    let start = a.start as usize;
    if is_of_tokens(a.code) && script.kind(a.at) == kinds::EOF {
        return script.end_before(a.at).unwrap_or(start);
    }
    start
}

// The message of a refusal, as the library has it.
pub(crate) fn put_why(script: Script, a: Numbers, line: &mut Line) {
    let mut room = [0u8; 64];
    let told = reason(
        script.text,
        a.code,
        a.start,
        a.expected,
        script.kind(a.at),
        &mut room,
    );
    if let Some(message) = room.get(..told.length) {
        line.put(message);
    }
}

// Line and column of a place.
pub(crate) fn put_spot(here: Place, line: &mut Line) {
    line.put_number(here.line);
    line.put_byte(b':');
    line.put_number(here.column);
}

// The line of the text where the caret stands, with the caret below it.
fn show_caret(script: Script, a: Numbers, line: &mut Line) {
    let caret = caret_of(script, a);
    let there = place(script.text, caret);
    line.show_line(script.text, caret, there.column);
}

// Says what is wrong with the file `path`, and shows a line of it. A text that is too long, or that has too many tokens, has no place.
pub(crate) fn report(path: &[u8], script: Script, a: Numbers, line: &mut Line) {
    if a.code < 3 {
        line.put_path(path);
        line.put(b": ");
        put_why(script, a, line);
        line.end();
        return;
    }
    line.put_where(path, place(script.text, a.start as usize));
    put_why(script, a, line);
    line.end();
    show_caret(script, a, line);
}

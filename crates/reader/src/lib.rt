#![tactic(auto)]
// From a script's or a guard's text to its rows, in one call: the token maker, and what `parse_as` answers of the list that it makes. That list is right by proof, and is not
// checked again.
ghost use Rattle.grammar.specs.Builtin.{builtins as names_in, none};
ghost use Rattle.grammar.specs.Profile.{script as a-script, guard as a-guard};
ghost use Rattle.reader.specs.Answered.{Read};
ghost use Rattle.syntax.specs.Parsed.{rooms};
ghost use Rattle.token.specs.Profiled.{profiled};

use lexer::lex;
use syntax::{Numbers, parse_checked, refused};
use token::editions;
use token::profiles::Profile;

// Reads a text as a script or a guard, in an edition and beside built-in names (`parse_as`). `list` takes its tokens, three numbers each, and then zeros. Refusals 2, 5, 16
// and 1 of the token maker come first and leave the four rooms as they are; then `parse_as` answers, whose refusals 6 and 7 are never met.
// Ruled out: another edition or profile than the caller's; an answer of other tokens than those that the text reads as; a room that changes where no list is made.
pub fn read_as(
    names: &[u8],
    rows: &[u32],
    text: &[u8],
    list: &mut [u32],
    profile: Profile,
    edition: u32,
    limit: u32,
    nodes: &mut [u32],
    links: &mut [u32],
    symbols: &mut [u32],
    scratch: &mut [u32],
) -> Numbers
    ensures { Read (profiled profile) (names_in names.now rows.now) text.now edition limit list.old list.new (rooms nodes.old links.old symbols.old scratch.old) (rooms nodes.new links.new symbols.new scratch.new) result }
{
    let made = lex(text, list);
    if made.code != 0 {
        return refused(made.code, made.at, made.start, made.end, made.expected);
    }
    let used = 3 * (made.count as usize);
    parse_checked(
        names,
        rows,
        text,
        &list[..used],
        profile,
        edition,
        limit,
        nodes,
        links,
        symbols,
        scratch,
    )
}

// Reads a script's text in an edition beside built-in names: `read_as` of a script.
// Ruled out: a guard's answer; an answer of other tokens than those that the text reads as.
pub fn read_with(
    names: &[u8],
    rows: &[u32],
    text: &[u8],
    list: &mut [u32],
    edition: u32,
    limit: u32,
    nodes: &mut [u32],
    links: &mut [u32],
    symbols: &mut [u32],
    scratch: &mut [u32],
) -> Numbers
    ensures { Read a-script (names_in names.now rows.now) text.now edition limit list.old list.new (rooms nodes.old links.old symbols.old scratch.old) (rooms nodes.new links.new symbols.new scratch.new) result }
{
    read_as(
        names,
        rows,
        text,
        list,
        Profile::Script,
        edition,
        limit,
        nodes,
        links,
        symbols,
        scratch,
    )
}

// Reads a guard's text in an edition beside built-in names: `read_as` of a guard.
// Ruled out: a `;` behind the expression let through; a root behind its row.
pub fn read_guard_with(
    names: &[u8],
    rows: &[u32],
    text: &[u8],
    list: &mut [u32],
    edition: u32,
    limit: u32,
    nodes: &mut [u32],
    links: &mut [u32],
    symbols: &mut [u32],
    scratch: &mut [u32],
) -> Numbers
    ensures { Read a-guard (names_in names.now rows.now) text.now edition limit list.old list.new (rooms nodes.old links.old symbols.old scratch.old) (rooms nodes.new links.new symbols.new scratch.new) result }
{
    read_as(
        names,
        rows,
        text,
        list,
        Profile::Guard,
        edition,
        limit,
        nodes,
        links,
        symbols,
        scratch,
    )
}

// Reads a script's text in edition 1 beside no built-in names.
// Ruled out: an answer of other tokens than those that the text reads as; a room that changes where no list is made.
pub fn read(
    text: &[u8],
    list: &mut [u32],
    limit: u32,
    nodes: &mut [u32],
    links: &mut [u32],
    symbols: &mut [u32],
    scratch: &mut [u32],
) -> Numbers
    ensures { Read a-script none text.now 1 limit list.old list.new (rooms nodes.old links.old symbols.old scratch.old) (rooms nodes.new links.new symbols.new scratch.new) result }
{
    let names: [u8; 0] = [0; 0];
    let rows: [u32; 0] = [0; 0];
    read_with(
        &names,
        &rows,
        text,
        list,
        editions::FIRST,
        limit,
        nodes,
        links,
        symbols,
        scratch,
    )
}

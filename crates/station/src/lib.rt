#![tactic(auto)]
// What a station links: `parse_with`, `read_with` and the same of guards, those of scripts of edition 1 beside no names too, a station's scripts in one call, the message of a refusal and the text of any, what could
// have stood there, the line of a place, the place of a name, what stands below a row, whether rows that another build wrote keep the rules, and rows without some statements, for C and Rust to call, over numbers and slices alone.
// None has a `requires`. A slice is a pointer and a length to C, in this order.
ghost use Rattle.std.specs.Prelude.{◌≤◌, ◌≡◌, length};
ghost use Rattle.grammar.specs.Builtin.{builtins as names_in, none};
ghost use Rattle.grammar.specs.Profile.{script as a-script, guard as a-guard};
ghost use Rattle.ast.specs.Written.{Written};
ghost use Rattle.checker.specs.Verdict.{given};
ghost use Rattle.packing.specs.Answer.{asked};
ghost use Rattle.scripts.specs.Joined.{Source, AnswersAll, lent, joined};
ghost use Rattle.station.specs.Exports.{put, pairs, told, packed, Parses, ReadsText, Places, Writes, WritesReason, NamesPlace, TellsExpected, HasChild, HasPlaces, ChecksRows, Drops};
ghost use Rattle.syntax.specs.Parsed.{rooms};
ghost use Rattle.token.specs.Profiled.{profiled};

use checker::check;
use children::{below, child, places};
use diagnostics::line::place;
use diagnostics::reason::reason;
use diagnostics::text::message;
use expected::{Chain, Told, expected};
use packing::{Packed, drop};
use reader::read_as;
use scripts::{parse_scripts, read_scripts};
use syntax::parse_as;
use token::editions;
use token::profiles::Profile;

// Reads a script or a guard that is given as text and tokens: `parse_as`.
fn parsed(
    names: &[u8],
    rows: &[u32],
    text: &[u8],
    tokens: &[u32],
    profile: Profile,
    edition: u32,
    limit: u32,
    nodes: &mut [u32],
    links: &mut [u32],
    symbols: &mut [u32],
    scratch: &mut [u32],
    answer: &mut [u32],
) -> u32
    ensures { Parses (profiled profile) (names_in names.now rows.now) text.now tokens.now edition limit (rooms nodes.old links.old symbols.old scratch.old) answer.old (rooms nodes.new links.new symbols.new scratch.new) answer.new result }
{
    if answer.len() < 8 {
        return 13;
    }
    let a = parse_as(
        names, rows, text, tokens, profile, edition, limit, nodes, links, symbols, scratch,
    );
    scripts::put(a, answer);
    a.code
}

// Reads a script that is given as text and tokens, of an edition and beside built-in names: `parse_with`.
// Ruled out: a count of links in the place of the nodes'; a refusal's start and end in each other's place; rooms that are written where the answer has no room; the
// script's text in the place of the names'; another edition than the caller's.
#[unsafe(no_mangle)]
pub extern "C" fn kaori_parse_with(
    names: &[u8],
    rows: &[u32],
    text: &[u8],
    tokens: &[u32],
    edition: u32,
    limit: u32,
    nodes: &mut [u32],
    links: &mut [u32],
    symbols: &mut [u32],
    scratch: &mut [u32],
    answer: &mut [u32],
) -> u32
    ensures { Parses a-script (names_in names.now rows.now) text.now tokens.now edition limit (rooms nodes.old links.old symbols.old scratch.old) answer.old (rooms nodes.new links.new symbols.new scratch.new) answer.new result }
{
    parsed(
        names,
        rows,
        text,
        tokens,
        Profile::Script,
        edition,
        limit,
        nodes,
        links,
        symbols,
        scratch,
        answer,
    )
}

// Reads a guard that is given as text and tokens, of an edition and beside built-in names: `guard_with`.
// Ruled out: a script's answer, with its root; another edition than the caller's.
#[unsafe(no_mangle)]
pub extern "C" fn kaori_guard_with(
    names: &[u8],
    rows: &[u32],
    text: &[u8],
    tokens: &[u32],
    edition: u32,
    limit: u32,
    nodes: &mut [u32],
    links: &mut [u32],
    symbols: &mut [u32],
    scratch: &mut [u32],
    answer: &mut [u32],
) -> u32
    ensures { Parses a-guard (names_in names.now rows.now) text.now tokens.now edition limit (rooms nodes.old links.old symbols.old scratch.old) answer.old (rooms nodes.new links.new symbols.new scratch.new) answer.new result }
{
    parsed(
        names,
        rows,
        text,
        tokens,
        Profile::Guard,
        edition,
        limit,
        nodes,
        links,
        symbols,
        scratch,
        answer,
    )
}

// Reads a script of edition 1 that is given as text and tokens, beside no names.
// Ruled out: a reading as edition 2 has it; rooms that are written where the answer has no room.
#[unsafe(no_mangle)]
pub extern "C" fn kaori_parse(
    text: &[u8],
    tokens: &[u32],
    limit: u32,
    nodes: &mut [u32],
    links: &mut [u32],
    symbols: &mut [u32],
    scratch: &mut [u32],
    answer: &mut [u32],
) -> u32
    ensures { Parses a-script none text.now tokens.now 1 limit (rooms nodes.old links.old symbols.old scratch.old) answer.old (rooms nodes.new links.new symbols.new scratch.new) answer.new result }
{
    let names: [u8; 0] = [0; 0];
    let rows: [u32; 0] = [0; 0];
    kaori_parse_with(
        &names,
        &rows,
        text,
        tokens,
        editions::FIRST,
        limit,
        nodes,
        links,
        symbols,
        scratch,
        answer,
    )
}

// Reads a script or a guard that is given as text; `tokens` takes its token list: `read_as`.
fn read_text(
    names: &[u8],
    rows: &[u32],
    text: &[u8],
    tokens: &mut [u32],
    profile: Profile,
    edition: u32,
    limit: u32,
    nodes: &mut [u32],
    links: &mut [u32],
    symbols: &mut [u32],
    scratch: &mut [u32],
    answer: &mut [u32],
) -> u32
    ensures { ReadsText (profiled profile) (names_in names.now rows.now) text.now edition limit tokens.old (rooms nodes.old links.old symbols.old scratch.old) answer.old tokens.new (rooms nodes.new links.new symbols.new scratch.new) answer.new result }
{
    if answer.len() < 8 {
        return 13;
    }
    let a = read_as(
        names, rows, text, tokens, profile, edition, limit, nodes, links, symbols, scratch,
    );
    scripts::put(a, answer);
    a.code
}

// Reads a script that is given as text, of an edition and beside built-in names; `tokens` takes its token list: `read_with`.
// Ruled out: another edition or depth limit than the caller's; an answer that leaves the list as it was where the token maker made one; the script's text in the place
// of the names'; an answer beside no names.
#[unsafe(no_mangle)]
pub extern "C" fn kaori_read_with(
    names: &[u8],
    rows: &[u32],
    text: &[u8],
    tokens: &mut [u32],
    edition: u32,
    limit: u32,
    nodes: &mut [u32],
    links: &mut [u32],
    symbols: &mut [u32],
    scratch: &mut [u32],
    answer: &mut [u32],
) -> u32
    ensures { ReadsText a-script (names_in names.now rows.now) text.now edition limit tokens.old (rooms nodes.old links.old symbols.old scratch.old) answer.old tokens.new (rooms nodes.new links.new symbols.new scratch.new) answer.new result }
{
    read_text(
        names,
        rows,
        text,
        tokens,
        Profile::Script,
        edition,
        limit,
        nodes,
        links,
        symbols,
        scratch,
        answer,
    )
}

// Reads a guard that is given as text, of an edition and beside built-in names; `tokens` takes its token list: `read_guard_with`.
// Ruled out: a script's answer, with its root; an answer that leaves the list as it was where the token maker made one.
#[unsafe(no_mangle)]
pub extern "C" fn kaori_read_guard_with(
    names: &[u8],
    rows: &[u32],
    text: &[u8],
    tokens: &mut [u32],
    edition: u32,
    limit: u32,
    nodes: &mut [u32],
    links: &mut [u32],
    symbols: &mut [u32],
    scratch: &mut [u32],
    answer: &mut [u32],
) -> u32
    ensures { ReadsText a-guard (names_in names.now rows.now) text.now edition limit tokens.old (rooms nodes.old links.old symbols.old scratch.old) answer.old tokens.new (rooms nodes.new links.new symbols.new scratch.new) answer.new result }
{
    read_text(
        names,
        rows,
        text,
        tokens,
        Profile::Guard,
        edition,
        limit,
        nodes,
        links,
        symbols,
        scratch,
        answer,
    )
}

// Reads a script of edition 1 that is given as text, beside no names; `tokens` takes its token list.
// Ruled out: a reading as edition 2 has it; an answer that leaves the list as it was where the token maker made one.
#[unsafe(no_mangle)]
pub extern "C" fn kaori_read(
    text: &[u8],
    tokens: &mut [u32],
    limit: u32,
    nodes: &mut [u32],
    links: &mut [u32],
    symbols: &mut [u32],
    scratch: &mut [u32],
    answer: &mut [u32],
) -> u32
    ensures { ReadsText a-script none text.now 1 limit tokens.old (rooms nodes.old links.old symbols.old scratch.old) answer.old tokens.new (rooms nodes.new links.new symbols.new scratch.new) answer.new result }
{
    let names: [u8; 0] = [0; 0];
    let rows: [u32; 0] = [0; 0];
    kaori_read_with(
        &names,
        &rows,
        text,
        tokens,
        editions::FIRST,
        limit,
        nodes,
        links,
        symbols,
        scratch,
        answer,
    )
}

// Reads up to 32 scripts that are given as one joined text and one joined list of tokens: `parse_scripts`. Its code is 0 or 19, and each script's own stands in `answers`. There is no 13: too little
// room for the answers is 19, since they are among the rooms that document 02 has it for.
// Ruled out: how many numbers a part has in the place of its rows; a refused script's code as the value of the call.
#[unsafe(no_mangle)]
pub extern "C" fn kaori_parse_scripts(
    names: &[u8],
    rows: &[u32],
    text: &[u8],
    tokens: &[u32],
    cuts: &[u32],
    edition: u32,
    limit: u32,
    part: u32,
    nodes: &mut [u32],
    links: &mut [u32],
    symbols: &mut [u32],
    scratch: &mut [u32],
    answers: &mut [u32],
) -> u32
    ensures { AnswersAll Source.given (joined (names_in names.now rows.now) text.now cuts.now edition limit part (lent tokens.now nodes.old links.old symbols.old scratch.old answers.old)) result (lent tokens.now nodes.new links.new symbols.new scratch.new answers.new) }
{
    parse_scripts(
        names, rows, text, tokens, cuts, edition, limit, part, nodes, links, symbols, scratch,
        answers,
    )
}

// Reads up to 32 scripts that are given as one joined text; `list` takes each one's token list in its part: `read_scripts`. Its codes are those of `kaori_parse_scripts`.
// Ruled out: a list in another script's part; the depth limit in the place of the edition.
#[unsafe(no_mangle)]
pub extern "C" fn kaori_read_scripts(
    names: &[u8],
    rows: &[u32],
    text: &[u8],
    list: &mut [u32],
    cuts: &[u32],
    edition: u32,
    limit: u32,
    part: u32,
    nodes: &mut [u32],
    links: &mut [u32],
    symbols: &mut [u32],
    scratch: &mut [u32],
    answers: &mut [u32],
) -> u32
    ensures { AnswersAll Source.made (joined (names_in names.now rows.now) text.now cuts.now edition limit part (lent list.old nodes.old links.old symbols.old scratch.old answers.old)) result (lent list.new nodes.new links.new symbols.new scratch.new answers.new) }
{
    read_scripts(
        names, rows, text, list, cuts, edition, limit, part, nodes, links, symbols, scratch,
        answers,
    )
}

// Writes the text of a refusal at the start of a room and answers its length: `message`.
// Ruled out: the found kind in the place of the expected one; a length that is not the text's.
#[unsafe(no_mangle)]
pub extern "C" fn kaori_message(code: u32, expected: u32, found: u32, room: &mut [u8]) -> usize
    ensures { Writes code expected found room.old room.new result }
{
    let m = message(code, expected, found, room);
    m.length
}

// Writes the text of any refusal at the start of a room and answers its length: `reason`.
// Ruled out: the found kind in the place of the expected one; the refusal's code in the place of its start.
#[unsafe(no_mangle)]
pub extern "C" fn kaori_reason(
    text: &[u8],
    code: u32,
    start: u32,
    expected: u32,
    found: u32,
    room: &mut [u8],
) -> usize
    ensures { WritesReason text.now code start expected found room.old room.new result }
{
    let m = reason(text, code, start, expected, found, room);
    m.length
}

// The line and the column of an offset in a text: `place`.
// Ruled out: line and column in each other's place; a line where the offset is past the text.
#[unsafe(no_mangle)]
pub extern "C" fn kaori_place(text: &[u8], offset: usize, answer: &mut [u32]) -> u32
    ensures { Places text.now offset answer.old answer.new result }
{
    if answer.len() < 3 {
        return 13;
    }
    let p = place(text, offset);
    answer[0] = p.code;
    answer[1] = p.line;
    answer[2] = p.column;
    p.code
}

// The numbers of a name's place.
const NAME_PLACE: usize = 3;

// Where the name of a symbol starts and ends in its text, the built-in names' for a symbol below `built` and else the script's: `naming::place`.
// Ruled out: start and end in each other's place; the number of built-in names in the place of the symbols'.
#[unsafe(no_mangle)]
pub extern "C" fn kaori_name<'a>(
    names: &'a [u8],
    text: &'a [u8],
    symbols: &[u32],
    count: u32,
    built: u32,
    symbol: u32,
    answer: &mut [u32],
) -> u32
    ensures { NamesPlace names.now text.now symbols.now count built symbol answer.old answer.new result }
{
    if answer.len() < NAME_PLACE {
        return 13;
    }
    let p = naming::place(
        names,
        text,
        symbols,
        count as usize,
        built as usize,
        symbol as usize,
    );
    answer[0] = p.code;
    answer[1] = p.start;
    answer[2] = p.end;
    p.code
}

// What stands at a place below a row, in the order of the text: `children::child` of `children::below`.
// Ruled out: the node rows in the place of the links; the row in the place of the place.
#[unsafe(no_mangle)]
pub extern "C" fn kaori_child(nodes: &[u32], links: &[u32], row: u32, place: usize) -> u32
    ensures { HasChild nodes.now links.now row place result }
{
    let b = below(nodes, row);
    child(links, b, place)
}

// How many places there are below a row: `children::places` of `children::below`.
// Ruled out: how many children there are, where a place has none; none for a row that is not in the room.
#[unsafe(no_mangle)]
pub extern "C" fn kaori_children(nodes: &[u32], row: u32) -> usize
    ensures { HasPlaces nodes.now row result }
{
    let b = below(nodes, row);
    places(b)
}

// The numbers of what is told of a refusal: how many kinds, the lowest one and how many constructs are open, and then a sort and a token for each of 64.
const TOLD: usize = 131;

const TOLD_CHAIN: usize = 3;

// Puts the sorts and tokens of a chain where they stand in the room for what is told.
fn put_chain(chain: Chain, room: &mut [u32])
    requires in_bounds { 131 ≤ length room.old }
    requires entries_len { length chain.entries ≡ 64 }
    ensures { Written 3 131 (pairs chain.entries) room.old room.new }
{
    for (i, entry) in chain.entries.iter().enumerate() {
        room[TOLD_CHAIN + 2 * i] = entry.sort;
        room[TOLD_CHAIN + 2 * i + 1] = entry.at;
    }
}

// Puts the numbers of what is told at the start of a room.
fn put_told(t: Told, room: &mut [u32])
    requires in_bounds { 131 ≤ length room.old }
    requires count_bound { (t.chain.count ≤ 64) × (length t.chain.entries ≡ 64) }
    ensures { room.new ≡ put (told t) room.old }
{
    let chain = t.chain;
    room[0] = t.count;
    room[1] = t.lowest;
    room[2] = chain.count as u32;
    put_chain(chain, room);
}

// What could have stood at a token where reading is refused, and what was open there: `expected`. The set of kinds is the value of the call; the room is left as it was
// where it is too short for the rest.
// Ruled out: the sort and the token of a construct in each other's place; an empty set where the room is too short; the code in the place of the limit.
#[unsafe(no_mangle)]
pub extern "C" fn kaori_expected(
    tokens: &[u32],
    edition: u32,
    limit: u32,
    code: u32,
    at: u32,
    told: &mut [u32],
) -> u64
    ensures { TellsExpected tokens.now edition limit code at told.old told.new result }
{
    let t = expected(tokens, edition, limit, code, at);
    if told.len() < TOLD {
        return t.kinds;
    }
    put_told(t, told);
    t.kinds
}

// The numbers of a verdict.
const VERDICT: usize = 3;

// Whether rows that another build wrote keep the rules, in an edition: `checker::check`.
// Ruled out: the rule and the row in each other's place; the count of links in the place of the symbols'; marks that are made where the answer has no room.
#[unsafe(no_mangle)]
pub extern "C" fn kaori_check(
    nodes: &[u32],
    links: &[u32],
    symbols: &[u32],
    n: u32,
    m: u32,
    s: u32,
    edition: u32,
    scratch: &mut [u32],
    answer: &mut [u32],
) -> u32
    ensures { ChecksRows (given edition n m s (rooms nodes.now links.now symbols.now scratch.old)) answer.old (rooms nodes.now links.now symbols.now scratch.new) answer.new result }
{
    if answer.len() < VERDICT {
        return 13;
    }
    let v = check(nodes, links, symbols, n, m, s, edition, scratch);
    answer[0] = v.code;
    answer[1] = v.rule;
    answer[2] = v.row;
    v.code
}

// The numbers of what is told of packed rows.
const PACKED: usize = 6;

// Puts the six numbers of such an answer at the start of a room.
fn put_packed(p: Packed, room: &mut [u32])
    requires { 6 ≤ length room.old }
    ensures { room.new ≡ put (packed p) room.old }
{
    room[0] = p.code;
    room[1] = p.nodes;
    room[2] = p.links;
    room[3] = p.symbols;
    room[4] = p.rule;
    room[5] = p.row;
}

// Keeps those of a script's statements whose number in the choice is not 0: `packing::drop`.
// Ruled out: the count of links in the place of the symbols'; the edition in the place of the built-in names' number; rows that are packed where the answer has no room.
#[unsafe(no_mangle)]
pub extern "C" fn kaori_drop(
    nodes: &mut [u32],
    links: &mut [u32],
    symbols: &mut [u32],
    n: u32,
    m: u32,
    s: u32,
    builtins: u32,
    edition: u32,
    choice: &[u8],
    scratch: &mut [u32],
    answer: &mut [u32],
) -> u32
    ensures { Drops (asked n m s builtins edition choice.now (rooms nodes.old links.old symbols.old scratch.old)) answer.old (rooms nodes.new links.new symbols.new scratch.new) answer.new result }
{
    if answer.len() < PACKED {
        return 13;
    }
    let p = drop(
        nodes, links, symbols, n, m, s, builtins, edition, choice, scratch,
    );
    put_packed(p, answer);
    p.code
}

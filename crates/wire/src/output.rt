// The output of the program `rows`: the lines of an answer.
ghost use Rattle.std.specs.Prelude.{◌≡◌, ◌+◌, ◌*◌, ◌≤◌, length};
ghost use Rattle.diagnostics.specs.Message.{text_of};
ghost use Rattle.grammar.specs.Token.{kind};
ghost use Rattle.spelling.specs.Display.{Put};
ghost use Rattle.wire.specs.Number.{decimal as Number·decimal};
ghost use Rattle.wire.specs.Printed.{fields, line as Printed·line, row as Printed·row, rows as Printed·rows, listed as Printed·listed, refused as Printed·refused};
ghost use Rattle.wire.specs.Lines.{PutWithin, Line, Lines, Listing, line_size};

use diagnostics::text::message;
use itoa::Buffer;
use spelling::display::put;

// A number in decimal. One digit, as most numbers have, is put by itself: what the library makes of it costs three times as much.
fn decimal(n: u32, room: &mut [u8], at: usize) -> usize
    requires { at + length (Number·decimal n) ≤ length room.old }
    ensures { Put (Number·decimal n) at room.old room.new result }
{
    if n < 10 {
        return put(&[b'0' + n as u8], room, at);
    }
    put(Buffer::new().format(n).as_bytes(), room, at)
}

// A room and a place stay two parameters, here and below: `put`, `numbers` and `row`, which other crates call, take the two and answer the next place.
// Numbers, each after a blank. It asks for 11 bytes of room for each from `at` on.
// Ruled out: a number without its blank; a byte before `at` that changes.
pub fn numbers(values: &[u32], room: &mut [u8], at: usize) -> usize
    requires { at + 11 * length values.now ≤ length room.old }
    ensures { PutWithin (11 * length values.now) (fields values.now) at room.old room.new result }
{
    let mut k = at;
    for value in values {
        let blank = put(b" ", room, k);
        k = decimal(*value, room, blank);
    }
    k
}

// A line: its lead, and numbers.
fn line(lead: &[u8], values: &[u32], room: &mut [u8], at: usize) -> usize
    requires { at + (length lead.now + 11 * length values.now + 1) ≤ length room.old }
    ensures { PutWithin (length lead.now + 11 * length values.now + 1) (Printed·line lead.now values.now) at room.old room.new result }
{
    let a = put(lead, room, at);
    let b = numbers(values, room, a);
    put(b"\n", room, b)
}

// The line of a row. It asks that the row is there and its number fits 32 bits, that it has at most ten numbers and a lead of at most five bytes, and for 128
// bytes of room from `at` on (`Line`).
// Ruled out: the row's number counted from 1; a line without its newline.
pub fn row(lead: &[u8], width: usize, source: &[u32], i: usize, room: &mut [u8], at: usize) -> usize
    requires { Line lead.now width source.now i room.old at }
    ensures { PutWithin line_size (Printed·row lead.now width source.now i) at room.old room.new result }
{
    let from = width * i;
    let to = from + width;
    let a = put(lead, room, at);
    let b = decimal(i as u32, room, a);
    let c = numbers(&source[from..to], room, b);
    put(b"\n", room, c)
}

// The lines of the first n rows.
fn rows(lead: &[u8], width: usize, source: &[u32], n: usize, room: &mut [u8], at: usize) -> usize
    requires { Lines lead.now width source.now n room.old at }
    ensures { PutWithin (line_size * n) (Printed·rows lead.now width source.now n) at room.old room.new result }
{
    let mut k = at;
    for i in 0..n {
        k = row(lead, width, source, i, room, k);
    }
    k
}

// What is printed for a success, at the start of a room. It asks for at most 512 rows of each sort, all there, and a room of 262,144 bytes (`Listing`).
// Ruled out: rows that are counted from 1; the counts in another order.
pub fn listed(
    nodes: &[u32],
    links: &[u32],
    symbols: &[u32],
    n: u32,
    l: u32,
    s: u32,
    room: &mut [u8],
) -> usize
    requires { Listing n l s nodes.now links.now symbols.now room.old }
    ensures { Put (Printed·listed n l s nodes.now links.now symbols.now) 0 room.old room.new result }
{
    let counts = [n, l, s];
    let a = line(b"ok", &counts, room, 0);
    let b = rows(b"", 10, nodes, n as usize, room, a);
    let c = rows(b"link ", 3, links, l as usize, room, b);
    rows(b"sym ", 2, symbols, s as usize, room, c)
}

// The kind of the token at a place; 0 where there is none, whose refusals have no message.
// Ruled out: the kind of the token before it; a kind that is not 0 past the list.
pub fn found(tokens: &[u32], at: u32) -> u32
    ensures { result ≡ kind tokens.now at }
{
    tokens.get(3 * (at as usize)).copied().unwrap_or(0)
}

// The message of a refusal.
fn told(code: u32, expected: u32, found: u32, room: &mut [u8], at: usize) -> usize
    requires { at + 52 ≤ length room.old }
    ensures { Put (text_of code expected found) at room.old room.new result }
{
    at + message(code, expected, found, &mut room[at..]).length
}

// What is printed for a refusal, at the start of a room. It asks for a room of 256 bytes.
// Ruled out: the line of a message that is empty left out; the message of the token after the place.
pub fn refused(
    tokens: &[u32],
    code: u32,
    at: u32,
    start: u32,
    end: u32,
    expected: u32,
    room: &mut [u8],
) -> usize
    requires { 256 ≤ length room.old }
    ensures { Put (Printed·refused code at start end expected (kind tokens.now at)) 0 room.old room.new result }
{
    let place = [code, at, start, end, expected];
    let a = line(b"refused", &place, room, 0);
    let end_of_text = told(code, expected, found(tokens, at), room, a);
    put(b"\n", room, end_of_text)
}

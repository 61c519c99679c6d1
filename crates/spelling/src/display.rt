// Port of `impl fmt::Display for Token`, document 002: the names of the kinds, which are written into a lent room. A kind stays the number that the C interface has in a token's row,
// and a name is no `impl Display`, which would need a type for kinds.
ghost use Rattle.std.specs.Prelude.{◌≡◌, ◌+◌, ◌≤◌, length};
ghost use Rattle.grammar.specs.Kind.{NumberLiteral, Semicolon, Eof};
ghost use Rattle.grammar.specs.Lexeme.{spelling};
ghost use Rattle.spelling.specs.Display.{display, Put};

use crate::{spelling_of, words};

// Copies the bytes of `part` into a room from a place on, and answers the place after them. It asks that they fit.
// Ruled out: a byte of the room before `at` or after the part changed; a byte of the part left out.
pub fn put(part: &[u8], room: &mut [u8], at: usize) -> usize
    requires { at + length part.now ≤ length room.old }
    ensures { Put part.now at room.old room.new result }
{
    let end = at + part.len();
    room[at..end].copy_from_slice(part);
    end
}

// Copies the name of a kind so: the spelling between backquotes, where the kind has one. It asks for a kind up to 44, and that the name fits.
// Ruled out: the name of another kind, as by the order of `Display`'s arms, which is not that of the kinds; the spelling without backquotes.
pub fn put_name(kind: u32, room: &mut [u8], at: usize) -> usize
    requires { (kind ≤ Eof) × (at + length (display kind) ≤ length room.old) }
    ensures { Put (display kind) at room.old room.new result }
{
    match kind {
        40 => put(b"<number literal>", room, at),
        42 => put(b"<string literal>", room, at),
        43 => put(b"<identifier>", room, at),
        44 => put(b"<end of file>", room, at),
        _ => put_quoted(kind, room, at),
    }
}

// The name of a kind that has a spelling.
fn put_quoted(kind: u32, room: &mut [u8], at: usize) -> usize
    requires { (kind ≤ Semicolon) × (kind ≡ NumberLiteral → ⊥) × (at + length (display kind) ≤ length room.old) }
    ensures { Put (display kind) at room.old room.new result }
{
    let opened = put(b"`", room, at);
    let spelt = put_spelling(kind, room, opened);
    put(b"`", room, spelt)
}

// The spelling of a kind.
fn put_spelling(kind: u32, room: &mut [u8], at: usize) -> usize
    requires { (kind ≤ Semicolon) × (at + length (spelling kind) ≤ length room.old) }
    ensures { Put (spelling kind) at room.old room.new result }
{
    put(spelling_of(&words(), kind), room, at)
}

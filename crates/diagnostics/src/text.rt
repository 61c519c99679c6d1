// The texts of refusals 8 to 11: those of parser.rs for 8 and 9, with token.rs's names of the kinds; the others are added.
ghost use Rattle.std.specs.Prelude.{◌≤◌, length};
ghost use Rattle.spelling.specs.Display.{Put};
ghost use Rattle.diagnostics.specs.Message.{text_of, MessageGiven};

use crate::Message;
use spelling::display::{put, put_name};

// Writes the text of a refusal at the start of a room, which has to have 52 bytes whatever the text's length; no text for a code but 8 to 11, nor where a kind that
// the text names is over 44.
// Ruled out: a text in a room of 51 bytes, even where it would fit; the name of the expected kind in the text of 9; a byte past the text changed.
pub fn message(code: u32, expected: u32, found: u32, room: &mut [u8]) -> Message
    ensures { MessageGiven code expected found room.old room.new result }
{
    if room.len() < 52 {
        return Message {
            code: 13,
            length: 0,
        };
    }
    let length = text(code, expected, found, room);
    Message { code: 0, length }
}

// The text of a refusal by its code, and its length; none for any other code.
fn text(code: u32, expected: u32, found: u32, room: &mut [u8]) -> usize
    requires { 52 ≤ length room.old }
    ensures { Put (text_of code expected found) 0 room.old room.new result }
{
    match code {
        8 => required(expected, found, room),
        9 => operand(found, room),
        10 => put(b"for is not supported", room, 0),
        11 => put(b"nested too deep", room, 0),
        _ => 0,
    }
}

// Refusal 8: one certain kind was required.
fn required(expected: u32, found: u32, room: &mut [u8]) -> usize
    requires { 52 ≤ length room.old }
    ensures { Put (text_of 8 expected found) 0 room.old room.new result }
{
    if expected > 44 || found > 44 {
        return 0;
    }
    let a = put(b"expected ", room, 0);
    let b = put_name(expected, room, a);
    let c = put(b" and found ", room, b);
    put_name(found, room, c)
}

// Refusal 9: an operand was required. The text does not depend on the expected kind, so 0 stands for it in the contract.
fn operand(found: u32, room: &mut [u8]) -> usize
    requires { 52 ≤ length room.old }
    ensures { Put (text_of 9 0 found) 0 room.old room.new result }
{
    if found > 44 {
        return 0;
    }
    let a = put(b"expected a <operand> and found: ", room, 0);
    put_name(found, room, a)
}

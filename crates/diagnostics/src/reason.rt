// The text of every refusal that a caller of the reader can meet: that of `message` for 8 to 11, and for any other code one of a table.
ghost use Rattle.std.specs.Prelude.{◌+◌, ◌≤◌, ◌≡◌, length};
ghost use Rattle.grammar.specs.Pattern.{from_to};
ghost use Rattle.spelling.specs.Display.{Put};
ghost use Rattle.diagnostics.specs.Reason.{last, tabled, begins, PlacedAt, ReasonGiven};

use crate::Message;
use crate::text::message;
use spelling::display::put;

// Codes are numbers, and no enum: the C interface takes any u32 (station's `kaori_reason`; `ReasonGiven`).
// The texts one after the other: those of the codes, and then that of a string that is not closed. One table is checked faster than an arm with bytes of its own for each
// code.
static TEXTS: [u8; 603] = *b"\
    too many tokens: a script has at most 4,095\
    file too large: a script has at most 65,536 bytes\
    the depth limit is not from 1 to 64\
    too little room for the rows\
    a byte that is not ASCII\
    a token whose kind, place or text is wrong\
    the end of the file is not the last token alone\
    too little room for the answer\
    a place past the end of the text\
    no such row or name\
    no token starts here\
    a guard has no {, if, | or #\
    the built-in names are wrong\
    the scripts' count, cuts or rooms are wrong\
    the choice's length is not the statement count\
    the edition is neither 1 nor 2\
    the rows are not those of a tree\
    a string that is not closed";

// Where the text of each code up to 22 starts, and then that of a string; and where they end. That of a code without one starts where the next does.
static STARTS: [u16; 25] = [
    0, 0, 43, 92, 127, 155, 179, 221, 268, 268, 268, 268, 268, 268, 298, 330, 349, 369, 397, 425,
    468, 514, 544, 576, 603,
];

// The place of the string's text in the table, and of no text.
const STRING: usize = 23;

const NONE: usize = 0;

const LAST_CODE: u32 = 22;

const NO_TOKEN: u32 = 16;

// Writes the text of a refusal at the start of a room, which has to have 52 bytes whatever the text's length: that of `message` for codes 8 to 11, and for any other code
// that a caller can meet a text of its own. Of 16 it depends on the byte at `start`: a quote has opened a string that is not closed.
// Ruled out: the two texts of 16 in each other's place; a text for a number that is no code; a text in a room of 51 bytes, even where it would fit.
pub fn reason(
    text: &[u8],
    code: u32,
    start: u32,
    expected: u32,
    found: u32,
    room: &mut [u8],
) -> Message
    ensures { ReasonGiven text.now code start expected found room.old room.new result }
{
    if has_message(code) {
        return message(code, expected, found, room);
    }
    if room.len() < 52 {
        return Message {
            code: 13,
            length: 0,
        };
    }
    let length = put_tabled(which(text, code, start), room);
    Message { code: 0, length }
}

// Whether `message` has the text of a code.
fn has_message(code: u32) -> bool
    ensures { result ≡ from_to 8 11 code }
{
    matches!(code, 8..=11)
}

// Where in the table the text of a code stands.
fn which(text: &[u8], code: u32, start: u32) -> usize
    ensures { PlacedAt text.now code start result }
{
    match code {
        NO_TOKEN => {
            if text.get(start as usize) == Some(&b'"') {
                STRING
            } else {
                code as usize
            }
        }
        0..=LAST_CODE => code as usize,
        _ => NONE,
    }
}

// Where the text at a place of the table starts; after the last place, where the table ends.
fn start_of(i: usize) -> usize
    requires { i ≤ last + 1 }
    ensures { result ≡ begins i }
{
    usize::from(STARTS[i])
}

// The text at a place of the table.
fn put_tabled(i: usize, room: &mut [u8]) -> usize
    requires { (i ≤ last) × (52 ≤ length room.old) }
    ensures { Put (tabled i) 0 room.old room.new result }
{
    let from = start_of(i);
    let upto = start_of(i + 1);
    put(&TEXTS[from..upto], room, 0)
}

// The lines of a listing. Each function answers the text after what it reads, or nothing where something else stands there.
ghost use Rattle.std.specs.Prelude.{◌≡◌, ◌*◌, ◌+◌, ◌≤◌, length, IfSome, IfOk, IfErr};

use crate::digits::number;
use crate::{Fault, Wrong};

// Numbers, each after a blank, into a list.
fn numbers<'a>(text: &'a [u8], list: &mut [u32]) -> Option<&'a [u8]>
    ensures { IfSome result (λ left. length left.now ≤ length text.now) }
{
    let mut left = text;
    for x in list.iter_mut() {
        let (value, rest) = number(left.strip_prefix(b" ")?)?;
        *x = value;
        left = rest;
    }
    Some(left)
}

// Numbers up to the end of a line: a newline, or a return and a newline.
fn rest<'a>(text: &'a [u8], list: &mut [u32]) -> Option<&'a [u8]>
    ensures { IfSome result (λ left. length left.now ≤ length text.now) }
{
    let end = numbers(text, list)?;
    end.strip_prefix(b"\n").or(end.strip_prefix(b"\r\n"))
}

// The first line: `ok`, and three counts.
pub(crate) fn counts<'a>(text: &'a [u8], list: &mut [u32; 3]) -> Option<&'a [u8]>
    ensures { IfSome result (λ left. length left.now ≤ length text.now) }
{
    rest(text.strip_prefix(b"ok")?, list)
}

// The line of row i: its lead, its number, and those of the row.
fn row<'a>(text: &'a [u8], lead: &[u8], i: u32, list: &mut [u32]) -> Option<&'a [u8]>
    ensures { IfSome result (λ left. length left.now ≤ length text.now) }
{
    match number(text.strip_prefix(lead)?)? {
        (own, after) if own == i => rest(after, list),
        _ => None,
    }
}

// What is wrong at row i behind so many lines, where a text is left.
pub(crate) fn at_row(fault: Fault, before: u32, i: u32, left: &[u8]) -> Wrong
    requires { before + i ≤ 20000 }
    ensures { result.row ≡ i }
{
    Wrong {
        fault,
        line: 1 + before + i,
        row: i,
        ends: left.is_empty(),
    }
}

// The lines of n rows into a room, behind so many lines.
pub(crate) fn rows<'a>(
    text: &'a [u8],
    lead: &[u8],
    width: usize,
    n: u32,
    room: &mut [u32],
    fault: Fault,
    before: u32,
) -> Result<&'a [u8], Wrong>
    requires { (width * n ≤ length room.old) × (before + n ≤ 20000) }
    ensures left { IfOk result (λ left. length left.now ≤ length text.now) }
    ensures row { IfErr result (λ wrong. wrong.row ≤ n) }
{
    let mut left = text;
    for i in 0..n {
        let first = width * i as usize;
        let Some(next) = row(left, lead, i, &mut room[first..first + width]) else {
            return Err(at_row(fault, before, i, left));
        };
        left = next;
    }
    Ok(left)
}

// A number in decimal.
ghost use Rattle.std.specs.Prelude.{◌≤◌, length, IfSome};

// The number of all digits that a text starts with, and the text after them; none where there is no digit, or where the number takes more than 32 bits.
// Ruled out: more text than there was.
pub fn number(text: &[u8]) -> Option<(u32, &[u8])>
    ensures { IfSome result (λ it. length it.1.now ≤ length text.now) }
{
    let mut value: u32 = 0;
    let mut rest = text;
    while let [digit @ b'0'..=b'9', after @ ..] = rest {
        value = value.checked_mul(10)?.checked_add((*digit - b'0') as u32)?;
        rest = after;
    }
    if rest.len() == text.len() {
        return None;
    }
    Some((value, rest))
}

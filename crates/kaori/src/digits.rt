// The number that an argument writes.
use listed::digits::number;

// The number from 1 to 999,999,999 that a word writes in decimal; none for any other word.
pub(crate) fn decimal(word: &[u8]) -> Option<u32> {
    match number(word) {
        Some((value @ 1..=999999999, [])) => Some(value),
        _ => None,
    }
}

// A script: its text and its tokens.
use token::kinds;
use wire::output::found;

// The text, and the list of its tokens: three numbers each, which are its kind and where it starts and ends.
#[derive(Clone, Copy)]
pub struct Script<'a> {
    pub text: &'a [u8],
    pub list: &'a [u32],
}

impl<'a> Script<'a> {
    // The kind of a token.
    pub(crate) fn kind(self, token: u32) -> u32 {
        found(self.list, token)
    }

    // The kind of the token that stands so many before another.
    pub(crate) fn before(self, token: u32, back: u32) -> Option<u32> {
        let other = token.checked_sub(back)?;
        Some(self.kind(other))
    }

    // Where a token starts.
    pub(crate) fn start(self, token: u32) -> Option<usize> {
        let start = self.list.get(3 * token as usize + 1)?;
        Some(*start as usize)
    }

    // Where the token starts that stands so many before another.
    pub(crate) fn start_before(self, token: u32, back: u32) -> Option<usize> {
        self.start(token.checked_sub(back)?)
    }

    // Where the token before another ends.
    pub(crate) fn end_before(self, token: u32) -> Option<usize> {
        let last = token.checked_sub(1)?;
        let end = self.list.get(3 * last as usize + 2)?;
        Some(*end as usize)
    }

    // The bracket that a closing one would close: the last of its sort before it that is open there.
    pub(crate) fn opener_of(self, token: u32, opener: u32, closer: u32) -> Option<u32> {
        let mut closed: u32 = 0;
        for t in (0..token).rev() {
            let kind = self.kind(t);
            if kind == closer {
                closed = closed.saturating_add(1);
            } else if kind == opener {
                if closed == 0 {
                    return Some(t);
                }
                closed -= 1;
            }
        }
        None
    }

    // The `{` that a `}` would close.
    pub(crate) fn brace_of(self, token: u32) -> Option<u32> {
        self.opener_of(token, kinds::LEFT_BRACE, kinds::RIGHT_BRACE)
    }

    // The `(` that a `)` would close.
    pub(crate) fn parenthesis_of(self, token: u32) -> Option<u32> {
        self.opener_of(token, kinds::LEFT_PAREN, kinds::RIGHT_PAREN)
    }
}

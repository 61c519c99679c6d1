// What has been done, from good to bad.

// `Undone`: a file cannot be read, has no such place, is no listing or lists no right names, or the arguments are no command. `Stopped`: what is shown cannot be written, and
// nothing more is done. Either is 2 to whoever started the program.
#[derive(Clone, Copy, PartialEq, Eq, PartialOrd, Ord)]
pub(crate) enum Status {
    Good,
    Refused,
    Undone,
    Stopped,
}

impl Status {
    // Its digit.
    pub(crate) fn digit(self) -> &'static [u8] {
        match self {
            Status::Good => b"0",
            Status::Refused => b"1",
            Status::Undone | Status::Stopped => b"2",
        }
    }
}

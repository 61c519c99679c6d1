// What is asked for: a command with its options.

// The commands that show scripts, guards or listings.
#[derive(Clone, Copy, PartialEq, Eq)]
pub(crate) enum Command {
    Check,
    Tree,
    Rows,
    All,
    At,
    Compare,
    Guard,
    CheckRows,
}

impl Command {
    // Whether it shows objects of JSON, where that is asked for.
    pub(crate) fn has_objects(self) -> bool {
        matches!(self, Command::Check | Command::CheckRows | Command::Tree)
    }

    // Whether it shows statements with their trees.
    pub(crate) fn shows_tree(self) -> bool {
        matches!(self, Command::Tree | Command::All)
    }

    // Whether it lists rows.
    pub(crate) fn lists_rows(self) -> bool {
        matches!(self, Command::Rows | Command::All)
    }
}

// A line and a column of a text, from 1 on.
#[derive(Clone, Copy)]
pub(crate) struct Spot {
    pub(crate) line: u32,
    pub(crate) column: u32,
}

// The command; the edition; whether what is shown is for a program to read; whether a warning counts; whether the names of files stand above what is shown of them; and the place
// of which it is asked what stands there.
#[derive(Clone, Copy)]
pub(crate) struct Wish {
    pub(crate) command: Command,
    pub(crate) edition: u32,
    pub(crate) json: bool,
    pub(crate) strict: bool,
    pub(crate) heads: bool,
    pub(crate) spot: Option<Spot>,
}

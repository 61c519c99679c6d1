// Where rows, lists and symbols go.
ghost use Rattle.std.specs.Prelude.{◌<◌, false, cond, ◌≡◌, eqb, length, get_or};
ghost use Rattle.grammar.specs.Handle.{absent};
ghost use Rattle.parts.specs.Moved.{moved_node};
ghost use Rattle.packing.specs.Digits.{digit};
ghost use Rattle.packing.specs.Roles.{number_moved};
ghost use Rattle.packing.specs.Rows.{known_as, MovesNumber, MovesLink};
ghost use Rattle.packing.specs.Seen.{maps_of, moves_of};

use crate::roles::Role;
use ast::ABSENT;

// Two parts of the lent room: a number for each symbol, 0 where it is not known and else its new number and one more, and the new number of each node row; how many symbols
// are left; and from which link a row's lists go to which.
#[derive(Clone, Copy)]
pub struct Maps<'a> {
    pub words: &'a [u32],
    pub places: &'a [u32],
    pub symbols: u32,
    pub from: usize,
    pub to: usize,
}

impl<'a> Maps<'a> {
    // A row's new number, or absent.
    fn row(self, x: u32) -> u32
        requires { (eqb x absent ≡ false) → x < length self.places.now }
        ensures { result ≡ cond (eqb x absent) absent (get_or self.entry.places.now x 0) }
    {
        if x == ABSENT {
            return ABSENT;
        }
        self.places[x as usize]
    }

    // A symbol's new number.
    // Ruled out: its old number; one too many.
    fn symbol(self, x: u32) -> u32
        requires { x < length self.words.now }
        ensures { result ≡ known_as self.entry.words.now self.entry.symbols x }
    {
        self.words[x as usize]
            .checked_sub(1)
            .unwrap_or(self.symbols)
    }

    // A number of a row, by its role.
    // Ruled out: a list's old place; a row's old number.
    pub(crate) fn number(self, role: Role, x: u32) -> u32
        requires { MovesNumber (maps_of self) (digit role) x }
        ensures { result ≡ number_moved (moves_of self.entry) (digit role) x }
    {
        match role {
            Role::Plain => x,
            Role::Child => self.row(x),
            Role::Letters | Role::Name => self.symbol(x),
            Role::Nodes | Role::Names | Role::Entries => (x as usize - self.from + self.to) as u32,
        }
    }

    // The first number of a link row: a name's symbol, or a row.
    pub(crate) fn link_first(self, role: Role, x: u32) -> u32
        requires { MovesLink (maps_of self) (digit role) x }
        ensures { result ≡ cond (eqb (digit role) 5) ((moves_of self.entry).symbol x) (moved_node (moves_of self.entry) x) }
    {
        match role {
            Role::Names => self.symbol(x),
            _ => self.row(x),
        }
    }

    // And the second: a value's row, or a number that stays.
    pub(crate) fn link_second(self, role: Role, y: u32) -> u32
        requires { digit role ≡ 6 → MovesLink (maps_of self) 6 y }
        ensures { result ≡ cond (eqb (digit role) 6) (moved_node (moves_of self.entry) y) y }
    {
        match role {
            Role::Entries => self.row(y),
            _ => y,
        }
    }
}

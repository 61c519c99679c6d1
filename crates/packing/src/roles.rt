// What each of a node row's ten numbers is, by the row's kind.
ghost use Rattle.std.specs.Prelude.{◌≤◌, ◌<◌, ◌≡◌, ◌↔◌, IsTrue};
ghost use Rattle.packing.specs.Digits.{digit};
ghost use Rattle.packing.specs.Roles.{role, all_roles};

use ast::kinds;

// What a number of a row is.
#[derive(Clone, Copy)]
pub(crate) enum Role {
    // A number that stays.
    Plain,
    // A row, or absent.
    Child,
    // A string's symbol.
    Letters,
    // A name's symbol, with its place behind it.
    Name,
    // The first link row of a list, with its count behind it: of rows, of names, of keys with values.
    Nodes,
    Names,
    Entries,
}

impl Role {
    // The role of number j of a row of this kind.
    // Ruled out: the role of the number before; a parent that stays where it was.
    pub(crate) fn at(kind: u32, j: usize) -> Role
        requires { (1 ≤ kind) × (kind ≤ 26) × (j < 10) }
        ensures { digit result ≡ role kind j }
    {
        let digits = 3 * (j as u32);
        match roles(kind) >> digits & 7 {
            0 => Role::Plain,
            1 => Role::Child,
            2 => Role::Letters,
            3 => Role::Name,
            4 => Role::Nodes,
            5 => Role::Names,
            _ => Role::Entries,
        }
    }

    // Whether a list begins there.
    // Ruled out: a name; a list of names left out.
    pub(crate) fn is_list(self) -> bool
        ensures { IsTrue result ↔ 4 ≤ digit self }
    {
        matches!(self, Role::Nodes | Role::Names | Role::Entries)
    }
}

// The ten roles of a kind, from Binary on, as one number with an octal digit for each, the first the lowest. A match, since a constant array is copied wherever it is named.
fn roles(kind: u32) -> u32
    requires { (1 ≤ kind) × (kind ≤ 26) }
    ensures { result ≡ all_roles kind }
{
    match kind {
        kinds::BINARY => 0o1000110000,
        kinds::LOGICAL_AND => 0o1000011000,
        kinds::LOGICAL_OR => 0o1000011000,
        kinds::LOGICAL_NOT => 0o1000001000,
        kinds::UNARY => 0o1000010000,
        kinds::ASSIGN => 0o1000011000,
        kinds::VARIABLE => 0o1001003000,
        kinds::CONSTANT => 0o1001003000,
        kinds::REF => 0o1001003000,
        kinds::IDENTIFIER => 0o1000003000,
        kinds::STRING => 0o1000002000,
        kinds::NUMBER => 0o1000000000,
        kinds::BOOLEAN => 0o1000000000,
        kinds::NIL => 0o1000000000,
        kinds::FUNCTION_CALL => 0o1000041000,
        kinds::PROPERTY_ACCESS => 0o1000031000,
        kinds::MAP => 0o1000006000,
        kinds::FUNCTION => 0o1105003000,
        kinds::LAMBDA => 0o1000105000,
        kinds::BLOCK => 0o1000104000,
        kinds::IF => 0o1000111000,
        kinds::WHILE_LOOP => 0o1000011000,
        kinds::RETURN => 0o1000001000,
        kinds::BREAK => 0o1000000000,
        kinds::CONTINUE => 0o1000000000,
        _ => 0o1000505000,
    }
}

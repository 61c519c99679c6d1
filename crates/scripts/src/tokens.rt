// Where the tokens of a call's scripts come from: a list that is given, or a room in which the token maker makes each script's own.
ghost use Rattle.std.specs.Prelude.{ℕ, List, [], ◌≤◌, ◌≡◌, length};
ghost use Rattle.grammar.specs.Builtin.{builtins as names_in};
ghost use Rattle.syntax.specs.Parsed.{rooms};
ghost use Rattle.scripts.specs.Joined.{Source, Single, part};
ghost use Rattle.scripts.specs.Steps.{Outside};

use reader::read_with;
use syntax::{Numbers, parse_with};

pub(crate) trait Tokens {
    ghost source: { Source };

    // The numbers of the joined list, as they are now.
    ghost numbers: { Self → List ℕ };

    // What stays, so that a caller knows his own list again: of a room the name of its borrow, of a list that is only read its numbers.
    ghost name: { Self → ℕ };

    ghost kept: { Self → List ℕ };

    fn count(&self) -> usize
        ensures { result ≡ length (numbers self.now) };

    // Answers a script from its part of the list, the numbers from place `first` up to place `past`, by the single call. It asks that they are there.
    fn answer(
        &mut self,
        first: usize,
        past: usize,
        names: &[u8],
        rows: &[u32],
        text: &[u8],
        edition: u32,
        limit: u32,
        nodes: &mut [u32],
        links: &mut [u32],
        symbols: &mut [u32],
        scratch: &mut [u32],
    ) -> Numbers
        requires { (first ≤ past) × (past ≤ length (numbers self.old)) }
        ensures single { Single (names_in names.now rows.now) text.now edition limit (part first past (numbers self.old)) (rooms nodes.old links.old symbols.old scratch.old) source (part first past (numbers self.new)) (rooms nodes.new links.new symbols.new scratch.new) result }
        ensures outside { Outside first past (numbers self.old) (numbers self.new) }
        ensures same_name { name self.new ≡ name self.old }
        ensures same_kept { kept self.new ≡ kept self.old };
}

// The list is given: each script is answered as `parse_with` answers it.
#[derive(Drop)]
pub(crate) struct Given<'a> {
    pub(crate) tokens: &'a [u32],
}

impl Tokens for Given<'_> {
    ghost source = { Source.given };

    ghost numbers = { λ s. s.tokens.now };

    ghost name = { λ _. 0 };

    ghost kept = { λ s. s.tokens.now };

    fn count(&self) -> usize {
        self.tokens.len()
    }

    fn answer(
        &mut self,
        first: usize,
        past: usize,
        names: &[u8],
        rows: &[u32],
        text: &[u8],
        edition: u32,
        limit: u32,
        nodes: &mut [u32],
        links: &mut [u32],
        symbols: &mut [u32],
        scratch: &mut [u32],
    ) -> Numbers {
        parse_with(
            names,
            rows,
            text,
            &self.tokens[first..past],
            edition,
            limit,
            nodes,
            links,
            symbols,
            scratch,
        )
    }
}

// The token maker makes the lists in this room: each script is answered as `read_with` answers it.
#[derive(Drop)]
pub(crate) struct Made<'a> {
    pub(crate) list: &'a mut [u32],
}

impl Tokens for Made<'_> {
    ghost source = { Source.made };

    ghost numbers = { λ s. s.list.now };

    ghost name = { λ s. s.list.ghost_name };

    ghost kept = { λ _. [] };

    fn count(&self) -> usize {
        self.list.len()
    }

    fn answer(
        &mut self,
        first: usize,
        past: usize,
        names: &[u8],
        rows: &[u32],
        text: &[u8],
        edition: u32,
        limit: u32,
        nodes: &mut [u32],
        links: &mut [u32],
        symbols: &mut [u32],
        scratch: &mut [u32],
    ) -> Numbers {
        read_with(
            names,
            rows,
            text,
            &mut self.list[first..past],
            edition,
            limit,
            nodes,
            links,
            symbols,
            scratch,
        )
    }
}

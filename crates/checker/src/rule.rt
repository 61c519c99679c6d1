// The nine rules, and the first row that breaks one.
ghost use Rattle.std.specs.Prelude.{ℕ, Bool, ◌≡◌, ◌<◌};
ghost use Rattle.checker.specs.Pass.{number, Passes};

// The rules in their order, by the numbers that the answer has.
#[derive(Clone, Copy, PartialEq, Eq)]
pub enum Rule {
    Kinds = 1,
    Ranges = 2,
    Earlier = 3,
    Once = 4,
    Rooted = 5,
    Follows = 6,
    Present = 7,
    Clean = 8,
    Parents = 9,
}

impl Rule {
    // Ruled out: the number of another rule; rules counted from 0.
    pub(crate) fn number(self) -> u32
        ensures { result ≡ number self }
    {
        self as u32
    }
}

// A rule that is broken, and the first row that breaks it.
#[derive(Clone, Copy)]
pub struct Broken {
    pub rule: Rule,
    pub row: u32,
}

// One row after another is put to the test of a rule.
// Ruled out: a later row that fails it; a row from the count on.
pub(crate) fn each<F: Fn(u32) -> bool>(rule: Rule, count: u32, test: F) -> Result<(), Broken>
    requires { (row : ℕ) → row < count → F.pre test row }
    ensures { (f : ℕ → Bool) → ((row : ℕ) (r : Bool) → row < count → F.post test row r → r ≡ f row) → Passes rule f count result }
{
    for row in 0..count {
        if !test(row) {
            return Err(Broken { rule, row });
        }
    }
    Ok(())
}

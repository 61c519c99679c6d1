// What could have stood at a refused token, in words: what ends or separates, then what starts something, and at last what an expression goes on with.
ghost use Rattle.std.specs.Prelude.{◌≤◌};
ghost use Rattle.grammar.specs.Kind.{Eof};

use page::Line;
use page::hint::Style;
use spelling::display::put_name;
use token::kinds;

// A set has a binary digit for each kind, as the C interface's `kaori_expected` hands it out. Three groups of kinds have one word each: what starts an operand, what starts
// a statement, and what joins two operands.
pub(crate) const OPERAND: u64 = 1 << kinds::PLUS
    | 1 << kinds::MINUS
    | 1 << kinds::CARET
    | 1 << kinds::PIPE
    | 1 << kinds::LEFT_PAREN
    | 1 << kinds::HASH
    | 1 << kinds::LEFT_BRACE
    | 1 << kinds::NOT
    | 1 << kinds::IF
    | 1 << kinds::TRUE
    | 1 << kinds::FALSE
    | 1 << kinds::NIL
    | 1 << kinds::NUMBER_LITERAL
    | 1 << kinds::STRING_LITERAL
    | 1 << kinds::IDENTIFIER;

pub(crate) const STATEMENT: u64 = OPERAND
    | 1 << kinds::LET
    | 1 << kinds::CONST
    | 1 << kinds::REF
    | 1 << kinds::FUNCTION
    | 1 << kinds::WHILE
    | 1 << kinds::BREAK
    | 1 << kinds::CONTINUE
    | 1 << kinds::RETURN
    | 1 << kinds::IMPORT;

const OPERATOR: u64 = 1 << kinds::PLUS
    | 1 << kinds::MINUS
    | 1 << kinds::MULTIPLY
    | 1 << kinds::DIVIDE
    | 1 << kinds::MODULO
    | 1 << kinds::NOT_EQUAL
    | 1 << kinds::EQUAL
    | 1 << kinds::GREATER_EQUAL
    | 1 << kinds::LESS_EQUAL
    | 1 << kinds::GREATER
    | 1 << kinds::LESS
    | 1 << kinds::AND
    | 1 << kinds::OR;

// What a chain of calls and dots goes on with.
const LINK: u64 = 1 << kinds::DOT | 1 << kinds::LEFT_PAREN;

// The digit of a kind in a set.
fn digit(kind: u32) -> u64 {
    if kind <= kinds::EOF { 1 << kind } else { 0 }
}

// Whether a set has a kind.
pub(crate) fn has(set: u64, kind: u32) -> bool {
    set & digit(kind) != 0
}

// The name of a kind as crate spelling has it.
fn put_spelled(kind: u32, line: &mut Line)
    requires { kind ≤ Eof }
{
    let mut room = [0u8; 16];
    let n = put_name(kind, &mut room, 0);
    if let Some(name) = room.get(..n) {
        line.put(name);
    }
}

// The word of a kind.
pub(crate) fn put_kind(kind: u32, line: &mut Line) {
    match kind {
        kinds::NUMBER_LITERAL => line.put(b"a number"),
        kinds::STRING_LITERAL => line.put(b"a string"),
        kinds::IDENTIFIER => line.put(b"a name"),
        kinds::ASSIGN..=kinds::SEMICOLON => put_spelled(kind, line),
        _ => line.put(b"the end of the file"),
    }
}

// The kinds that are said first. After them comes a group, and then the other kinds in the order of their numbers.
const FIRST: [u32; 5] = [
    kinds::COMMA,
    kinds::SEMICOLON,
    kinds::RIGHT_PAREN,
    kinds::RIGHT_BRACE,
    kinds::ELSE,
];

// What is left to say: the kinds of a set, and the word of a group; and whether something is said already.
#[derive(Drop)]
struct Words {
    kinds: u64,
    group: Option<&'static [u8]>,
    said: bool,
}

impl Words {
    fn new(kinds: u64, group: Option<&'static [u8]>) -> Self {
        Words {
            kinds,
            group,
            said: false,
        }
    }

    // What stands before a word: nothing before the first, `or` before the last, and a comma before any other.
    fn put_gap(&mut self, line: &mut Line) {
        if !self.said {
            self.said = true;
        } else if self.kinds == 0 && self.group.is_none() {
            line.put(b" or ");
        } else {
            line.put(b", ");
        }
    }

    // The word of a kind and what stands before it, if it is to be said.
    fn put_one(&mut self, kind: u32, line: &mut Line) {
        if has(self.kinds, kind) {
            self.kinds &= !digit(kind);
            self.put_gap(line);
            put_kind(kind, line);
        }
    }

    // The word of the group and what stands before it, if there is one.
    fn put_group(&mut self, line: &mut Line) {
        if let Some(word) = self.group.take() {
            self.put_gap(line);
            line.put(word);
        }
    }

    // All words.
    fn put(mut self, line: &mut Line) {
        for &kind in &FIRST {
            self.put_one(kind, line);
        }
        self.put_group(line);
        for kind in kinds::ASSIGN..kinds::EOF + 1 {
            self.put_one(kind, line);
        }
    }
}

// Whether an expression could go on.
fn goes_on(set: u64) -> bool {
    set & OPERATOR == OPERATOR
}

// All but what an expression goes on with, with one word for a group.
fn all_else(set: u64) -> Words {
    if goes_on(set) {
        return Words::new(set & !(OPERATOR | LINK), None);
    }
    if set & STATEMENT == STATEMENT {
        return Words::new(set & !STATEMENT, Some(b"a statement"));
    }
    if set & OPERAND == OPERAND {
        return Words::new(set & !OPERAND, Some(b"an operand"));
    }
    Words::new(set, None)
}

// What follows where an expression could go on.
fn put_going_on(set: u64, line: &mut Line) {
    if goes_on(set) {
        line.put(b", or ");
        Words::new(set & LINK, Some(b"an operator")).put(line);
        line.put(b" to go on");
    }
}

// The line of a set; none for the empty one. The answer is the style of the next line.
pub(crate) fn show_could(set: u64, style: Style, line: &mut Line) -> Style {
    if set == 0 {
        return style;
    }
    line.put(b"  expected ");
    all_else(set).put(line);
    put_going_on(set, line);
    line.end_hint(style)
}

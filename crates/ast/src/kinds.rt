// The kinds of node rows by name, in the order of `Node` in ast.rs, which say what numbers they are. They stay numbers: a row of the C interface is ten u32, of which the first is its kind
// (Label.number_of, grammar).
pub const BINARY: u32 = 1;

pub const LOGICAL_AND: u32 = 2;

pub const LOGICAL_OR: u32 = 3;

pub const LOGICAL_NOT: u32 = 4;

pub const UNARY: u32 = 5;

pub const ASSIGN: u32 = 6;

pub const VARIABLE: u32 = 7;

pub const CONSTANT: u32 = 8;

pub const REF: u32 = 9;

pub const IDENTIFIER: u32 = 10;

pub const STRING: u32 = 11;

pub const NUMBER: u32 = 12;

pub const BOOLEAN: u32 = 13;

pub const NIL: u32 = 14;

pub const FUNCTION_CALL: u32 = 15;

pub const PROPERTY_ACCESS: u32 = 16;

pub const MAP: u32 = 17;

pub const FUNCTION: u32 = 18;

pub const LAMBDA: u32 = 19;

pub const BLOCK: u32 = 20;

pub const IF: u32 = 21;

pub const WHILE_LOOP: u32 = 22;

pub const RETURN: u32 = 23;

pub const BREAK: u32 = 24;

pub const CONTINUE: u32 = 25;

pub const IMPORT: u32 = 26;

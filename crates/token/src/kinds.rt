// The kinds of tokens by name, in the order of `Token` in token.rs. They stay numbers: a token of the C interface is three u32, and Token.kind (grammar) reads its kind as one.
pub const ASSIGN: u32 = 0;

pub const PLUS: u32 = 1;

pub const MINUS: u32 = 2;

pub const MULTIPLY: u32 = 3;

pub const CARET: u32 = 4;

pub const DIVIDE: u32 = 5;

pub const MODULO: u32 = 6;

pub const NOT_EQUAL: u32 = 7;

pub const EQUAL: u32 = 8;

pub const GREATER_EQUAL: u32 = 9;

pub const LESS_EQUAL: u32 = 10;

pub const GREATER: u32 = 11;

pub const LESS: u32 = 12;

pub const COMMA: u32 = 13;

pub const COLON: u32 = 14;

pub const DOT: u32 = 15;

pub const PIPE: u32 = 16;

pub const LEFT_PAREN: u32 = 17;

pub const RIGHT_PAREN: u32 = 18;

pub const HASH: u32 = 19;

pub const LEFT_BRACE: u32 = 20;

pub const RIGHT_BRACE: u32 = 21;

pub const AND: u32 = 22;

pub const OR: u32 = 23;

pub const NOT: u32 = 24;

pub const LET: u32 = 25;

pub const CONST: u32 = 26;

pub const REF: u32 = 27;

pub const FUNCTION: u32 = 28;

pub const FOR: u32 = 29;

pub const WHILE: u32 = 30;

pub const BREAK: u32 = 31;

pub const CONTINUE: u32 = 32;

pub const IF: u32 = 33;

pub const ELSE: u32 = 34;

pub const RETURN: u32 = 35;

pub const IMPORT: u32 = 36;

pub const TRUE: u32 = 37;

pub const FALSE: u32 = 38;

pub const NIL: u32 = 39;

pub const NUMBER_LITERAL: u32 = 40;

pub const SEMICOLON: u32 = 41;

pub const STRING_LITERAL: u32 = 42;

pub const IDENTIFIER: u32 = 43;

pub const EOF: u32 = 44;

// The kinds of tokens, by 01's names.
pub const BREAK: u64 = 0;

pub const DO: u64 = 1;

pub const ELSE: u64 = 2;

pub const ELSE_IF: u64 = 3;

pub const END: u64 = 4;

pub const FALSE: u64 = 5;

pub const FOR: u64 = 6;

pub const FUNCTION: u64 = 7;

pub const GOTO: u64 = 8;

pub const IF: u64 = 9;

pub const IN: u64 = 10;

pub const LOCAL: u64 = 11;

pub const NIL: u64 = 12;

pub const NOT: u64 = 13;

pub const AND: u64 = 14;

pub const OR: u64 = 15;

pub const REPEAT: u64 = 16;

pub const RETURN: u64 = 17;

pub const THEN: u64 = 18;

pub const TRUE: u64 = 19;

pub const UNTIL: u64 = 20;

pub const WHILE: u64 = 21;

pub const MINUS: u64 = 22;

pub const ADD: u64 = 23;

pub const MUL: u64 = 24;

pub const DIV: u64 = 25;

pub const IDIV: u64 = 26;

pub const POW: u64 = 27;

pub const MOD: u64 = 28;

pub const LEN: u64 = 29;

pub const BIT_NOT_XOR: u64 = 30;

pub const BIT_AND: u64 = 31;

pub const BIT_OR: u64 = 32;

pub const SHIFT_RIGHT: u64 = 33;

pub const SHIFT_LEFT: u64 = 34;

pub const CONCAT: u64 = 35;

pub const DOTS: u64 = 36;

pub const ASSIGN: u64 = 37;

pub const LESS_THAN: u64 = 38;

pub const LESS_EQUAL: u64 = 39;

pub const GREATER_THAN: u64 = 40;

pub const GREATER_EQUAL: u64 = 41;

pub const EQUAL: u64 = 42;

pub const NOT_EQUAL: u64 = 43;

pub const DOT: u64 = 44;

pub const SEMI_COLON: u64 = 45;

pub const COLON: u64 = 46;

pub const DOUBLE_COLON: u64 = 47;

pub const COMMA: u64 = 48;

pub const LEFT_PAREN: u64 = 49;

pub const RIGHT_PAREN: u64 = 50;

pub const LEFT_BRACKET: u64 = 51;

pub const RIGHT_BRACKET: u64 = 52;

pub const LEFT_BRACE: u64 = 53;

pub const RIGHT_BRACE: u64 = 54;

pub const INTEGER: u64 = 55;

pub const FLOAT: u64 = 56;

pub const STRING: u64 = 57;

pub const NAME: u64 = 58;

pub const END_OF_STREAM: u64 = 59;

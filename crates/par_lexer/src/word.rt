//! The numbers of the reserved words: `Kind::Word` carries one.

pub const ACTOR: u8 = 0;

pub const LOCK: u8 = 1;

pub const POLICY: u8 = 2;

pub const CLASS: u8 = 3;

pub const EXTENDS: u8 = 4;

pub const EXCEPTION: u8 = 5;

pub const INPUT: u8 = 6;

pub const OUTPUT: u8 = 7;

pub const INT: u8 = 8;

pub const BOOLEAN: u8 = 9;

pub const VOID: u8 = 10;

pub const STATIC: u8 = 11;

pub const NOTNULL: u8 = 12;

pub const IF: u8 = 13;

pub const ELSE: u8 = 14;

pub const WHILE: u8 = 15;

pub const TRY: u8 = 16;

pub const CATCH: u8 = 17;

pub const RETURN: u8 = 18;

pub const BREAK: u8 = 19;

pub const CONTINUE: u8 = 20;

pub const THROW: u8 = 21;

pub const THROWS: u8 = 22;

pub const NEW: u8 = 23;

pub const THIS: u8 = 24;

pub const NULL: u8 = 25;

pub const TRUE: u8 = 26;

pub const FALSE: u8 = 27;

pub const OPEN: u8 = 28;

pub const CLOSE: u8 = 29;

pub const BOTTOM: u8 = 30;

pub const TOP: u8 = 31;

pub const WHEN: u8 = 32;

pub const UNDERSCORE: u8 = 33;

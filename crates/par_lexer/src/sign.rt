//! The numbers of the signs: `Kind::Sign` carries one.

/// `{`
pub const LEFT_BRACE: u8 = 0;
/// `}`
pub const RIGHT_BRACE: u8 = 1;
/// `(`
pub const LEFT_PAREN: u8 = 2;
/// `)`
pub const RIGHT_PAREN: u8 = 3;
/// `;`
pub const SEMICOLON: u8 = 4;
/// `,`
pub const COMMA: u8 = 5;
/// `.`
pub const DOT: u8 = 6;
/// `?`
pub const QUESTION: u8 = 7;
/// `:`
pub const COLON: u8 = 8;
/// `!`
pub const BANG: u8 = 9;
/// `~`
pub const TILDE: u8 = 10;
/// `+`
pub const PLUS: u8 = 11;
/// `-`
pub const MINUS: u8 = 12;
/// `*`
pub const STAR: u8 = 13;
/// `/`
pub const SLASH: u8 = 14;
/// `%`
pub const PERCENT: u8 = 15;
/// `=`
pub const ASSIGN: u8 = 16;
/// `==`
pub const EQUAL: u8 = 17;
/// `!=`
pub const NOT_EQUAL: u8 = 18;
/// `<`
pub const LESS: u8 = 19;
/// `<=`
pub const AT_MOST: u8 = 20;
/// `>`
pub const GREATER: u8 = 21;
/// `>=`
pub const AT_LEAST: u8 = 22;
/// `<<`
pub const SHIFT_LEFT: u8 = 23;
/// `>>`
pub const SHIFT_RIGHT: u8 = 24;
/// `>>>`
pub const SHIFT_RIGHT_ZERO: u8 = 25;
/// `&&`
pub const AND_ALSO: u8 = 26;
/// `||`
pub const OR_ELSE: u8 = 27;
/// `&`
pub const AND: u8 = 28;
/// `|`
pub const OR: u8 = 29;
/// `^`
pub const XOR: u8 = 30;

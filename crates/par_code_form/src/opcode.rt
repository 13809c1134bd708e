//! The opcodes that items name by a number (Java Virtual Machine Specification, Java SE 7, chapter
//! 6).

pub const IFEQ: u8 = 153;

pub const IFNE: u8 = 154;
/// The first of the six comparisons of two numbers.
pub const IF_ICMPEQ: u8 = 159;

pub const IF_ACMPEQ: u8 = 165;

pub const IF_ACMPNE: u8 = 166;

pub const GOTO: u8 = 167;

pub const GETSTATIC: u8 = 178;

pub const PUTSTATIC: u8 = 179;

pub const GETFIELD: u8 = 180;

pub const PUTFIELD: u8 = 181;

pub const INVOKEVIRTUAL: u8 = 182;

pub const INVOKESPECIAL: u8 = 183;

pub const INVOKESTATIC: u8 = 184;

pub const NEW: u8 = 187;

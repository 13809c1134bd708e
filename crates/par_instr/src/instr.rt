use thiserror::Error;

/// An instruction of one method's code.
///
/// A number is what the operand says: a value that is pushed, a local, an index of the constant
/// pool, or a branch's signed distance in bytes from the branch itself. `Short` variants keep
/// their local, 0 to 3, in the opcode. The first number of `If` and `IfIcmp` is the comparison,
/// 0 to 5 for eq, ne, lt, ge, gt, le.
#[derive(Clone, Copy, PartialEq, Eq)]
pub enum Instr {
    AconstNull,
    Iconst(i8),
    Bipush(i8),
    Sipush(i16),
    Ldc(u8),
    LdcW(u16),
    Iload(u8),
    Aload(u8),
    IloadShort(u8),
    AloadShort(u8),
    Istore(u8),
    Astore(u8),
    IstoreShort(u8),
    AstoreShort(u8),
    Pop,
    Dup,
    Iadd,
    Isub,
    Imul,
    Idiv,
    Irem,
    Ineg,
    Ishl,
    Ishr,
    Iushr,
    Iand,
    Ior,
    Ixor,
    Iinc(u8, i8),
    If(u8, i16),
    IfIcmp(u8, i16),
    IfAcmpeq(i16),
    IfAcmpne(i16),
    Goto(i16),
    Ireturn,
    Areturn,
    Return,
    Getstatic(u16),
    Putstatic(u16),
    Getfield(u16),
    Putfield(u16),
    Invokevirtual(u16),
    Invokespecial(u16),
    Invokestatic(u16),
    New(u16),
    Athrow,
    Ifnull(i16),
    Ifnonnull(i16),
}

/// Why no instruction stands at a place.
#[derive(Clone, Copy, Debug, Error, PartialEq, Eq)]
pub enum InstrError {
    /// The byte there is no listed opcode.
    #[error("unsupported opcode")]
    Unsupported(u8),
    /// The code ends there or within the operands.
    #[error("code is cut short")]
    Cut,
}

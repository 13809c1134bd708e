/// How the numbers of an instruction are written.
#[derive(Clone, Copy)]
pub enum Numbers {
    /// It has none.
    Alone,
    /// In the opcode, which is one of neighbours for -1 to 5.
    Constant(i8),
    /// In the opcode, from 0 to 3.
    Short(u8),
    /// One byte behind the opcode.
    Byte(u8),
    /// One byte, signed.
    SignedByte(i8),
    /// Two bytes: an index of the constant pool.
    Index(u16),
    /// Two bytes, signed.
    SignedPair(i16),
    /// Two bytes, the second one signed.
    ByteAndSigned(u8, i8),
    /// The first in the opcode, from 0 to 5, and two bytes behind it, signed.
    Test(u8, i16),
}

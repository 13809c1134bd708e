use par_base::list::List;

/// An entry of a constant pool (Java Virtual Machine Specification, Java SE 7, section 4.4). The
/// numbers are indices into the same pool, but for that of `Integer`.
#[derive(Drop)]
pub enum Constant {
    /// A text, of the bytes 1 to 127 alone.
    Utf8(List<u8>),
    /// A number of 32 bits.
    Integer(i32),
    /// A class, by its name's text.
    Class(u16),
    /// A string, by its text. The specification calls it String.
    Text(u16),
    /// A field: its class, and its name and descriptor.
    Field(u16, u16),
    /// A method: its class, and its name and descriptor.
    Method(u16, u16),
    /// The texts of a name and of a descriptor.
    NameType(u16, u16),
}

/// A constant pool. The entry at place `i`, counted from 0, has the index `i + 1`.
#[derive(Drop)]
pub struct Pool {
    pub entries: List<Constant>,
}

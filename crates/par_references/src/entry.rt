/// A class that every program has.
#[derive(Clone, Copy, PartialEq, Eq)]
pub enum Builtin {
    /// `java/lang/Object`.
    Object,
    /// `java/lang/Exception`.
    Exception,
    /// `java/lang/ArithmeticException`.
    ArithmeticException,
    /// `java/lang/NullPointerException`.
    NullPointerException,
    /// `paragon/Locks`, whose fields say which locks are open.
    Locks,
}

/// A field or a method: the place of its file in the list, and its own place in the table of fields
/// or of methods there.
#[derive(Clone, Copy, PartialEq, Eq)]
pub struct Declared {
    pub class: u16,
    pub place: u16,
}

/// What an entry of a constant pool names.
#[derive(Clone, Copy, PartialEq, Eq)]
pub enum Named {
    /// The class of the file at this place of the list.
    Class(u16),
    /// A class that every program has.
    Builtin(Builtin),
    Field(Declared),
    Method(Declared),
    /// The field of `paragon/Locks` for the lock of this number.
    Lock(u8),
    /// `<init>` of a class that every program has.
    Initializer(Builtin),
    /// No class, field or method.
    Nothing,
}

/// The type of an expression. A class goes by its number. `Null` is the type of `null`, and `Void`
/// that of a call which gives nothing.
#[derive(Clone, Copy, Debug, PartialEq, Eq)]
pub enum Ty {
    Int,
    Boolean,
    Class(u16),
    Null,
    Void,
}

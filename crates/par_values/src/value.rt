/// A value inside a machine.
#[derive(Clone, Copy, Debug, PartialEq, Eq)]
pub enum MVal {
    /// An `int`, or a `boolean` as 0 or 1.
    Int(i32),
    Null,
    /// An object: the number of its class, and its number among the objects of that class.
    Ref(u16, u32),
}

//! The binary operators of expressions.

/// A binary operator. Arithmetic and shifts wrap to 32 bits, as in Java.
#[derive(Clone, Copy, Debug, PartialEq, Eq)]
pub enum BinOp {
    /// `||`, which looks at its second part only where the first is false
    Or,
    /// `&&`, which looks at its second part only where the first is true
    And,
    /// `|`
    BitOr,
    /// `^`
    BitXor,
    /// `&`
    BitAnd,
    /// `==`
    Eq,
    /// `!=`
    Ne,
    /// `<`
    Lt,
    /// `<=`
    Le,
    /// `>`
    Gt,
    /// `>=`
    Ge,
    /// `<<`
    Shl,
    /// `>>`, which keeps the sign
    Shr,
    /// `>>>`, which fills with zeros
    Ushr,
    /// `+`
    Add,
    /// `-`
    Sub,
    /// `*`
    Mul,
    /// `/`
    Div,
    /// `%`
    Rem,
}

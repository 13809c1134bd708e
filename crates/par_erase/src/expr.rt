//! Plain expressions.

use par_base::list::List;
use par_typed::par_lexer::operator::BinOp;
use par_typed::ty::Ty;

/// An expression with its type.
#[derive(Drop)]
#[cycle(expr)]
pub struct PExpr {
    pub kind: PExprKind,
    pub ty: Ty,
}

/// What an expression is. A member goes by the number of its class and its own number there, an
/// input channel by its place among the inputs of its class, an output channel by its place among
/// the outputs, and a local by its number.
#[derive(Drop)]
#[cycle(expr)]
pub enum PExprKind {
    Int(i32),
    Bool(bool),
    Null,
    /// The receiver.
    This,
    New(u16),
    Local(u16),
    Static(u16, u16),
    Field(Box<PExpr>, u16, u16),
    Input(u16, u16),
    Output(u16, u16, Box<PExpr>),
    /// A method with its arguments, of a receiver where it is an instance method.
    Call(u16, u16, Option<Box<PExpr>>, List<PExpr>),
    Neg(Box<PExpr>),
    Not(Box<PExpr>),
    Binary(BinOp, Box<PExpr>, Box<PExpr>),
}

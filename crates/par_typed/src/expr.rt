//! Typed expressions.

use crate::ty::Ty;
use par_lexer::list::List;
use par_lexer::operator::BinOp;

/// An expression with its place, its point and its type.
///
/// Points number the nodes of one body from 0, each node before its parts, and the parts in source
/// order.
#[derive(Drop)]
#[cycle(expr)]
pub struct TExpr {
    pub kind: TExprKind,
    pub at: u32,
    pub point: u32,
    pub ty: Ty,
    /// Whether it is never null.
    pub sure: bool,
}

/// What an expression is. A member goes by the number of its class and its own number there, and a
/// local by its number.
#[derive(Drop)]
#[cycle(expr)]
pub enum TExprKind {
    Int(i32),
    Bool(bool),
    Null,
    /// The receiver. Where it is not written it is a node as well: the first part of its member's
    /// node, with the place of the member's name.
    This,
    New(u16),
    Local(u16),
    Static(u16, u16),
    Field(Box<TExpr>, u16, u16),
    Input(u16, u16),
    Output(u16, u16, Box<TExpr>),
    /// A method with its arguments, of a receiver where it is an instance method.
    Call(u16, u16, Option<Box<TExpr>>, List<TExpr>),
    Neg(Box<TExpr>),
    Not(Box<TExpr>),
    Binary(BinOp, Box<TExpr>, Box<TExpr>),
}

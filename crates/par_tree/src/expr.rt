//! Expressions.

use crate::ident::Ident;
use par_grammar::par_base::list::List;
use par_grammar::par_base::name::Name;
pub use par_grammar::par_lexer::operator::BinOp;

/// An expression with its place: that of its operator, of the member's name in a selection or a
/// call, else of its first token.
#[derive(Drop)]
#[cycle(expr)]
pub struct Expr {
    pub kind: ExprKind,
    pub at: u32,
}

/// What an expression is. Parentheses leave no node.
#[derive(Drop)]
#[cycle(expr)]
pub enum ExprKind {
    /// A number as it is written, at most 2147483648.
    Int(u32),
    True,
    False,
    Null,
    This,
    New(Ident),
    Name(Name),
    Field(Box<Expr>, Ident),
    /// A method or a channel with its arguments, of a receiver where one is written.
    Call(Option<Box<Expr>>, Ident, List<Expr>),
    Neg(Box<Expr>),
    Not(Box<Expr>),
    Binary(BinOp, Box<Expr>, Box<Expr>),
}

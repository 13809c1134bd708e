//! Typed statements.

use crate::expr::TExpr;
use par_lexer::list::List;

/// What is done where a class is thrown. It is no node: its body is one.
#[derive(Drop)]
#[cycle(stmt)]
pub struct TCatch {
    pub class: u16,
    pub body: TStmt,
}

/// A statement with its place and its point.
///
/// Points number the nodes of one body from 0, each node before its parts, and the parts in source
/// order.
#[derive(Drop)]
#[cycle(stmt)]
pub struct TStmt {
    pub kind: TStmtKind,
    pub at: u32,
    pub point: u32,
}

/// What a statement is. A member goes by the number of its class and its own number there, a local
/// and a ground lock by its number.
#[derive(Drop)]
#[cycle(stmt)]
pub enum TStmtKind {
    Block(List<TStmt>),
    If(TExpr, Box<TStmt>, Option<Box<TStmt>>),
    While(TExpr, Box<TStmt>),
    Try(Box<TStmt>, List<TCatch>),
    Return(Option<TExpr>),
    Break,
    Continue,
    Throw(u16),
    OpenLock(u16),
    CloseLock(u16),
    /// A local with the policy that its declaration writes, none for a parameter, and the value.
    SetLocal(u16, Option<u16>, TExpr),
    SetStatic(u16, u16, TExpr),
    /// The object, its class, the field, and the value.
    SetField(TExpr, u16, u16, TExpr),
    Eval(TExpr),
    /// What is done where a ground lock is open, and what is done where it is closed.
    When(u16, Box<TStmt>, Option<Box<TStmt>>),
}

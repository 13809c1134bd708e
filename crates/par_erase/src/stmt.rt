//! Plain statements.

use crate::expr::PExpr;
use par_base::list::List;

/// A statement. A member goes by the number of its class and its own number there, a local and a
/// ground lock by its number.
#[derive(Drop)]
#[cycle(stmt)]
pub enum PStmt {
    Block(List<PStmt>),
    If(PExpr, Box<PStmt>, Option<Box<PStmt>>),
    While(PExpr, Box<PStmt>),
    Try(Box<PStmt>, List<PCatch>),
    Return(Option<PExpr>),
    Break,
    Continue,
    Throw(u16),
    SetLocal(u16, PExpr),
    SetStatic(u16, u16, PExpr),
    /// The object, its class, the field, and the value.
    SetField(PExpr, u16, u16, PExpr),
    Eval(PExpr),
    /// Opens a lock that some `when` asks for, or closes it.
    LockSet(u16, bool),
    /// What is done where a lock is open, and what is done where it is closed.
    LockIf(u16, Box<PStmt>, Option<Box<PStmt>>),
}

/// What is done where a class is thrown.
#[derive(Drop)]
#[cycle(stmt)]
pub struct PCatch {
    pub class: u16,
    pub body: PStmt,
}

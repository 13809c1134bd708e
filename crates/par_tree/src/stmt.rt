//! Statements.

use crate::expr::Expr;
use crate::ident::Ident;
use crate::policy::{LockTree, PolicyExpr};
use crate::types::TypeTree;
use par_grammar::par_base::list::List;

/// Statements between braces, with the place of the first brace.
#[derive(Drop)]
#[cycle(stmt)]
pub struct Block {
    pub stmts: List<Stmt>,
    pub at: u32,
}

/// What is done where a class is thrown. The name cannot be used.
#[derive(Drop)]
#[cycle(stmt)]
pub struct CatchTree {
    pub class: Ident,
    pub name: Ident,
    pub body: Block,
}

/// The declaration of a local, with its first value.
pub struct LocalDecl {
    pub id: Ident,
    pub ty: TypeTree,
    pub policy: Option<PolicyExpr>,
    pub notnull: bool,
    pub value: Expr,
}

impl Drop for LocalDecl {
    fn drop(self) {
        let LocalDecl {
            id: _,
            ty: _,
            policy: _,
            notnull: _,
            value: _,
        } = self;
    }
}

/// A statement with its place: that of the target in an assignment, of the call, of the declared
/// name of a local, else of its first token.
#[derive(Drop)]
#[cycle(stmt)]
pub struct Stmt {
    pub kind: StmtKind,
    pub at: u32,
}

/// What a statement is.
#[derive(Drop)]
#[cycle(stmt)]
pub enum StmtKind {
    Block(Block),
    /// What `else` begins is a block or an `if`.
    If(Expr, Block, Option<Box<Stmt>>),
    While(Expr, Block),
    Try(Block, List<CatchTree>),
    Return(Option<Expr>),
    Break,
    Continue,
    Throw(Ident),
    OpenLock(LockTree),
    CloseLock(LockTree),
    Local(LocalDecl),
    /// The target, and the value.
    Assign(Expr, Expr),
    Call(Expr),
    When(LockTree, Block, Option<Block>),
}

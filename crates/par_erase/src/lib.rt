//! A program without policies: what its runs do, and nothing of who may see it.
//!
//! The crate has plain programs, and makes one of each typed program: policies, places, points and
//! the locks that no `when` asks for go, all else stays under its name and in its order. It looks
//! at no policy and checks nothing.
#![tactic(auto)]

mod asked;
mod channels;
mod classes;
pub mod expr;
mod exprs;
mod members;
pub mod program;
pub mod stmt;
mod stmts;

pub use classes::erase;
pub use expr::{PExpr, PExprKind};
pub use program::{Plain, PlainClass, PlainField, PlainMethod};
pub use stmt::{PCatch, PStmt};

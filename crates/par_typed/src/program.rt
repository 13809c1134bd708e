//! A typed program.

use crate::stmt::TStmt;
use crate::table::Table;
use par_lexer::list::List;

/// The body of a method, with the numbers of its class and of the method there.
pub struct TBody {
    pub class: u16,
    pub method: u16,
    pub body: TStmt,
}

impl Drop for TBody {
    fn drop(self) {
        let TBody {
            class: _,
            method: _,
            body: _,
        } = self;
    }
}

/// A program with the typed bodies of its methods.
pub struct Typed {
    pub table: Table,
    pub bodies: List<TBody>,
}

impl Drop for Typed {
    fn drop(self) {
        let Typed {
            table: _,
            bodies: _,
        } = self;
    }
}

//! What is left to do, with the nodes of the tree as they are.

ghost use Rattle.std.specs.Prelude.{◌≡◌};
ghost use Rattle.par_meaning.specs.declared.work.Completion.TheVariants.{Normal, Abrupt};
ghost use Rattle.par_meaning.specs.declared.work.Next.TheVariants.{Expr};
ghost use Rattle.par_meaning.specs.declared.work.Then.TheVariants.{Waits, Ends};

use par_typed::expr::TExpr;
use par_typed::par_lexer::operator::BinOp;
use par_typed::stmt::{TCatch, TStmt};
use par_values::value::MVal;

/// How an expression or a statement is left early.
#[derive(Clone, Copy)]
pub(crate) enum Exit {
    Broken,
    Continued,
    Returned,
    Thrown(u16),
}

/// How an expression or a statement completes; where it gives no value, with null.
#[derive(Clone, Copy)]
pub(crate) enum Completion {
    Normal(MVal),
    Abrupt(Exit),
}

/// What a statement that has done its work completes with.
pub(crate) const FINE: Completion = Completion::Normal(MVal::Null);

/// The class that a zero divisor throws, and the one that a null receiver throws.
pub(crate) const ARITHMETIC: u16 = 0;

pub(crate) const NULL_POINTER: u16 = 1;

/// What a call calls. The first of its values needs a null test, unless it is surely an object.
#[derive(Clone, Copy)]
pub(crate) struct Target {
    pub(crate) class: u16,
    pub(crate) method: u16,
    pub(crate) sure: bool,
}

/// What is done next, at the price of a step.
#[derive(Clone, Copy)]
pub(crate) enum Next<'a> {
    Expr(&'a TExpr),
    Stmt(&'a TStmt),
    /// A test of a loop.
    Turn(&'a TExpr, &'a TStmt),
    /// The body of a method, with so many of the last values in its first locals.
    Body(u16, u16, usize),
}

/// What waits for the completion of what is done before it.
#[derive(Clone, Copy)]
pub(crate) enum Waiting<'a> {
    /// A field of the object, which may be never null.
    Field(bool, u16, u16),
    Output(u16, u16),
    /// A call that has so many values so far, and these arguments behind the next one.
    Argument(Target, usize, &'a [TExpr]),
    Neg,
    Not,
    /// An operator that has its first part next.
    Decide(BinOp, &'a TExpr),
    /// An operator with its first part.
    Operate(BinOp, MVal),
    If(&'a TStmt, &'a Option<Box<TStmt>>),
    /// The test of a loop.
    Test(&'a TExpr, &'a TStmt),
    /// The block of a loop.
    Loop(&'a TExpr, &'a TStmt),
    Catch(&'a [TCatch]),
    Return,
    SetLocal(u16),
    SetStatic(u16, u16),
    /// A write to a field of the object that is next, with the value behind it.
    Object(bool, u16, u16, &'a TExpr),
    /// A write to a field of this object.
    SetField(bool, u16, u16, MVal),
    Eval,
    /// The further statements of a block.
    Block(&'a [TStmt]),
    /// The caller, which has so many locals and is to return this.
    Leave(usize, MVal),
}

/// How a run goes on.
#[derive(Clone, Copy)]
pub(crate) enum Then<'a> {
    Goes(Next<'a>),
    /// What is done next, and what waits for it.
    Waits(Waiting<'a>, Next<'a>),
    Ends(Completion),
}

impl<'a> Then<'a> {
    /// With this value.
    pub(crate) fn gives(value: MVal) -> Then<'a>
        ensures { result ≡ Ends (Normal value) }
    {
        Then::Ends(Completion::Normal(value))
    }

    /// With an exit.
    pub(crate) fn leaves(exit: Exit) -> Then<'a>
        ensures { result ≡ Ends (Abrupt exit) }
    {
        Then::Ends(Completion::Abrupt(exit))
    }

    /// With a part, for which this waits.
    pub(crate) fn part(part: &'a TExpr, waiting: Waiting<'a>) -> Then<'a>
        ensures { result ≡ Waits waiting.entry (Expr part.entry) }
    {
        Then::Waits(waiting, Next::Expr(part))
    }
}

//! Blocks and statements of one more node.

ghost use Rattle.std.specs.Prelude.{◌≡◌, false, IfOk, IfErr};
ghost use Rattle.par_grammar.specs.declared.sort.Sort.TheVariants as sort;
ghost use Rattle.par_policy_reader.specs.par_reader.Reads.{IsOf};
ghost use Rattle.par_tree.specs.Plain as plain;
ghost use Rattle.par_tree.specs.Shown.{shown, may_shown, does, braces, may_braces, otherwise};
ghost use Rattle.par_tree.specs.Shown.{all_do, all_catch, handler};
ghost use Rattle.par_tree.specs.Values as built;
ghost use Rattle.par_stmts.specs.Reads.{other_of, MakesStmt};

use par_lexer::list::List;
use par_lexer::token::Token;
use par_policy_reader::ident::ident;
use par_policy_reader::par_reader::error::ParseError;
use par_tree::expr::Expr;
use par_tree::policy::{LockTree, PolicyExpr};
use par_tree::stmt::{Block, CatchTree, LocalDecl, Stmt, StmtKind};
use par_tree::types::TypeTree;
use std::alloc::Global;

/// Statements in braces, at the first of these.
pub fn block(brace: &Token, stmts: List<Stmt>) -> Block
    ensures { braces result ≡ plain.In (all_do stmts) brace.now.from }
{
    Block {
        stmts,
        at: brace.from,
    }
}

/// A block that is a statement, at its brace.
#[tactic(auto, using(par_tree::proofs::Shown::does_block, par_tree::proofs::Shown::braces_is))]
pub fn block_stmt(body: Block) -> Stmt
    ensures { does result ≡ built.as_stmt (braces body) }
{
    let at = body.at;
    Stmt {
        kind: StmtKind::Block(body),
        at,
    }
}

/// What stands behind `else`, where a tree can hold it.
fn boxed(alloc: Global, other: Option<Stmt>) -> Result<Option<Box<Stmt>>, ParseError>
    ensures ok { IfOk result (λ o. otherwise o ≡ other_of other) }
    ensures err { IfErr result (λ error. error ≡ ParseError.Memory) }
{
    match other {
        None => Ok(None),
        Some(other) => {
            let other = Box::new(alloc, other)?;
            Ok(Some(other))
        }
    }
}

/// An `if`, at its word, with what stands behind `else`.
#[tactic(auto, using(par_tree::proofs::Shown::does_if))]
pub fn if_stmt(
    alloc: Global,
    word: &Token,
    test: Expr,
    body: Block,
    other: Option<Stmt>,
) -> Result<Stmt, ParseError>
    ensures { MakesStmt (plain.If (shown test) (braces body) (other_of other) word.now.from)
        result }
{
    let other = boxed(alloc, other)?;
    Ok(Stmt {
        kind: StmtKind::If(test, body, other),
        at: word.from,
    })
}

/// A `while`, at its word.
#[tactic(auto, using(par_tree::proofs::Shown::does_while))]
pub fn while_stmt(word: &Token, test: Expr, body: Block) -> Stmt
    ensures { does result ≡ plain.While (shown test) (braces body) word.now.from }
{
    Stmt {
        kind: StmtKind::While(test, body),
        at: word.from,
    }
}

/// A `when`, at its word, with the block behind `else`.
#[tactic(auto, using(par_tree::proofs::Shown::does_when))]
pub fn when_stmt(word: &Token, lock: LockTree, body: Block, other: Option<Block>) -> Stmt
    ensures { does result ≡ plain.When lock (braces body) (may_braces other) word.now.from }
{
    Stmt {
        kind: StmtKind::When(lock, body, other),
        at: word.from,
    }
}

/// A `try`, at its word, with its catches.
#[tactic(auto, using(par_tree::proofs::Shown::does_try))]
pub fn try_stmt(word: &Token, body: Block, catches: List<CatchTree>) -> Stmt
    ensures { does result ≡ plain.Try (braces body) (all_catch catches) word.now.from }
{
    Stmt {
        kind: StmtKind::Try(body, catches),
        at: word.from,
    }
}

/// What is done where a class is thrown.
pub fn catch(
    alloc: Global,
    class: &Token,
    name: &Token,
    body: Block,
) -> Result<CatchTree, ParseError>
    requires class { IsOf sort.Name class.now }
    requires name { IsOf sort.Name name.now }
    ensures ok { IfOk result (λ c.
        handler c ≡ plain.On (built.ident class.now) (built.ident name.now) (braces body)) }
    ensures err { IfErr result (λ error. error ≡ ParseError.Memory) }
{
    let class = ident(alloc, class)?;
    let name = ident(alloc, name)?;
    Ok(CatchTree { class, name, body })
}

/// A `return`, at its word, of a value or of none.
#[tactic(auto, using(par_tree::proofs::Shown::does_return))]
pub fn return_stmt(word: &Token, value: Option<Expr>) -> Stmt
    ensures { does result ≡ plain.Return (may_shown value) word.now.from }
{
    Stmt {
        kind: StmtKind::Return(value),
        at: word.from,
    }
}

/// A `break`, at its word.
#[tactic(auto, using(par_tree::proofs::Shown::does_break))]
pub fn break_stmt(word: &Token) -> Stmt
    ensures { does result ≡ plain.Break word.now.from }
{
    Stmt {
        kind: StmtKind::Break,
        at: word.from,
    }
}

/// A `continue`, at its word.
#[tactic(auto, using(par_tree::proofs::Shown::does_continue))]
pub fn continue_stmt(word: &Token) -> Stmt
    ensures { does result ≡ plain.Continue word.now.from }
{
    Stmt {
        kind: StmtKind::Continue,
        at: word.from,
    }
}

/// A `throw` of a new object of a class, at its word.
#[tactic(auto, using(par_tree::proofs::Shown::does_throw))]
pub fn throw_stmt(alloc: Global, word: &Token, class: &Token) -> Result<Stmt, ParseError>
    requires { IsOf sort.Name class.now }
    ensures { MakesStmt (plain.Throw (built.ident class.now) word.now.from) result }
{
    let class = ident(alloc, class)?;
    Ok(Stmt {
        kind: StmtKind::Throw(class),
        at: word.from,
    })
}

/// The opening of a lock, at its word.
#[tactic(auto, using(par_tree::proofs::Shown::does_open))]
pub fn open_stmt(word: &Token, lock: LockTree) -> Stmt
    ensures { does result ≡ plain.Open lock word.now.from }
{
    Stmt {
        kind: StmtKind::OpenLock(lock),
        at: word.from,
    }
}

/// The closing of a lock, at its word.
#[tactic(auto, using(par_tree::proofs::Shown::does_close))]
pub fn close_stmt(word: &Token, lock: LockTree) -> Stmt
    ensures { does result ≡ plain.Close lock word.now.from }
{
    Stmt {
        kind: StmtKind::CloseLock(lock),
        at: word.from,
    }
}

/// A local, declared at its name.
#[tactic(auto, using(par_tree::proofs::Shown::does_local))]
pub fn local(
    alloc: Global,
    name: &Token,
    ty: TypeTree,
    policy: Option<PolicyExpr>,
    notnull: bool,
    value: Expr,
) -> Result<Stmt, ParseError>
    requires { IsOf sort.Name name.now }
    ensures { MakesStmt (built.declared name.now ty policy notnull (shown value)) result }
{
    let id = ident(alloc, name)?;
    let declared = LocalDecl {
        id,
        ty,
        policy,
        notnull,
        value,
    };
    Ok(Stmt {
        kind: StmtKind::Local(declared),
        at: name.from,
    })
}

/// A local of a class, with no policy and no `notnull`.
pub fn class_local(
    alloc: Global,
    class: &Token,
    name: &Token,
    value: Expr,
) -> Result<Stmt, ParseError>
    requires class { IsOf sort.Name class.now }
    requires name { IsOf sort.Name name.now }
    ensures { MakesStmt
        (built.declared name.now (TypeTree.Class (built.ident class.now)) None false (shown value))
        result }
{
    let class = ident(alloc, class)?;
    local(alloc, name, TypeTree::Class(class), None, false, value)
}

/// An assignment, at the place of its target.
#[tactic(auto, using(par_tree::proofs::Shown::does_assign, par_tree::proofs::Shown::shown_place))]
pub fn assignment(target: Expr, value: Expr) -> Stmt
    ensures { does result ≡ plain.Assign (shown target) (shown value) (plain.place (shown target)) }
{
    let at = target.at;
    Stmt {
        kind: StmtKind::Assign(target, value),
        at,
    }
}

/// A call that is a statement, at the place of the call.
#[tactic(auto, using(par_tree::proofs::Shown::does_call, par_tree::proofs::Shown::shown_place))]
pub fn call_stmt(call: Expr) -> Stmt
    ensures { does result ≡ plain.Do (shown call) (plain.place (shown call)) }
{
    let at = call.at;
    Stmt {
        kind: StmtKind::Call(call),
        at,
    }
}

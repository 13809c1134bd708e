//! Declarations of locals that do not begin with a name.

ghost use Rattle.std.specs.Prelude.{◌≡◌, ◌<◌, ◌≤◌, [], ◌∷◌, length, OnOk};
ghost use Rattle.par_grammar.specs.Grammar as symbol;
ghost use Rattle.par_lexer.specs.declared.sign.TheConstants as signs;
ghost use Rattle.par_policy_reader.specs.par_reader.Reads.{input};
ghost use Rattle.par_tree.specs.Grammar as g;
ghost use Rattle.par_tree.specs.Values as built;
ghost use Rattle.par_policy_reader.specs.par_reader.SourceLanguage.{Reads};
ghost use Rattle.par_exprs.specs.Exprs.{tree};
ghost use Rattle.par_stmts.specs.Reads.{a_stmt};

use crate::head::expr_before;
use crate::make;
use par_grammar::sort::Sort;
use par_lexer::sign;
use par_policy_reader::par_reader::cursor::Cursor;
use par_policy_reader::par_reader::error::ParseError;
use par_policy_reader::par_reader::source_language::Paragon;
use par_policy_reader::policy::may_policy;
use par_policy_reader::types::{any_type, may_notnull};
use par_tree::expr::Expr;
use par_tree::policy::PolicyExpr;
use par_tree::stmt::Stmt;
use par_tree::types::TypeTree;
use std::alloc::Global;

/// A local with a policy.
pub fn policy_local(alloc: Global, cursor: &mut Cursor<'_, Paragon>) -> Result<Stmt, ParseError>
    ensures read { Reads
        (symbol.name g.MayPolicy ∷ symbol.name g.MayNotnull ∷ symbol.name g.AnyType
        ∷ symbol.name g.LocalTail ∷ [])
        [] a_stmt (input cursor.old) result (input cursor.new) }
    ensures shorter { OnOk result (length cursor.new.left.now < length cursor.old.left.now) }
{
    let policy = may_policy(alloc, cursor)?;
    let notnull = may_notnull(cursor)?;
    let ty = any_type(alloc, cursor)?;
    local_tail(alloc, cursor, policy, notnull, ty)
}

/// A local without a policy, at `notnull`.
#[tactic(auto, using(par_tree::proofs::Rules::run_built))]
pub fn notnull_local(alloc: Global, cursor: &mut Cursor<'_, Paragon>) -> Result<Stmt, ParseError>
    ensures read { Reads
        (symbol.builds g.NoPolicy ∷ symbol.name g.MayNotnull ∷ symbol.name g.AnyType
        ∷ symbol.name g.LocalTail ∷ [])
        [] a_stmt (input cursor.old) result (input cursor.new) }
    ensures shorter { OnOk result (length cursor.new.left.now < length cursor.old.left.now) }
{
    let notnull = may_notnull(cursor)?;
    let ty = any_type(alloc, cursor)?;
    local_tail(alloc, cursor, None, notnull, ty)
}

/// A local of which only the type is written.
#[tactic(auto, using(par_tree::proofs::Rules::run_built))]
pub fn typed_local(alloc: Global, cursor: &mut Cursor<'_, Paragon>) -> Result<Stmt, ParseError>
    ensures read { Reads
        (symbol.builds g.NoPolicy ∷ symbol.builds g.MayBeNull ∷ symbol.name g.AnyType
        ∷ symbol.name g.LocalTail ∷ [])
        [] a_stmt (input cursor.old) result (input cursor.new) }
    ensures shorter { OnOk result (length cursor.new.left.now < length cursor.old.left.now) }
{
    let ty = any_type(alloc, cursor)?;
    local_tail(alloc, cursor, None, false, ty)
}

/// The first value of a local.
fn first_value(alloc: Global, cursor: &mut Cursor<'_, Paragon>) -> Result<Expr, ParseError>
    ensures read { Reads
        (g.sign_ signs.ASSIGN ∷ symbol.restarts ∷ g.expr ∷ g.sign_ signs.SEMICOLON ∷ [])
        [] tree (input cursor.old) result (input cursor.new) }
    ensures shorter { OnOk result (length cursor.new.left.now < length cursor.old.left.now) }
{
    cursor.take(Sort::Sign(sign::ASSIGN))?;
    cursor.restart();
    expr_before(alloc, cursor, Sort::Sign(sign::SEMICOLON))
}

/// The name of a local, and its first value.
#[tactic(auto, using(par_tree::proofs::Rules::run_built, par_tree::proofs::Rules::local_opens))]
fn local_tail(
    alloc: Global,
    cursor: &mut Cursor<'_, Paragon>,
    policy: Option<PolicyExpr>,
    notnull: bool,
    ty: TypeTree,
) -> Result<Stmt, ParseError>
    ensures read { Reads
        (symbol.name g.LocalTail ∷ [])
        (built.typed ty ∷ built.flag notnull ∷ built.may_whole policy ∷ []) a_stmt
        (input cursor.old) result (input cursor.new) }
    ensures shorter { OnOk result (length cursor.new.left.now < length cursor.old.left.now) }
{
    let name = cursor.keep(Sort::Name)?;
    let value = first_value(alloc, cursor)?;
    make::local(alloc, name, ty, policy, notnull, value)
}

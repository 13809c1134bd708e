//! An expression before a sign, and what stands in parentheses behind `if`, `while` and `when`.

ghost use Rattle.std.specs.Prelude.{◌≡◌, ◌<◌, ◌≤◌, [], ◌∷◌, length, OnOk};
ghost use Rattle.par_grammar.specs.Grammar as symbol;
ghost use Rattle.par_lexer.specs.declared.sign.TheConstants as signs;
ghost use Rattle.par_policy_reader.specs.par_reader.Reads.{input};
ghost use Rattle.par_tree.specs.Grammar as g;
ghost use Rattle.par_policy_reader.specs.par_reader.SourceLanguage.{Reads};
ghost use Rattle.par_exprs.specs.Exprs.{tree};
ghost use Rattle.par_policy_reader.specs.Reads.{a_lock};

use par_exprs::expr::expr;
use par_grammar::sort::Sort;
use par_lexer::sign;
use par_policy_reader::lock::lock;
use par_policy_reader::par_reader::cursor::Cursor;
use par_policy_reader::par_reader::error::ParseError;
use par_policy_reader::par_reader::source_language::Paragon;
use par_tree::expr::Expr;
use par_tree::policy::LockTree;
use std::alloc::Global;

/// An expression before a token of this sort, which is taken.
pub fn expr_before(
    alloc: Global,
    cursor: &mut Cursor<'_, Paragon>,
    end: Sort,
) -> Result<Expr, ParseError>
    ensures read { Reads (g.expr ∷ symbol.token end ∷ []) [] tree
        (input cursor.old) result (input cursor.new) }
    ensures shorter { OnOk result (length cursor.new.left.now < length cursor.old.left.now) }
{
    let value = expr(alloc, cursor)?;
    cursor.take(end)?;
    Ok(value)
}

/// A test in parentheses, which do not count.
pub fn test_in_parens(alloc: Global, cursor: &mut Cursor<'_, Paragon>) -> Result<Expr, ParseError>
    ensures read { Reads
        (g.sign_ signs.LEFT_PAREN ∷ symbol.restarts ∷ g.expr ∷ g.sign_ signs.RIGHT_PAREN ∷ [])
        [] tree (input cursor.old) result (input cursor.new) }
    ensures shorter { OnOk result (length cursor.new.left.now < length cursor.old.left.now) }
{
    cursor.take(Sort::Sign(sign::LEFT_PAREN))?;
    cursor.restart();
    expr_before(alloc, cursor, Sort::Sign(sign::RIGHT_PAREN))
}

/// A lock in parentheses, which do not count.
pub fn lock_in_parens(
    alloc: Global,
    cursor: &mut Cursor<'_, Paragon>,
) -> Result<LockTree, ParseError>
    ensures read { Reads
        (g.sign_ signs.LEFT_PAREN ∷ symbol.name g.Lock ∷ g.sign_ signs.RIGHT_PAREN ∷ [])
        [] a_lock (input cursor.old) result (input cursor.new) }
    ensures shorter { OnOk result (length cursor.new.left.now < length cursor.old.left.now) }
{
    cursor.take(Sort::Sign(sign::LEFT_PAREN))?;
    let lock = lock(alloc, cursor)?;
    cursor.take(Sort::Sign(sign::RIGHT_PAREN))?;
    Ok(lock)
}

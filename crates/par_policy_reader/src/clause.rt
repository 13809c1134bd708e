//! Clauses of a policy: an actor each, and the locks that have to be open for it.

ghost use Rattle.std.specs.Prelude.{◌≡◌, ◌<◌, ◌≤◌, [], ◌∷◌, length, OnOk};
ghost use Rattle.par_grammar.specs.Grammar as symbol;
ghost use Rattle.par_grammar.specs.declared.sort.Sort.TheVariants as sort;
ghost use Rattle.par_reader.specs.SourceLanguage.{Reads};
ghost use Rattle.par_lexer.specs.declared.sign.TheConstants as signs;
ghost use Rattle.par_reader.specs.Reads.{input};
ghost use Rattle.par_tree.specs.Grammar as g;
ghost use Rattle.par_policy_reader.specs.Reads.{a_clause, the_clauses, the_locks};

use crate::ident::ident;
use crate::lock::lock;
use par_grammar::sort::Sort;
use par_lexer::list::List;
use par_lexer::sign;
use par_reader::cursor::Cursor;
use par_reader::error::ParseError;
use par_reader::source_language::Paragon;
use par_tree::policy::{ClauseTree, LockTree};
use std::alloc::Global;

/// Clauses with semicolons between them, or none.
pub fn clauses(
    alloc: Global,
    cursor: &mut Cursor<'_, Paragon>,
) -> Result<List<ClauseTree>, ParseError>
    ensures read { Reads (symbol.name g.Clauses ∷ []) [] the_clauses
        (input cursor.old) result (input cursor.new) }
    ensures shorter { OnOk result (length cursor.new.left.now ≤ length cursor.old.left.now) }
{
    if cursor.sees(Sort::Name) {
        some_clauses(alloc, cursor)
    } else {
        Ok(List::new(alloc))
    }
}

fn some_clauses(
    alloc: Global,
    cursor: &mut Cursor<'_, Paragon>,
) -> Result<List<ClauseTree>, ParseError>
    ensures read { Reads
        (symbol.builds g.NoClauses ∷ symbol.name g.Clause ∷ symbol.builds g.NextClause
        ∷ symbol.name g.MoreClauses ∷ [])
        [] the_clauses (input cursor.old) result (input cursor.new) }
    ensures shorter { OnOk result (length cursor.new.left.now < length cursor.old.left.now) }
{
    let first = first_clause(alloc, cursor)?;
    more_clauses(alloc, cursor, first)
}

fn first_clause(
    alloc: Global,
    cursor: &mut Cursor<'_, Paragon>,
) -> Result<List<ClauseTree>, ParseError>
    ensures read { Reads
        (symbol.builds g.NoClauses ∷ symbol.name g.Clause ∷ symbol.builds g.NextClause ∷ [])
        [] the_clauses (input cursor.old) result (input cursor.new) }
    ensures shorter { OnOk result (length cursor.new.left.now < length cursor.old.left.now) }
{
    let none = List::new(alloc);
    next_clause(alloc, cursor, none)
}

#[tactic(auto, using(par_tree::proofs::Rules::run_built))]
fn next_clause(
    alloc: Global,
    cursor: &mut Cursor<'_, Paragon>,
    mut found: List<ClauseTree>,
) -> Result<List<ClauseTree>, ParseError>
    ensures read { Reads (symbol.name g.Clause ∷ symbol.builds g.NextClause ∷ [])
        (the_clauses found) the_clauses (input cursor.old) result (input cursor.new) }
    ensures shorter { OnOk result (length cursor.new.left.now < length cursor.old.left.now) }
{
    let next = clause(alloc, cursor)?;
    found.push(next)?;
    Ok(found)
}

fn another_clause(
    alloc: Global,
    cursor: &mut Cursor<'_, Paragon>,
    found: List<ClauseTree>,
) -> Result<List<ClauseTree>, ParseError>
    ensures read { Reads
        (symbol.token (sort.Sign signs.SEMICOLON) ∷ symbol.name g.Clause
        ∷ symbol.builds g.NextClause ∷ [])
        (the_clauses found) the_clauses (input cursor.old) result (input cursor.new) }
    ensures shorter { OnOk result (length cursor.new.left.now < length cursor.old.left.now) }
{
    cursor.take(Sort::Sign(sign::SEMICOLON))?;
    next_clause(alloc, cursor, found)
}

fn more_clauses(
    alloc: Global,
    cursor: &mut Cursor<'_, Paragon>,
    mut found: List<ClauseTree>,
) -> Result<List<ClauseTree>, ParseError>
    ensures read { Reads (symbol.name g.MoreClauses ∷ []) (the_clauses found) the_clauses
        (input cursor.old) result (input cursor.new) }
    ensures shorter { OnOk result (length cursor.new.left.now ≤ length cursor.old.left.now) }
{
    'more: while cursor.sees(Sort::Sign(sign::SEMICOLON)) {
        found = another_clause(alloc, cursor, found)?;
    }
    Ok(found)
}

#[tactic(auto, using(par_tree::proofs::Rules::run_built, par_tree::proofs::Rules::clause_opens))]
fn clause(alloc: Global, cursor: &mut Cursor<'_, Paragon>) -> Result<ClauseTree, ParseError>
    ensures read { Reads (symbol.name g.Clause ∷ []) [] a_clause
        (input cursor.old) result (input cursor.new) }
    ensures shorter { OnOk result (length cursor.new.left.now < length cursor.old.left.now) }
{
    let name = cursor.keep(Sort::Name)?;
    cursor.take(Sort::Sign(sign::COLON))?;
    let locks = needs(alloc, cursor)?;
    let actor = ident(alloc, name)?;
    Ok(ClauseTree { actor, locks })
}

/// The locks of a clause, with commas between them, or none.
fn needs(alloc: Global, cursor: &mut Cursor<'_, Paragon>) -> Result<List<LockTree>, ParseError>
    ensures read { Reads (symbol.name g.Needs ∷ []) [] the_locks
        (input cursor.old) result (input cursor.new) }
    ensures shorter { OnOk result (length cursor.new.left.now ≤ length cursor.old.left.now) }
{
    if cursor.sees(Sort::Name) {
        some_needs(alloc, cursor)
    } else {
        Ok(List::new(alloc))
    }
}

fn some_needs(alloc: Global, cursor: &mut Cursor<'_, Paragon>) -> Result<List<LockTree>, ParseError>
    ensures read { Reads
        (symbol.builds g.NoLocks ∷ symbol.name g.Lock ∷ symbol.builds g.NextLock
        ∷ symbol.name g.MoreNeeds ∷ [])
        [] the_locks (input cursor.old) result (input cursor.new) }
    ensures shorter { OnOk result (length cursor.new.left.now < length cursor.old.left.now) }
{
    let first = first_need(alloc, cursor)?;
    more_needs(alloc, cursor, first)
}

fn first_need(alloc: Global, cursor: &mut Cursor<'_, Paragon>) -> Result<List<LockTree>, ParseError>
    ensures read { Reads
        (symbol.builds g.NoLocks ∷ symbol.name g.Lock ∷ symbol.builds g.NextLock ∷ [])
        [] the_locks (input cursor.old) result (input cursor.new) }
    ensures shorter { OnOk result (length cursor.new.left.now < length cursor.old.left.now) }
{
    let none = List::new(alloc);
    next_need(alloc, cursor, none)
}

#[tactic(auto, using(par_tree::proofs::Rules::run_built))]
fn next_need(
    alloc: Global,
    cursor: &mut Cursor<'_, Paragon>,
    mut found: List<LockTree>,
) -> Result<List<LockTree>, ParseError>
    ensures read { Reads (symbol.name g.Lock ∷ symbol.builds g.NextLock ∷ [])
        (the_locks found) the_locks (input cursor.old) result (input cursor.new) }
    ensures shorter { OnOk result (length cursor.new.left.now < length cursor.old.left.now) }
{
    let next = lock(alloc, cursor)?;
    found.push(next)?;
    Ok(found)
}

fn another_need(
    alloc: Global,
    cursor: &mut Cursor<'_, Paragon>,
    found: List<LockTree>,
) -> Result<List<LockTree>, ParseError>
    ensures read { Reads
        (symbol.token (sort.Sign signs.COMMA) ∷ symbol.name g.Lock ∷ symbol.builds g.NextLock ∷ [])
        (the_locks found) the_locks (input cursor.old) result (input cursor.new) }
    ensures shorter { OnOk result (length cursor.new.left.now < length cursor.old.left.now) }
{
    cursor.take(Sort::Sign(sign::COMMA))?;
    next_need(alloc, cursor, found)
}

fn more_needs(
    alloc: Global,
    cursor: &mut Cursor<'_, Paragon>,
    mut found: List<LockTree>,
) -> Result<List<LockTree>, ParseError>
    ensures read { Reads (symbol.name g.MoreNeeds ∷ []) (the_locks found) the_locks
        (input cursor.old) result (input cursor.new) }
    ensures shorter { OnOk result (length cursor.new.left.now ≤ length cursor.old.left.now) }
{
    'more: while cursor.sees(Sort::Sign(sign::COMMA)) {
        found = another_need(alloc, cursor, found)?;
    }
    Ok(found)
}

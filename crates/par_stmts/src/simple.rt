//! Statements that hold no block.

ghost use Rattle.std.specs.Prelude.{◌≡◌, ◌<◌, ◌≤◌, [], ◌∷◌, length, OnOk};
ghost use Rattle.par_grammar.specs.Grammar as symbol;
ghost use Rattle.par_grammar.specs.Derivation.{next};
ghost use Rattle.par_lexer.specs.declared.sign.TheConstants as signs;
ghost use Rattle.par_lexer.specs.declared.word.TheConstants as words;
ghost use Rattle.par_policy_reader.specs.par_reader.Reads.{input};
ghost use Rattle.par_tree.specs.Grammar as g;
ghost use Rattle.par_policy_reader.specs.par_reader.SourceLanguage.{Reads};
ghost use Rattle.par_stmts.specs.Reads.{a_stmt, may_be_value, BeginsSimple};

use crate::chain::{effect_of_name, effect_of_this};
use crate::local::{notnull_local, policy_local, typed_local};
use crate::make;
use par_exprs::expr::expr;
use par_grammar::sort::Sort;
use par_lexer::{sign, word};
use par_policy_reader::lock::lock;
use par_policy_reader::par_reader::cursor::Cursor;
use par_policy_reader::par_reader::error::ParseError;
use par_policy_reader::par_reader::source_language::Paragon;
use par_tree::expr::Expr;
use par_tree::stmt::Stmt;
use std::alloc::Global;

/// A statement that holds no block.
pub fn simple(alloc: Global, cursor: &mut Cursor<'_, Paragon>) -> Result<Stmt, ParseError>
    requires { BeginsSimple (next (input cursor.old)) }
    ensures read { Reads (symbol.name g.Stmt ∷ []) [] a_stmt
        (input cursor.old) result (input cursor.new) }
    ensures shorter { OnOk result (length cursor.new.left.now < length cursor.old.left.now) }
{
    if cursor.sees(Sort::Word(word::RETURN)) {
        returned(alloc, cursor)
    } else if cursor.sees(Sort::Word(word::BREAK)) {
        broken(cursor)
    } else if cursor.sees(Sort::Word(word::CONTINUE)) {
        continued(cursor)
    } else if cursor.sees(Sort::Word(word::THROW)) {
        thrown(alloc, cursor)
    } else if cursor.sees(Sort::Word(word::OPEN)) {
        opened(alloc, cursor)
    } else if cursor.sees(Sort::Word(word::CLOSE)) {
        closed(alloc, cursor)
    } else if cursor.sees(Sort::Sign(sign::QUESTION)) {
        policy_local(alloc, cursor)
    } else if cursor.sees(Sort::Word(word::NOTNULL)) {
        notnull_local(alloc, cursor)
    } else if cursor.sees(Sort::Word(word::INT)) {
        typed_local(alloc, cursor)
    } else if cursor.sees(Sort::Word(word::BOOLEAN)) {
        typed_local(alloc, cursor)
    } else if cursor.sees(Sort::Name) {
        effect_of_name(alloc, cursor)
    } else if cursor.sees(Sort::Word(word::THIS)) {
        effect_of_this(alloc, cursor)
    } else {
        Err(ParseError::Syntax(cursor.at))
    }
}

#[tactic(auto, using(par_tree::proofs::Rules::run_built))]
fn returned(alloc: Global, cursor: &mut Cursor<'_, Paragon>) -> Result<Stmt, ParseError>
    ensures read { Reads
        (g.the_word words.RETURN ∷ symbol.restarts ∷ symbol.name g.MayValue
        ∷ g.sign_ signs.SEMICOLON ∷ symbol.builds g.ReturnStmt ∷ [])
        [] a_stmt (input cursor.old) result (input cursor.new) }
    ensures shorter { OnOk result (length cursor.new.left.now < length cursor.old.left.now) }
{
    let word = cursor.keep(Sort::Word(word::RETURN))?;
    cursor.restart();
    let value = may_value(alloc, cursor)?;
    cursor.take(Sort::Sign(sign::SEMICOLON))?;
    Ok(make::return_stmt(word, value))
}

fn may_value(alloc: Global, cursor: &mut Cursor<'_, Paragon>) -> Result<Option<Expr>, ParseError>
    ensures read { Reads (symbol.name g.MayValue ∷ []) [] may_be_value
        (input cursor.old) result (input cursor.new) }
    ensures shorter { OnOk result (length cursor.new.left.now ≤ length cursor.old.left.now) }
{
    if cursor.sees(Sort::Sign(sign::SEMICOLON)) {
        Ok(None)
    } else {
        some_value(alloc, cursor)
    }
}

#[tactic(auto, using(par_tree::proofs::Rules::run_built))]
fn some_value(alloc: Global, cursor: &mut Cursor<'_, Paragon>) -> Result<Option<Expr>, ParseError>
    ensures read { Reads (g.expr ∷ symbol.builds g.SomeValue ∷ []) [] may_be_value
        (input cursor.old) result (input cursor.new) }
    ensures shorter { OnOk result (length cursor.new.left.now < length cursor.old.left.now) }
{
    let value = expr(alloc, cursor)?;
    Ok(Some(value))
}

#[tactic(auto, using(par_tree::proofs::Rules::run_built))]
fn broken(cursor: &mut Cursor<'_, Paragon>) -> Result<Stmt, ParseError>
    ensures read { Reads
        (g.the_word words.BREAK ∷ g.sign_ signs.SEMICOLON ∷ symbol.builds g.BreakStmt ∷ [])
        [] a_stmt (input cursor.old) result (input cursor.new) }
    ensures shorter { OnOk result (length cursor.new.left.now < length cursor.old.left.now) }
{
    let word = cursor.keep(Sort::Word(word::BREAK))?;
    cursor.take(Sort::Sign(sign::SEMICOLON))?;
    Ok(make::break_stmt(word))
}

#[tactic(auto, using(par_tree::proofs::Rules::run_built))]
fn continued(cursor: &mut Cursor<'_, Paragon>) -> Result<Stmt, ParseError>
    ensures read { Reads
        (g.the_word words.CONTINUE ∷ g.sign_ signs.SEMICOLON ∷ symbol.builds g.ContinueStmt ∷ [])
        [] a_stmt (input cursor.old) result (input cursor.new) }
    ensures shorter { OnOk result (length cursor.new.left.now < length cursor.old.left.now) }
{
    let word = cursor.keep(Sort::Word(word::CONTINUE))?;
    cursor.take(Sort::Sign(sign::SEMICOLON))?;
    Ok(make::continue_stmt(word))
}

#[tactic(auto, using(par_tree::proofs::Rules::run_built))]
fn thrown(alloc: Global, cursor: &mut Cursor<'_, Paragon>) -> Result<Stmt, ParseError>
    ensures read { Reads
        (g.the_word words.THROW ∷ g.word_ words.NEW ∷ g.ident ∷ g.sign_ signs.LEFT_PAREN
        ∷ g.sign_ signs.RIGHT_PAREN ∷ g.sign_ signs.SEMICOLON ∷ symbol.builds g.ThrowStmt ∷ [])
        [] a_stmt (input cursor.old) result (input cursor.new) }
    ensures shorter { OnOk result (length cursor.new.left.now < length cursor.old.left.now) }
{
    let word = cursor.keep(Sort::Word(word::THROW))?;
    cursor.take(Sort::Word(word::NEW))?;
    let class = cursor.keep(Sort::Name)?;
    cursor.take(Sort::Sign(sign::LEFT_PAREN))?;
    cursor.take(Sort::Sign(sign::RIGHT_PAREN))?;
    cursor.take(Sort::Sign(sign::SEMICOLON))?;
    make::throw_stmt(alloc, word, class)
}

#[tactic(auto, using(par_tree::proofs::Rules::run_built))]
fn opened(alloc: Global, cursor: &mut Cursor<'_, Paragon>) -> Result<Stmt, ParseError>
    ensures read { Reads
        (g.the_word words.OPEN ∷ symbol.name g.Lock ∷ g.sign_ signs.SEMICOLON
        ∷ symbol.builds g.OpenStmt ∷ [])
        [] a_stmt (input cursor.old) result (input cursor.new) }
    ensures shorter { OnOk result (length cursor.new.left.now < length cursor.old.left.now) }
{
    let word = cursor.keep(Sort::Word(word::OPEN))?;
    let lock = lock(alloc, cursor)?;
    cursor.take(Sort::Sign(sign::SEMICOLON))?;
    Ok(make::open_stmt(word, lock))
}

#[tactic(auto, using(par_tree::proofs::Rules::run_built))]
fn closed(alloc: Global, cursor: &mut Cursor<'_, Paragon>) -> Result<Stmt, ParseError>
    ensures read { Reads
        (g.the_word words.CLOSE ∷ symbol.name g.Lock ∷ g.sign_ signs.SEMICOLON
        ∷ symbol.builds g.CloseStmt ∷ [])
        [] a_stmt (input cursor.old) result (input cursor.new) }
    ensures shorter { OnOk result (length cursor.new.left.now < length cursor.old.left.now) }
{
    let word = cursor.keep(Sort::Word(word::CLOSE))?;
    let lock = lock(alloc, cursor)?;
    cursor.take(Sort::Sign(sign::SEMICOLON))?;
    Ok(make::close_stmt(word, lock))
}

//! Blocks, and the statements that hold blocks.

ghost use Rattle.std.specs.Prelude.{◌≡◌, ◌<◌, ◌≤◌, [], ◌∷◌, length, OnOk};
ghost use Rattle.par_grammar.specs.Grammar as symbol;
ghost use Rattle.par_lexer.specs.declared.sign.TheConstants as signs;
ghost use Rattle.par_lexer.specs.declared.word.TheConstants as words;
ghost use Rattle.par_policy_reader.specs.par_reader.Reads.{input};
ghost use Rattle.par_tree.specs.Grammar as g;
ghost use Rattle.par_policy_reader.specs.par_reader.SourceLanguage.{Reads};
ghost use Rattle.par_stmts.specs.Reads.{a_block, may_be_block, a_stmt, the_stmts, an_else};
ghost use Rattle.par_stmts.specs.Reads.{a_catch, the_catches};

use crate::head::{lock_in_parens, test_in_parens};
use crate::make;
use crate::simple::simple;
use par_grammar::sort::Sort;
use par_lexer::list::List;
use par_lexer::{sign, word};
use par_policy_reader::par_reader::cursor::Cursor;
use par_policy_reader::par_reader::error::ParseError;
use par_policy_reader::par_reader::source_language::Paragon;
use par_tree::stmt::{Block, CatchTree, Stmt};
use std::alloc::Global;

/// Statements in braces.
#[cycle(stmt)]
pub fn block(alloc: Global, cursor: &mut Cursor<'_, Paragon>) -> Result<Block, ParseError>
    ensures read { Reads (symbol.name g.Block ∷ []) [] a_block
        (input cursor.old) result (input cursor.new) }
    ensures shorter { OnOk result (length cursor.new.left.now < length cursor.old.left.now) }
{
    if cursor.sees(Sort::Sign(sign::LEFT_BRACE)) {
        braced(alloc, cursor)
    } else {
        Err(ParseError::Syntax(cursor.at))
    }
}

#[cycle(stmt)]
#[tactic(auto, using(par_tree::proofs::Rules::run_built))]
fn braced(alloc: Global, cursor: &mut Cursor<'_, Paragon>) -> Result<Block, ParseError>
    ensures read { Reads
        (symbol.restarts ∷ symbol.enters ∷ g.the_sign signs.LEFT_BRACE ∷ symbol.name g.Stmts
        ∷ g.sign_ signs.RIGHT_BRACE ∷ symbol.leaves ∷ symbol.builds g.WholeBlock ∷ [])
        [] a_block (input cursor.old) result (input cursor.new) }
    ensures shorter { OnOk result (length cursor.new.left.now < length cursor.old.left.now) }
{
    cursor.restart();
    cursor.enter()?;
    let brace = cursor.keep(Sort::Sign(sign::LEFT_BRACE))?;
    let stmts = stmts(alloc, cursor)?;
    cursor.take(Sort::Sign(sign::RIGHT_BRACE))?;
    cursor.leave();
    Ok(make::block(brace, stmts))
}

#[cycle(stmt)]
fn stmts(alloc: Global, cursor: &mut Cursor<'_, Paragon>) -> Result<List<Stmt>, ParseError>
    ensures read { Reads (symbol.name g.Stmts ∷ []) [] the_stmts
        (input cursor.old) result (input cursor.new) }
    ensures shorter { OnOk result (length cursor.new.left.now ≤ length cursor.old.left.now) }
{
    let mut found = List::new(alloc);
    'more: while !cursor.sees(Sort::Sign(sign::RIGHT_BRACE)) {
        found = next_stmt(alloc, cursor, found)?;
    }
    Ok(found)
}

#[cycle(stmt)]
#[tactic(auto, using(par_tree::proofs::Rules::run_built, par_tree::proofs::Shown::all_do_with))]
fn next_stmt(
    alloc: Global,
    cursor: &mut Cursor<'_, Paragon>,
    mut found: List<Stmt>,
) -> Result<List<Stmt>, ParseError>
    ensures read { Reads
        (symbol.name g.Stmt ∷ symbol.builds g.NextStmt ∷ [])
        (the_stmts found) the_stmts (input cursor.old) result (input cursor.new) }
    ensures shorter { OnOk result (length cursor.new.left.now < length cursor.old.left.now) }
{
    let next = stmt(alloc, cursor)?;
    found.push(next)?;
    Ok(found)
}

#[cycle(stmt)]
fn stmt(alloc: Global, cursor: &mut Cursor<'_, Paragon>) -> Result<Stmt, ParseError>
    ensures read { Reads (symbol.name g.Stmt ∷ []) [] a_stmt
        (input cursor.old) result (input cursor.new) }
    ensures shorter { OnOk result (length cursor.new.left.now < length cursor.old.left.now) }
{
    if cursor.sees(Sort::Sign(sign::LEFT_BRACE)) {
        block_stmt(alloc, cursor)
    } else if cursor.sees(Sort::Word(word::IF)) {
        if_stmt(alloc, cursor)
    } else if cursor.sees(Sort::Word(word::WHILE)) {
        while_stmt(alloc, cursor)
    } else if cursor.sees(Sort::Word(word::TRY)) {
        try_stmt(alloc, cursor)
    } else if cursor.sees(Sort::Word(word::WHEN)) {
        when_stmt(alloc, cursor)
    } else {
        simple(alloc, cursor)
    }
}

#[cycle(stmt)]
#[tactic(auto, using(par_tree::proofs::Rules::run_built))]
fn block_stmt(alloc: Global, cursor: &mut Cursor<'_, Paragon>) -> Result<Stmt, ParseError>
    ensures read { Reads (symbol.name g.Block ∷ symbol.builds g.BlockStmt ∷ []) [] a_stmt
        (input cursor.old) result (input cursor.new) }
    ensures shorter { OnOk result (length cursor.new.left.now < length cursor.old.left.now) }
{
    let body = block(alloc, cursor)?;
    Ok(make::block_stmt(body))
}

#[cycle(stmt)]
fn if_stmt(alloc: Global, cursor: &mut Cursor<'_, Paragon>) -> Result<Stmt, ParseError>
    ensures read { Reads (symbol.name g.If ∷ []) [] a_stmt
        (input cursor.old) result (input cursor.new) }
    ensures shorter { OnOk result (length cursor.new.left.now < length cursor.old.left.now) }
{
    if cursor.sees(Sort::Word(word::IF)) {
        parts_of_if(alloc, cursor)
    } else {
        Err(ParseError::Syntax(cursor.at))
    }
}

#[cycle(stmt)]
#[tactic(auto, using(par_tree::proofs::Rules::run_built))]
fn parts_of_if(alloc: Global, cursor: &mut Cursor<'_, Paragon>) -> Result<Stmt, ParseError>
    ensures read { Reads
        (g.the_word words.IF ∷ g.sign_ signs.LEFT_PAREN ∷ symbol.restarts ∷ g.expr
        ∷ g.sign_ signs.RIGHT_PAREN ∷ symbol.name g.Block ∷ symbol.name g.ElsePart
        ∷ symbol.builds g.IfStmt ∷ [])
        [] a_stmt (input cursor.old) result (input cursor.new) }
    ensures shorter { OnOk result (length cursor.new.left.now < length cursor.old.left.now) }
{
    let word = cursor.keep(Sort::Word(word::IF))?;
    let test = test_in_parens(alloc, cursor)?;
    let body = block(alloc, cursor)?;
    let other = else_part(alloc, cursor)?;
    make::if_stmt(alloc, word, test, body, other)
}

#[cycle(stmt)]
fn else_part(alloc: Global, cursor: &mut Cursor<'_, Paragon>) -> Result<Option<Stmt>, ParseError>
    ensures read { Reads (symbol.name g.ElsePart ∷ []) [] an_else
        (input cursor.old) result (input cursor.new) }
    ensures shorter { OnOk result (length cursor.new.left.now ≤ length cursor.old.left.now) }
{
    if cursor.sees(Sort::Word(word::ELSE)) {
        some_else(alloc, cursor)
    } else {
        Ok(None)
    }
}

#[cycle(stmt)]
#[tactic(auto, using(par_tree::proofs::Rules::run_built))]
fn some_else(alloc: Global, cursor: &mut Cursor<'_, Paragon>) -> Result<Option<Stmt>, ParseError>
    ensures read { Reads
        (g.word_ words.ELSE ∷ symbol.name g.Else ∷ symbol.builds g.SomeElse ∷ [])
        [] an_else (input cursor.old) result (input cursor.new) }
    ensures shorter { OnOk result (length cursor.new.left.now < length cursor.old.left.now) }
{
    cursor.take(Sort::Word(word::ELSE))?;
    let other = other_stmt(alloc, cursor)?;
    Ok(Some(other))
}

/// What `else` begins, one deeper.
#[cycle(stmt)]
fn other_stmt(alloc: Global, cursor: &mut Cursor<'_, Paragon>) -> Result<Stmt, ParseError>
    ensures read { Reads (symbol.name g.Else ∷ []) [] a_stmt
        (input cursor.old) result (input cursor.new) }
    ensures shorter { OnOk result (length cursor.new.left.now < length cursor.old.left.now) }
{
    if cursor.sees(Sort::Sign(sign::LEFT_BRACE)) {
        other_block(alloc, cursor)
    } else if cursor.sees(Sort::Word(word::IF)) {
        other_if(alloc, cursor)
    } else {
        Err(ParseError::Syntax(cursor.at))
    }
}

#[cycle(stmt)]
#[tactic(auto, using(par_tree::proofs::Rules::run_built))]
fn other_block(alloc: Global, cursor: &mut Cursor<'_, Paragon>) -> Result<Stmt, ParseError>
    ensures read { Reads
        (symbol.restarts ∷ symbol.enters ∷ symbol.name g.Block ∷ symbol.leaves
        ∷ symbol.builds g.BlockStmt ∷ [])
        [] a_stmt (input cursor.old) result (input cursor.new) }
    ensures shorter { OnOk result (length cursor.new.left.now < length cursor.old.left.now) }
{
    let body = deeper_block(alloc, cursor)?;
    Ok(make::block_stmt(body))
}

#[cycle(stmt)]
fn other_if(alloc: Global, cursor: &mut Cursor<'_, Paragon>) -> Result<Stmt, ParseError>
    ensures read { Reads
        (symbol.restarts ∷ symbol.enters ∷ symbol.name g.If ∷ symbol.leaves ∷ [])
        [] a_stmt (input cursor.old) result (input cursor.new) }
    ensures shorter { OnOk result (length cursor.new.left.now < length cursor.old.left.now) }
{
    cursor.restart();
    cursor.enter()?;
    let other = if_stmt(alloc, cursor)?;
    cursor.leave();
    Ok(other)
}

#[cycle(stmt)]
fn deeper_block(alloc: Global, cursor: &mut Cursor<'_, Paragon>) -> Result<Block, ParseError>
    ensures read { Reads
        (symbol.restarts ∷ symbol.enters ∷ symbol.name g.Block ∷ symbol.leaves ∷ [])
        [] a_block (input cursor.old) result (input cursor.new) }
    ensures shorter { OnOk result (length cursor.new.left.now < length cursor.old.left.now) }
{
    cursor.restart();
    cursor.enter()?;
    let body = block(alloc, cursor)?;
    cursor.leave();
    Ok(body)
}

#[cycle(stmt)]
#[tactic(auto, using(par_tree::proofs::Rules::run_built))]
fn while_stmt(alloc: Global, cursor: &mut Cursor<'_, Paragon>) -> Result<Stmt, ParseError>
    ensures read { Reads
        (g.the_word words.WHILE ∷ g.sign_ signs.LEFT_PAREN ∷ symbol.restarts ∷ g.expr
        ∷ g.sign_ signs.RIGHT_PAREN ∷ symbol.name g.Block ∷ symbol.builds g.WhileStmt ∷ [])
        [] a_stmt (input cursor.old) result (input cursor.new) }
    ensures shorter { OnOk result (length cursor.new.left.now < length cursor.old.left.now) }
{
    let word = cursor.keep(Sort::Word(word::WHILE))?;
    let test = test_in_parens(alloc, cursor)?;
    let body = block(alloc, cursor)?;
    Ok(make::while_stmt(word, test, body))
}

#[cycle(stmt)]
#[tactic(auto, using(par_tree::proofs::Rules::run_built))]
fn when_stmt(alloc: Global, cursor: &mut Cursor<'_, Paragon>) -> Result<Stmt, ParseError>
    ensures read { Reads
        (g.the_word words.WHEN ∷ g.sign_ signs.LEFT_PAREN ∷ symbol.name g.Lock
        ∷ g.sign_ signs.RIGHT_PAREN ∷ symbol.name g.Block ∷ symbol.name g.WhenElse
        ∷ symbol.builds g.WhenStmt ∷ [])
        [] a_stmt (input cursor.old) result (input cursor.new) }
    ensures shorter { OnOk result (length cursor.new.left.now < length cursor.old.left.now) }
{
    let word = cursor.keep(Sort::Word(word::WHEN))?;
    let lock = lock_in_parens(alloc, cursor)?;
    let body = block(alloc, cursor)?;
    let other = when_else(alloc, cursor)?;
    Ok(make::when_stmt(word, lock, body, other))
}

#[cycle(stmt)]
fn when_else(alloc: Global, cursor: &mut Cursor<'_, Paragon>) -> Result<Option<Block>, ParseError>
    ensures read { Reads (symbol.name g.WhenElse ∷ []) [] may_be_block
        (input cursor.old) result (input cursor.new) }
    ensures shorter { OnOk result (length cursor.new.left.now ≤ length cursor.old.left.now) }
{
    if cursor.sees(Sort::Word(word::ELSE)) {
        some_when_else(alloc, cursor)
    } else {
        Ok(None)
    }
}

#[cycle(stmt)]
#[tactic(auto, using(par_tree::proofs::Rules::run_built))]
fn some_when_else(
    alloc: Global,
    cursor: &mut Cursor<'_, Paragon>,
) -> Result<Option<Block>, ParseError>
    ensures read { Reads
        (g.word_ words.ELSE ∷ symbol.name g.ElseBlock ∷ symbol.builds g.SomeBlock ∷ [])
        [] may_be_block (input cursor.old) result (input cursor.new) }
    ensures shorter { OnOk result (length cursor.new.left.now < length cursor.old.left.now) }
{
    cursor.take(Sort::Word(word::ELSE))?;
    let other = else_block(alloc, cursor)?;
    Ok(Some(other))
}

/// The block that an `else` begins, one deeper.
#[cycle(stmt)]
fn else_block(alloc: Global, cursor: &mut Cursor<'_, Paragon>) -> Result<Block, ParseError>
    ensures read { Reads (symbol.name g.ElseBlock ∷ []) [] a_block
        (input cursor.old) result (input cursor.new) }
    ensures shorter { OnOk result (length cursor.new.left.now < length cursor.old.left.now) }
{
    if cursor.sees(Sort::Sign(sign::LEFT_BRACE)) {
        deeper_block(alloc, cursor)
    } else {
        Err(ParseError::Syntax(cursor.at))
    }
}

#[cycle(stmt)]
#[tactic(auto, using(par_tree::proofs::Rules::run_built))]
fn try_stmt(alloc: Global, cursor: &mut Cursor<'_, Paragon>) -> Result<Stmt, ParseError>
    ensures read { Reads
        (g.the_word words.TRY ∷ symbol.name g.Block ∷ symbol.name g.Catches
        ∷ symbol.builds g.TryStmt ∷ [])
        [] a_stmt (input cursor.old) result (input cursor.new) }
    ensures shorter { OnOk result (length cursor.new.left.now < length cursor.old.left.now) }
{
    let word = cursor.keep(Sort::Word(word::TRY))?;
    let body = block(alloc, cursor)?;
    let catches = catches(alloc, cursor)?;
    Ok(make::try_stmt(word, body, catches))
}

#[cycle(stmt)]
#[tactic(auto, using(par_tree::proofs::Rules::catches_opens))]
fn catches(alloc: Global, cursor: &mut Cursor<'_, Paragon>) -> Result<List<CatchTree>, ParseError>
    ensures read { Reads (symbol.name g.Catches ∷ []) [] the_catches
        (input cursor.old) result (input cursor.new) }
    ensures shorter { OnOk result (length cursor.new.left.now < length cursor.old.left.now) }
{
    let first = first_catch(alloc, cursor)?;
    more_catches(alloc, cursor, first)
}

#[cycle(stmt)]
fn first_catch(
    alloc: Global,
    cursor: &mut Cursor<'_, Paragon>,
) -> Result<List<CatchTree>, ParseError>
    ensures read { Reads
        (symbol.builds g.NoCatches ∷ symbol.name g.Catch ∷ symbol.builds g.NextCatch ∷ [])
        [] the_catches (input cursor.old) result (input cursor.new) }
    ensures shorter { OnOk result (length cursor.new.left.now < length cursor.old.left.now) }
{
    let none = List::new(alloc);
    next_catch(alloc, cursor, none)
}

#[cycle(stmt)]
#[tactic(auto, using(par_tree::proofs::Rules::run_built, par_tree::proofs::Shown::all_catch_with))]
fn next_catch(
    alloc: Global,
    cursor: &mut Cursor<'_, Paragon>,
    mut found: List<CatchTree>,
) -> Result<List<CatchTree>, ParseError>
    ensures read { Reads
        (symbol.name g.Catch ∷ symbol.builds g.NextCatch ∷ [])
        (the_catches found) the_catches (input cursor.old) result (input cursor.new) }
    ensures shorter { OnOk result (length cursor.new.left.now < length cursor.old.left.now) }
{
    let next = catch(alloc, cursor)?;
    found.push(next)?;
    Ok(found)
}

#[cycle(stmt)]
fn more_catches(
    alloc: Global,
    cursor: &mut Cursor<'_, Paragon>,
    mut found: List<CatchTree>,
) -> Result<List<CatchTree>, ParseError>
    ensures read { Reads (symbol.name g.MoreCatches ∷ []) (the_catches found) the_catches
        (input cursor.old) result (input cursor.new) }
    ensures shorter { OnOk result (length cursor.new.left.now ≤ length cursor.old.left.now) }
{
    'more: while cursor.sees(Sort::Word(word::CATCH)) {
        found = next_catch(alloc, cursor, found)?;
    }
    Ok(found)
}

#[cycle(stmt)]
#[tactic(auto, using(par_tree::proofs::Rules::run_built, par_tree::proofs::Rules::catch_opens))]
fn catch(alloc: Global, cursor: &mut Cursor<'_, Paragon>) -> Result<CatchTree, ParseError>
    ensures read { Reads (symbol.name g.Catch ∷ []) [] a_catch
        (input cursor.old) result (input cursor.new) }
    ensures shorter { OnOk result (length cursor.new.left.now < length cursor.old.left.now) }
{
    cursor.take(Sort::Word(word::CATCH))?;
    cursor.take(Sort::Sign(sign::LEFT_PAREN))?;
    let class = cursor.keep(Sort::Name)?;
    let name = cursor.keep(Sort::Name)?;
    cursor.take(Sort::Sign(sign::RIGHT_PAREN))?;
    let body = block(alloc, cursor)?;
    make::catch(alloc, class, name, body)
}

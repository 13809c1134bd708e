//! Declarations: actors, locks, policies and classes.

ghost use Rattle.std.specs.Prelude.{◌≡◌, ◌<◌, ◌≤◌, [], ◌∷◌, length, OnOk};
ghost use Rattle.par_grammar.specs.Grammar as symbol;
ghost use Rattle.par_grammar.specs.declared.sort.Sort.TheVariants as sort;
ghost use Rattle.par_stmts.specs.par_reader.SourceLanguage.{Reads};
ghost use Rattle.par_lexer.specs.declared.sign.TheConstants as signs;
ghost use Rattle.par_lexer.specs.declared.word.TheConstants as words;
ghost use Rattle.par_stmts.specs.par_reader.Reads.{input};
ghost use Rattle.par_tree.specs.Grammar as g;
ghost use Rattle.par_parser.specs.Reads.{a_decl, an_arity, the_decls};

use crate::class::class;
use par_grammar::sort::Sort;
use par_lexer::list::List;
use par_lexer::{sign, word};
use par_stmts::par_policy_reader::ident::{ident, idents};
use par_stmts::par_policy_reader::policy::{may_policy, policy};
use par_stmts::par_reader::cursor::Cursor;
use par_stmts::par_reader::error::ParseError;
use par_stmts::par_reader::source_language::Paragon;
use par_tree::decl::{Decl, LockDecl, PolicyDecl};
use std::alloc::Global;

/// All declarations of a source.
pub fn decls(alloc: Global, cursor: &mut Cursor<'_, Paragon>) -> Result<List<Decl>, ParseError>
    ensures { Reads (symbol.name g.Decls ∷ []) [] the_decls
        (input cursor.old) result (input cursor.new) }
{
    let none = List::new(alloc);
    more_decls(alloc, cursor, none)
}

fn more_decls(
    alloc: Global,
    cursor: &mut Cursor<'_, Paragon>,
    mut found: List<Decl>,
) -> Result<List<Decl>, ParseError>
    ensures { Reads (symbol.name g.MoreDecls ∷ []) (the_decls found) the_decls
        (input cursor.old) result (input cursor.new) }
{
    'more: while !cursor.sees(Sort::End) {
        found = next_decl(alloc, cursor, found)?;
    }
    Ok(found)
}

#[tactic(auto, using(par_tree::proofs::Rules::run_built, crate::proofs::Lists::declared_with))]
fn next_decl(
    alloc: Global,
    cursor: &mut Cursor<'_, Paragon>,
    mut found: List<Decl>,
) -> Result<List<Decl>, ParseError>
    ensures read { Reads (symbol.name g.Decl ∷ symbol.builds g.NextDecl ∷ [])
        (the_decls found) the_decls (input cursor.old) result (input cursor.new) }
    ensures shorter { OnOk result (length cursor.new.left.now < length cursor.old.left.now) }
{
    let next = decl(alloc, cursor)?;
    found.push(next)?;
    Ok(found)
}

fn decl(alloc: Global, cursor: &mut Cursor<'_, Paragon>) -> Result<Decl, ParseError>
    ensures read { Reads (symbol.name g.Decl ∷ []) [] a_decl
        (input cursor.old) result (input cursor.new) }
    ensures shorter { OnOk result (length cursor.new.left.now < length cursor.old.left.now) }
{
    if cursor.sees(Sort::Word(word::ACTOR)) {
        actors(alloc, cursor)
    } else if cursor.sees(Sort::Word(word::LOCK)) {
        lock(alloc, cursor)
    } else if cursor.sees(Sort::Word(word::POLICY)) {
        named_policy(alloc, cursor)
    } else if cursor.sees(Sort::Word(word::CLASS)) {
        class(alloc, cursor)
    } else {
        Err(ParseError::Syntax(cursor.at))
    }
}

#[tactic(auto, using(par_tree::proofs::Rules::run_built))]
fn actors(alloc: Global, cursor: &mut Cursor<'_, Paragon>) -> Result<Decl, ParseError>
    ensures read { Reads
        (symbol.token (sort.Word words.ACTOR) ∷ symbol.name g.Idents
        ∷ symbol.token (sort.Sign signs.SEMICOLON) ∷ symbol.builds g.ActorsDecl ∷ [])
        [] a_decl (input cursor.old) result (input cursor.new) }
    ensures shorter { OnOk result (length cursor.new.left.now < length cursor.old.left.now) }
{
    cursor.take(Sort::Word(word::ACTOR))?;
    let names = idents(alloc, cursor)?;
    cursor.take(Sort::Sign(sign::SEMICOLON))?;
    Ok(Decl::Actors(names))
}

#[tactic(auto, using(par_tree::proofs::Rules::run_built))]
fn lock(alloc: Global, cursor: &mut Cursor<'_, Paragon>) -> Result<Decl, ParseError>
    ensures read { Reads
        (symbol.token (sort.Word words.LOCK) ∷ symbol.kept sort.Name ∷ symbol.name g.Arity
        ∷ symbol.name g.MayPolicy ∷ symbol.token (sort.Sign signs.SEMICOLON)
        ∷ symbol.builds g.LockDecl ∷ [])
        [] a_decl (input cursor.old) result (input cursor.new) }
    ensures shorter { OnOk result (length cursor.new.left.now < length cursor.old.left.now) }
{
    cursor.take(Sort::Word(word::LOCK))?;
    let name = cursor.keep(Sort::Name)?;
    let arity = arity(cursor)?;
    let policy = may_policy(alloc, cursor)?;
    cursor.take(Sort::Sign(sign::SEMICOLON))?;
    let id = ident(alloc, name)?;
    Ok(Decl::Lock(LockDecl { id, arity, policy }))
}

/// How many actors choose a lock of a family: none where no parentheses are written.
fn arity(cursor: &mut Cursor<'_, Paragon>) -> Result<u8, ParseError>
    ensures read { Reads (symbol.name g.Arity ∷ []) [] an_arity
        (input cursor.old) result (input cursor.new) }
    ensures shorter { OnOk result (length cursor.new.left.now ≤ length cursor.old.left.now) }
{
    if cursor.sees(Sort::Sign(sign::LEFT_PAREN)) {
        some_arity(cursor)
    } else {
        Ok(0)
    }
}

fn some_arity(cursor: &mut Cursor<'_, Paragon>) -> Result<u8, ParseError>
    ensures read { Reads
        (symbol.token (sort.Sign signs.LEFT_PAREN) ∷ symbol.token (sort.Word words.ACTOR)
        ∷ symbol.name g.SecondActor ∷ symbol.token (sort.Sign signs.RIGHT_PAREN) ∷ [])
        [] an_arity (input cursor.old) result (input cursor.new) }
    ensures shorter { OnOk result (length cursor.new.left.now < length cursor.old.left.now) }
{
    cursor.take(Sort::Sign(sign::LEFT_PAREN))?;
    cursor.take(Sort::Word(word::ACTOR))?;
    let arity = second_actor(cursor)?;
    cursor.take(Sort::Sign(sign::RIGHT_PAREN))?;
    Ok(arity)
}

fn second_actor(cursor: &mut Cursor<'_, Paragon>) -> Result<u8, ParseError>
    ensures read { Reads (symbol.name g.SecondActor ∷ []) [] an_arity
        (input cursor.old) result (input cursor.new) }
    ensures shorter { OnOk result (length cursor.new.left.now ≤ length cursor.old.left.now) }
{
    if cursor.sees(Sort::Sign(sign::COMMA)) {
        two_actors(cursor)
    } else {
        Ok(1)
    }
}

#[tactic(auto, using(par_tree::proofs::Rules::run_built))]
fn two_actors(cursor: &mut Cursor<'_, Paragon>) -> Result<u8, ParseError>
    ensures read { Reads
        (symbol.token (sort.Sign signs.COMMA) ∷ symbol.token (sort.Word words.ACTOR)
        ∷ symbol.builds (g.OfArity 2) ∷ [])
        [] an_arity (input cursor.old) result (input cursor.new) }
    ensures shorter { OnOk result (length cursor.new.left.now < length cursor.old.left.now) }
{
    cursor.take(Sort::Sign(sign::COMMA))?;
    cursor.take(Sort::Word(word::ACTOR))?;
    Ok(2)
}

#[tactic(auto, using(par_tree::proofs::Rules::run_built))]
fn named_policy(alloc: Global, cursor: &mut Cursor<'_, Paragon>) -> Result<Decl, ParseError>
    ensures read { Reads
        (symbol.token (sort.Word words.POLICY) ∷ symbol.kept sort.Name
        ∷ symbol.token (sort.Sign signs.ASSIGN) ∷ symbol.name g.Policy
        ∷ symbol.token (sort.Sign signs.SEMICOLON) ∷ symbol.builds g.PolicyDecl ∷ [])
        [] a_decl (input cursor.old) result (input cursor.new) }
    ensures shorter { OnOk result (length cursor.new.left.now < length cursor.old.left.now) }
{
    cursor.take(Sort::Word(word::POLICY))?;
    let name = cursor.keep(Sort::Name)?;
    cursor.take(Sort::Sign(sign::ASSIGN))?;
    let policy = policy(alloc, cursor)?;
    cursor.take(Sort::Sign(sign::SEMICOLON))?;
    let id = ident(alloc, name)?;
    Ok(Decl::Policy(PolicyDecl { id, policy }))
}

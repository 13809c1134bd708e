//! Policies: terms with `*` between them.

ghost use Rattle.std.specs.Prelude.{◌≡◌, ◌<◌, ◌≤◌, [], ◌∷◌, length, OnOk, IfOk, IfErr};
ghost use Rattle.par_grammar.specs.Grammar as symbol;
ghost use Rattle.par_grammar.specs.declared.sort.Sort.TheVariants as sort;
ghost use Rattle.par_reader.specs.SourceLanguage.{Reads};
ghost use Rattle.par_lexer.specs.declared.sign.TheConstants as signs;
ghost use Rattle.par_lexer.specs.declared.word.TheConstants as words;
ghost use Rattle.par_reader.specs.Reads.{input};
ghost use Rattle.par_tree.specs.Grammar as g;
ghost use Rattle.par_policy_reader.specs.Reads.{a_policy, a_term, may_be_policy};

use crate::clause::clauses;
use crate::ident::ident;
use par_grammar::sort::Sort;
use par_lexer::list::List;
use par_lexer::{sign, word};
use par_reader::cursor::Cursor;
use par_reader::error::ParseError;
use par_reader::source_language::Paragon;
use par_tree::policy::{PolicyExpr, PolicyTerm};
use std::alloc::Global;

/// A term of a policy, with the place of its first token.
#[derive(Drop)]
pub struct Placed {
    pub term: PolicyTerm,
    pub at: u32,
}

/// A `?` and a policy, or nothing.
pub fn may_policy(
    alloc: Global,
    cursor: &mut Cursor<'_, Paragon>,
) -> Result<Option<PolicyExpr>, ParseError>
    ensures read { Reads (symbol.name g.MayPolicy ∷ []) [] may_be_policy
        (input cursor.old) result (input cursor.new) }
    ensures shorter { OnOk result (length cursor.new.left.now ≤ length cursor.old.left.now) }
{
    if cursor.sees(Sort::Sign(sign::QUESTION)) {
        marked_policy(alloc, cursor)
    } else {
        Ok(None)
    }
}

fn marked_policy(
    alloc: Global,
    cursor: &mut Cursor<'_, Paragon>,
) -> Result<Option<PolicyExpr>, ParseError>
    ensures read { Reads
        (symbol.token (sort.Sign signs.QUESTION) ∷ symbol.name g.Policy
        ∷ symbol.builds g.SomePolicy ∷ [])
        [] may_be_policy (input cursor.old) result (input cursor.new) }
    ensures shorter { OnOk result (length cursor.new.left.now < length cursor.old.left.now) }
{
    cursor.take(Sort::Sign(sign::QUESTION))?;
    some_policy(alloc, cursor)
}

/// A policy where one may also be left out.
#[tactic(auto, using(par_tree::proofs::Rules::run_built))]
pub fn some_policy(
    alloc: Global,
    cursor: &mut Cursor<'_, Paragon>,
) -> Result<Option<PolicyExpr>, ParseError>
    ensures read { Reads (symbol.name g.Policy ∷ symbol.builds g.SomePolicy ∷ [])
        [] may_be_policy (input cursor.old) result (input cursor.new) }
    ensures shorter { OnOk result (length cursor.new.left.now < length cursor.old.left.now) }
{
    let policy = policy(alloc, cursor)?;
    Ok(Some(policy))
}

/// Terms with `*` between them.
#[tactic(auto, using(par_tree::proofs::Rules::policy_opens))]
pub fn policy(alloc: Global, cursor: &mut Cursor<'_, Paragon>) -> Result<PolicyExpr, ParseError>
    ensures read { Reads (symbol.name g.Policy ∷ []) [] a_policy
        (input cursor.old) result (input cursor.new) }
    ensures shorter { OnOk result (length cursor.new.left.now < length cursor.old.left.now) }
{
    let first = first_term(alloc, cursor)?;
    more_terms(alloc, cursor, first)
}

#[tactic(auto, using(par_tree::proofs::Rules::run_built))]
fn first_term(alloc: Global, cursor: &mut Cursor<'_, Paragon>) -> Result<PolicyExpr, ParseError>
    ensures read { Reads (symbol.name g.Term ∷ symbol.builds g.FirstTerm ∷ []) [] a_policy
        (input cursor.old) result (input cursor.new) }
    ensures shorter { OnOk result (length cursor.new.left.now < length cursor.old.left.now) }
{
    let first = term(alloc, cursor)?;
    let mut terms = List::new(alloc);
    terms.push(first.term)?;
    Ok(PolicyExpr {
        terms,
        at: first.at,
    })
}

#[tactic(auto, using(par_tree::proofs::Rules::run_built))]
fn another_term(
    alloc: Global,
    cursor: &mut Cursor<'_, Paragon>,
    mut found: PolicyExpr,
) -> Result<PolicyExpr, ParseError>
    ensures read { Reads
        (symbol.token (sort.Sign signs.STAR) ∷ symbol.name g.Term ∷ symbol.builds g.NextTerm ∷ [])
        (a_policy found) a_policy (input cursor.old) result (input cursor.new) }
    ensures shorter { OnOk result (length cursor.new.left.now < length cursor.old.left.now) }
{
    cursor.take(Sort::Sign(sign::STAR))?;
    let next = term(alloc, cursor)?;
    found.terms.push(next.term)?;
    Ok(found)
}

fn more_terms(
    alloc: Global,
    cursor: &mut Cursor<'_, Paragon>,
    mut found: PolicyExpr,
) -> Result<PolicyExpr, ParseError>
    ensures read { Reads (symbol.name g.MoreTerms ∷ []) (a_policy found) a_policy
        (input cursor.old) result (input cursor.new) }
    ensures shorter { OnOk result (length cursor.new.left.now ≤ length cursor.old.left.now) }
{
    'more: while cursor.sees(Sort::Sign(sign::STAR)) {
        found = another_term(alloc, cursor, found)?;
    }
    Ok(found)
}

fn term(alloc: Global, cursor: &mut Cursor<'_, Paragon>) -> Result<Placed, ParseError>
    ensures read { Reads (symbol.name g.Term ∷ []) [] a_term
        (input cursor.old) result (input cursor.new) }
    ensures shorter { OnOk result (length cursor.new.left.now < length cursor.old.left.now) }
{
    if cursor.sees(Sort::Sign(sign::LEFT_BRACE)) {
        written_term(alloc, cursor)
    } else if cursor.sees(Sort::Name) {
        named_term(alloc, cursor)
    } else if cursor.sees(Sort::Word(word::BOTTOM)) {
        bottom_term(cursor)
    } else if cursor.sees(Sort::Word(word::TOP)) {
        top_term(cursor)
    } else {
        Err(ParseError::Syntax(cursor.at))
    }
}

#[tactic(auto, using(par_tree::proofs::Rules::run_built))]
fn written_term(alloc: Global, cursor: &mut Cursor<'_, Paragon>) -> Result<Placed, ParseError>
    ensures read { Reads
        (symbol.kept (sort.Sign signs.LEFT_BRACE) ∷ symbol.name g.Clauses
        ∷ symbol.token (sort.Sign signs.RIGHT_BRACE) ∷ symbol.builds g.ClausesTerm ∷ [])
        [] a_term (input cursor.old) result (input cursor.new) }
    ensures shorter { OnOk result (length cursor.new.left.now < length cursor.old.left.now) }
{
    let brace = cursor.keep(Sort::Sign(sign::LEFT_BRACE))?;
    let clauses = clauses(alloc, cursor)?;
    cursor.take(Sort::Sign(sign::RIGHT_BRACE))?;
    Ok(Placed {
        term: PolicyTerm::Clauses(clauses),
        at: brace.from,
    })
}

#[tactic(auto, using(par_tree::proofs::Rules::run_built))]
fn named_term(alloc: Global, cursor: &mut Cursor<'_, Paragon>) -> Result<Placed, ParseError>
    ensures read { Reads (symbol.kept sort.Name ∷ symbol.builds g.NamedTerm ∷ []) [] a_term
        (input cursor.old) result (input cursor.new) }
    ensures shorter { OnOk result (length cursor.new.left.now < length cursor.old.left.now) }
{
    let name = cursor.keep(Sort::Name)?;
    let id = ident(alloc, name)?;
    Ok(Placed {
        term: PolicyTerm::Named(id),
        at: name.from,
    })
}

#[tactic(auto, using(par_tree::proofs::Rules::run_built))]
fn bottom_term(cursor: &mut Cursor<'_, Paragon>) -> Result<Placed, ParseError>
    ensures read { Reads
        (symbol.kept (sort.Word words.BOTTOM) ∷ symbol.builds g.BottomTerm ∷ []) [] a_term
        (input cursor.old) result (input cursor.new) }
    ensures shorter { OnOk result (length cursor.new.left.now < length cursor.old.left.now) }
{
    let word = cursor.keep(Sort::Word(word::BOTTOM))?;
    Ok(Placed {
        term: PolicyTerm::Bottom,
        at: word.from,
    })
}

#[tactic(auto, using(par_tree::proofs::Rules::run_built))]
fn top_term(cursor: &mut Cursor<'_, Paragon>) -> Result<Placed, ParseError>
    ensures read { Reads
        (symbol.kept (sort.Word words.TOP) ∷ symbol.builds g.TopTerm ∷ []) [] a_term
        (input cursor.old) result (input cursor.new) }
    ensures shorter { OnOk result (length cursor.new.left.now < length cursor.old.left.now) }
{
    let word = cursor.keep(Sort::Word(word::TOP))?;
    Ok(Placed {
        term: PolicyTerm::Top,
        at: word.from,
    })
}

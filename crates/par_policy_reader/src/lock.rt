//! Locks, with the actors of a family's member.

ghost use Rattle.std.specs.Prelude.{◌≡◌, ◌<◌, ◌≤◌, [], ◌∷◌, length, OnOk};
ghost use Rattle.par_grammar.specs.Grammar as symbol;
ghost use Rattle.par_grammar.specs.declared.sort.Sort.TheVariants as sort;
ghost use Rattle.par_reader.specs.SourceLanguage.{Reads};
ghost use Rattle.par_lexer.specs.declared.sign.TheConstants as signs;
ghost use Rattle.par_reader.specs.Reads.{input};
ghost use Rattle.par_tree.specs.Grammar as g;
ghost use Rattle.par_policy_reader.specs.Reads.{a_lock, the_idents};

use crate::ident::{another_ident, first_ident, ident};
use par_grammar::sort::Sort;
use par_lexer::list::List;
use par_lexer::sign;
use par_reader::cursor::Cursor;
use par_reader::error::ParseError;
use par_reader::source_language::Paragon;
use par_tree::ident::Ident;
use par_tree::policy::LockTree;
use std::alloc::Global;

/// A lock, or the member of a family that one or two actors choose.
#[tactic(auto, using(par_tree::proofs::Rules::run_built, par_tree::proofs::Rules::lock_opens))]
pub fn lock(alloc: Global, cursor: &mut Cursor<'_, Paragon>) -> Result<LockTree, ParseError>
    ensures read { Reads (symbol.name g.Lock ∷ []) [] a_lock
        (input cursor.old) result (input cursor.new) }
    ensures shorter { OnOk result (length cursor.new.left.now < length cursor.old.left.now) }
{
    let name = cursor.keep(Sort::Name)?;
    let actors = lock_actors(alloc, cursor)?;
    let id = ident(alloc, name)?;
    Ok(LockTree { id, actors })
}

fn lock_actors(alloc: Global, cursor: &mut Cursor<'_, Paragon>) -> Result<List<Ident>, ParseError>
    ensures read { Reads (symbol.name g.LockActors ∷ []) [] the_idents
        (input cursor.old) result (input cursor.new) }
    ensures shorter { OnOk result (length cursor.new.left.now ≤ length cursor.old.left.now) }
{
    if cursor.sees(Sort::Sign(sign::LEFT_PAREN)) {
        some_actors(alloc, cursor)
    } else {
        Ok(List::new(alloc))
    }
}

fn some_actors(alloc: Global, cursor: &mut Cursor<'_, Paragon>) -> Result<List<Ident>, ParseError>
    ensures read { Reads
        (symbol.token (sort.Sign signs.LEFT_PAREN) ∷ symbol.builds g.NoIdents
        ∷ symbol.kept sort.Name ∷ symbol.builds g.NextIdent ∷ symbol.name g.SecondIdent
        ∷ symbol.token (sort.Sign signs.RIGHT_PAREN) ∷ [])
        [] the_idents (input cursor.old) result (input cursor.new) }
    ensures shorter { OnOk result (length cursor.new.left.now < length cursor.old.left.now) }
{
    cursor.take(Sort::Sign(sign::LEFT_PAREN))?;
    let first = first_ident(alloc, cursor)?;
    let actors = second_ident(alloc, cursor, first)?;
    cursor.take(Sort::Sign(sign::RIGHT_PAREN))?;
    Ok(actors)
}

fn second_ident(
    alloc: Global,
    cursor: &mut Cursor<'_, Paragon>,
    first: List<Ident>,
) -> Result<List<Ident>, ParseError>
    ensures read { Reads (symbol.name g.SecondIdent ∷ []) (the_idents first) the_idents
        (input cursor.old) result (input cursor.new) }
    ensures shorter { OnOk result (length cursor.new.left.now ≤ length cursor.old.left.now) }
{
    if cursor.sees(Sort::Sign(sign::COMMA)) {
        another_ident(alloc, cursor, first)
    } else {
        Ok(first)
    }
}

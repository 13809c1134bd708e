//! Names with their places, and lists of them.

ghost use Rattle.std.specs.Prelude.{◌≡◌, ◌<◌, ◌≤◌, [], ◌∷◌, length, OnOk, IfOk, IfErr};
ghost use Rattle.par_grammar.specs.Grammar as symbol;
ghost use Rattle.par_grammar.specs.declared.sort.Sort.TheVariants as sort;
ghost use Rattle.par_reader.specs.SourceLanguage.{Reads};
ghost use Rattle.par_lexer.specs.declared.sign.TheConstants as signs;
ghost use Rattle.par_reader.specs.Reads.{IsOf, input};
ghost use Rattle.par_tree.specs.Grammar as g;
ghost use Rattle.par_tree.specs.Values as value;
ghost use Rattle.par_policy_reader.specs.Reads.{the_idents};

use par_grammar::sort::Sort;
use par_lexer::list::List;
use par_lexer::name::Name;
use par_lexer::sign;
use par_lexer::token::{Kind, Token};
use par_reader::cursor::Cursor;
use par_reader::error::ParseError;
use par_reader::source_language::Paragon;
use par_tree::ident::Ident;
use std::alloc::Global;

/// A second name of a token's text.
fn name(alloc: Global, token: &Token) -> Result<Name, ParseError>
    requires { IsOf sort.Name token.now }
    ensures ok { IfOk result (λ name. name ≡ value.text token.now.kind) }
    ensures err { IfErr result (λ error. error ≡ ParseError.Memory) }
{
    match &token.kind {
        Kind::Name(name) => Ok(name.copy(alloc)?),
        _ => unreachable!(),
    }
}

/// The name that a token is, with its place.
pub fn ident(alloc: Global, token: &Token) -> Result<Ident, ParseError>
    requires { IsOf sort.Name token.now }
    ensures ok { IfOk result (λ id. id ≡ value.ident token.now) }
    ensures err { IfErr result (λ error. error ≡ ParseError.Memory) }
{
    Ok(Ident {
        name: name(alloc, token)?,
        at: token.from,
    })
}

/// Names with commas between them.
#[tactic(auto, using(par_tree::proofs::Rules::idents_opens))]
pub fn idents(alloc: Global, cursor: &mut Cursor<'_, Paragon>) -> Result<List<Ident>, ParseError>
    ensures read { Reads (symbol.name g.Idents ∷ []) [] the_idents
        (input cursor.old) result (input cursor.new) }
    ensures shorter { OnOk result (length cursor.new.left.now < length cursor.old.left.now) }
{
    let first = first_ident(alloc, cursor)?;
    more_idents(alloc, cursor, first)
}

/// A list of one name.
pub fn first_ident(
    alloc: Global,
    cursor: &mut Cursor<'_, Paragon>,
) -> Result<List<Ident>, ParseError>
    ensures read { Reads
        (symbol.builds g.NoIdents ∷ symbol.kept sort.Name ∷ symbol.builds g.NextIdent ∷ [])
        [] the_idents (input cursor.old) result (input cursor.new) }
    ensures shorter { OnOk result (length cursor.new.left.now < length cursor.old.left.now) }
{
    let none = List::new(alloc);
    next_ident(alloc, cursor, none)
}

#[tactic(auto, using(par_tree::proofs::Rules::run_built))]
fn next_ident(
    alloc: Global,
    cursor: &mut Cursor<'_, Paragon>,
    mut found: List<Ident>,
) -> Result<List<Ident>, ParseError>
    ensures read { Reads (symbol.kept sort.Name ∷ symbol.builds g.NextIdent ∷ [])
        (the_idents found) the_idents (input cursor.old) result (input cursor.new) }
    ensures shorter { OnOk result (length cursor.new.left.now < length cursor.old.left.now) }
{
    let token = cursor.keep(Sort::Name)?;
    let next = ident(alloc, token)?;
    found.push(next)?;
    Ok(found)
}

/// A comma and a name, behind the names that were found.
pub fn another_ident(
    alloc: Global,
    cursor: &mut Cursor<'_, Paragon>,
    found: List<Ident>,
) -> Result<List<Ident>, ParseError>
    ensures read { Reads
        (symbol.token (sort.Sign signs.COMMA) ∷ symbol.kept sort.Name
        ∷ symbol.builds g.NextIdent ∷ [])
        (the_idents found) the_idents (input cursor.old) result (input cursor.new) }
    ensures shorter { OnOk result (length cursor.new.left.now < length cursor.old.left.now) }
{
    cursor.take(Sort::Sign(sign::COMMA))?;
    next_ident(alloc, cursor, found)
}

fn more_idents(
    alloc: Global,
    cursor: &mut Cursor<'_, Paragon>,
    mut found: List<Ident>,
) -> Result<List<Ident>, ParseError>
    ensures read { Reads (symbol.name g.MoreIdents ∷ []) (the_idents found) the_idents
        (input cursor.old) result (input cursor.new) }
    ensures shorter { OnOk result (length cursor.new.left.now ≤ length cursor.old.left.now) }
{
    'more: while cursor.sees(Sort::Sign(sign::COMMA)) {
        found = another_ident(alloc, cursor, found)?;
    }
    Ok(found)
}

//! Types as they are written, and whether a value may be null.

ghost use Rattle.std.specs.Prelude.{◌≡◌, ◌<◌, ◌≤◌, [], ◌∷◌, length, OnOk};
ghost use Rattle.par_grammar.specs.Grammar as symbol;
ghost use Rattle.par_grammar.specs.declared.sort.Sort.TheVariants as sort;
ghost use Rattle.par_reader.specs.SourceLanguage.{Reads};
ghost use Rattle.par_lexer.specs.declared.word.TheConstants as words;
ghost use Rattle.par_reader.specs.Reads.{input};
ghost use Rattle.par_tree.specs.Grammar as g;
ghost use Rattle.par_policy_reader.specs.Reads.{a_flag, a_type};

use crate::ident::ident;
use par_grammar::sort::Sort;
use par_lexer::word;
use par_reader::cursor::Cursor;
use par_reader::error::ParseError;
use par_reader::source_language::Paragon;
use par_tree::types::TypeTree;
use std::alloc::Global;

/// `int`, `boolean` or the name of a class.
pub fn any_type(alloc: Global, cursor: &mut Cursor<'_, Paragon>) -> Result<TypeTree, ParseError>
    ensures read { Reads (symbol.name g.AnyType ∷ []) [] a_type
        (input cursor.old) result (input cursor.new) }
    ensures shorter { OnOk result (length cursor.new.left.now < length cursor.old.left.now) }
{
    if cursor.sees(Sort::Word(word::INT)) {
        int_type(cursor)
    } else if cursor.sees(Sort::Word(word::BOOLEAN)) {
        boolean_type(cursor)
    } else if cursor.sees(Sort::Name) {
        class_type(alloc, cursor)
    } else {
        Err(ParseError::Syntax(cursor.at))
    }
}

#[tactic(auto, using(par_tree::proofs::Rules::run_built))]
fn int_type(cursor: &mut Cursor<'_, Paragon>) -> Result<TypeTree, ParseError>
    ensures read { Reads (symbol.kept (sort.Word words.INT) ∷ symbol.builds g.IntType ∷ [])
        [] a_type (input cursor.old) result (input cursor.new) }
    ensures shorter { OnOk result (length cursor.new.left.now < length cursor.old.left.now) }
{
    let word = cursor.keep(Sort::Word(word::INT))?;
    Ok(TypeTree::Int(word.from))
}

#[tactic(auto, using(par_tree::proofs::Rules::run_built))]
fn boolean_type(cursor: &mut Cursor<'_, Paragon>) -> Result<TypeTree, ParseError>
    ensures read { Reads
        (symbol.kept (sort.Word words.BOOLEAN) ∷ symbol.builds g.BooleanType ∷ [])
        [] a_type (input cursor.old) result (input cursor.new) }
    ensures shorter { OnOk result (length cursor.new.left.now < length cursor.old.left.now) }
{
    let word = cursor.keep(Sort::Word(word::BOOLEAN))?;
    Ok(TypeTree::Boolean(word.from))
}

#[tactic(auto, using(par_tree::proofs::Rules::run_built))]
fn class_type(alloc: Global, cursor: &mut Cursor<'_, Paragon>) -> Result<TypeTree, ParseError>
    ensures read { Reads (symbol.kept sort.Name ∷ symbol.builds g.ClassType ∷ [])
        [] a_type (input cursor.old) result (input cursor.new) }
    ensures shorter { OnOk result (length cursor.new.left.now < length cursor.old.left.now) }
{
    let name = cursor.keep(Sort::Name)?;
    let class = ident(alloc, name)?;
    Ok(TypeTree::Class(class))
}

/// Whether `notnull` is written.
pub fn may_notnull(cursor: &mut Cursor<'_, Paragon>) -> Result<bool, ParseError>
    ensures read { Reads (symbol.name g.MayNotnull ∷ []) [] a_flag
        (input cursor.old) result (input cursor.new) }
    ensures shorter { OnOk result (length cursor.new.left.now ≤ length cursor.old.left.now) }
{
    if cursor.sees(Sort::Word(word::NOTNULL)) {
        notnull(cursor)
    } else {
        Ok(false)
    }
}

#[tactic(auto, using(par_tree::proofs::Rules::run_built))]
fn notnull(cursor: &mut Cursor<'_, Paragon>) -> Result<bool, ParseError>
    ensures read { Reads
        (symbol.token (sort.Word words.NOTNULL) ∷ symbol.builds g.IsNotnull ∷ [])
        [] a_flag (input cursor.old) result (input cursor.new) }
    ensures shorter { OnOk result (length cursor.new.left.now < length cursor.old.left.now) }
{
    cursor.take(Sort::Word(word::NOTNULL))?;
    Ok(true)
}

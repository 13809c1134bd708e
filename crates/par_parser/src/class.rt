//! Classes and exception classes.

ghost use Rattle.std.specs.Prelude.{◌≡◌, ◌<◌, [], ◌∷◌, length, OnOk};
ghost use Rattle.par_grammar.specs.Grammar as symbol;
ghost use Rattle.par_grammar.specs.declared.sort.Sort.TheVariants as sort;
ghost use Rattle.par_stmts.specs.par_reader.SourceLanguage.{Reads};
ghost use Rattle.par_lexer.specs.declared.sign.TheConstants as signs;
ghost use Rattle.par_lexer.specs.declared.word.TheConstants as words;
ghost use Rattle.par_stmts.specs.par_reader.Reads.{IsOf, input};
ghost use Rattle.par_tree.specs.Grammar as g;
ghost use Rattle.par_tree.specs.Values.{tok};
ghost use Rattle.par_parser.specs.Reads.{a_decl, the_members};

use crate::member::{Members, all_members};
use par_grammar::sort::Sort;
use par_lexer::list::List;
use par_lexer::token::Token;
use par_lexer::{sign, word};
use par_stmts::par_policy_reader::ident::ident;
use par_stmts::par_policy_reader::policy::may_policy;
use par_stmts::par_reader::cursor::Cursor;
use par_stmts::par_reader::error::ParseError;
use par_stmts::par_reader::source_language::Paragon;
use par_tree::decl::{ClassDecl, Decl};
use std::alloc::Global;

/// A class, or an exception class, from its word on.
pub fn class(alloc: Global, cursor: &mut Cursor<'_, Paragon>) -> Result<Decl, ParseError>
    ensures read { Reads
        (symbol.token (sort.Word words.CLASS) ∷ symbol.kept sort.Name ∷ symbol.name g.ClassTail
        ∷ [])
        [] a_decl (input cursor.old) result (input cursor.new) }
    ensures shorter { OnOk result (length cursor.new.left.now < length cursor.old.left.now) }
{
    cursor.take(Sort::Word(word::CLASS))?;
    let name = cursor.keep(Sort::Name)?;
    class_tail(alloc, cursor, name)
}

fn class_tail(
    alloc: Global,
    cursor: &mut Cursor<'_, Paragon>,
    name: &Token,
) -> Result<Decl, ParseError>
    requires { IsOf sort.Name name.now }
    ensures read { Reads (symbol.name g.ClassTail ∷ []) (tok name.now ∷ []) a_decl
        (input cursor.old) result (input cursor.new) }
    ensures shorter { OnOk result (length cursor.new.left.now < length cursor.old.left.now) }
{
    if cursor.sees(Sort::Word(word::EXTENDS)) {
        exception(alloc, cursor, name)
    } else {
        class_body(alloc, cursor, name)
    }
}

#[tactic(auto, using(par_tree::proofs::Rules::run_built))]
fn exception(
    alloc: Global,
    cursor: &mut Cursor<'_, Paragon>,
    name: &Token,
) -> Result<Decl, ParseError>
    requires { IsOf sort.Name name.now }
    ensures read { Reads
        (symbol.token (sort.Word words.EXTENDS) ∷ symbol.token (sort.Word words.EXCEPTION)
        ∷ symbol.token (sort.Sign signs.LEFT_BRACE) ∷ symbol.token (sort.Sign signs.RIGHT_BRACE)
        ∷ symbol.builds g.ExceptionDecl ∷ [])
        (tok name.now ∷ []) a_decl (input cursor.old) result (input cursor.new) }
    ensures shorter { OnOk result (length cursor.new.left.now < length cursor.old.left.now) }
{
    cursor.take(Sort::Word(word::EXTENDS))?;
    cursor.take(Sort::Word(word::EXCEPTION))?;
    cursor.take(Sort::Sign(sign::LEFT_BRACE))?;
    cursor.take(Sort::Sign(sign::RIGHT_BRACE))?;
    let id = ident(alloc, name)?;
    Ok(Decl::Class(ClassDecl {
        id,
        exception: true,
        birth: None,
        fields: List::new(alloc),
        channels: List::new(alloc),
        methods: List::new(alloc),
    }))
}

fn members_in_braces(alloc: Global, cursor: &mut Cursor<'_, Paragon>) -> Result<Members, ParseError>
    ensures read { Reads
        (symbol.token (sort.Sign signs.LEFT_BRACE) ∷ symbol.name g.Members
        ∷ symbol.token (sort.Sign signs.RIGHT_BRACE) ∷ [])
        [] the_members (input cursor.old) result (input cursor.new) }
    ensures shorter { OnOk result (length cursor.new.left.now < length cursor.old.left.now) }
{
    cursor.take(Sort::Sign(sign::LEFT_BRACE))?;
    let members = all_members(alloc, cursor)?;
    cursor.take(Sort::Sign(sign::RIGHT_BRACE))?;
    Ok(members)
}

#[tactic(auto, using(par_tree::proofs::Rules::run_built))]
fn class_body(
    alloc: Global,
    cursor: &mut Cursor<'_, Paragon>,
    name: &Token,
) -> Result<Decl, ParseError>
    requires { IsOf sort.Name name.now }
    ensures read { Reads
        (symbol.name g.MayPolicy ∷ symbol.token (sort.Sign signs.LEFT_BRACE)
        ∷ symbol.name g.Members ∷ symbol.token (sort.Sign signs.RIGHT_BRACE)
        ∷ symbol.builds g.ClassDecl ∷ [])
        (tok name.now ∷ []) a_decl (input cursor.old) result (input cursor.new) }
    ensures shorter { OnOk result (length cursor.new.left.now < length cursor.old.left.now) }
{
    let id = ident(alloc, name)?;
    let birth = may_policy(alloc, cursor)?;
    let members = members_in_braces(alloc, cursor)?;
    Ok(Decl::Class(ClassDecl {
        id,
        exception: false,
        birth,
        fields: members.fields,
        channels: members.channels,
        methods: members.methods,
    }))
}

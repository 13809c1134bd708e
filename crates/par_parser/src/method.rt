//! Methods, with their parameters.

ghost use Rattle.std.specs.Prelude.{◌≡◌, ◌<◌, ◌≤◌, [], ◌∷◌, ◌++◌, length, OnOk};
ghost use Rattle.par_grammar.specs.Grammar as symbol;
ghost use Rattle.par_grammar.specs.declared.sort.Sort.TheVariants as sort;
ghost use Rattle.par_stmts.specs.par_reader.SourceLanguage.{Reads};
ghost use Rattle.par_lexer.specs.declared.sign.TheConstants as signs;
ghost use Rattle.par_stmts.specs.par_reader.Reads.{IsOf, input};
ghost use Rattle.par_tree.specs.Grammar as g;
ghost use Rattle.par_parser.specs.Reads.{a_head, a_param, a_tail, the_members, the_params};

use crate::effect::{Effects, all_effects};
use crate::member::{Front, Members};
use par_grammar::sort::Sort;
use par_lexer::list::List;
use par_lexer::sign;
use par_lexer::token::Token;
use par_stmts::par_policy_reader::ident::ident;
use par_stmts::par_policy_reader::policy::may_policy;
use par_stmts::par_policy_reader::types::{any_type, may_notnull};
use par_stmts::par_reader::cursor::Cursor;
use par_stmts::par_reader::error::ParseError;
use par_stmts::par_reader::source_language::Paragon;
use par_stmts::stmt::block;
use par_tree::decl::{MethodDecl, ParamDecl};
use par_tree::stmt::Block;
use par_tree::types::TypeTree;
use std::alloc::Global;

/// The parameters, the effects and the body of a method.
#[derive(Drop)]
pub struct Tail {
    pub params: List<ParamDecl>,
    pub effects: Effects,
    pub body: Block,
}

/// A method from its parameters on.
#[tactic(auto, using(crate::proofs::Lists::a_method))]
pub fn method(
    alloc: Global,
    cursor: &mut Cursor<'_, Paragon>,
    found: &mut Members,
    front: Front,
    result_type: Option<TypeTree>,
    name: &Token,
) -> Result<(), ParseError>
    requires { IsOf sort.Name name.now }
    ensures read { Reads (symbol.name g.Method ∷ [])
        (a_head name.now result_type front ++ the_members found.old) (λ _. the_members found.new)
        (input cursor.old) result (input cursor.new) }
    ensures shorter { OnOk result (length cursor.new.left.now < length cursor.old.left.now) }
{
    let id = ident(alloc, name)?;
    let tail = tail_of(alloc, cursor)?;
    found.methods.push(MethodDecl {
        id,
        is_static: front.is_static,
        result: result_type,
        policy: front.policy,
        params: tail.params,
        effects: tail.effects.writes,
        expects: tail.effects.expects,
        opens: tail.effects.opens,
        closes: tail.effects.closes,
        throws: tail.effects.throws,
        body: tail.body,
    })?;
    Ok(())
}

/// What stands behind the name of a method.
fn tail_of(alloc: Global, cursor: &mut Cursor<'_, Paragon>) -> Result<Tail, ParseError>
    ensures read { Reads
        (symbol.token (sort.Sign signs.LEFT_PAREN) ∷ symbol.name g.Params
        ∷ symbol.token (sort.Sign signs.RIGHT_PAREN) ∷ symbol.name g.Effects
        ∷ symbol.name g.Block ∷ [])
        [] a_tail (input cursor.old) result (input cursor.new) }
    ensures shorter { OnOk result (length cursor.new.left.now < length cursor.old.left.now) }
{
    let params = params_in_parens(alloc, cursor)?;
    let effects = all_effects(alloc, cursor)?;
    let body = block(alloc, cursor)?;
    Ok(Tail {
        params,
        effects,
        body,
    })
}

fn params_in_parens(
    alloc: Global,
    cursor: &mut Cursor<'_, Paragon>,
) -> Result<List<ParamDecl>, ParseError>
    ensures read { Reads
        (symbol.token (sort.Sign signs.LEFT_PAREN) ∷ symbol.name g.Params
        ∷ symbol.token (sort.Sign signs.RIGHT_PAREN) ∷ [])
        [] the_params (input cursor.old) result (input cursor.new) }
    ensures shorter { OnOk result (length cursor.new.left.now < length cursor.old.left.now) }
{
    cursor.take(Sort::Sign(sign::LEFT_PAREN))?;
    let params = params(alloc, cursor)?;
    cursor.take(Sort::Sign(sign::RIGHT_PAREN))?;
    Ok(params)
}

fn params(alloc: Global, cursor: &mut Cursor<'_, Paragon>) -> Result<List<ParamDecl>, ParseError>
    ensures read { Reads (symbol.name g.Params ∷ []) [] the_params
        (input cursor.old) result (input cursor.new) }
    ensures shorter { OnOk result (length cursor.new.left.now ≤ length cursor.old.left.now) }
{
    if cursor.sees(Sort::Sign(sign::RIGHT_PAREN)) {
        Ok(List::new(alloc))
    } else {
        some_params(alloc, cursor)
    }
}

fn some_params(
    alloc: Global,
    cursor: &mut Cursor<'_, Paragon>,
) -> Result<List<ParamDecl>, ParseError>
    ensures read { Reads
        (symbol.builds g.NoParams ∷ symbol.name g.Param ∷ symbol.builds g.NextParam
        ∷ symbol.name g.MoreParams ∷ [])
        [] the_params (input cursor.old) result (input cursor.new) }
    ensures shorter { OnOk result (length cursor.new.left.now < length cursor.old.left.now) }
{
    let first = first_param(alloc, cursor)?;
    more_params(alloc, cursor, first)
}

fn first_param(
    alloc: Global,
    cursor: &mut Cursor<'_, Paragon>,
) -> Result<List<ParamDecl>, ParseError>
    ensures read { Reads
        (symbol.builds g.NoParams ∷ symbol.name g.Param ∷ symbol.builds g.NextParam ∷ [])
        [] the_params (input cursor.old) result (input cursor.new) }
    ensures shorter { OnOk result (length cursor.new.left.now < length cursor.old.left.now) }
{
    let none = List::new(alloc);
    next_param(alloc, cursor, none)
}

#[tactic(auto, using(par_tree::proofs::Rules::run_built))]
fn next_param(
    alloc: Global,
    cursor: &mut Cursor<'_, Paragon>,
    mut found: List<ParamDecl>,
) -> Result<List<ParamDecl>, ParseError>
    ensures read { Reads (symbol.name g.Param ∷ symbol.builds g.NextParam ∷ [])
        (the_params found) the_params (input cursor.old) result (input cursor.new) }
    ensures shorter { OnOk result (length cursor.new.left.now < length cursor.old.left.now) }
{
    let next = param(alloc, cursor)?;
    found.push(next)?;
    Ok(found)
}

fn another_param(
    alloc: Global,
    cursor: &mut Cursor<'_, Paragon>,
    found: List<ParamDecl>,
) -> Result<List<ParamDecl>, ParseError>
    ensures read { Reads
        (symbol.token (sort.Sign signs.COMMA) ∷ symbol.name g.Param
        ∷ symbol.builds g.NextParam ∷ [])
        (the_params found) the_params (input cursor.old) result (input cursor.new) }
    ensures shorter { OnOk result (length cursor.new.left.now < length cursor.old.left.now) }
{
    cursor.take(Sort::Sign(sign::COMMA))?;
    next_param(alloc, cursor, found)
}

fn more_params(
    alloc: Global,
    cursor: &mut Cursor<'_, Paragon>,
    mut found: List<ParamDecl>,
) -> Result<List<ParamDecl>, ParseError>
    ensures read { Reads (symbol.name g.MoreParams ∷ []) (the_params found) the_params
        (input cursor.old) result (input cursor.new) }
    ensures shorter { OnOk result (length cursor.new.left.now ≤ length cursor.old.left.now) }
{
    'more: while cursor.sees(Sort::Sign(sign::COMMA)) {
        found = another_param(alloc, cursor, found)?;
    }
    Ok(found)
}

#[tactic(auto, using(par_tree::proofs::Rules::run_built, par_tree::proofs::Rules::param_opens))]
fn param(alloc: Global, cursor: &mut Cursor<'_, Paragon>) -> Result<ParamDecl, ParseError>
    ensures read { Reads (symbol.name g.Param ∷ []) [] a_param
        (input cursor.old) result (input cursor.new) }
    ensures shorter { OnOk result (length cursor.new.left.now < length cursor.old.left.now) }
{
    let policy = may_policy(alloc, cursor)?;
    let notnull = may_notnull(cursor)?;
    let ty = any_type(alloc, cursor)?;
    let name = cursor.keep(Sort::Name)?;
    let id = ident(alloc, name)?;
    Ok(ParamDecl {
        id,
        ty,
        policy,
        notnull,
    })
}

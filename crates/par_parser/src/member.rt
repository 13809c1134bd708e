//! What stands in a class: fields, channels and methods.

ghost use Rattle.std.specs.Prelude.{◌≡◌, ◌<◌, ◌≤◌, [], ◌∷◌, ◌++◌, length, OnOk, IfOk};
ghost use Rattle.par_grammar.specs.Grammar as symbol;
ghost use Rattle.par_grammar.specs.declared.sort.Sort.TheVariants as sort;
ghost use Rattle.par_stmts.specs.par_reader.SourceLanguage.{Reads};
ghost use Rattle.par_lexer.specs.declared.sign.TheConstants as signs;
ghost use Rattle.par_lexer.specs.declared.word.TheConstants as words;
ghost use Rattle.par_stmts.specs.par_policy_reader.Reads.{a_flag, may_be_policy};
ghost use Rattle.par_stmts.specs.par_reader.Reads.{IsOf, input};
ghost use Rattle.par_tree.specs.Grammar as g;
ghost use Rattle.par_tree.specs.Values as value;
ghost use Rattle.par_parser.specs.Reads.{a_front, a_name, a_typed, a_void, an_inferred};
ghost use Rattle.par_parser.specs.Reads.{members_of, the_members};

use crate::method::method;
use par_grammar::sort::Sort;
use par_lexer::list::List;
use par_lexer::token::Token;
use par_lexer::{sign, word};
use par_stmts::par_policy_reader::ident::ident;
use par_stmts::par_policy_reader::policy::some_policy;
use par_stmts::par_policy_reader::types::any_type;
use par_stmts::par_reader::cursor::Cursor;
use par_stmts::par_reader::error::ParseError;
use par_stmts::par_reader::source_language::Paragon;
use par_tree::decl::{ChannelDecl, FieldDecl, MethodDecl};
use par_tree::policy::PolicyExpr;
use par_tree::types::TypeTree;
use std::alloc::Global;

/// The members of a class, each kind of them in the order of the source.
#[derive(Drop)]
pub struct Members {
    pub fields: List<FieldDecl>,
    pub channels: List<ChannelDecl>,
    pub methods: List<MethodDecl>,
}

/// What stands before the type of a field or of a method.
#[derive(Drop)]
pub struct Front {
    pub policy: Option<PolicyExpr>,
    pub is_static: bool,
}

/// What stands before the name of a field whose policy is inferred.
#[derive(Drop)]
pub struct Inferred {
    pub is_static: bool,
    pub ty: TypeTree,
}

fn no_members(alloc: Global) -> Members
    ensures { members_of result ≡ value.no_members }
{
    Members {
        fields: List::new(alloc),
        channels: List::new(alloc),
        methods: List::new(alloc),
    }
}

/// All members of a class.
pub fn all_members(alloc: Global, cursor: &mut Cursor<'_, Paragon>) -> Result<Members, ParseError>
    ensures read { Reads (symbol.name g.Members ∷ []) [] the_members
        (input cursor.old) result (input cursor.new) }
    ensures shorter { OnOk result (length cursor.new.left.now ≤ length cursor.old.left.now) }
{
    let none = no_members(alloc);
    more_members(alloc, cursor, none)
}

fn more_members(
    alloc: Global,
    cursor: &mut Cursor<'_, Paragon>,
    mut found: Members,
) -> Result<Members, ParseError>
    ensures read { Reads (symbol.name g.MoreMembers ∷ []) (the_members found) the_members
        (input cursor.old) result (input cursor.new) }
    ensures shorter { OnOk result (length cursor.new.left.now ≤ length cursor.old.left.now) }
{
    'more: while !cursor.sees(Sort::Sign(sign::RIGHT_BRACE)) {
        member(alloc, cursor, &mut found)?;
    }
    Ok(found)
}

fn member(
    alloc: Global,
    cursor: &mut Cursor<'_, Paragon>,
    found: &mut Members,
) -> Result<(), ParseError>
    ensures read { Reads (symbol.name g.Member ∷ [])
        (the_members found.old) (λ _. the_members found.new)
        (input cursor.old) result (input cursor.new) }
    ensures shorter { OnOk result (length cursor.new.left.now < length cursor.old.left.now) }
{
    if cursor.sees(Sort::Sign(sign::QUESTION)) {
        question_member(alloc, cursor, found)
    } else {
        plain_member(alloc, cursor, found, None)
    }
}

fn question_member(
    alloc: Global,
    cursor: &mut Cursor<'_, Paragon>,
    found: &mut Members,
) -> Result<(), ParseError>
    ensures read { Reads
        (symbol.token (sort.Sign signs.QUESTION) ∷ symbol.name g.MarkedMember ∷ [])
        (the_members found.old) (λ _. the_members found.new)
        (input cursor.old) result (input cursor.new) }
    ensures shorter { OnOk result (length cursor.new.left.now < length cursor.old.left.now) }
{
    cursor.take(Sort::Sign(sign::QUESTION))?;
    marked_member(alloc, cursor, found)
}

/// A member behind its `?`.
fn marked_member(
    alloc: Global,
    cursor: &mut Cursor<'_, Paragon>,
    found: &mut Members,
) -> Result<(), ParseError>
    ensures read { Reads (symbol.name g.MarkedMember ∷ [])
        (the_members found.old) (λ _. the_members found.new)
        (input cursor.old) result (input cursor.new) }
    ensures shorter { OnOk result (length cursor.new.left.now < length cursor.old.left.now) }
{
    if cursor.sees(Sort::Word(word::UNDERSCORE)) {
        inferred_field(alloc, cursor, found)
    } else {
        policed_member(alloc, cursor, found)
    }
}

/// A field whose policy is inferred, from its `_` up to its name.
fn inferred_front(alloc: Global, cursor: &mut Cursor<'_, Paragon>) -> Result<Inferred, ParseError>
    ensures read { Reads
        (symbol.token (sort.Word words.UNDERSCORE) ∷ symbol.name g.MayStatic
        ∷ symbol.name g.AnyType ∷ [])
        [] an_inferred (input cursor.old) result (input cursor.new) }
    ensures shorter { OnOk result (length cursor.new.left.now < length cursor.old.left.now) }
{
    cursor.take(Sort::Word(word::UNDERSCORE))?;
    let is_static = may_static(cursor)?;
    let ty = any_type(alloc, cursor)?;
    Ok(Inferred { is_static, ty })
}

/// The name of a field, with the semicolon behind it.
fn last_name<'a>(cursor: &mut Cursor<'a, Paragon>) -> Result<&'a Token, ParseError>
    ensures read { Reads (symbol.kept sort.Name ∷ symbol.token (sort.Sign signs.SEMICOLON) ∷ [])
        [] a_name (input cursor.old) result (input cursor.new) }
    ensures sort { IfOk result (λ token. IsOf sort.Name token.now) }
    ensures shorter { OnOk result (length cursor.new.left.now < length cursor.old.left.now) }
{
    let name = cursor.keep(Sort::Name)?;
    cursor.take(Sort::Sign(sign::SEMICOLON))?;
    Ok(name)
}

#[tactic(auto, using(par_tree::proofs::Rules::run_built))]
fn inferred_field(
    alloc: Global,
    cursor: &mut Cursor<'_, Paragon>,
    found: &mut Members,
) -> Result<(), ParseError>
    ensures read { Reads
        (symbol.token (sort.Word words.UNDERSCORE) ∷ symbol.name g.MayStatic
        ∷ symbol.name g.AnyType ∷ symbol.kept sort.Name
        ∷ symbol.token (sort.Sign signs.SEMICOLON) ∷ symbol.builds g.InferredField ∷ [])
        (the_members found.old) (λ _. the_members found.new)
        (input cursor.old) result (input cursor.new) }
    ensures shorter { OnOk result (length cursor.new.left.now < length cursor.old.left.now) }
{
    let front = inferred_front(alloc, cursor)?;
    let name = last_name(cursor)?;
    let id = ident(alloc, name)?;
    found.fields.push(FieldDecl {
        id,
        is_static: front.is_static,
        ty: front.ty,
        policy: None,
        inferred: true,
    })?;
    Ok(())
}

fn policed_member(
    alloc: Global,
    cursor: &mut Cursor<'_, Paragon>,
    found: &mut Members,
) -> Result<(), ParseError>
    ensures read { Reads
        (symbol.name g.Policy ∷ symbol.builds g.SomePolicy ∷ symbol.name g.PlainMember ∷ [])
        (the_members found.old) (λ _. the_members found.new)
        (input cursor.old) result (input cursor.new) }
    ensures shorter { OnOk result (length cursor.new.left.now < length cursor.old.left.now) }
{
    let policy = some_policy(alloc, cursor)?;
    plain_member(alloc, cursor, found, policy)
}

/// A member behind its policy.
fn plain_member(
    alloc: Global,
    cursor: &mut Cursor<'_, Paragon>,
    found: &mut Members,
    policy: Option<PolicyExpr>,
) -> Result<(), ParseError>
    ensures read { Reads (symbol.name g.PlainMember ∷ [])
        (may_be_policy policy ++ the_members found.old) (λ _. the_members found.new)
        (input cursor.old) result (input cursor.new) }
    ensures shorter { OnOk result (length cursor.new.left.now < length cursor.old.left.now) }
{
    if cursor.sees(Sort::Word(word::INPUT)) {
        input_channel(alloc, cursor, found, policy)
    } else if cursor.sees(Sort::Word(word::OUTPUT)) {
        output_channel(alloc, cursor, found, policy)
    } else {
        field_or_method(alloc, cursor, found, policy)
    }
}

/// The name of an input channel, with all that stands around it.
fn input_name<'a>(cursor: &mut Cursor<'a, Paragon>) -> Result<&'a Token, ParseError>
    ensures read { Reads
        (symbol.token (sort.Word words.INPUT) ∷ symbol.token (sort.Word words.INT)
        ∷ symbol.kept sort.Name ∷ symbol.token (sort.Sign signs.LEFT_PAREN)
        ∷ symbol.token (sort.Sign signs.RIGHT_PAREN) ∷ symbol.token (sort.Sign signs.SEMICOLON)
        ∷ [])
        [] a_name (input cursor.old) result (input cursor.new) }
    ensures sort { IfOk result (λ token. IsOf sort.Name token.now) }
    ensures shorter { OnOk result (length cursor.new.left.now < length cursor.old.left.now) }
{
    cursor.take(Sort::Word(word::INPUT))?;
    cursor.take(Sort::Word(word::INT))?;
    let name = cursor.keep(Sort::Name)?;
    cursor.take(Sort::Sign(sign::LEFT_PAREN))?;
    cursor.take(Sort::Sign(sign::RIGHT_PAREN))?;
    cursor.take(Sort::Sign(sign::SEMICOLON))?;
    Ok(name)
}

#[tactic(auto, using(par_tree::proofs::Rules::run_built))]
fn input_channel(
    alloc: Global,
    cursor: &mut Cursor<'_, Paragon>,
    found: &mut Members,
    policy: Option<PolicyExpr>,
) -> Result<(), ParseError>
    ensures read { Reads
        (symbol.token (sort.Word words.INPUT) ∷ symbol.token (sort.Word words.INT)
        ∷ symbol.kept sort.Name ∷ symbol.token (sort.Sign signs.LEFT_PAREN)
        ∷ symbol.token (sort.Sign signs.RIGHT_PAREN) ∷ symbol.token (sort.Sign signs.SEMICOLON)
        ∷ symbol.builds g.InputChannel ∷ [])
        (may_be_policy policy ++ the_members found.old) (λ _. the_members found.new)
        (input cursor.old) result (input cursor.new) }
    ensures shorter { OnOk result (length cursor.new.left.now < length cursor.old.left.now) }
{
    let name = input_name(cursor)?;
    let id = ident(alloc, name)?;
    found.channels.push(ChannelDecl {
        id,
        is_input: true,
        policy,
    })?;
    Ok(())
}

/// The name of an output channel, with all that stands around it.
fn output_name<'a>(cursor: &mut Cursor<'a, Paragon>) -> Result<&'a Token, ParseError>
    ensures read { Reads
        (symbol.token (sort.Word words.OUTPUT) ∷ symbol.token (sort.Word words.VOID)
        ∷ symbol.kept sort.Name ∷ symbol.token (sort.Sign signs.LEFT_PAREN)
        ∷ symbol.token (sort.Word words.INT) ∷ symbol.token sort.Name
        ∷ symbol.token (sort.Sign signs.RIGHT_PAREN) ∷ symbol.token (sort.Sign signs.SEMICOLON)
        ∷ [])
        [] a_name (input cursor.old) result (input cursor.new) }
    ensures sort { IfOk result (λ token. IsOf sort.Name token.now) }
    ensures shorter { OnOk result (length cursor.new.left.now < length cursor.old.left.now) }
{
    cursor.take(Sort::Word(word::OUTPUT))?;
    cursor.take(Sort::Word(word::VOID))?;
    let name = cursor.keep(Sort::Name)?;
    cursor.take(Sort::Sign(sign::LEFT_PAREN))?;
    cursor.take(Sort::Word(word::INT))?;
    cursor.take(Sort::Name)?;
    cursor.take(Sort::Sign(sign::RIGHT_PAREN))?;
    cursor.take(Sort::Sign(sign::SEMICOLON))?;
    Ok(name)
}

#[tactic(auto, using(par_tree::proofs::Rules::run_built))]
fn output_channel(
    alloc: Global,
    cursor: &mut Cursor<'_, Paragon>,
    found: &mut Members,
    policy: Option<PolicyExpr>,
) -> Result<(), ParseError>
    ensures read { Reads
        (symbol.token (sort.Word words.OUTPUT) ∷ symbol.token (sort.Word words.VOID)
        ∷ symbol.kept sort.Name ∷ symbol.token (sort.Sign signs.LEFT_PAREN)
        ∷ symbol.token (sort.Word words.INT) ∷ symbol.token sort.Name
        ∷ symbol.token (sort.Sign signs.RIGHT_PAREN) ∷ symbol.token (sort.Sign signs.SEMICOLON)
        ∷ symbol.builds g.OutputChannel ∷ [])
        (may_be_policy policy ++ the_members found.old) (λ _. the_members found.new)
        (input cursor.old) result (input cursor.new) }
    ensures shorter { OnOk result (length cursor.new.left.now < length cursor.old.left.now) }
{
    let name = output_name(cursor)?;
    let id = ident(alloc, name)?;
    found.channels.push(ChannelDecl {
        id,
        is_input: false,
        policy,
    })?;
    Ok(())
}

fn field_or_method(
    alloc: Global,
    cursor: &mut Cursor<'_, Paragon>,
    found: &mut Members,
    policy: Option<PolicyExpr>,
) -> Result<(), ParseError>
    ensures read { Reads (symbol.name g.MayStatic ∷ symbol.name g.StaticMember ∷ [])
        (may_be_policy policy ++ the_members found.old) (λ _. the_members found.new)
        (input cursor.old) result (input cursor.new) }
    ensures shorter { OnOk result (length cursor.new.left.now < length cursor.old.left.now) }
{
    let is_static = may_static(cursor)?;
    static_member(alloc, cursor, found, Front { policy, is_static })
}

/// Whether `static` is written.
fn may_static(cursor: &mut Cursor<'_, Paragon>) -> Result<bool, ParseError>
    ensures read { Reads (symbol.name g.MayStatic ∷ []) [] a_flag
        (input cursor.old) result (input cursor.new) }
    ensures shorter { OnOk result (length cursor.new.left.now ≤ length cursor.old.left.now) }
{
    if cursor.sees(Sort::Word(word::STATIC)) {
        written_static(cursor)
    } else {
        Ok(false)
    }
}

#[tactic(auto, using(par_tree::proofs::Rules::run_built))]
fn written_static(cursor: &mut Cursor<'_, Paragon>) -> Result<bool, ParseError>
    ensures read { Reads (symbol.token (sort.Word words.STATIC) ∷ symbol.builds g.IsStatic ∷ [])
        [] a_flag (input cursor.old) result (input cursor.new) }
    ensures shorter { OnOk result (length cursor.new.left.now < length cursor.old.left.now) }
{
    cursor.take(Sort::Word(word::STATIC))?;
    Ok(true)
}

/// A field or a method from its type on.
fn static_member(
    alloc: Global,
    cursor: &mut Cursor<'_, Paragon>,
    found: &mut Members,
    front: Front,
) -> Result<(), ParseError>
    ensures read { Reads (symbol.name g.StaticMember ∷ [])
        (a_front front ++ the_members found.old) (λ _. the_members found.new)
        (input cursor.old) result (input cursor.new) }
    ensures shorter { OnOk result (length cursor.new.left.now < length cursor.old.left.now) }
{
    if cursor.sees(Sort::Word(word::VOID)) {
        void_method(alloc, cursor, found, front)
    } else {
        typed_member(alloc, cursor, found, front)
    }
}

fn void_method(
    alloc: Global,
    cursor: &mut Cursor<'_, Paragon>,
    found: &mut Members,
    front: Front,
) -> Result<(), ParseError>
    ensures read { Reads
        (symbol.token (sort.Word words.VOID) ∷ symbol.builds g.NoResult ∷ symbol.kept sort.Name
        ∷ symbol.name g.Method ∷ [])
        (a_front front ++ the_members found.old) (λ _. the_members found.new)
        (input cursor.old) result (input cursor.new) }
    ensures shorter { OnOk result (length cursor.new.left.now < length cursor.old.left.now) }
{
    let name = void_name(cursor)?;
    method(alloc, cursor, found, front, None, name)
}

#[tactic(auto, using(par_tree::proofs::Rules::run_built))]
fn void_name<'a>(cursor: &mut Cursor<'a, Paragon>) -> Result<&'a Token, ParseError>
    ensures read { Reads
        (symbol.token (sort.Word words.VOID) ∷ symbol.builds g.NoResult ∷ symbol.kept sort.Name
        ∷ [])
        [] a_void (input cursor.old) result (input cursor.new) }
    ensures sort { IfOk result (λ token. IsOf sort.Name token.now) }
    ensures shorter { OnOk result (length cursor.new.left.now < length cursor.old.left.now) }
{
    cursor.take(Sort::Word(word::VOID))?;
    cursor.keep(Sort::Name)
}

fn typed_member(
    alloc: Global,
    cursor: &mut Cursor<'_, Paragon>,
    found: &mut Members,
    front: Front,
) -> Result<(), ParseError>
    ensures read { Reads
        (symbol.name g.AnyType ∷ symbol.kept sort.Name ∷ symbol.name g.TypedTail ∷ [])
        (a_front front ++ the_members found.old) (λ _. the_members found.new)
        (input cursor.old) result (input cursor.new) }
    ensures shorter { OnOk result (length cursor.new.left.now < length cursor.old.left.now) }
{
    let ty = any_type(alloc, cursor)?;
    let name = cursor.keep(Sort::Name)?;
    typed_tail(alloc, cursor, found, front, ty, name)
}

/// A field or a method behind its type and its name.
fn typed_tail(
    alloc: Global,
    cursor: &mut Cursor<'_, Paragon>,
    found: &mut Members,
    front: Front,
    ty: TypeTree,
    name: &Token,
) -> Result<(), ParseError>
    requires { IsOf sort.Name name.now }
    ensures read { Reads (symbol.name g.TypedTail ∷ [])
        (a_typed name.now ty front ++ the_members found.old) (λ _. the_members found.new)
        (input cursor.old) result (input cursor.new) }
    ensures shorter { OnOk result (length cursor.new.left.now < length cursor.old.left.now) }
{
    if cursor.sees(Sort::Sign(sign::SEMICOLON)) {
        field(alloc, cursor, found, front, ty, name)
    } else {
        typed_method(alloc, cursor, found, front, ty, name)
    }
}

#[tactic(auto, using(par_tree::proofs::Rules::run_built))]
fn field(
    alloc: Global,
    cursor: &mut Cursor<'_, Paragon>,
    found: &mut Members,
    front: Front,
    ty: TypeTree,
    name: &Token,
) -> Result<(), ParseError>
    requires { IsOf sort.Name name.now }
    ensures read { Reads (symbol.token (sort.Sign signs.SEMICOLON) ∷ symbol.builds g.Field ∷ [])
        (a_typed name.now ty front ++ the_members found.old) (λ _. the_members found.new)
        (input cursor.old) result (input cursor.new) }
    ensures shorter { OnOk result (length cursor.new.left.now < length cursor.old.left.now) }
{
    cursor.take(Sort::Sign(sign::SEMICOLON))?;
    let id = ident(alloc, name)?;
    found.fields.push(FieldDecl {
        id,
        is_static: front.is_static,
        ty,
        policy: front.policy,
        inferred: false,
    })?;
    Ok(())
}

fn typed_method(
    alloc: Global,
    cursor: &mut Cursor<'_, Paragon>,
    found: &mut Members,
    front: Front,
    ty: TypeTree,
    name: &Token,
) -> Result<(), ParseError>
    requires { IsOf sort.Name name.now }
    ensures read { Reads (symbol.builds g.SomeResult ∷ symbol.name g.Method ∷ [])
        (a_typed name.now ty front ++ the_members found.old) (λ _. the_members found.new)
        (input cursor.old) result (input cursor.new) }
    ensures shorter { OnOk result (length cursor.new.left.now < length cursor.old.left.now) }
{
    method(alloc, cursor, found, front, Some(ty), name)
}

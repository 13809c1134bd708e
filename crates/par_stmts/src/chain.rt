//! Statements that begin with a name or with `this`: locals of a class, assignments and calls.

ghost use Rattle.std.specs.Prelude.{◌≡◌, ◌<◌, ◌≤◌, [], ◌∷◌, length, OnOk, IfOk};
ghost use Rattle.par_grammar.specs.Grammar as symbol;
ghost use Rattle.par_grammar.specs.declared.sort.Sort.TheVariants as sort;
ghost use Rattle.par_lexer.specs.declared.sign.TheConstants as signs;
ghost use Rattle.par_lexer.specs.declared.word.TheConstants as words;
ghost use Rattle.par_policy_reader.specs.par_reader.Reads.{IsOf, input};
ghost use Rattle.par_tree.specs.Grammar as g;
ghost use Rattle.par_tree.specs.Shown.{shown};
ghost use Rattle.par_tree.specs.Values.{tok, exp};
ghost use Rattle.par_policy_reader.specs.par_reader.SourceLanguage.{Reads};
ghost use Rattle.par_stmts.specs.Reads.{a_stmt, a_token};

use crate::head::expr_before;
use crate::make;
use par_exprs::expr::{call, call_on, this};
use par_exprs::make::{selected, variable};
use par_grammar::sort::Sort;
use par_lexer::sign;
use par_lexer::token::Token;
use par_policy_reader::par_reader::cursor::Cursor;
use par_policy_reader::par_reader::error::ParseError;
use par_policy_reader::par_reader::source_language::Paragon;
use par_tree::expr::Expr;
use par_tree::stmt::Stmt;
use std::alloc::Global;

/// A statement that begins with a name.
pub fn effect_of_name(alloc: Global, cursor: &mut Cursor<'_, Paragon>) -> Result<Stmt, ParseError>
    ensures read { Reads (symbol.restarts ∷ g.ident ∷ symbol.name g.NameTail ∷ []) [] a_stmt
        (input cursor.old) result (input cursor.new) }
    ensures shorter { OnOk result (length cursor.new.left.now < length cursor.old.left.now) }
{
    cursor.restart();
    let name = cursor.keep(Sort::Name)?;
    name_tail(alloc, cursor, name)
}

/// What follows the first name of a statement.
fn name_tail(
    alloc: Global,
    cursor: &mut Cursor<'_, Paragon>,
    name: &Token,
) -> Result<Stmt, ParseError>
    requires { IsOf sort.Name name.now }
    ensures read { Reads (symbol.name g.NameTail ∷ []) (tok name.now ∷ []) a_stmt
        (input cursor.old) result (input cursor.new) }
    ensures shorter { OnOk result (length cursor.new.left.now < length cursor.old.left.now) }
{
    if cursor.sees(Sort::Name) {
        class_local(alloc, cursor, name)
    } else if cursor.sees(Sort::Sign(sign::ASSIGN)) {
        variable_assigned(alloc, cursor, name)
    } else if cursor.sees(Sort::Sign(sign::DOT)) {
        variable_selected(alloc, cursor, name)
    } else if cursor.sees(Sort::Sign(sign::LEFT_PAREN)) {
        own_call(alloc, cursor, name)
    } else {
        Err(ParseError::Syntax(cursor.at))
    }
}

#[tactic(auto, using(par_tree::proofs::Rules::run_built))]
fn class_local(
    alloc: Global,
    cursor: &mut Cursor<'_, Paragon>,
    class: &Token,
) -> Result<Stmt, ParseError>
    requires { IsOf sort.Name class.now }
    ensures read { Reads
        (g.ident ∷ g.sign_ signs.ASSIGN ∷ g.expr ∷ g.sign_ signs.SEMICOLON
        ∷ symbol.builds g.ClassLocal ∷ [])
        (tok class.now ∷ []) a_stmt (input cursor.old) result (input cursor.new) }
    ensures shorter { OnOk result (length cursor.new.left.now < length cursor.old.left.now) }
{
    let name = cursor.keep(Sort::Name)?;
    cursor.take(Sort::Sign(sign::ASSIGN))?;
    let value = expr_before(alloc, cursor, Sort::Sign(sign::SEMICOLON))?;
    make::class_local(alloc, class, name, value)
}

fn variable_assigned(
    alloc: Global,
    cursor: &mut Cursor<'_, Paragon>,
    name: &Token,
) -> Result<Stmt, ParseError>
    requires { IsOf sort.Name name.now }
    ensures read { Reads
        (symbol.builds g.Variable ∷ g.the_sign signs.ASSIGN ∷ g.expr ∷ g.sign_ signs.SEMICOLON
        ∷ symbol.builds g.AssignStmt ∷ [])
        (tok name.now ∷ []) a_stmt (input cursor.old) result (input cursor.new) }
    ensures shorter { OnOk result (length cursor.new.left.now < length cursor.old.left.now) }
{
    let target = variable(alloc, name)?;
    assigned(alloc, cursor, target)
}

fn variable_selected(
    alloc: Global,
    cursor: &mut Cursor<'_, Paragon>,
    name: &Token,
) -> Result<Stmt, ParseError>
    requires { IsOf sort.Name name.now }
    ensures read { Reads
        (symbol.builds g.Variable ∷ symbol.counts ∷ g.sign_ signs.DOT ∷ g.ident
        ∷ symbol.name g.Chain ∷ [])
        (tok name.now ∷ []) a_stmt (input cursor.old) result (input cursor.new) }
    ensures shorter { OnOk result (length cursor.new.left.now < length cursor.old.left.now) }
{
    let of = variable(alloc, name)?;
    member(alloc, cursor, of)
}

fn own_call(
    alloc: Global,
    cursor: &mut Cursor<'_, Paragon>,
    name: &Token,
) -> Result<Stmt, ParseError>
    requires { IsOf sort.Name name.now }
    ensures read { Reads
        (symbol.name g.Args ∷ symbol.builds g.CallOwn ∷ symbol.name g.CallTail ∷ [])
        (tok name.now ∷ []) a_stmt (input cursor.old) result (input cursor.new) }
    ensures shorter { OnOk result (length cursor.new.left.now < length cursor.old.left.now) }
{
    let call = call(alloc, cursor, name)?;
    call_tail(alloc, cursor, call)
}

/// A statement that begins with `this`.
pub fn effect_of_this(alloc: Global, cursor: &mut Cursor<'_, Paragon>) -> Result<Stmt, ParseError>
    ensures read { Reads
        (symbol.restarts ∷ g.the_word words.THIS ∷ symbol.builds g.ThisExpr
        ∷ symbol.name g.AfterThis ∷ [])
        [] a_stmt (input cursor.old) result (input cursor.new) }
    ensures shorter { OnOk result (length cursor.new.left.now < length cursor.old.left.now) }
{
    cursor.restart();
    let this = this(cursor)?;
    after_this(alloc, cursor, this)
}

fn after_this(alloc: Global, cursor: &mut Cursor<'_, Paragon>, of: Expr) -> Result<Stmt, ParseError>
    ensures read { Reads (symbol.name g.AfterThis ∷ []) (exp (shown of) ∷ []) a_stmt
        (input cursor.old) result (input cursor.new) }
    ensures shorter { OnOk result (length cursor.new.left.now < length cursor.old.left.now) }
{
    if cursor.sees(Sort::Sign(sign::DOT)) {
        member(alloc, cursor, of)
    } else {
        Err(ParseError::Syntax(cursor.at))
    }
}

/// The name of a member, with the dot before it.
fn member_name<'a>(cursor: &mut Cursor<'a, Paragon>) -> Result<&'a Token, ParseError>
    ensures read { Reads (symbol.counts ∷ g.sign_ signs.DOT ∷ g.ident ∷ []) [] a_token
        (input cursor.old) result (input cursor.new) }
    ensures sort { IfOk result (λ token. IsOf sort.Name token.now) }
    ensures shorter { OnOk result (length cursor.new.left.now < length cursor.old.left.now) }
{
    cursor.count()?;
    cursor.take(Sort::Sign(sign::DOT))?;
    cursor.keep(Sort::Name)
}

/// A member, and what follows it.
#[cycle(chain)]
fn member(alloc: Global, cursor: &mut Cursor<'_, Paragon>, of: Expr) -> Result<Stmt, ParseError>
    ensures read { Reads
        (symbol.counts ∷ g.sign_ signs.DOT ∷ g.ident ∷ symbol.name g.Chain ∷ [])
        (exp (shown of) ∷ []) a_stmt (input cursor.old) result (input cursor.new) }
    ensures shorter { OnOk result (length cursor.new.left.now < length cursor.old.left.now) }
{
    let name = member_name(cursor)?;
    chain(alloc, cursor, of, name)
}

/// What follows the name of a member.
#[cycle(chain)]
fn chain(
    alloc: Global,
    cursor: &mut Cursor<'_, Paragon>,
    of: Expr,
    name: &Token,
) -> Result<Stmt, ParseError>
    requires { IsOf sort.Name name.now }
    ensures read { Reads (symbol.name g.Chain ∷ []) (tok name.now ∷ exp (shown of) ∷ []) a_stmt
        (input cursor.old) result (input cursor.new) }
    ensures shorter { OnOk result (length cursor.new.left.now < length cursor.old.left.now) }
{
    if cursor.sees(Sort::Sign(sign::ASSIGN)) {
        member_assigned(alloc, cursor, of, name)
    } else if cursor.sees(Sort::Sign(sign::DOT)) {
        member_selected(alloc, cursor, of, name)
    } else if cursor.sees(Sort::Sign(sign::LEFT_PAREN)) {
        member_call(alloc, cursor, of, name)
    } else {
        Err(ParseError::Syntax(cursor.at))
    }
}

fn member_assigned(
    alloc: Global,
    cursor: &mut Cursor<'_, Paragon>,
    of: Expr,
    name: &Token,
) -> Result<Stmt, ParseError>
    requires { IsOf sort.Name name.now }
    ensures read { Reads
        (symbol.builds g.Select ∷ g.the_sign signs.ASSIGN ∷ g.expr ∷ g.sign_ signs.SEMICOLON
        ∷ symbol.builds g.AssignStmt ∷ [])
        (tok name.now ∷ exp (shown of) ∷ []) a_stmt (input cursor.old) result (input cursor.new) }
    ensures shorter { OnOk result (length cursor.new.left.now < length cursor.old.left.now) }
{
    let target = selected(alloc, of, name)?;
    assigned(alloc, cursor, target)
}

#[cycle(chain)]
fn member_selected(
    alloc: Global,
    cursor: &mut Cursor<'_, Paragon>,
    of: Expr,
    name: &Token,
) -> Result<Stmt, ParseError>
    requires { IsOf sort.Name name.now }
    ensures read { Reads
        (symbol.builds g.Select ∷ symbol.counts ∷ g.sign_ signs.DOT ∷ g.ident
        ∷ symbol.name g.Chain ∷ [])
        (tok name.now ∷ exp (shown of) ∷ []) a_stmt (input cursor.old) result (input cursor.new) }
    ensures shorter { OnOk result (length cursor.new.left.now < length cursor.old.left.now) }
{
    let of = selected(alloc, of, name)?;
    member(alloc, cursor, of)
}

#[cycle(chain)]
fn member_call(
    alloc: Global,
    cursor: &mut Cursor<'_, Paragon>,
    of: Expr,
    name: &Token,
) -> Result<Stmt, ParseError>
    requires { IsOf sort.Name name.now }
    ensures read { Reads
        (symbol.name g.Args ∷ symbol.builds g.CallOn ∷ symbol.name g.CallTail ∷ [])
        (tok name.now ∷ exp (shown of) ∷ []) a_stmt (input cursor.old) result (input cursor.new) }
    ensures shorter { OnOk result (length cursor.new.left.now < length cursor.old.left.now) }
{
    let call = call_on(alloc, cursor, of, name)?;
    call_tail(alloc, cursor, call)
}

/// What follows a call: a member of what it gives, or the end of the statement.
#[cycle(chain)]
fn call_tail(
    alloc: Global,
    cursor: &mut Cursor<'_, Paragon>,
    call: Expr,
) -> Result<Stmt, ParseError>
    ensures read { Reads (symbol.name g.CallTail ∷ []) (exp (shown call) ∷ []) a_stmt
        (input cursor.old) result (input cursor.new) }
    ensures shorter { OnOk result (length cursor.new.left.now < length cursor.old.left.now) }
{
    if cursor.sees(Sort::Sign(sign::DOT)) {
        member(alloc, cursor, call)
    } else {
        ended_call(cursor, call)
    }
}

#[tactic(auto, using(par_tree::proofs::Rules::run_built))]
fn ended_call(cursor: &mut Cursor<'_, Paragon>, call: Expr) -> Result<Stmt, ParseError>
    ensures read { Reads
        (g.the_sign signs.SEMICOLON ∷ symbol.builds g.CallStmt ∷ [])
        (exp (shown call) ∷ []) a_stmt (input cursor.old) result (input cursor.new) }
    ensures shorter { OnOk result (length cursor.new.left.now < length cursor.old.left.now) }
{
    let _end = cursor.keep(Sort::Sign(sign::SEMICOLON))?;
    Ok(make::call_stmt(call))
}

/// The value that a target gets.
#[tactic(auto, using(par_tree::proofs::Rules::run_built))]
fn assigned(
    alloc: Global,
    cursor: &mut Cursor<'_, Paragon>,
    target: Expr,
) -> Result<Stmt, ParseError>
    ensures read { Reads
        (g.the_sign signs.ASSIGN ∷ g.expr ∷ g.sign_ signs.SEMICOLON
        ∷ symbol.builds g.AssignStmt ∷ [])
        (exp (shown target) ∷ []) a_stmt (input cursor.old) result (input cursor.new) }
    ensures shorter { OnOk result (length cursor.new.left.now < length cursor.old.left.now) }
{
    let _sign = cursor.keep(Sort::Sign(sign::ASSIGN))?;
    let value = expr_before(alloc, cursor, Sort::Sign(sign::SEMICOLON))?;
    Ok(make::assignment(target, value))
}

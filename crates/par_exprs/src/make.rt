//! Expressions of one more node.

ghost use Rattle.std.specs.Prelude.{◌≡◌, IfOk, IfErr};
ghost use Rattle.par_grammar.specs.declared.sort.Sort.TheVariants as sort;
ghost use Rattle.par_reader.specs.Reads.{IsOf};
ghost use Rattle.par_tree.specs.Plain as plain;
ghost use Rattle.par_tree.specs.Shown.{shown, all_shown};
ghost use Rattle.par_tree.specs.Values as value;
ghost use Rattle.par_exprs.specs.Exprs.{Makes};

use par_lexer::list::List;
use par_lexer::name::Name;
use par_lexer::operator::BinOp;
use par_lexer::token::{Kind, Token};
use par_reader::error::ParseError;
use par_tree::expr::{Expr, ExprKind};
use par_tree::ident::Ident;
use std::alloc::Global;

/// Two expressions with an operator between them.
#[tactic(auto, using(par_tree::proofs::Shown::shows))]
pub fn binary(
    alloc: Global,
    op: BinOp,
    sign: &Token,
    left: Expr,
    right: Expr,
) -> Result<Expr, ParseError>
    ensures { Makes (plain.Binary op (shown left) (shown right) sign.now.from) result }
{
    let left = Box::new(alloc, left)?;
    let right = Box::new(alloc, right)?;
    Ok(Expr {
        kind: ExprKind::Binary(op, left, right),
        at: sign.from,
    })
}

/// An expression with a `-` before it.
#[tactic(auto, using(par_tree::proofs::Shown::shows))]
pub fn negated(alloc: Global, sign: &Token, of: Expr) -> Result<Expr, ParseError>
    ensures { Makes (plain.Neg (shown of) sign.now.from) result }
{
    let of = Box::new(alloc, of)?;
    Ok(Expr {
        kind: ExprKind::Neg(of),
        at: sign.from,
    })
}

/// An expression with a `!` before it.
#[tactic(auto, using(par_tree::proofs::Shown::shows))]
pub fn inverted(alloc: Global, sign: &Token, of: Expr) -> Result<Expr, ParseError>
    ensures { Makes (plain.Not (shown of) sign.now.from) result }
{
    let of = Box::new(alloc, of)?;
    Ok(Expr {
        kind: ExprKind::Not(of),
        at: sign.from,
    })
}

/// A member of an expression.
#[tactic(auto, using(par_tree::proofs::Shown::shows))]
pub fn selected(alloc: Global, of: Expr, member: &Token) -> Result<Expr, ParseError>
    requires { IsOf sort.Name member.now }
    ensures { Makes (plain.Field (shown of) (value.ident member.now) member.now.from) result }
{
    let of = Box::new(alloc, of)?;
    let field = ident(alloc, member)?;
    Ok(Expr {
        kind: ExprKind::Field(of, field),
        at: member.from,
    })
}

/// A call of a member of an expression.
#[tactic(auto, using(crate::proofs::Calls::calls))]
pub fn called_on(
    alloc: Global,
    of: Expr,
    member: &Token,
    args: List<Expr>,
) -> Result<Expr, ParseError>
    requires { IsOf sort.Name member.now }
    ensures { Makes (plain.Call (plain.Present (shown of)) (value.ident member.now)
        (all_shown args) member.now.from) result }
{
    let of = Box::new(alloc, of)?;
    let method = ident(alloc, member)?;
    Ok(Expr {
        kind: ExprKind::Call(Some(of), method, args),
        at: member.from,
    })
}

/// A call that names no receiver.
#[tactic(auto, using(crate::proofs::Calls::calls))]
pub fn called(alloc: Global, member: &Token, args: List<Expr>) -> Result<Expr, ParseError>
    requires { IsOf sort.Name member.now }
    ensures { Makes (plain.Call plain.Absent (value.ident member.now)
        (all_shown args) member.now.from) result }
{
    let method = ident(alloc, member)?;
    Ok(Expr {
        kind: ExprKind::Call(None, method, args),
        at: member.from,
    })
}

/// An object that is made of a class.
#[tactic(auto, using(par_tree::proofs::Shown::shows))]
pub fn created(alloc: Global, word: &Token, class: &Token) -> Result<Expr, ParseError>
    requires { IsOf sort.Name class.now }
    ensures { Makes (plain.New (value.ident class.now) word.now.from) result }
{
    let class = ident(alloc, class)?;
    Ok(Expr {
        kind: ExprKind::New(class),
        at: word.from,
    })
}

/// A name by itself.
#[tactic(auto, using(par_tree::proofs::Shown::shows))]
pub fn variable(alloc: Global, token: &Token) -> Result<Expr, ParseError>
    requires { IsOf sort.Name token.now }
    ensures { Makes (plain.Name (value.text token.now.kind) token.now.from) result }
{
    let name = name(alloc, token)?;
    Ok(Expr {
        kind: ExprKind::Name(name),
        at: token.from,
    })
}

/// A number.
#[tactic(auto, using(par_tree::proofs::Shown::shows))]
pub fn constant(token: &Token) -> Expr
    requires { IsOf sort.Number token.now }
    ensures { shown result ≡ plain.Int (value.number token.now.kind) token.now.from }
{
    let number = number(token);
    Expr {
        kind: ExprKind::Int(number),
        at: token.from,
    }
}

/// The number that a token is.
fn number(token: &Token) -> u32
    requires { IsOf sort.Number token.now }
    ensures { result ≡ value.number token.now.kind }
{
    match &token.kind {
        Kind::Number(number) => *number,
        _ => unreachable!(),
    }
}

/// A second name of a token's text.
fn name(alloc: Global, token: &Token) -> Result<Name, ParseError>
    requires { IsOf sort.Name token.now }
    ensures ok { IfOk result (λ name. name ≡ value.text token.now.kind) }
    ensures err { IfErr result (λ error. error ≡ ParseError.Memory) }
{
    match &token.kind {
        Kind::Name(name) => Ok(name.copy(alloc)?),
        _ => unreachable!(),
    }
}

/// The name that a token is, with its place.
pub fn ident(alloc: Global, token: &Token) -> Result<Ident, ParseError>
    requires { IsOf sort.Name token.now }
    ensures ok { IfOk result (λ id. id ≡ value.ident token.now) }
    ensures err { IfErr result (λ error. error ≡ ParseError.Memory) }
{
    Ok(Ident {
        name: name(alloc, token)?,
        at: token.from,
    })
}

//! Sources of the whole language, and expressions, read with ample memory.

ghost use Rattle.std.specs.Prelude.{◌≤◌, length, IfOk};
ghost use Rattle.par_lexer.specs.declared.cut.TheConstants.{LONGEST_SOURCE};
ghost use Rattle.par_tree.specs.Shown.{source};
ghost use Rattle.par_parser.specs.Bodies.{source_size};

use par_exprs::parse_expr;
use par_lexer::lex;
use par_lexer::list::List;
use par_lexer::token::Token;
use par_parser::{ParseError, parse};
use par_tree::decl::{ClassDecl, Decl, Program};
use par_tree::expr::{BinOp, Expr, ExprKind};
use par_tree::stmt::{Stmt, StmtKind};
use par_worked::expect;
use std::alloc::Global;
use std::test::Fail;

const SHOP: &[u8] = b"actor alice, bob;
lock Paid;
lock Both(actor, actor) ?bottom;
policy shared = {alice: Paid, Both(alice, bob); bob:} * top;
class Fault extends Exception { }
class Shop ?shared {
  ?_ static int got;
  boolean sold;
  ?{alice:} input int key();
  ?bottom output void show(int v);
  static void main() !bottom ~Paid +Paid -Both(bob, alice) throws Fault top {
    int x = 1;
    if (x < 2 || !sold) { } else if (x == 3) { }
    while (true) { break; }
    try { throw new Fault(); } catch (Fault f) { }
    when (Paid) { } else { }
    open Paid;
    x = -x;
    show(x);
    this.next(null, 1).sold = false;
    ?top notnull Shop s = new Shop();
    return;
  }
  ?shared Shop next(?top notnull Shop of, int n) { return of; }
}";

// The tokens of a source that has some.
fn tokens_of(alloc: Global, text: &[u8]) -> Result<List<Token>, Fail>
    ensures { IfOk result (λ tokens. length tokens ≤ 262144) }
{
    let tokens = lex(alloc, text)?;
    if tokens.len() > 262_144 {
        return Err(Fail::new("too many tokens"));
    }
    Ok(tokens)
}

fn class_of(program: &Program) -> Option<&ClassDecl> {
    match program.decls.as_slice() {
        [
            Decl::Actors(..),
            Decl::Lock(..),
            Decl::Lock(both),
            Decl::Policy(..),
            Decl::Class(fault),
            Decl::Class(class),
        ] => {
            if both.arity == 2 && both.policy.is_some() && fault.exception {
                Some(class)
            } else {
                None
            }
        }
        _ => None,
    }
}

// Whether so many members stand in the class, in their order.
fn has_members(class: &ClassDecl) -> bool {
    let [got, sold] = class.fields.as_slice() else {
        return false;
    };
    let [key, show] = class.channels.as_slice() else {
        return false;
    };
    let inferred = got.inferred && got.is_static && got.policy.is_none();
    let plain = !sold.inferred && !sold.is_static && sold.policy.is_none();
    class.birth.is_some() && inferred && plain && key.is_input && !show.is_input
}

// Whether each effect stands in the list of its kind, and each statement is of its kind.
fn is_main(class: &ClassDecl) -> bool {
    let [main, next] = class.methods.as_slice() else {
        return false;
    };
    let effects = main.effects.len() == 1 && main.expects.len() == 1 && main.opens.len() == 1;
    let last = main.closes.len() == 1 && main.throws.len() == 1 && main.result.is_none();
    let other = next.params.len() == 2 && next.result.is_some() && next.policy.is_some();
    effects && last && other && are_statements(main.body.stmts.as_slice())
}

fn are_statements(stmts: &[Stmt]) -> bool {
    let [local, test, looped, tried, rest @ ..] = stmts else {
        return false;
    };
    matches!(&local.kind, StmtKind::Local(_))
        && matches!(&test.kind, StmtKind::If(_, _, Some(_)))
        && matches!(&looped.kind, StmtKind::While(_, _))
        && matches!(&tried.kind, StmtKind::Try(_, _))
        && go_on_with_locks(rest)
}

fn go_on_with_locks(stmts: &[Stmt]) -> bool {
    let [asked, open, set, call, rest @ ..] = stmts else {
        return false;
    };
    matches!(&asked.kind, StmtKind::When(_, _, Some(_)))
        && matches!(&open.kind, StmtKind::OpenLock(_))
        && matches!(&set.kind, StmtKind::Assign(_, _))
        && matches!(&call.kind, StmtKind::Call(_))
        && end_with_objects(rest)
}

fn end_with_objects(stmts: &[Stmt]) -> bool {
    let [member, checked, back] = stmts else {
        return false;
    };
    matches!(&member.kind, StmtKind::Assign(_, _))
        && matches!(&checked.kind, StmtKind::Local(_))
        && matches!(&back.kind, StmtKind::Return(None))
}

/// The tree of a source.
pub fn program(alloc: Global, text: &[u8]) -> Result<Program, Fail>
    ensures { IfOk result (λ program. source_size (source program) ≤ LONGEST_SOURCE) }
{
    let tokens = tokens_of(alloc, text)?;
    let program = parse(alloc, tokens.as_slice());
    drop(tokens);
    Ok(program?)
}

fn check_program(program: &Program) -> Result<(), Fail> {
    let Some(class) = class_of(program) else {
        return Err(Fail::new("six declarations"));
    };
    expect(has_members(class), "two fields and two channels")?;
    expect(is_main(class), "two methods")
}

#[test]
fn a_source_of_each_form_is_read(rt: HostRuntime) -> Result<(), Fail> {
    let program = program(rt.alloc(), SHOP)?;
    let checked = check_program(&program);
    drop(program);
    checked
}

// A row's name, and a source that is no sentence, with the error.
type Refused = (&'static str, &'static [u8], ParseError);

const REFUSED: &[Refused] = &[
    ("no declaration", b"Shop { }", ParseError::Syntax(0)),
    ("no semicolon", b"actor alice lock", ParseError::Syntax(2)),
    (
        "the end in a class",
        b"class Shop { int x;",
        ParseError::Syntax(6),
    ),
    (
        "a policy of an inferred field",
        b"class Shop { ?_ input int key(); }",
        ParseError::Syntax(5),
    ),
    (
        "a third actor",
        b"lock Both(actor, actor, actor);",
        ParseError::Syntax(6),
    ),
    (
        "a value as a statement",
        b"class C { void m() { 1; } }",
        ParseError::Syntax(8),
    ),
];

fn has_error(read: &Result<Program, ParseError>, error: ParseError) -> bool {
    match read {
        Ok(_) => false,
        Err(found) => *found == error,
    }
}

fn is_refused(alloc: Global, text: &[u8], error: ParseError) -> Result<bool, Fail> {
    let tokens = tokens_of(alloc, text)?;
    let read = parse(alloc, tokens.as_slice());
    drop(tokens);
    let has_error = has_error(&read, error);
    drop(read);
    Ok(has_error)
}

fn check_refused(alloc: Global, rows: &[Refused]) -> Result<(), Fail> {
    for (row, text, error) in rows {
        expect(is_refused(alloc, text, *error)?, row)?;
    }
    Ok(())
}

#[test]
fn what_is_no_sentence_is_refused(rt: HostRuntime) -> Result<(), Fail> {
    check_refused(rt.alloc(), REFUSED)
}

// Whether this is the sum of a number and of a product.
fn is_sum(read: &Expr) -> bool {
    let ExprKind::Binary(BinOp::Add, left, right) = &read.kind else {
        return false;
    };
    matches!(&left.kind, ExprKind::Int(1))
        && matches!(&right.kind, ExprKind::Binary(BinOp::Mul, _, _))
}

fn check_sum(alloc: Global, tokens: &[Token]) -> Result<(), Fail>
    requires { length tokens.now ≤ 262144 }
{
    if tokens.len() < 2 {
        return Err(Fail::new("few tokens"));
    }
    let (read, next, nesting) = parse_expr(alloc, tokens, 2, 3)?;
    let is_sum = is_sum(&read);
    drop(read);
    // The semicolon is next, and three more count.
    let is_so = is_sum && next == 10 && nesting == 6;
    expect(is_so, "a sum with a product in it")
}

#[test]
fn an_expression_is_read(rt: HostRuntime) -> Result<(), Fail> {
    let tokens = tokens_of(rt.alloc(), b"x = 1 + 2 * f(a);")?;
    let checked = check_sum(rt.alloc(), tokens.as_slice());
    drop(tokens);
    checked
}

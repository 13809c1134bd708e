//! Nodes of expressions.

ghost use Rattle.std.specs.Prelude.{◌≡◌, IfOk};
ghost use Rattle.par_typed.specs.Shown.{all_shown, receiver, shown};
ghost use Rattle.par_program_laws.specs.Kinds.{Next};
ghost use Rattle.par_program_laws.specs.Declares.{declares};
ghost use Rattle.par_program_laws.specs.Rules as plain;
ghost use Rattle.par_program_laws.specs.Body as body;
ghost use Rattle.par_nodes.specs.Seen.{seen_node, seen_origin, seen_rules, seen_start};
ghost use Rattle.par_nodes.specs.Starts.{behind, call_does, call_start, start_at};

use crate::call::{Stand, called};
use crate::declared;
use crate::draft::{Draft, Known};
use crate::make::{self, ENTRY, PAST, TESTED};
use crate::rule::{Kind, Origin, Start, Worth};
use par_base::memory::NoMemory;
use par_typed::expr::{TExpr, TExprKind};
use par_typed::par_lexer::operator::BinOp;
use par_typed::table::Table;
use std::alloc::Global;

const ARITHMETIC: u16 = 0;

const NULL_POINTER: u16 = 1;

#[tactic(auto, using(par_typed::proofs::Shown::shown_int))]
fn is_sure(e: &TExpr) -> bool
    ensures { result ≡ body.is_sure (shown e.now) }
{
    match &e.kind {
        TExprKind::Int(n) => *n != 0,
        _ => false,
    }
}

/// The way throws NullPointerException, unless the object is never null.
#[tactic(auto, using(par_typed::proofs::Shown::shown_mark))]
pub fn null_test<'a>(
    alloc: Global,
    of: &TExpr,
    from: Origin<'a>,
    more: Draft<'a>,
) -> Result<Draft<'a>, NoMemory>
    ensures { IfOk result (λ r. seen_rules r.rules
        ≡ body.null_test (shown of.now) (seen_origin from.entry) (seen_rules more.entry.rules)) }
{
    if of.sure {
        Ok(more)
    } else {
        make::leaves(alloc, from, Kind::Throw(NULL_POINTER), more)
    }
}

// Division and remainder throw where the divisor may be 0.
fn divides<'a>(
    alloc: Global,
    op: BinOp,
    divisor: &TExpr,
    more: Draft<'a>,
) -> Result<Draft<'a>, NoMemory>
    ensures { IfOk result (λ r. seen_rules r.rules
        ≡ body.divides op (shown divisor.now) (seen_rules more.entry.rules)) }
{
    match op {
        BinOp::Div | BinOp::Rem => {
            if is_sure(divisor) {
                Ok(more)
            } else {
                make::leaves(alloc, TESTED, Kind::Throw(ARITHMETIC), more)
            }
        }
        _ => Ok(more),
    }
}

/// From where the second operand is entered.
pub fn second(op: BinOp) -> Origin<'static>
    ensures { seen_origin result ≡ body.second op }
{
    match op {
        BinOp::And | BinOp::Or => TESTED,
        _ => PAST,
    }
}

// Behind the first operand it may go on.
fn skips<'a>(alloc: Global, op: BinOp, more: Draft<'a>) -> Result<Draft<'a>, NoMemory>
    ensures { IfOk result (λ r. seen_rules r.rules ≡ body.skips op (seen_rules more.entry.rules)) }
{
    match op {
        BinOp::And | BinOp::Or => {
            let from = Origin {
                start: Start::After(1, Kind::Normal),
                ..PAST
            };
            make::goes_on(alloc, from, more)
        }
        _ => Ok(more),
    }
}

/// From where the part at the place is entered.
pub fn start_at(place: usize, from: Start) -> Start
    ensures { seen_start result ≡ start_at place (seen_start from) }
{
    if place == 0 {
        from
    } else {
        Start::After(0, Kind::Normal)
    }
}

// A value of that policy.
fn given<'a>(alloc: Global, policy: u16) -> Draft<'a>
    ensures { seen_rules result.rules ≡ plain.goes_on plain.Entry
        (plain.Worths (plain.Given policy) plain.Done) }
{
    make::gives(alloc, ENTRY, Worth::Given(policy))
}

/// Behind the object of a field comes what is known of the field.
pub fn selected<'a>(alloc: Global, of: &TExpr, policy: u16) -> Result<Draft<'a>, NoMemory>
    ensures { IfOk result (λ r. seen_rules r.rules
        ≡ body.null_test (shown of.now) body.tested (plain.goes_on body.past
        (plain.Worths (plain.Value 0) (plain.Worths (plain.Given policy) plain.Done)))) }
{
    let goes = make::joins(alloc, PAST, Worth::Value(0), Worth::Given(policy));
    null_test(alloc, of, TESTED, goes)
}

// The values of both operands.
fn operands<'a>(alloc: Global) -> Draft<'a>
    ensures { seen_rules result.rules ≡ plain.goes_on body.past
        (plain.Worths (plain.Value 1) (plain.Worths (plain.Value 0) plain.Done)) }
{
    make::joins(alloc, PAST, Worth::Value(1), Worth::Value(0))
}

/// Behind both operands comes what the operator makes of them.
pub fn combined<'a>(alloc: Global, op: BinOp, right: &TExpr) -> Result<Draft<'a>, NoMemory>
    ensures { IfOk result (λ r. seen_rules r.rules
        ≡ body.divides op (shown right.now) (body.skips op (plain.goes_on body.past
        (plain.Worths (plain.Value 1) (plain.Worths (plain.Value 0) plain.Done))))) }
{
    let skipped = skips(alloc, op, operands(alloc))?;
    divides(alloc, op, right, skipped)
}

/// An operand that is entered from there, before what stands behind it.
#[cycle(exp)]
#[inline(never)]
pub(crate) fn operand<'a>(
    alloc: Global,
    table: &'a Table,
    from: Origin<'a>,
    e: &TExpr,
    behind: Draft<'a>,
) -> Result<Draft<'a>, NoMemory>
    ensures { IfOk result (λ r. seen_rules r.rules
        ≡ plain.Part (seen_origin from.entry) Next (body.exp (declares table.now) (shown e.now))
        (seen_rules behind.entry.rules)) }
{
    let node = exp(alloc, table, e)?;
    make::then(alloc, from, node, behind)
}

// The arguments, of which the first is entered from the way.
#[cycle(exp)]
fn args<'a>(
    alloc: Global,
    table: &'a Table,
    from: Start,
    args: &[TExpr],
    more: Draft<'a>,
) -> Result<Draft<'a>, NoMemory>
    ensures { IfOk result (λ r. seen_rules r.rules
        ≡ body.args (declares table.now) (seen_start from) (all_shown args.now)
        (seen_rules more.entry.rules)) }
{
    let mut rules = more;
    for place in (0..args.len()).rev() {
        let from = Origin {
            start: start_at(place, from),
            ..ENTRY
        };
        rules = operand(alloc, table, from, &args[place], rules)?;
    }
    Ok(rules)
}

/// From where the first argument is entered.
pub fn call_start(of: &Option<Box<TExpr>>) -> Start
    ensures { seen_start result ≡ call_start (receiver of.now) }
{
    match of {
        None => Start::Entry,
        Some(_) => Start::After(0, Kind::Normal),
    }
}

/// What a call does behind its arguments.
#[tactic(auto, using(crate::proofs::Rows::past_is, crate::proofs::Rows::count_is))]
pub fn call_does<'a>(
    alloc: Global,
    table: &'a Table,
    class: u16,
    method: u16,
    of: &Option<Box<TExpr>>,
    arguments: &[TExpr],
) -> Result<Draft<'a>, NoMemory>
    ensures { IfOk result (λ r. seen_rules r.rules
        ≡ call_does (declares table.now) ((declares table.now).method class method)
        (receiver of.now) (all_shown arguments.now)) }
{
    match of {
        None => {
            let stand = Stand {
                start: start_at(arguments.len(), Start::Entry),
                receiver: None,
            };
            called(alloc, table, stand, class, method)
        }
        Some(of) => {
            let stand = Stand {
                start: Start::After(0, Kind::Normal),
                receiver: Some(arguments.len()),
            };
            let does = called(alloc, table, stand, class, method)?;
            let value = make::worths(alloc, Worth::Value(arguments.len()), does)?;
            null_test(alloc, of, stand.way(), value)
        }
    }
}

// Behind the receiver, if there is one.
#[cycle(exp)]
fn behind<'a>(
    alloc: Global,
    table: &'a Table,
    of: &Option<Box<TExpr>>,
    more: Draft<'a>,
) -> Result<Draft<'a>, NoMemory>
    ensures { IfOk result (λ r. seen_rules r.rules
        ≡ behind (declares table.now) (receiver of.now) (seen_rules more.entry.rules)) }
{
    match of {
        None => Ok(more),
        Some(of) => operand(alloc, table, ENTRY, of, more),
    }
}

// A field of an object.
#[cycle(exp)]
#[inline(never)]
fn selects<'a>(
    alloc: Global,
    table: &'a Table,
    of: &TExpr,
    policy: u16,
) -> Result<Draft<'a>, NoMemory>
    ensures { IfOk result (λ r. seen_rules r.rules
        ≡ plain.Part plain.Entry Next (body.exp (declares table.now) (shown of.now))
        (body.null_test (shown of.now) body.tested (plain.goes_on body.past
        (plain.Worths (plain.Value 0) (plain.Worths (plain.Given policy) plain.Done))))) }
{
    let rest = selected(alloc, of, policy)?;
    operand(alloc, table, ENTRY, of, rest)
}

// A value that is put out.
#[cycle(exp)]
#[inline(never)]
fn puts<'a>(alloc: Global, table: &'a Table, value: &TExpr) -> Result<Draft<'a>, NoMemory>
    ensures { IfOk result (λ r. seen_rules r.rules
        ≡ plain.Part plain.Entry Next (body.exp (declares table.now) (shown value.now))
        (plain.goes_on body.past plain.Done)) }
{
    operand(alloc, table, ENTRY, value, make::ends(alloc, PAST))
}

// The arguments of a call, and what it does behind them.
#[cycle(exp)]
#[inline(never)]
fn passes<'a>(
    alloc: Global,
    table: &'a Table,
    class: u16,
    method: u16,
    arguments: &[TExpr],
    of: &Option<Box<TExpr>>,
) -> Result<Draft<'a>, NoMemory>
    ensures { IfOk result (λ r. seen_rules r.rules
        ≡ body.args (declares table.now) (call_start (receiver of.now)) (all_shown arguments.now)
        (call_does (declares table.now) ((declares table.now).method class method)
        (receiver of.now) (all_shown arguments.now))) }
{
    let does = call_does(alloc, table, class, method, of, arguments)?;
    args(alloc, table, call_start(of), arguments, does)
}

// An operator with one operand.
#[cycle(exp)]
#[inline(never)]
fn operates<'a>(alloc: Global, table: &'a Table, of: &TExpr) -> Result<Draft<'a>, NoMemory>
    ensures { IfOk result (λ r. seen_rules r.rules
        ≡ plain.Part plain.Entry Next (body.exp (declares table.now) (shown of.now))
        (plain.goes_on body.past (plain.Worths (plain.Value 0) plain.Done))) }
{
    let rest = make::gives(alloc, PAST, Worth::Value(0));
    operand(alloc, table, ENTRY, of, rest)
}

// The second operand, and what the operator makes of both.
#[cycle(exp)]
#[inline(never)]
fn combines<'a>(
    alloc: Global,
    table: &'a Table,
    op: BinOp,
    right: &TExpr,
) -> Result<Draft<'a>, NoMemory>
    ensures { IfOk result (λ r. seen_rules r.rules
        ≡ plain.Part (body.second op) Next (body.exp (declares table.now) (shown right.now))
        (body.divides op (shown right.now) (body.skips op (plain.goes_on body.past
        (plain.Worths (plain.Value 1) (plain.Worths (plain.Value 0) plain.Done)))))) }
{
    let rest = combined(alloc, op, right)?;
    operand(alloc, table, second(op), right, rest)
}

/// The node of an expression.
#[cycle(exp)]
pub fn exp<'a>(alloc: Global, table: &'a Table, e: &TExpr) -> Result<Known<'a>, NoMemory>
    ensures { IfOk result (λ n. seen_node n.node.value
        ≡ body.exp (declares table.now) (shown e.now)) }
{
    let rules = rules_of(alloc, table, e)?;
    let node = rules.node(alloc, e.point)?;
    Ok(node)
}

#[cycle(exp)]
fn rules_of<'a>(alloc: Global, table: &'a Table, e: &TExpr) -> Result<Draft<'a>, NoMemory>
    ensures { IfOk result (λ r. plain.node e.now.point (seen_rules r.rules)
        ≡ body.exp (declares table.now) (shown e.now)) }
{
    match &e.kind {
        TExprKind::Int(_) => Ok(make::ends(alloc, ENTRY)),
        TExprKind::Bool(_) => Ok(make::ends(alloc, ENTRY)),
        TExprKind::Null | TExprKind::This => Ok(make::ends(alloc, ENTRY)),
        TExprKind::New(class) => Ok(given(alloc, declared::birth(table, *class))),
        TExprKind::Local(local) => Ok(make::gives(alloc, ENTRY, Worth::Held(*local))),
        TExprKind::Static(class, field) => Ok(given(alloc, declared::field(table, *class, *field))),
        TExprKind::Input(class, channel) => {
            Ok(given(alloc, declared::channel(table, *class, *channel)))
        }
        TExprKind::Field(of, class, field) => {
            selects(alloc, table, of, declared::field(table, *class, *field))
        }
        TExprKind::Output(_, _, value) => puts(alloc, table, value),
        TExprKind::Call(class, method, of, arguments) => {
            let all = passes(alloc, table, *class, *method, arguments.as_slice(), of)?;
            behind(alloc, table, of, all)
        }
        TExprKind::Neg(of) | TExprKind::Not(of) => operates(alloc, table, of),
        TExprKind::Binary(op, left, right) => {
            let last = combines(alloc, table, *op, right)?;
            operand(alloc, table, ENTRY, left, last)
        }
    }
}

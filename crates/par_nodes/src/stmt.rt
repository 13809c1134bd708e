//! Nodes of statements.

ghost use Rattle.std.specs.Prelude.{◌≡◌, IfOk};
ghost use Rattle.par_typed.specs.Shown.{all_catch, all_do, does, may_shown, otherwise};
ghost use Rattle.par_typed.specs.Shown.{shown};
ghost use Rattle.par_bits.specs.Sets.{adding, none};
ghost use Rattle.par_program_laws.specs.Declares.{declares};
ghost use Rattle.par_program_laws.specs.Kinds as kinds;
ghost use Rattle.par_program_laws.specs.Rules as plain;
ghost use Rattle.par_program_laws.specs.Body as body;
ghost use Rattle.par_nodes.specs.Seen.{seen_node, seen_origin, seen_rules, seen_start};
ghost use Rattle.par_nodes.specs.Starts.{behind_value, catch_start, else_rules, goes_first};

use crate::declared;
use crate::draft::{Draft, Known};
use crate::expr::{exp, null_test, operand, start_at};
use crate::make::{self, ENTRY, PAST, TESTED};
use crate::rule::{Absorber, Kind, Locks, Origin, Start};
use par_base::list::List;
use par_base::memory::NoMemory;
use par_typed::expr::{TExpr, TExprKind};
use par_typed::stmt::{TCatch, TStmt, TStmtKind};
use par_typed::table::Table;
use std::alloc::Global;

/// The way behind the test, where what stands behind `else` is done.
pub const OTHERWISE: Origin<'static> = Origin {
    start: Start::After(1, Kind::Normal),
    assigned: None,
    tested: Some(1),
    raised: None,
    shut: Locks::Kept,
    opened: Locks::Kept,
};

// The ways behind a block that are left by `break` and by `continue`.
const BROKEN: Origin<'static> = Origin {
    start: Start::After(0, Kind::Break),
    ..PAST
};

const CONTINUED: Origin<'static> = Origin {
    start: Start::After(0, Kind::Continue),
    ..PAST
};

/// The test of a loop that is left by `break` alone.
#[tactic(auto, using(par_typed::proofs::Shown::shown_bool))]
pub fn is_forever(e: &TExpr) -> bool
    ensures { result ≡ body.is_forever (shown e.now) }
{
    match &e.kind {
        TExprKind::Bool(value) => *value,
        _ => false,
    }
}

// The classes that are caught.
fn caught(alloc: Global, catches: &[TCatch]) -> Result<List<u16>, NoMemory>
    ensures { IfOk result (λ classes. classes ≡ body.caught (all_catch catches.now)) }
{
    let mut classes = List::new(alloc);
    for catch in catches {
        classes.push(catch.class)?;
    }
    Ok(classes)
}

// A return, with its value before it.
#[tactic(auto, using(crate::proofs::Forms::forms))]
fn returns<'a>(
    alloc: Global,
    table: &'a Table,
    value: &Option<TExpr>,
) -> Result<Draft<'a>, NoMemory>
    ensures { IfOk result (λ r. seen_rules r.rules
        ≡ behind_value (declares table.now) (may_shown value.now)) }
{
    match value {
        None => Ok(make::completes(alloc, ENTRY, Kind::Return)),
        Some(value) => {
            let leaves = make::completes(alloc, PAST, Kind::Return);
            operand(alloc, table, ENTRY, value, leaves)
        }
    }
}

// Without `else` the way goes on.
#[inline(never)]
fn goes_first<'a>(
    alloc: Global,
    other: &Option<Box<TStmt>>,
    from: Origin<'a>,
    more: Draft<'a>,
) -> Result<Draft<'a>, NoMemory>
    ensures { IfOk result (λ r. seen_rules r.rules
        ≡ goes_first (otherwise other.now) (seen_origin from.entry) (seen_rules more.entry.rules)) }
{
    match other {
        None => make::goes_on(alloc, from, more),
        Some(_) => Ok(more),
    }
}

/// Behind the block of a loop comes the test, but for `break`.
pub fn again<'a>(alloc: Global) -> Result<Draft<'a>, NoMemory>
    ensures { IfOk result (λ r. seen_rules r.rules ≡ plain.Heads body.past
        (plain.Heads (plain.After 0 kinds.Continue)
        (plain.goes_on (plain.After 0 kinds.Break) plain.Done))) }
{
    let broken = make::ends(alloc, BROKEN);
    let continued = make::heads(alloc, CONTINUED, broken)?;
    make::heads(alloc, PAST, continued)
}

// The block of a loop, with what stands behind it.
fn looped<'a>(alloc: Global, block: Known<'a>) -> Result<Draft<'a>, NoMemory>
    ensures { IfOk result (λ r. seen_rules r.rules
        ≡ plain.Part body.tested kinds.Loop (seen_node block.entry.node.value)
        (plain.Heads body.past (plain.Heads (plain.After 0 kinds.Continue)
        (plain.goes_on (plain.After 0 kinds.Break) plain.Done)))) }
{
    let behind = again(alloc)?;
    make::part(alloc, TESTED, Absorber::Loop, block, behind)
}

// A loop, whose block with what stands behind it is given.
#[inline(never)]
fn repeats<'a>(
    alloc: Global,
    table: &'a Table,
    test: &TExpr,
    block: Draft<'a>,
) -> Result<Draft<'a>, NoMemory>
    ensures { IfOk result (λ r. seen_rules r.rules
        ≡ plain.Test (body.exp (declares table.now) (shown test.now)) (plain.Heads plain.Entry
        (body.if_not (body.is_forever (shown test.now)) (plain.goes_on body.past)
        (seen_rules block.entry.rules)))) }
{
    let behind = unless(alloc, is_forever(test), block)?;
    let entered = make::heads(alloc, ENTRY, behind)?;
    let node = exp(alloc, table, test)?;
    make::test(alloc, node, entered)
}

// The way behind the test goes on, unless the loop has no end.
fn unless<'a>(alloc: Global, forever: bool, more: Draft<'a>) -> Result<Draft<'a>, NoMemory>
    ensures { IfOk result (λ r. seen_rules r.rules
        ≡ body.if_not forever (plain.goes_on body.past) (seen_rules more.entry.rules)) }
{
    if forever {
        Ok(more)
    } else {
        make::goes_on(alloc, PAST, more)
    }
}

// A write of a local.
#[inline(never)]
fn assigns<'a>(
    alloc: Global,
    table: &'a Table,
    local: u16,
    value: &TExpr,
) -> Result<Draft<'a>, NoMemory>
    ensures { IfOk result (λ r. seen_rules r.rules
        ≡ plain.Part plain.Entry kinds.Next (body.exp (declares table.now) (shown value.now))
        (plain.goes_on (plain.Assigned local 0 body.past) plain.Done)) }
{
    let goes = make::ends(
        alloc,
        Origin {
            assigned: Some((local, 0)),
            ..PAST
        },
    );
    operand(alloc, table, ENTRY, value, goes)
}

// An expression, and nothing else.
#[inline(never)]
fn evaluates<'a>(alloc: Global, table: &'a Table, e: &TExpr) -> Result<Draft<'a>, NoMemory>
    ensures { IfOk result (λ r. seen_rules r.rules
        ≡ plain.Part plain.Entry kinds.Next (body.exp (declares table.now) (shown e.now))
        (plain.goes_on body.past plain.Done)) }
{
    operand(alloc, table, ENTRY, e, make::ends(alloc, PAST))
}

// A write of a field of an object.
#[inline(never)]
fn writes<'a>(
    alloc: Global,
    table: &'a Table,
    of: &TExpr,
    value: &TExpr,
) -> Result<Draft<'a>, NoMemory>
    ensures { IfOk result (λ r. seen_rules r.rules
        ≡ plain.Part plain.Entry kinds.Next (body.exp (declares table.now) (shown of.now))
        (plain.Part body.past kinds.Next (body.exp (declares table.now) (shown value.now))
        (body.null_test (shown of.now) (plain.Tested 1 body.past)
        (plain.goes_on body.past plain.Done)))) }
{
    let goes = make::ends(alloc, PAST);
    let tested = null_test(
        alloc,
        of,
        Origin {
            tested: Some(1),
            ..PAST
        },
        goes,
    )?;
    let written = operand(alloc, table, PAST, value, tested)?;
    operand(alloc, table, ENTRY, of, written)
}

// A lock is opened.
#[inline(never)]
fn opens<'a>(alloc: Global, lock: u16) -> Draft<'a>
    ensures { seen_rules result.rules
        ≡ plain.goes_on (plain.Opened (adding none lock) plain.Entry) plain.Done }
{
    make::ends(
        alloc,
        Origin {
            opened: Locks::One(lock),
            ..ENTRY
        },
    )
}

// A lock is closed.
#[inline(never)]
fn shuts<'a>(alloc: Global, lock: u16) -> Draft<'a>
    ensures { seen_rules result.rules
        ≡ plain.goes_on (plain.Shut (adding none lock) plain.Entry) plain.Done }
{
    make::ends(
        alloc,
        Origin {
            shut: Locks::One(lock),
            ..ENTRY
        },
    )
}

// A test, and the branches behind it.
#[inline(never)]
fn decides<'a>(
    alloc: Global,
    table: &'a Table,
    test: &TExpr,
    other: &Option<Box<TStmt>>,
    both: Draft<'a>,
) -> Result<Draft<'a>, NoMemory>
    ensures { IfOk result (λ r. seen_rules r.rules
        ≡ plain.Part plain.Entry kinds.Next (body.exp (declares table.now) (shown test.now))
        (goes_first (otherwise other.now) body.past (seen_rules both.entry.rules))) }
{
    let behind = goes_first(alloc, other, PAST, both)?;
    operand(alloc, table, ENTRY, test, behind)
}

/// The way on which it is known whether a lock with this policy is open.
pub fn asked(policy: u16) -> Origin<'static>
    ensures { seen_origin result ≡ plain.Raised policy plain.Entry }
{
    Origin {
        raised: Some(policy),
        ..ENTRY
    }
}

/// The way on which a lock with this policy is known to be open.
pub fn held(lock: u16, policy: u16) -> Origin<'static>
    ensures { seen_origin result
        ≡ plain.Opened (adding none lock) (plain.Raised policy plain.Entry) }
{
    Origin {
        raised: Some(policy),
        opened: Locks::One(lock),
        ..ENTRY
    }
}

// A statement that is entered from there, before what stands behind it.
#[cycle(sta)]
#[inline(never)]
fn step<'a>(
    alloc: Global,
    table: &'a Table,
    from: Origin<'a>,
    stmt: &TStmt,
    behind: Draft<'a>,
) -> Result<Draft<'a>, NoMemory>
    ensures { IfOk result (λ r. seen_rules r.rules
        ≡ plain.Part (seen_origin from.entry) kinds.Next
        (body.sta (declares table.now) (does stmt.now)) (seen_rules behind.entry.rules)) }
{
    let node = sta(alloc, table, stmt)?;
    make::then(alloc, from, node, behind)
}

// A loop, whose block stands behind its test.
#[cycle(sta)]
#[inline(never)]
fn loops<'a>(
    alloc: Global,
    table: &'a Table,
    block: &TStmt,
    test: &TExpr,
) -> Result<Draft<'a>, NoMemory>
    ensures { IfOk result (λ r. seen_rules r.rules
        ≡ plain.Test (body.exp (declares table.now) (shown test.now)) (plain.Heads plain.Entry
        (body.if_not (body.is_forever (shown test.now)) (plain.goes_on body.past)
        (plain.Part body.tested kinds.Loop (body.sta (declares table.now) (does block.now))
        (plain.Heads body.past (plain.Heads (plain.After 0 kinds.Continue)
        (plain.goes_on (plain.After 0 kinds.Break) plain.Done))))))) }
{
    let node = sta(alloc, table, block)?;
    let part = looped(alloc, node)?;
    repeats(alloc, table, test, part)
}

// Statements one after the other.
#[cycle(sta)]
fn stas<'a>(alloc: Global, table: &'a Table, stmts: &[TStmt]) -> Result<Draft<'a>, NoMemory>
    ensures { IfOk result (λ r. seen_rules r.rules
        ≡ body.stas (declares table.now) plain.Entry (all_do stmts.now)) }
{
    let last = Origin {
        start: start_at(stmts.len(), Start::Entry),
        ..ENTRY
    };
    let mut rules = make::ends(alloc, last);
    for place in (0..stmts.len()).rev() {
        let from = Origin {
            start: start_at(place, Start::Entry),
            ..ENTRY
        };
        rules = step(alloc, table, from, &stmts[place], rules)?;
    }
    Ok(rules)
}

// From where a catch of the class is entered, behind as many others.
fn catch_start(block: &Known, class: u16, before: usize) -> Start
    ensures { seen_start result ≡ catch_start (seen_node block.now.node.value) class before }
{
    let thrown = Kind::Throw(class);
    if block.kinds.has(thrown) {
        Start::After(before, thrown)
    } else {
        Start::Entry
    }
}

// Behind the block of a `try` the way goes on, and its catches follow.
#[cycle(sta)]
fn catches<'a>(
    alloc: Global,
    table: &'a Table,
    catches: &[TCatch],
    block: &Known,
) -> Result<Draft<'a>, NoMemory>
    ensures { IfOk result (λ r. seen_rules r.rules ≡ plain.goes_on body.past
        (body.catches (declares table.now) (seen_node block.now.node.value)
        (all_catch catches.now) 0)) }
{
    let mut rules = make::ends(alloc, PAST);
    for place in (0..catches.len()).rev() {
        let catch = &catches[place];
        let from = Origin {
            start: catch_start(block, catch.class, place),
            ..ENTRY
        };
        let entered = step(alloc, table, from, &catch.body, rules)?;
        rules = make::goes_on(alloc, PAST, entered)?;
    }
    Ok(rules)
}

// A `try`, whose block and whose caught classes are given.
#[cycle(sta)]
#[inline(never)]
fn tries<'a>(
    alloc: Global,
    table: &'a Table,
    clauses: &[TCatch],
    classes: List<u16>,
    block: Known<'a>,
) -> Result<Draft<'a>, NoMemory>
    requires { classes ≡ body.caught (all_catch clauses.now) }
    ensures { IfOk result (λ r. seen_rules r.rules
        ≡ plain.Part plain.Entry (kinds.Catches (body.caught (all_catch clauses.now)))
        (seen_node block.entry.node.value) (plain.goes_on body.past
        (body.catches (declares table.now) (seen_node block.entry.node.value)
        (all_catch clauses.now) 0))) }
{
    let handled = catches(alloc, table, clauses, &block)?;
    make::part(alloc, ENTRY, Absorber::Catches(classes), block, handled)
}

// Behind the first branch the way goes on, and what stands behind `else` follows.
#[cycle(sta)]
#[tactic(auto, using(crate::proofs::Forms::forms))]
fn else_rules<'a>(
    alloc: Global,
    table: &'a Table,
    other: &Option<Box<TStmt>>,
    from: Origin<'a>,
) -> Result<Draft<'a>, NoMemory>
    ensures { IfOk result (λ r. seen_rules r.rules ≡ plain.goes_on body.past
        (else_rules (declares table.now) (otherwise other.now) (seen_origin from.entry))) }
{
    match other {
        None => Ok(make::ends(alloc, PAST)),
        Some(stmt) => {
            let goes = make::ends(alloc, PAST);
            let rest = step(alloc, table, from, stmt, goes)?;
            make::goes_on(alloc, PAST, rest)
        }
    }
}

// A test, and the branch behind it, before what stands behind that.
#[cycle(sta)]
#[inline(never)]
fn chooses<'a>(
    alloc: Global,
    table: &'a Table,
    block: &TStmt,
    test: &TExpr,
    other: &Option<Box<TStmt>>,
    rest: Draft<'a>,
) -> Result<Draft<'a>, NoMemory>
    ensures { IfOk result (λ r. seen_rules r.rules
        ≡ plain.Part plain.Entry kinds.Next (body.exp (declares table.now) (shown test.now))
        (goes_first (otherwise other.now) body.past (plain.Part body.tested kinds.Next
        (body.sta (declares table.now) (does block.now)) (seen_rules rest.entry.rules)))) }
{
    let both = step(alloc, table, TESTED, block, rest)?;
    decides(alloc, table, test, other, both)
}

// The branch of an open lock, before what stands behind it.
#[cycle(sta)]
#[inline(never)]
fn opened<'a>(
    alloc: Global,
    table: &'a Table,
    from: Origin<'a>,
    block: &TStmt,
    other: &Option<Box<TStmt>>,
    rest: Draft<'a>,
) -> Result<Draft<'a>, NoMemory>
    ensures { IfOk result (λ r. seen_rules r.rules
        ≡ goes_first (otherwise other.now) plain.Entry (plain.Part (seen_origin from.entry)
        kinds.Next (body.sta (declares table.now) (does block.now))
        (seen_rules rest.entry.rules))) }
{
    let both = step(alloc, table, from, block, rest)?;
    goes_first(alloc, other, ENTRY, both)
}

/// The node of a statement.
#[cycle(sta)]
pub fn sta<'a>(alloc: Global, table: &'a Table, stmt: &TStmt) -> Result<Known<'a>, NoMemory>
    ensures { IfOk result (λ n. seen_node n.node.value
        ≡ body.sta (declares table.now) (does stmt.now)) }
{
    let rules = rules_of(alloc, table, stmt)?;
    let node = rules.node(alloc, stmt.point)?;
    Ok(node)
}

#[cycle(sta)]
fn rules_of<'a>(alloc: Global, table: &'a Table, stmt: &TStmt) -> Result<Draft<'a>, NoMemory>
    ensures { IfOk result (λ r. plain.node stmt.now.point (seen_rules r.rules)
        ≡ body.sta (declares table.now) (does stmt.now)) }
{
    match &stmt.kind {
        TStmtKind::Block(stmts) => stas(alloc, table, stmts.as_slice()),
        TStmtKind::If(test, block, other) => {
            let rest = else_rules(alloc, table, other, OTHERWISE)?;
            chooses(alloc, table, block, test, other, rest)
        }
        TStmtKind::While(test, block) => loops(alloc, table, block, test),
        TStmtKind::Try(block, clauses) => {
            let clauses = clauses.as_slice();
            let classes = caught(alloc, clauses)?;
            let node = sta(alloc, table, block)?;
            tries(alloc, table, clauses, classes, node)
        }
        TStmtKind::Return(value) => returns(alloc, table, value),
        TStmtKind::Break => Ok(make::completes(alloc, ENTRY, Kind::Break)),
        TStmtKind::Continue => Ok(make::completes(alloc, ENTRY, Kind::Continue)),
        TStmtKind::Throw(class) => Ok(make::completes(alloc, ENTRY, Kind::Throw(*class))),
        TStmtKind::OpenLock(lock) => Ok(opens(alloc, *lock)),
        TStmtKind::CloseLock(lock) => Ok(shuts(alloc, *lock)),
        TStmtKind::SetLocal(local, _, value) => assigns(alloc, table, *local, value),
        TStmtKind::SetStatic(_, _, value) => evaluates(alloc, table, value),
        TStmtKind::SetField(of, _, _, value) => writes(alloc, table, of, value),
        TStmtKind::Eval(value) => evaluates(alloc, table, value),
        TStmtKind::When(lock, block, other) => {
            let policy = declared::lock(table, *lock);
            let rest = else_rules(alloc, table, other, asked(policy))?;
            opened(alloc, table, held(*lock, policy), block, other, rest)
        }
    }
}

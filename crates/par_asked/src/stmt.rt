//! What is asked of statements.

ghost use Rattle.std.specs.Prelude.{◌≡◌, [], ◌∷◌, ◌++◌, OnOk, slice_get};
ghost use Rattle.par_bits.specs.Sets.{adding, none};
ghost use Rattle.par_typed.specs.Shown.{all_catch, all_do, does, may_shown, otherwise};
ghost use Rattle.par_typed.specs.Shown.{shown};
ghost use Rattle.par_nodes.specs.par_program_laws.Declares.{declares};
ghost use Rattle.par_check_laws.specs.Checks.{catches_checks, exp_checks, lock_written, locked};
ghost use Rattle.par_check_laws.specs.Checks.{may_checks, other_checks, returned, set, sta_checks};
ghost use Rattle.par_check_laws.specs.Checks.{stas_checks};
ghost use Rattle.par_asked.specs.Writes as writes;
ghost use Rattle.par_asked.specs.Seen.{own, seen_checks, table};

use crate::ask::{Home, Spot, closes};
use crate::check::{Check, Condition, Locks, Way};
use crate::expr::exp;
use par_base::list::List;
use par_base::memory::NoMemory;
use par_nodes::declared;
use par_typed::expr::TExpr;
use par_typed::stmt::{TCatch, TStmt, TStmtKind};
use par_typed::table::Table;

fn spot<'a>(s: &TStmt, way: Way<'a>) -> Spot<'a>
    ensures { result ≡ record { at = s.now.at; point = s.now.point; way = way.entry } }
{
    Spot {
        at: s.at,
        point: s.point,
        way,
    }
}

fn lock_policy(table: &Table, lock: u16) -> Option<u16>
    ensures { result ≡ lock_written (slice_get table.now.locks lock) }
{
    match table.locks.get(usize::from(lock)) {
        None => None,
        Some(lock) => lock.policy,
    }
}

// Who learns of a lock that is opened or closed.
#[tactic(auto, using(crate::proofs::Asks::asks))]
fn ask_locked<'a>(
    home: &Home<'a>,
    s: &TStmt,
    lock: u16,
    checks: &mut List<Check<'a>>,
) -> Result<(), NoMemory>
    ensures { OnOk result (seen_checks checks.new ≡ seen_checks checks.old
        ++ locked (table home.now) (own home.now)
        (lock_written (slice_get (table home.now).locks lock)) s.now.at s.now.point) }
{
    match lock_policy(home.table, lock) {
        None => Ok(()),
        Some(policy) => spot(s, Way::Entry).ask_learns(home, 411, policy, checks),
    }
}

// What is asked where a lock is closed.
#[tactic(auto, using(crate::proofs::Asks::asks))]
fn ask_closed<'a>(
    home: &Home<'a>,
    s: &TStmt,
    lock: u16,
    checks: &mut List<Check<'a>>,
) -> Result<(), NoMemory>
    ensures { OnOk result (seen_checks checks.new ≡ seen_checks checks.old
        ++ writes.closed (table home.now) (own home.now) lock s.now.at s.now.point) }
{
    let condition = Condition::Among(Locks::One(lock), closes(home.own));
    spot(s, Way::Entry).ask(302, condition, checks)?;
    ask_locked(home, s, lock, checks)
}

// A result against the policy of results.
#[tactic(auto, using(crate::proofs::Forms::results))]
fn ask_returned<'a>(
    home: &Home<'a>,
    s: &TStmt,
    value: &'a Option<TExpr>,
    checks: &mut List<Check<'a>>,
) -> Result<(), NoMemory>
    ensures { OnOk result (seen_checks checks.new ≡ (seen_checks checks.old
        ++ may_checks (table home.now) (own home.now) (may_shown value.now))
        ++ returned (table home.now) (own home.now) (may_shown value.now) s.now.at s.now.point) }
{
    match value {
        None => Ok(()),
        Some(value) => {
            exp(home, value, checks)?;
            let condition = Condition::Joined(value.point, home.result());
            spot(s, Way::Behind(value.point)).ask(406, condition, checks)
        }
    }
}

// A value that is set, against the policy that the local's declaration writes.
#[tactic(auto, using(crate::proofs::Forms::results))]
fn ask_set<'a>(
    home: &Home<'a>,
    s: &TStmt,
    policy: Option<u16>,
    value: &'a TExpr,
    checks: &mut List<Check<'a>>,
) -> Result<(), NoMemory>
    ensures { OnOk result (seen_checks checks.new ≡ (seen_checks checks.old
        ++ exp_checks (table home.now) (own home.now) (shown value.now))
        ++ set (table home.now) (own home.now) policy (shown value.now) s.now.at s.now.point) }
{
    exp(home, value, checks)?;
    match policy {
        None => Ok(()),
        Some(policy) => {
            let condition = Condition::Joined(value.point, policy);
            spot(s, Way::Behind(value.point)).ask(410, condition, checks)
        }
    }
}

// A value that is written to a static field of the policy.
#[tactic(auto, using(crate::proofs::Forms::results))]
fn ask_static<'a>(
    home: &Home<'a>,
    s: &TStmt,
    policy: u16,
    value: &'a TExpr,
    checks: &mut List<Check<'a>>,
) -> Result<(), NoMemory>
    ensures { OnOk result (seen_checks checks.new ≡ (seen_checks checks.old
        ++ exp_checks (table home.now) (own home.now) (shown value.now))
        ++ writes.static_written (table home.now) (own home.now) policy (shown value.now)
        s.now.at s.now.point) }
{
    exp(home, value, checks)?;
    let spot = spot(s, Way::Behind(value.point));
    spot.ask(401, Condition::Released(value.point, policy), checks)?;
    spot.ask_learns(home, 404, policy, checks)
}

// A value that is written to a field of the policy, of an object.
#[tactic(auto, using(crate::proofs::Forms::results))]
fn ask_field<'a>(
    home: &Home<'a>,
    s: &TStmt,
    of: &'a TExpr,
    policy: u16,
    value: &'a TExpr,
    checks: &mut List<Check<'a>>,
) -> Result<(), NoMemory>
    ensures { OnOk result (seen_checks checks.new ≡ ((seen_checks checks.old
        ++ exp_checks (table home.now) (own home.now) (shown of.now))
        ++ exp_checks (table home.now) (own home.now) (shown value.now))
        ++ writes.field_written (table home.now) (own home.now) (shown of.now) policy
        (shown value.now) s.now.at s.now.point) }
{
    exp(home, of, checks)?;
    exp(home, value, checks)?;
    let spot = spot(s, Way::Written(value.point, of.point, of.sure));
    spot.ask(402, Condition::Released(value.point, policy), checks)?;
    spot.ask(408, Condition::Worth(of.point, policy), checks)?;
    spot.ask_learns(home, 404, policy, checks)
}

/// What is asked of a statement.
#[cycle(stmt)]
#[tactic(auto, using(crate::proofs::Forms::statements))]
pub fn stmt<'a>(home: &Home<'a>, s: &'a TStmt, checks: &mut List<Check<'a>>) -> Result<(), NoMemory>
    ensures { OnOk result (seen_checks checks.new ≡ seen_checks checks.old
        ++ sta_checks (table home.now) (own home.now) (does s.now)) }
{
    match &s.kind {
        TStmtKind::Block(body) => stmts(home, body.as_slice(), checks),
        TStmtKind::If(test, body, other) => {
            exp(home, test, checks)?;
            stmt(home, body, checks)?;
            other_stmt(home, other, checks)
        }
        TStmtKind::While(test, body) => {
            exp(home, test, checks)?;
            stmt(home, body, checks)
        }
        TStmtKind::Try(body, catches) => {
            stmt(home, body, checks)?;
            all_catches(home, catches.as_slice(), checks)
        }
        TStmtKind::Return(value) => ask_returned(home, s, value, checks),
        TStmtKind::Break | TStmtKind::Continue | TStmtKind::Throw(_) => Ok(()),
        TStmtKind::OpenLock(lock) => ask_locked(home, s, *lock, checks),
        TStmtKind::CloseLock(lock) => ask_closed(home, s, *lock, checks),
        TStmtKind::SetLocal(_, policy, value) => ask_set(home, s, *policy, value, checks),
        TStmtKind::SetStatic(class, field, value) => {
            let policy = declared::field(home.table, *class, *field);
            ask_static(home, s, policy, value, checks)
        }
        TStmtKind::SetField(of, class, field, value) => {
            let policy = declared::field(home.table, *class, *field);
            ask_field(home, s, of, policy, value, checks)
        }
        TStmtKind::Eval(e) => exp(home, e, checks),
        TStmtKind::When(_, body, other) => {
            stmt(home, body, checks)?;
            other_stmt(home, other, checks)
        }
    }
}

#[cycle(stmt)]
#[tactic(auto, using(crate::proofs::Forms::statements))]
fn other_stmt<'a>(
    home: &Home<'a>,
    other: &'a Option<Box<TStmt>>,
    checks: &mut List<Check<'a>>,
) -> Result<(), NoMemory>
    ensures { OnOk result (seen_checks checks.new ≡ seen_checks checks.old
        ++ other_checks (table home.now) (own home.now) (otherwise other.now)) }
{
    match other {
        None => Ok(()),
        Some(s) => stmt(home, s, checks),
    }
}

#[cycle(stmt)]
fn stmts<'a>(
    home: &Home<'a>,
    body: &'a [TStmt],
    checks: &mut List<Check<'a>>,
) -> Result<(), NoMemory>
    ensures { OnOk result (seen_checks checks.new ≡ seen_checks checks.old
        ++ stas_checks (table home.now) (own home.now) (all_do body.now)) }
{
    for s in body {
        stmt(home, s, checks)?;
    }
    Ok(())
}

#[cycle(stmt)]
fn all_catches<'a>(
    home: &Home<'a>,
    catches: &'a [TCatch],
    checks: &mut List<Check<'a>>,
) -> Result<(), NoMemory>
    ensures { OnOk result (seen_checks checks.new ≡ seen_checks checks.old
        ++ catches_checks (table home.now) (own home.now) (all_catch catches.now)) }
{
    for catch in catches {
        stmt(home, &catch.body, checks)?;
    }
    Ok(())
}

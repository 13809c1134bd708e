//! How many locks a program has.

ghost use Rattle.std.specs.Prelude.{◌≡◌, ◌≤◌, ◌+◌};
ghost use Rattle.par_tree.specs.Shown.{all_declared};
ghost use Rattle.par_names.specs.Declarations.{locks};
ghost use Rattle.par_refusals.specs.First.{first_of};
ghost use Rattle.par_limits.specs.par_resolved.Numbers.{ground_count};
ghost use Rattle.par_faults.specs.Limits as limit;

use crate::limit::LOCKS;
use par_refusals::refusal::Findings;
use par_tree::decl::{Decl, LockDecl};

// How many locks a declaration has, or the most that can be told.
fn ground(actors: u32, lock: &LockDecl) -> u32
    ensures { result ≡ limit.tellable (ground_count actors lock.now) }
{
    match actors.checked_pow(u32::from(lock.arity)) {
        None => u32::MAX,
        Some(number) => number,
    }
}

// The locks up to this one, or the most that can be told.
fn check_lock(actors: u32, before: u32, lock: &LockDecl, findings: &mut Findings) -> u32
    requires { before ≤ LOCKS.most }
    ensures sum { result ≡ limit.tellable (before + ground_count actors lock.now) }
    ensures found { findings.new
        ≡ first_of findings.old (limit.lock_limit actors before lock.now) }
{
    let sum = before.saturating_add(ground(actors, lock));
    findings.expect_within(sum <= LOCKS.most, LOCKS.number, sum, lock.id.at);
    sum
}

/// Notes the lock with which the locks are too many.
pub fn check_locks(actors: u32, decls: &[Decl], findings: &mut Findings)
    ensures { findings.new
        ≡ first_of findings.old (limit.locks_limit actors 0 (locks (all_declared decls.now))) }
{
    let mut sum = 0;
    for decl in decls {
        match decl {
            Decl::Lock(lock) => sum = check_lock(actors, sum, lock, findings),
            Decl::Actors(_) | Decl::Policy(_) | Decl::Class(_) => {}
        }
        if sum > LOCKS.most {
            return;
        }
    }
}

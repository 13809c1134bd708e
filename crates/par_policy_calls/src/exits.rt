// What is made of exits, on ways of two locals, with ample memory.
ghost use Rattle.std.specs.Prelude.{◌≡◌, ◌<◌, ℕ, IfOk, length};
ghost use Rattle.par_except.specs.Exits.{seen_throws, AreOnce, HaveLocals, ThrowsHaveLocals};

use par_atoms::Atoms;
use par_base::list::List;
use par_base::memory::NoMemory;
use par_bits::Bits;
use par_except::{Way, Ways, absorb_loop, absorb_throw, join, raise};
use par_worked::expect;
use std::alloc::Global;
use std::test::Fail;

const BAD: u16 = 5;

// The policies of two locals.
fn locals(alloc: Global, first: u16, second: u16) -> Result<List<Atoms>, NoMemory>
    requires { (first < 256) × (second < 256) }
    ensures { IfOk result (λ env. length env ≡ 2) }
{
    let mut env = List::new(alloc);
    env.push(Atoms::empty().with(first))?;
    env.push(Atoms::empty().with(second))?;
    Ok(env)
}

// A way by a policy of its context, one of each local, and a lock.
fn way(alloc: Global, context: u16, first: u16, second: u16, lock: u32) -> Result<Way, NoMemory>
    requires { (context < 256) × (first < 256) × (second < 256) × (lock < 256) }
    ensures { IfOk result (λ w. length w.env ≡ 2) }
{
    let env = locals(alloc, first, second)?;
    Ok(Way {
        context: Atoms::empty().with(context),
        env,
        locks: Bits::empty().with(0).with(lock),
    })
}

// The throw of one class.
fn throws(alloc: Global, policy: u16, lock: u32) -> Result<List<(u16, Way)>, NoMemory>
    requires { (policy < 250) × (lock < 256) }
    ensures once { IfOk result (λ throws. AreOnce (seen_throws throws)) }
    ensures locals { IfOk result (λ throws. ThrowsHaveLocals 2 throws) }
{
    let way = way(alloc, policy + 3, policy, 2, lock)?;
    let mut throws = List::new(alloc);
    throws.push((BAD, way))?;
    Ok(throws)
}

// A normal exit, a break, a continue, and a throw.
fn ways(alloc: Global, policy: u16, lock: u32) -> Result<Ways, NoMemory>
    requires { (policy < 250) × (lock < 256) }
    ensures once { IfOk result (λ w. AreOnce (seen_throws w.throws)) }
    ensures locals { IfOk result (λ w. HaveLocals 2 w) }
{
    let normal = way(alloc, policy, 1, 2, lock)?;
    let brk = way(alloc, policy + 1, 1, 2, lock)?;
    let cont = way(alloc, policy + 2, 1, 2, lock)?;
    let throws = throws(alloc, policy, lock)?;
    Ok(Ways {
        normal: Some(normal),
        ret: None,
        brk: Some(brk),
        cont: Some(cont),
        throws,
    })
}

// What a way is to have: the policies of its context and of its first local, and its locks.
struct Wanted {
    context: &'static [u16],
    first: &'static [u16],
    locks: &'static [u32],
}

fn has_policies(set: &Atoms, policies: &[u16]) -> bool {
    (0..256).all(|policy| set.has(policy) == policies.contains(&policy))
}

fn has_locks(set: &Bits<4>, locks: &[u32]) -> bool {
    (0..256).all(|lock| set.has(lock) == locks.contains(&lock))
}

fn is_way(way: &Way, wanted: &Wanted) -> bool {
    match way.env.get(0) {
        Some(local) => {
            has_policies(&way.context, wanted.context)
                && has_policies(local, wanted.first)
                && has_locks(&way.locks, wanted.locks)
        }
        None => false,
    }
}

fn is_exit(exit: &Option<Way>, wanted: &Wanted) -> bool {
    match exit {
        Some(way) => is_way(way, wanted),
        None => false,
    }
}

// Whether one class is thrown, by this way.
fn is_thrown(ways: &Ways, wanted: &Wanted) -> bool {
    match ways.throws.get(0) {
        Some(throw) => ways.throws.len() == 1 && throw.0 == BAD && is_way(&throw.1, wanted),
        None => false,
    }
}

const JOINED: Wanted = Wanted {
    context: &[10, 20],
    first: &[1],
    locks: &[0],
};

const JOINED_THROW: Wanted = Wanted {
    context: &[13, 23],
    first: &[10, 20],
    locks: &[0],
};

fn are_joined(both: &Ways) -> bool {
    is_exit(&both.normal, &JOINED) && is_thrown(both, &JOINED_THROW) && both.ret.is_none()
}

fn joins_both(alloc: Global, one: &Ways, other: &Ways) -> Result<bool, NoMemory>
    requires once { AreOnce (seen_throws one.now.throws) × AreOnce (seen_throws other.now.throws) }
    requires locals { HaveLocals 2 one.now × HaveLocals 2 other.now }
{
    let both = join(alloc, one, other)?;
    let are_joined = are_joined(&both);
    drop(both);
    Ok(are_joined)
}

fn joins_another(alloc: Global, one: &Ways) -> Result<bool, NoMemory>
    requires once { AreOnce (seen_throws one.now.throws) }
    requires locals { HaveLocals 2 one.now }
{
    let other = ways(alloc, 20, 4)?;
    let joins = joins_both(alloc, one, &other);
    drop(other);
    joins
}

fn joins(alloc: Global) -> Result<bool, NoMemory> {
    let one = ways(alloc, 10, 3)?;
    let joins = joins_another(alloc, &one);
    drop(one);
    joins
}

const RAISED: Wanted = Wanted {
    context: &[7, 10],
    first: &[1],
    locks: &[0, 3],
};

fn is_raised(alloc: Global, low: &Way) -> Result<bool, NoMemory> {
    let high = raise(alloc, low, &Atoms::empty().with(7))?;
    let is_raised = is_way(&high, &RAISED);
    drop(high);
    Ok(is_raised)
}

fn raises(alloc: Global) -> Result<bool, NoMemory> {
    let low = way(alloc, 10, 1, 2, 3)?;
    let raises = is_raised(alloc, &low);
    drop(low);
    raises
}

const THROWN: Wanted = Wanted {
    context: &[13],
    first: &[10],
    locks: &[0, 3],
};

fn is_absorbed(way: &Option<Way>, rest: &Ways) -> bool {
    is_exit(way, &THROWN) && rest.throws.len() == 0 && rest.brk.is_some()
}

fn throw_is_absorbed(alloc: Global, all: &Ways) -> Result<bool, NoMemory>
    requires { AreOnce (seen_throws all.now.throws) }
{
    let (way, rest) = absorb_throw(alloc, all, BAD)?;
    let is_absorbed = is_absorbed(&way, &rest);
    drop(way);
    drop(rest);
    Ok(is_absorbed)
}

fn absorbs_throw(alloc: Global) -> Result<bool, NoMemory> {
    let all = ways(alloc, 10, 3)?;
    let absorbs = throw_is_absorbed(alloc, &all);
    drop(all);
    absorbs
}

const BROKEN: Wanted = Wanted {
    context: &[11],
    first: &[1],
    locks: &[0, 3],
};

const CONTINUED: Wanted = Wanted {
    context: &[12],
    first: &[1],
    locks: &[0, 3],
};

// Whether neither a break nor a continue is left, and one class is thrown.
fn are_absorbed(rest: &Ways) -> bool {
    rest.brk.is_none() && rest.cont.is_none() && rest.throws.len() == 1
}

fn are_left(brk: &Option<Way>, cont: &Option<Way>, rest: &Ways) -> bool {
    is_exit(brk, &BROKEN) && is_exit(cont, &CONTINUED) && are_absorbed(rest)
}

fn loop_is_absorbed(alloc: Global, all: &Ways) -> Result<bool, NoMemory>
    requires { AreOnce (seen_throws all.now.throws) }
{
    let (brk, cont, rest) = absorb_loop(alloc, all)?;
    let are_left = are_left(&brk, &cont, &rest);
    drop(brk);
    drop(cont);
    drop(rest);
    Ok(are_left)
}

fn absorbs_loop(alloc: Global) -> Result<bool, NoMemory> {
    let all = ways(alloc, 10, 3)?;
    let absorbs = loop_is_absorbed(alloc, &all);
    drop(all);
    absorbs
}

#[test]
fn exits(rt: HostRuntime) -> Result<(), Fail> {
    expect(joins(rt.alloc())?, "joined kind by kind")?;
    expect(raises(rt.alloc())?, "raised")?;
    expect(absorbs_throw(rt.alloc())?, "without a throw")?;
    expect(absorbs_loop(rt.alloc())?, "without break and continue")
}

// The way that enters the body of a method.
ghost use Rattle.std.specs.Prelude.{◌≡◌, ◌<◌, ◌≤◌, All, Some, IfOk, length};
ghost use Rattle.par_policy.specs.Numbers.{has as is_among};
ghost use Rattle.par_bits.specs.Sets.{has};
ghost use Rattle.par_program_laws.specs.Lattice.{numbers};
ghost use Rattle.par_program_laws.specs.Declares.{method_of, params_of};
ghost use Rattle.par_program_laws.specs.Closed.{arriving, first, locals as entering};
ghost use Rattle.par_program_laws.specs.Ranges.{AreLocks, MOST, arrivals};
ghost use Rattle.par_pass_laws.specs.par_except.Seen.{locals, seen};

use crate::changes::all_locks;
use par_atoms::Atoms;
use par_base::list::List;
use par_base::memory::NoMemory;
use par_pass_laws::par_except::Way;
use par_typed::table::{MethodInfo, ParamInfo};
use std::alloc::Global;

fn param_at(params: &[ParamInfo], place: usize) -> Atoms
    requires { All (λ p. p < MOST) (params_of params.now) }
    ensures { has result ≡ arriving numbers (params_of params.now) place }
{
    if place < params.len() {
        Atoms::empty().with(params[place].policy)
    } else {
        Atoms::empty()
    }
}

fn policy_at(method: &MethodInfo, local: usize) -> Atoms
    requires { All (λ p. p < MOST) (params_of method.now.params) }
    ensures { has result
        ≡ entering numbers method.now.is_static (params_of method.now.params) local }
{
    if method.is_static {
        param_at(method.params.as_slice(), local)
    } else if local == 0 {
        Atoms::empty()
    } else {
        param_at(method.params.as_slice(), local - 1)
    }
}

fn first_env(alloc: Global, method: &MethodInfo) -> Result<List<Atoms>, NoMemory>
    requires params { All (λ p. p < MOST) (params_of method.now.params) }
    requires arrive { arrivals (method_of (Some method.now)) ≤ length method.now.locals }
    ensures policies { IfOk result (λ env. locals env
        ≡ entering numbers method.now.is_static (params_of method.now.params)) }
    ensures length { IfOk result (λ env. length env ≡ length method.now.locals) }
{
    let mut env = List::new(alloc);
    for local in 0..method.locals.len() {
        env.push(policy_at(method, local))?;
    }
    Ok(env)
}

/// The way that enters the body of the method.
pub fn first_way(alloc: Global, method: &MethodInfo) -> Result<Way, NoMemory>
    requires params { All (λ p. p < MOST) (params_of method.now.params) }
    requires arrive { arrivals (method_of (Some method.now)) ≤ length method.now.locals }
    requires expects { AreLocks (is_among method.now.expects) }
    ensures way { IfOk result (λ w. seen w ≡ first numbers (method_of (Some method.now))) }
    ensures locals { IfOk result (λ w. length w.env ≡ length method.now.locals) }
{
    let env = first_env(alloc, method)?;
    Ok(Way {
        context: Atoms::empty(),
        env,
        locks: all_locks(&method.expects),
    })
}

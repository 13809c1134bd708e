// A way that shares the policies of its locals with others.
ghost use Rattle.std.specs.Prelude.{◌≡◌, ◌↔◌, ℕ, IsTrue, IfOk, length};
ghost use Rattle.par_bits.specs.Sets.{has, union};
ghost use Rattle.par_program_laws.specs.Lattice.{numbers};
ghost use Rattle.par_program_laws.specs.Ways.{raised};
ghost use Rattle.par_pass_laws.specs.par_except.Joins.{join};
ghost use Rattle.par_pass_laws.specs.par_except.Seen.{locals, seen};

use crate::env;
use par_atoms::Atoms;
use par_base::memory::NoMemory;
use par_bits::Bits;
use par_envs::Env;
use par_pass_laws::par_except::Way;
use std::alloc::Global;
use std::marker::Model;
use std::rc::Rc;

/// A way of which many may be kept: the list of its policies takes memory once for all ways that
/// were made of each other and have the same. Contracts see it as the way that it is.
#[derive(Drop)]
pub struct SharedWay {
    context: Atoms,
    env: Rc<Env>,
    locks: Bits<4>,
}

impl Model for SharedWay {
    ghost use Rattle.par_pass_laws.specs.par_except.declared.way.Way.{Way as Known};

    ghost Value = { Known };

    ghost view = { λ way. record {
      context = way.context;
      env = way.env.value;
      locks = way.locks;
    } };
}

/// The join of two ways, and whether a list of policies was made for it.
#[derive(Drop)]
pub(crate) struct Joined {
    pub(crate) way: SharedWay,
    pub(crate) is_made: bool,
}

// The same of the policies of locals.
#[derive(Drop)]
struct JoinedEnv {
    env: Rc<Env>,
    is_made: bool,
}

impl SharedWay {
    /// The way, to be shared from here on.
    pub fn new(alloc: Global, way: Way) -> Result<SharedWay, NoMemory>
        ensures { IfOk result (λ w. w ≡ way) }
    {
        let env = Env::new(alloc, way.env)?;
        let env = Rc::new(alloc, env)?;
        Ok(SharedWay {
            context: way.context,
            env,
            locks: way.locks,
        })
    }

    /// Who may learn that the spot is reached.
    pub fn context(&self) -> Atoms
        ensures { result ≡ self.now.context }
    {
        self.context
    }

    /// The policies of the locals.
    pub fn env(&self) -> &[Atoms]
        ensures { result.now ≡ self.now.env }
    {
        self.env.as_slice()
    }

    /// The policies of the locals, to be compared.
    pub fn compared_env(&self) -> &Env
        ensures { result.now ≡ self.now.env }
    {
        &self.env
    }

    /// The locks that are open.
    pub fn locks(&self) -> Bits<4>
        ensures { result ≡ self.now.locks }
    {
        self.locks
    }

    /// The same way once more, with the same list.
    pub fn share(&self) -> Result<SharedWay, NoMemory>
        ensures { IfOk result (λ w. w ≡ self.now) }
    {
        let env = self.env.clone()?;
        Ok(SharedWay {
            context: self.context,
            env,
            locks: self.locks,
        })
    }

    /// Gives the way another context.
    pub fn set_context(&mut self, context: Atoms)
        ensures { self.new ≡ record {
          context = context;
          env = self.old.env;
          locks = self.old.locks;
        } }
    {
        self.context = context;
    }

    /// Joins these policies to the context.
    pub fn raise(&mut self, by: &Atoms)
        ensures way { seen self.new ≡ raised numbers (has by.now) (seen self.old) }
        ensures env { self.new.env ≡ self.old.env }
    {
        self.context = self.context.union(by);
    }

    /// Gives the way other open locks.
    pub fn set_locks(&mut self, locks: Bits<4>)
        ensures { self.new ≡ record {
          context = self.old.context;
          env = self.old.env;
          locks = locks;
        } }
    {
        self.locks = locks;
    }

    /// Whether both ways have the same policies of locals.
    pub fn has_env_of(&self, other: &SharedWay) -> bool
        requires { length self.now.env ≡ length other.now.env }
        ensures { IsTrue result ↔ (locals self.now.env ≡ locals other.now.env) }
    {
        env::is_same(&self.env, &other.env)
    }

    /// The way with the list of the other one.
    pub fn with_env_of(self, other: &SharedWay) -> Result<SharedWay, NoMemory>
        ensures { IfOk result (λ w. w ≡ record {
          context = self.context;
          env = other.now.env;
          locks = self.locks;
        }) }
    {
        let env = other.env.clone()?;
        Ok(SharedWay {
            context: self.context,
            env,
            locks: self.locks,
        })
    }

    /// The least way that both flow into. It has the list of one of them if the other's policies
    /// are within.
    pub fn join(&self, alloc: Global, other: &SharedWay) -> Result<SharedWay, NoMemory>
        requires { length self.now.env ≡ length other.now.env }
        ensures way { IfOk result (λ w. seen w ≡ join (seen self.now) (seen other.now)) }
        ensures locals { IfOk result (λ w. length w.env ≡ length self.now.env) }
    {
        let joined = self.joined(alloc, other)?;
        Ok(joined.way)
    }

    /// The least way that both flow into. No list is made for it if the policies of one of them are
    /// within those of the other.
    pub(crate) fn joined(&self, alloc: Global, other: &SharedWay) -> Result<Joined, NoMemory>
        requires { length self.now.env ≡ length other.now.env }
        ensures way { IfOk result (λ j. seen j.way ≡ join (seen self.now) (seen other.now)) }
        ensures locals { IfOk result (λ j. length j.way.env ≡ length self.now.env) }
    {
        let JoinedEnv { env, is_made } = joined_env(alloc, &self.env, &other.env)?;
        let way = SharedWay {
            context: self.context.union(&other.context),
            env,
            locks: self.locks.meet(&other.locks),
        };
        Ok(Joined { way, is_made })
    }
}

// The join of the policies of each local.
fn joined_env(alloc: Global, one: &Rc<Env>, other: &Rc<Env>) -> Result<JoinedEnv, NoMemory>
    requires { length one.now.value ≡ length other.now.value }
    ensures policies { IfOk result (λ e. locals e.env.value
        ≡ (λ (i : ℕ). union (locals one.now.value i) (locals other.now.value i))) }
    ensures length { IfOk result (λ e. length e.env.value ≡ length one.now.value) }
{
    let is_made = false;
    if env::flows(other, one) {
        let env = one.clone()?;
        return Ok(JoinedEnv { env, is_made });
    }
    if env::flows(one, other) {
        let env = other.clone()?;
        return Ok(JoinedEnv { env, is_made });
    }
    let joined = env::join(alloc, one.as_slice(), other.as_slice())?;
    let joined = Env::new(alloc, joined)?;
    let env = Rc::new(alloc, joined)?;
    Ok(JoinedEnv { env, is_made: true })
}

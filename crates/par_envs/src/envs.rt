// Environments by their numbers.
ghost use Rattle.std.specs.Prelude.{◌≡◌, [], ◌∷◌, ◌++◌, IfOk, OnOk, length, slice_get};
ghost use Rattle.std.specs.Option.{option_copied};
ghost use Rattle.par_envs.specs.Numbered.{envs, reached, Adds, AreFound, Extends, Names};

use crate::apart::{is_same, policy_of};
use crate::env::{Env, difference};
use par_atoms::Atoms;
use par_base::list::List;
use par_base::memory::NoMemory;
use std::alloc::Global;

/// An environment, and what tells it from an earlier one: the number of that one, and the policy
/// that a local has there and not here.
#[derive(Drop)]
struct Entry {
    env: Env,
    near: usize,
    local: usize,
    policy: Atoms,
}

// A place as a number, where there is room for so many.
fn number_at(place: usize) -> Result<u32, NoMemory>
    ensures { IfOk result (λ n. n ≡ place) }
{
    match u32::try_from(place) {
        Ok(number) => Ok(number),
        Err(_) => Err(NoMemory),
    }
}

/// Different environments, in the order in which they came.
#[derive(Drop)]
pub struct Envs {
    entries: Vec<Entry>,
}

impl Envs {
    /// No environment is kept yet.
    pub fn new(alloc: Global) -> Envs
        ensures { result.entries.items ≡ [] }
    {
        Envs {
            entries: Vec::new(alloc),
        }
    }

    /// The environment of a number.
    pub fn get(&self, number: u32) -> Option<&[Atoms]>
        ensures { option_copied result ≡ slice_get (envs self.now.entries.items) number }
    {
        match self.entries.get(number as usize) {
            None => None,
            Some(entry) => Some(entry.env.as_slice()),
        }
    }

    // The number of the only one that may be the same: at each question that tells it from a later
    // one, the later one is taken where the local has another policy.
    fn find(&self, env: &Env) -> usize
        ensures { result ≡ reached self.now.entries.items 0 env.now 0 }
    {
        let policies = env.as_slice();
        let mut number = 0;
        for (later, entry) in self.entries.iter().enumerate() {
            if number == entry.near && !is_same(&policy_of(policies, entry.local), &entry.policy) {
                number = later;
            }
        }
        number
    }

    // One more environment, and its number.
    fn keep(
        &mut self,
        alloc: Global,
        env: &Env,
        near: usize,
        local: usize,
        policy: Atoms,
    ) -> Result<u32, NoMemory>
        ensures number { IfOk result (λ n. n ≡ length self.old.entries.items) }
        ensures entries { OnOk result (self.new.entries.items ≡ self.old.entries.items
            ++ record { env = env.now; near = near; local = local; policy = policy } ∷ []) }
    {
        let number = number_at(self.entries.len())?;
        let env = Env::new(alloc, List::wrap(Vec::from_slice(alloc, env.as_slice())?))?;
        self.entries.push(Entry {
            env,
            near,
            local,
            policy,
        })?;
        Ok(number)
    }

    /// The number of an environment, which is kept if there is none like it.
    pub fn number(&mut self, alloc: Global, env: &Env) -> Result<u32, NoMemory>
        requires { AreFound self.old.entries.items }
        ensures found { OnOk result (AreFound self.new.entries.items) }
        ensures names { IfOk result (λ n. Names (envs self.new.entries.items) n env.now) }
        ensures kept { OnOk result
            (Extends (envs self.old.entries.items) (envs self.new.entries.items)) }
        ensures adds { OnOk result
            (Adds (envs self.old.entries.items) (envs self.new.entries.items) env.now) }
    {
        let near = self.find(env);
        match self.entries.get(near) {
            None => {
                let number = self.keep(alloc, env, 1, 0, Atoms::empty())?;
                Ok(number)
            }
            Some(entry) => match difference(&entry.env, env) {
                None => {
                    let number = number_at(near)?;
                    Ok(number)
                }
                Some(local) => {
                    let policy = policy_of(entry.env.as_slice(), local);
                    let number = self.keep(alloc, env, near, local, policy)?;
                    Ok(number)
                }
            },
        }
    }
}

//! The locals in scope with their numbers.

ghost use Rattle.std.specs.Prelude.{◌≡◌, ◌+◌, ◌<◌, ◌^◌, OnOk, option_map};
ghost use Rattle.par_type_rules.specs.Frames.{var_named, with_local};
ghost use Rattle.par_type_rules.specs.TypedBodies.{no_frame};
ghost use Rattle.par_annotation.specs.Seen.{frame_seen, var_seen};

use par_base::memory::NoMemory;
use par_base::name::Name;
use par_scope::locals::{Locals, Slot};
use std::alloc::Global;

/// The number of a local, and that of the policy that its declaration writes.
#[derive(Clone, Copy)]
pub(crate) struct Var {
    pub number: u16,
    pub policy: Option<u16>,
}

/// The locals in scope with their numbers, and the number of the next one.
#[derive(Drop)]
pub(crate) struct Frame<'a> {
    pub locals: Locals<'a>,
    pub vars: Vec<Var>,
    pub next: u16,
}

impl<'a> Frame<'a> {
    /// No locals but `this`, which has number 0 in an instance method.
    pub fn new(alloc: Global, is_static: bool) -> Frame<'a>
        ensures { frame_seen result ≡ no_frame is_static }
    {
        Frame {
            locals: Locals::new(alloc),
            vars: Vec::new(alloc),
            next: if is_static { 0 } else { 1 },
        }
    }

    /// The local of this name.
    pub fn named(&self, name: &Name) -> Option<Var>
        ensures { option_map var_seen result ≡ var_named (frame_seen self.now) name.now }
    {
        match self.locals.place(name) {
            None => None,
            Some(place) => self.vars.get(place).copied(),
        }
    }

    /// Puts a local into scope.
    pub fn declare(
        &mut self,
        name: &'a Name,
        slot: Slot,
        policy: Option<u16>,
    ) -> Result<(), NoMemory>
        requires { self.old.next + 1 < 2 ^ 16 }
        ensures { OnOk result (frame_seen self.new
            ≡ with_local (frame_seen self.old) name.now slot policy) }
    {
        self.locals.declare(name, slot)?;
        self.vars.push(Var {
            number: self.next,
            policy,
        })?;
        self.next += 1;
        Ok(())
    }
}

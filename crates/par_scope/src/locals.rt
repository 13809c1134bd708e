//! The locals that are in scope.

ghost use Rattle.std.specs.Prelude.{◌≡◌, take, length, OnOk};
ghost use Rattle.par_scope.specs.Names.{number_in};
ghost use Rattle.par_scope.specs.Locals.{no_locals, declared, local_named};

use par_base::memory::NoMemory;
use par_base::name::Name;
use par_index::NameStack;
use par_typed::ty::Ty;
use std::alloc::Global;
use std::marker::Model;

/// What a local or a parameter may hold, or what stands at some place of an expression.
#[derive(Clone, Copy)]
pub struct Slot {
    /// The declared type. None fits every value: where a type names no class, and where each type
    /// is right.
    pub ty: Option<Ty>,
    pub notnull: bool,
}

/// The locals and parameters in scope, in the order of their declarations.
#[derive(Drop)]
pub struct Locals<'a> {
    names: NameStack<'a>,
    slots: Vec<Slot>,
}

impl<'a> Model for Locals<'a> {
    ghost use Rattle.std.specs.Prelude.{◌≡◌, length};
    ghost use Rattle.par_scope.specs.Locals.{Scope};

    ghost Value = { Scope };

    ghost view = { λ scope. record {
      names = scope.names;
      slots = scope.slots.items;
    } };

    ghost invariant = { λ scope. length scope.names ≡ length scope.slots.items };
}

impl<'a> Locals<'a> {
    /// No locals.
    pub fn new(alloc: Global) -> Locals<'a>
        ensures { result ≡ no_locals }
    {
        Locals {
            names: NameStack::new(alloc),
            slots: Vec::new(alloc),
        }
    }

    /// The number of locals in scope.
    pub fn len(&self) -> usize
        ensures names { result ≡ length self.now.names }
        ensures slots { result ≡ length self.now.slots }
    {
        self.slots.len()
    }

    /// The place among those in scope of the first local of this name.
    pub fn place(&self, name: &Name) -> Option<usize>
        ensures { result ≡ number_in self.now.names name.now }
    {
        self.names.place(name)
    }

    /// What is known of the local of this name.
    pub fn named(&self, name: &Name) -> Option<Slot>
        ensures { result ≡ local_named self.now name.now }
    {
        match self.place(name) {
            None => None,
            Some(place) => self.slots.get(place).copied(),
        }
    }

    /// Puts a local behind those in scope. Where its name stands there already, the name goes on
    /// standing for the first. What is in scope where memory runs out is not promised.
    pub fn declare(&mut self, name: &'a Name, slot: Slot) -> Result<(), NoMemory>
        ensures { OnOk result (self.new ≡ declared self.old name.now slot) }
    {
        self.slots.push(slot)?;
        if self.names.push(name).is_err() {
            self.slots.pop();
            return Err(NoMemory);
        }
        Ok(())
    }

    /// Takes all locals out of scope behind the first `len` ones.
    pub fn truncate(&mut self, len: usize)
        ensures names { self.new.names ≡ take len self.old.names }
        ensures slots { self.new.slots ≡ take len self.old.slots }
    {
        self.names.truncate(len);
        self.slots.truncate(len);
    }
}

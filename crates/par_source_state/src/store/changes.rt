ghost use Rattle.std.specs.Prelude.{◌≡◌, IfOk, OnOk};
ghost use Rattle.par_source_state.specs.Held.{nothing_held, numbers_left, write_static, bear};
ghost use Rattle.par_source_state.specs.Held.{write_field, keep_input, opens, closes};
ghost use Rattle.par_source_state.specs.Stored.{holds};

use crate::store::Store;
use par_base::memory::NoMemory;
use par_policy::Lockset;
use par_values::value::MVal;
use std::alloc::Global;
use std::collections::HashMap;

impl<'a> Store<'a> {
    /// Nothing is written, no object is born and no lock is open.
    pub fn new(alloc: Global) -> Store<'a>
        ensures { holds result ≡ nothing_held }
    {
        Store {
            alloc,
            statics: HashMap::new(alloc),
            births: HashMap::new(alloc),
            fields: HashMap::new(alloc),
            inputs: HashMap::new(alloc),
            locks: Lockset::new(alloc),
        }
    }

    /// What a static field holds, where it was written.
    pub fn static_field(&self, class: u16, field: u16) -> Option<MVal>
        ensures { result ≡ (holds self.now).statics class field }
    {
        self.statics.get(&(class, field)).copied()
    }

    /// Writes a static field.
    pub fn write_static(&mut self, class: u16, field: u16, value: MVal) -> Result<(), NoMemory>
        ensures { OnOk result (holds self.new ≡ write_static class field value (holds self.old)) }
    {
        self.statics.insert((class, field), value)?;
        Ok(())
    }

    /// How many objects a class has.
    pub fn births(&self, class: u16) -> u32
        ensures { result ≡ (holds self.now).births class }
    {
        self.births.get(&class).copied().unwrap_or(0)
    }

    /// Makes the next object of a class, and gives its number.
    pub fn bear(&mut self, class: u16) -> Result<u32, NoMemory>
        ensures number { IfOk result (λ n. n ≡ (holds self.old).births class) }
        ensures born { OnOk result (holds self.new ≡ bear class (holds self.old)) }
    {
        let number = self.births(class);
        let next = number.checked_add(1).ok_or(NoMemory)?;
        self.births.insert(class, next)?;
        Ok(number)
    }

    /// What a field of an object holds, where it was written.
    pub fn field(&self, class: u16, number: u32, field: u16) -> Option<MVal>
        ensures { result ≡ (holds self.now).fields class number field }
    {
        self.fields.get(&(class, number, field)).copied()
    }

    /// Writes a field of an object, where the object is there.
    pub fn write_field(
        &mut self,
        class: u16,
        number: u32,
        field: u16,
        value: MVal,
    ) -> Result<(), NoMemory>
        ensures { OnOk result (holds self.new
            ≡ write_field class number field value (holds self.old)) }
    {
        if number < self.births(class) {
            self.fields.insert((class, number, field), value)?;
        }
        Ok(())
    }

    /// What an input channel has left, where it was read.
    pub fn input(&self, class: u16, channel: u16) -> Option<&'a [i32]>
        ensures { numbers_left result ≡ (holds self.now).inputs class channel }
    {
        self.inputs.get(&(class, channel)).copied()
    }

    /// Keeps what an input channel has left.
    pub fn keep_input(&mut self, class: u16, channel: u16, left: &'a [i32]) -> Result<(), NoMemory>
        ensures { OnOk result (holds self.new
            ≡ keep_input class channel left.now (holds self.old)) }
    {
        self.inputs.insert((class, channel), left)?;
        Ok(())
    }

    /// The open locks.
    pub fn locks(&self) -> &Lockset
        ensures { result.now ≡ (holds self.now).locks }
    {
        &self.locks
    }

    /// Opens a lock, where it is not open.
    pub fn open(&mut self, lock: u16) -> Result<(), NoMemory>
        ensures { OnOk result (holds self.new ≡ opens lock (holds self.old)) }
    {
        if self.locks.has(lock) {
            return Ok(());
        }
        self.locks.insert(lock)?;
        Ok(())
    }

    /// Closes a lock, where it is open.
    pub fn close(&mut self, lock: u16) -> Result<(), NoMemory>
        ensures { OnOk result (holds self.new ≡ closes lock (holds self.old)) }
    {
        if self.locks.has(lock) {
            let mut one = Lockset::new(self.alloc);
            one.insert(lock)?;
            self.locks = self.locks.minus(self.alloc, &one)?;
        }
        Ok(())
    }
}

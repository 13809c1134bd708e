ghost use Rattle.std.specs.Prelude.{◌≡◌, ◌<◌, ◌≤◌, [], ◌++◌, length, IfOk, OnOk};
ghost use Rattle.par_run_laws.specs.State.{put};
ghost use Rattle.par_source_state.specs.Frame.{held, left_by};

use par_base::memory::NoMemory;
use par_values::value::MVal;
use std::alloc::Global;
use std::marker::Model;

/// The locals of the methods that run, in one vector: those of a called method behind those of its
/// caller. A local holds null before it is set.
#[derive(Drop)]
pub struct Frames {
    locals: Vec<MVal>,
    base: usize,
}

impl Model for Frames {
    ghost use Rattle.std.specs.Prelude.{◌≤◌, length, take, drop};
    ghost use Rattle.par_source_state.specs.Frame.{Frame};

    ghost Value = { Frame };

    ghost view = { λ frames. record {
      below = take frames.base frames.locals.items;
      own = drop frames.base frames.locals.items;
    } };

    ghost invariant = { λ frames. frames.base ≤ length frames.locals.items };
}

impl Frames {
    /// One method that runs, whose locals hold null.
    pub fn new(alloc: Global) -> Frames
        ensures { result ≡ record { below = []; own = [] } }
    {
        Frames {
            locals: Vec::new(alloc),
            base: 0,
        }
    }

    /// What a local of the method that runs holds.
    pub fn get(&self, number: u16) -> MVal
        ensures { result ≡ held self.now.own number }
    {
        match self
            .locals
            .get(self.base.saturating_add(usize::from(number)))
        {
            Some(value) => *value,
            None => MVal::Null,
        }
    }

    /// Makes room for so many locals of the method that runs.
    fn reach(&mut self, number: usize) -> Result<(), NoMemory>
        ensures own { OnOk result (held self.new.own ≡ held self.old.own) }
        ensures there { OnOk result (number ≤ length self.new.own) }
        ensures below { OnOk result (self.new.below ≡ self.old.below) }
    {
        if self.locals.len() - self.base < number {
            let length = self.base.checked_add(number).ok_or(NoMemory)?;
            self.locals.resize(length, MVal::Null)?;
        }
        Ok(())
    }

    /// Sets a local that is there.
    fn write(&mut self, number: usize, value: MVal)
        requires { number < length self.old.own }
        ensures own { held self.new.own ≡ put (held self.old.own) number value }
        ensures below { self.new.below ≡ self.old.below }
    {
        self.locals[self.base + number] = value;
    }

    /// Sets a local of the method that runs.
    pub fn set(&mut self, number: u16, value: MVal) -> Result<(), NoMemory>
        ensures own { OnOk result (held self.new.own ≡ put (held self.old.own) number value) }
        ensures below { OnOk result (self.new.below ≡ self.old.below) }
    {
        let number = usize::from(number);
        self.reach(number + 1)?;
        self.write(number, value);
        Ok(())
    }

    /// Enters a method whose first locals hold these values, and gives the number of locals that
    /// its caller has so far.
    pub fn enter(&mut self, values: &[MVal]) -> Result<usize, NoMemory>
        ensures size { IfOk result (λ size. size ≡ length self.old.own) }
        ensures entered { OnOk result (self.new
            ≡ record { below = self.old.below ++ self.old.own; own = values.now }) }
    {
        let caller = self.locals.len();
        self.locals.extend_from_slice(values)?;
        let size = caller - self.base;
        self.base = caller;
        Ok(size)
    }

    /// Leaves a method for its caller, which has so many locals.
    pub fn leave(&mut self, size: usize)
        ensures { self.new ≡ left_by size self.old.below }
    {
        self.locals.truncate(self.base);
        self.base = self.base.saturating_sub(size);
    }
}

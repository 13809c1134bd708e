ghost use Rattle.std.specs.Prelude.{◌≡◌, length, nat_lt, slice_get, slice_set, IfOk};

use par_base::memory::NoMemory;
use par_values::value::MVal;
use std::alloc::Global;
use std::marker::Model;

/// The values of the static fields of a program. Contracts see them as a list.
#[derive(Drop)]
pub struct Statics {
    values: Vec<MVal>,
}

impl Model for Statics {
    ghost use Rattle.std.specs.Prelude.{List as Items};
    ghost use Rattle.par_values.specs.declared.value.MVal.{MVal as Held};

    ghost Value = { Items Held };

    ghost view = { λ statics. statics.values.items };
}

impl Statics {
    /// Static fields that hold these values.
    pub fn of(alloc: Global, values: &[MVal]) -> Result<Statics, NoMemory>
        ensures { IfOk result (λ statics. statics ≡ values.now) }
    {
        let values = Vec::from_slice(alloc, values)?;
        Ok(Statics { values })
    }

    /// What the field at this place holds, none where there is no such field.
    pub fn get(&self, place: u32) -> Option<MVal>
        ensures { result ≡ slice_get self.now place }
    {
        self.values.get(place as usize).copied()
    }

    /// Writes the field at this place, and tells whether it is there.
    pub fn set(&mut self, place: u32, value: MVal) -> bool
        ensures written { self.new ≡ slice_set self.old place value }
        ensures there { result ≡ nat_lt place (length self.old) }
    {
        let place = place as usize;
        if place >= self.values.len() {
            return false;
        }
        self.values[place] = value;
        true
    }
}

//! An instruction that makes an object.

ghost use Rattle.std.specs.Prelude.{◌≡◌, ◌<◌, ℕ, length, IfOk, OnErr};
ghost use Rattle.par_heap.specs.Heap.{objects_of};
ghost use Rattle.par_instr.specs.declared.instr.Instr.TheVariants as instr;
ghost use Rattle.par_machine.specs.Running.{IsSound};
ghost use Rattle.par_machine.specs.Site.{IsThere, IsPerformed};

use crate::run::Running;
use crate::site::Site;
use par_base::memory::NoMemory;
use par_method_area::MethodArea;
use par_method_area::par_actions::{Done, create, misnamed};

impl Running {
    /// Makes an object of the class that an index names.
    pub(crate) fn make(
        &mut self,
        area: &MethodArea,
        site: Site,
        index: u16,
        ahead: bool,
    ) -> Result<Done, NoMemory>
        requires sound { IsSound area.now self.old }
        requires there { IsThere area.now.files self.old site ahead }
        requires instr { site.instr ≡ instr.New index }
        requires few { (class : ℕ) → length (objects_of self.old.heap class) < 4294967295 }
        ensures done { IfOk result (λ done. IsPerformed area.now self.old site done self.new) }
        ensures refused { OnErr result (self.new ≡ self.old) }
    {
        match area.class(site.point.class, index) {
            Some(class) => create(&mut self.stack, &mut self.heap, class, ahead),
            None => Ok(misnamed(&self.stack, 0, 1, ahead)),
        }
    }
}

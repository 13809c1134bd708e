//! Instructions that write a field.

ghost use Rattle.std.specs.Prelude.{◌≡◌};
ghost use Rattle.par_instr.specs.declared.instr.Instr.TheVariants as instr;
ghost use Rattle.par_machine.specs.Running.{IsSound};
ghost use Rattle.par_machine.specs.Site.{IsThere, IsPerformed, unless_lock};

use crate::run::Running;
use crate::site::Site;
use par_method_area::MethodArea;
use par_method_area::par_actions::{Done, misnamed, misnamed_write, put_field, put_static};

/// A write to a lock's field is not told.
fn unless_lock(is_lock: bool, done: Done) -> Done
    ensures { result ≡ unless_lock is_lock done }
{
    match done {
        Done::Sets(_) if is_lock => Done::Goes,
        _ => done,
    }
}

impl Running {
    /// Pops a value into the static field that an index names.
    pub(crate) fn write_static(
        &mut self,
        area: &MethodArea,
        site: Site,
        index: u16,
        ahead: bool,
    ) -> Done
        requires sound { IsSound area.now self.old }
        requires there { IsThere area.now.files self.old site ahead }
        requires instr { site.instr ≡ instr.Putstatic index }
        ensures { IsPerformed area.now self.old site result self.new }
    {
        let Some(named) = area.field(site.point.class, index) else {
            return misnamed(&self.stack, 1, 0, ahead);
        };
        let done = put_static(&mut self.stack, &mut self.statics, named.field, ahead);
        unless_lock(named.is_lock, done)
    }

    /// Pops a value into the field of an object that an index names.
    pub(crate) fn write_field(
        &mut self,
        area: &MethodArea,
        site: Site,
        index: u16,
        ahead: bool,
    ) -> Done
        requires sound { IsSound area.now self.old }
        requires there { IsThere area.now.files self.old site ahead }
        requires instr { site.instr ≡ instr.Putfield index }
        ensures { IsPerformed area.now self.old site result self.new }
    {
        match area.field(site.point.class, index) {
            Some(named) => {
                put_field(
                    &mut self.stack,
                    &mut self.heap,
                    named.owner,
                    named.field,
                    ahead,
                )
            }
            None => misnamed_write(&self.stack, ahead),
        }
    }
}

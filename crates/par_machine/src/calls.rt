//! Calls of the method that an index names.

ghost use Rattle.std.specs.Prelude.{◌≡◌, IfOk, OnErr};
ghost use Rattle.par_instr.specs.declared.instr.Instr.TheVariants as instr;
ghost use Rattle.par_machine.specs.Running.{IsSound};
ghost use Rattle.par_machine.specs.Site.{IsThere, IsPerformed};

use crate::run::Running;
use crate::site::Site;
use par_base::memory::NoMemory;
use par_method_area::MethodArea;
use par_method_area::par_actions::{Done, invoke_special, invoke_static, invoke_virtual, misnamed};

impl Running {
    /// Calls the static method that an index names.
    pub(crate) fn call_static(
        &mut self,
        area: &MethodArea,
        site: Site,
        index: u16,
        ahead: bool,
    ) -> Result<Done, NoMemory>
        requires sound { IsSound area.now self.old }
        requires there { IsThere area.now.files self.old site ahead }
        requires instr { site.instr ≡ instr.Invokestatic index }
        ensures done { IfOk result (λ done. IsPerformed area.now self.old site done self.new) }
        ensures refused { OnErr result (self.new ≡ self.old) }
    {
        match area.callee(site.point.class, index) {
            Some(callee) => invoke_static(&mut self.stack, &mut self.lines, callee, ahead),
            None => Ok(misnamed(&self.stack, 0, 0, ahead)),
        }
    }

    /// Calls the initializer that an index names, on the object that was pushed before its
    /// arguments.
    pub(crate) fn call_special(
        &mut self,
        area: &MethodArea,
        site: Site,
        index: u16,
        ahead: bool,
    ) -> Result<Done, NoMemory>
        requires sound { IsSound area.now self.old }
        requires there { IsThere area.now.files self.old site ahead }
        requires instr { site.instr ≡ instr.Invokespecial index }
        ensures done { IfOk result (λ done. IsPerformed area.now self.old site done self.new) }
        ensures refused { OnErr result (self.new ≡ self.old) }
    {
        match area.callee(site.point.class, index) {
            Some(callee) => invoke_special(
                &mut self.stack,
                &mut self.lines,
                callee,
                area.exceptions(),
                ahead,
            ),
            None => Ok(misnamed(&self.stack, 1, 0, ahead)),
        }
    }

    /// Calls the method that an index names, on the object that was pushed before its arguments.
    pub(crate) fn call_virtual(
        &mut self,
        area: &MethodArea,
        site: Site,
        index: u16,
        ahead: bool,
    ) -> Result<Done, NoMemory>
        requires sound { IsSound area.now self.old }
        requires there { IsThere area.now.files self.old site ahead }
        requires instr { site.instr ≡ instr.Invokevirtual index }
        ensures done { IfOk result (λ done. IsPerformed area.now self.old site done self.new) }
        ensures refused { OnErr result (self.new ≡ self.old) }
    {
        match area.callee(site.point.class, index) {
            Some(callee) => invoke_virtual(
                &mut self.stack,
                &mut self.lines,
                callee,
                area.exceptions(),
                ahead,
            ),
            None => Ok(misnamed(&self.stack, 1, 0, ahead)),
        }
    }
}

//! What one instruction does where it stands.

ghost use Rattle.std.specs.Prelude.{◌≡◌, ◌<◌, ℕ, true, length, IfOk, OnErr, IsErr, IsSome};
ghost use Rattle.par_heap.specs.Heap.{objects_of};
ghost use Rattle.par_method_area.specs.Known.{code_at};
ghost use Rattle.par_machine.specs.Instructions.{is_work, is_branch, is_departure};
ghost use Rattle.par_machine.specs.Running.{IsSound};
ghost use Rattle.par_machine.specs.Site.{IsThere, IsPerformed};
ghost use Rattle.par_machine.specs.Turn.{calls_or_makes};

use crate::branches::branch;
use crate::departures::depart;
use crate::frame_work::work;
use crate::run::Running;
use crate::site::Site;
use par_base::memory::NoMemory;
use par_instr::Instr;
use par_method_area::MethodArea;
use par_method_area::par_actions::{Done, Ways};

impl Running {
    /// Works on the frame that runs alone.
    #[inline(always)]
    pub(crate) fn work(&mut self, area: &MethodArea, site: Site, ahead: bool) -> Done
        requires sound { IsSound area.now self.old }
        requires there { IsThere area.now.files self.old site ahead }
        requires instr { is_work site.instr ≡ true }
        ensures { IsPerformed area.now self.old site result self.new }
    {
        let _ = area.linked();
        work(&mut self.stack, site.instr, ahead)
    }

    /// Branches, or goes on behind.
    #[inline(always)]
    pub(crate) fn branch(&mut self, area: &MethodArea, site: Site, ahead: bool) -> Done
        requires sound { IsSound area.now self.old }
        requires there { IsThere area.now.files self.old site ahead }
        requires instr { is_branch site.instr ≡ true }
        ensures { IsPerformed area.now self.old site result self.new }
    {
        let _ = area.linked();
        let aside = site.aside;
        branch(&mut self.stack, site.instr, Ways { ahead, aside })
    }

    /// Leaves its method, by a return or a throw.
    fn depart(&mut self, area: &MethodArea, site: Site, ahead: bool) -> Done
        requires sound { IsSound area.now self.old }
        requires coded { IsSome (code_at area.now.files site.point.class site.point.method) }
        requires there { IsThere area.now.files self.old site ahead }
        requires instr { is_departure site.instr ≡ true }
        ensures { IsPerformed area.now self.old site result self.new }
    {
        let _ = ahead;
        let Some(code) = area.code(site.point.class, site.point.method) else {
            unreachable!();
        };
        depart(&self.stack, area, site.instr, code.gives)
    }

    /// Does what the instruction of a site does, behind which one stands or does not.
    #[inline(always)]
    pub(crate) fn perform(
        &mut self,
        area: &MethodArea,
        site: Site,
        ahead: bool,
    ) -> Result<Done, NoMemory>
        requires sound { IsSound area.now self.old }
        requires coded { IsSome (code_at area.now.files site.point.class site.point.method) }
        requires there { IsThere area.now.files self.old site ahead }
        requires few { (class : ℕ) → length (objects_of self.old.heap class) < 4294967295 }
        ensures done { IfOk result (λ done. IsPerformed area.now self.old site done self.new) }
        ensures refused { OnErr result (self.new ≡ self.old) }
        ensures memory { IsErr result → calls_or_makes site.instr ≡ true }
    {
        match site.instr {
            Instr::Ldc(index) => Ok(self.push_constant(area, site, index as u16, ahead)),
            Instr::LdcW(index) => Ok(self.push_constant(area, site, index, ahead)),
            Instr::Getstatic(index) => Ok(self.read_static(area, site, index, ahead)),
            Instr::Putstatic(index) => Ok(self.write_static(area, site, index, ahead)),
            Instr::Getfield(index) => Ok(self.read_field(area, site, index, ahead)),
            Instr::Putfield(index) => Ok(self.write_field(area, site, index, ahead)),
            Instr::New(index) => self.make(area, site, index, ahead),
            Instr::Invokestatic(index) => self.call_static(area, site, index, ahead),
            Instr::Invokespecial(index) => self.call_special(area, site, index, ahead),
            Instr::Invokevirtual(index) => self.call_virtual(area, site, index, ahead),
            Instr::If(_, _)
            | Instr::IfIcmp(_, _)
            | Instr::IfAcmpeq(_)
            | Instr::IfAcmpne(_)
            | Instr::Goto(_)
            | Instr::Ifnull(_)
            | Instr::Ifnonnull(_) => Ok(self.branch(area, site, ahead)),
            Instr::Ireturn | Instr::Areturn | Instr::Return | Instr::Athrow => {
                Ok(self.depart(area, site, ahead))
            }
            _ => Ok(self.work(area, site, ahead)),
        }
    }
}

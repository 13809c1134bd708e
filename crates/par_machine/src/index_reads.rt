//! Instructions that read what an index names: a number or a field.

ghost use Rattle.std.specs.Prelude.{◌≡◌};
ghost use Rattle.par_instr.specs.declared.instr.Instr.TheVariants as instr;
ghost use Rattle.par_machine.specs.Running.{IsSound};
ghost use Rattle.par_machine.specs.Site.{IsThere, IsPerformed, IsNumberSite};

use crate::run::Running;
use crate::site::Site;
use par_method_area::MethodArea;
use par_method_area::par_actions::{
    Done, get_field, get_static, misnamed, misnamed_read, push_number,
};

impl Running {
    /// Pushes the number that an index is.
    #[inline(always)]
    pub(crate) fn push_constant(
        &mut self,
        area: &MethodArea,
        site: Site,
        index: u16,
        ahead: bool,
    ) -> Done
        requires sound { IsSound area.now self.old }
        requires there { IsThere area.now.files self.old site ahead }
        requires instr { IsNumberSite site index }
        ensures { IsPerformed area.now self.old site result self.new }
    {
        match area.number(site.point.class, index) {
            Some(number) => push_number(&mut self.stack, number, ahead),
            None => misnamed(&self.stack, 0, 1, ahead),
        }
    }

    /// Pushes what the static field holds that an index names.
    #[inline(always)]
    pub(crate) fn read_static(
        &mut self,
        area: &MethodArea,
        site: Site,
        index: u16,
        ahead: bool,
    ) -> Done
        requires sound { IsSound area.now self.old }
        requires there { IsThere area.now.files self.old site ahead }
        requires instr { site.instr ≡ instr.Getstatic index }
        ensures { IsPerformed area.now self.old site result self.new }
    {
        match area.field(site.point.class, index) {
            Some(named) => get_static(&mut self.stack, &self.statics, named.field, ahead),
            None => misnamed(&self.stack, 0, 1, ahead),
        }
    }

    /// Pushes what the field of an object holds that an index names.
    #[inline(always)]
    pub(crate) fn read_field(
        &mut self,
        area: &MethodArea,
        site: Site,
        index: u16,
        ahead: bool,
    ) -> Done
        requires sound { IsSound area.now self.old }
        requires there { IsThere area.now.files self.old site ahead }
        requires instr { site.instr ≡ instr.Getfield index }
        ensures { IsPerformed area.now self.old site result self.new }
    {
        match area.field(site.point.class, index) {
            Some(named) => get_field(&mut self.stack, &self.heap, named.owner, named.field, ahead),
            None => misnamed_read(&self.stack, ahead),
        }
    }
}

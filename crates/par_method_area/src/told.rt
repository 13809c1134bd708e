//! Names, where something is handed out.

ghost use Rattle.std.specs.Prelude.{◌≡◌, ◌<◌, length, slice_get};
ghost use Rattle.par_base.specs.Names.{IsName};
ghost use Rattle.par_step_laws.specs.Classes.{class_names};
ghost use Rattle.par_step_laws.specs.Links.{field_in, method_in, link_at};
ghost use Rattle.par_step_laws.specs.Methods.{method_name};
ghost use Rattle.par_values.specs.Areas.{class_named};
ghost use Rattle.par_method_area.specs.Known.{KnowsNames};

use crate::area::MethodArea;
use crate::known::MemberNames;
use crate::names::{ARITHMETIC_EXCEPTION, NULL_POINTER_EXCEPTION};
use par_single::member::{own_name, text_at};
use par_step_laws::par_link::{Declared, Named};

/// No names.
const NAMELESS: MemberNames<'static> = MemberNames {
    class: &[],
    name: &[],
};

impl MethodArea {
    /// The name of the class of this number, no bytes where there is none.
    pub fn class_name(&self, class: u16) -> &[u8]
        ensures is { result.now ≡ class_named (class_names self.now.files) class }
        ensures name { class < length (class_names self.now.files) → IsName result.now }
    {
        let count = self.linked.count();
        match self.linked.file(class) {
            Some(file) => own_name(file),
            None if class == count => ARITHMETIC_EXCEPTION,
            None if class == count + 1 => NULL_POINTER_EXCEPTION,
            None => &[],
        }
    }

    /// The name of a method, no bytes where there is none.
    pub fn method_name(&self, class: u16, method: u16) -> &[u8]
        ensures { result.now ≡ method_name self.now.files class method }
    {
        let Some(file) = self.linked.file(class) else {
            return &[];
        };
        match file.methods.get(method as usize) {
            Some(method) => text_at(file.pool.entries.as_slice(), method.name),
            None => &[],
        }
    }

    /// The names of the field that is no lock's, or of the output channel, that an index of the
    /// constant pool of a class names.
    pub fn member(&self, class: u16, index: u16) -> MemberNames<'_>
        ensures { KnowsNames (link_at self.now.files class index) result }
    {
        match self.linked.named(class, index) {
            Named::Field(declared) => self.field_names(declared),
            Named::Method(declared) => self.method_names(declared),
            _ => NAMELESS,
        }
    }
}

impl MethodArea {
    /// The names of a field of one of the files.
    fn field_names(&self, declared: Declared) -> MemberNames<'_>
        ensures { KnowsNames (field_in self.now.files declared.class declared.place
            (slice_get self.now.files declared.class)) result }
    {
        let Some(file) = self.linked.file(declared.class) else {
            return NAMELESS;
        };
        match file.fields.get(declared.place as usize) {
            Some(field) => MemberNames {
                class: own_name(file),
                name: text_at(file.pool.entries.as_slice(), field.name),
            },
            None => NAMELESS,
        }
    }

    /// The names of a method of one of the files.
    fn method_names(&self, declared: Declared) -> MemberNames<'_>
        ensures { KnowsNames (method_in declared.class declared.place
            (slice_get self.now.files declared.class)) result }
    {
        let Some(file) = self.linked.file(declared.class) else {
            return NAMELESS;
        };
        match file.methods.get(declared.place as usize) {
            Some(method) => MemberNames {
                class: own_name(file),
                name: text_at(file.pool.entries.as_slice(), method.name),
            },
            None => NAMELESS,
        }
    }
}

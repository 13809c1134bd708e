//! What an index of a constant pool names, as it is told once.

ghost use Rattle.std.specs.Prelude.{◌≡◌, [], true, false, slice_get};
ghost use Rattle.par_step_laws.specs.par_link.Linked.{named_at};
ghost use Rattle.par_step_laws.specs.Classes.{class_names};
ghost use Rattle.par_step_laws.specs.Links.{class_link, builtin_class, field_in, lock_link};
ghost use Rattle.par_step_laws.specs.Links.{method_in};
ghost use Rattle.par_step_laws.specs.Links.{builtin_initializer, link_at};
ghost use Rattle.par_method_area.specs.Known.{linked_number, KnowsField, KnowsClass, KnowsMethod};
ghost use Rattle.par_method_area.specs.Targets.{gives_result, target_of};

use crate::area::MethodArea;
use crate::known::NamedField;
use crate::signatures::takes_at;
use crate::statics::LOCKS;
use par_actions::{Callee, Class, Field, Fit, Gives, Target};
use par_class::file::MethodFile;
use par_class::is_native;
use par_pool::constant::Constant;
use par_pool::kind::entry;
use par_single::member::is_static;
use par_step_laws::par_link::{Builtin, Declared, Named};

/// Whether a method gives a result.
fn gives_result(gives: Gives) -> bool
    ensures { result ≡ gives_result gives }
{
    match gives {
        Gives::Nothing => false,
        Gives::Number => true,
        Gives::Object(_) => true,
    }
}

/// What a method does when it is called whose arguments have to be these, where this is the line of
/// the channel of its name.
fn target_of(declared: Declared, method: &MethodFile, takes: &[Fit], line: Option<usize>) -> Target
    ensures { result ≡ target_of declared method.now takes.now line }
{
    if is_native(method.access) {
        if takes.is_empty() {
            return Target::Input(line);
        }
        return Target::Output;
    }
    let (locals, room) = match &method.code {
        None => (0, 0),
        Some(code) => (code.max_locals, code.max_stack),
    };
    Target::Code {
        class: declared.class,
        method: declared.place,
        locals,
        room,
    }
}

/// The initializer of a class that every program has, which takes such objects.
fn initializer(receiver: Fit, only_exceptions: bool) -> Callee<'static>
    ensures is_static { result.is_static ≡ false }
    ensures is_initializer { result.is_initializer ≡ true }
    ensures receiver { result.receiver ≡ receiver }
    ensures only_exceptions { result.only_exceptions ≡ only_exceptions }
    ensures takes { result.takes.now ≡ [] }
    ensures gives { result.gives ≡ false }
    ensures target { result.target ≡ Target.Nothing }
{
    Callee {
        is_static: false,
        is_initializer: true,
        receiver,
        only_exceptions,
        takes: &[],
        gives: false,
        target: Target::Nothing,
    }
}

/// A class of which no object is made.
fn unmade(is_exception: bool) -> Class<'static>
    ensures number { result.number ≡ 0 }
    ensures first { result.first.now ≡ [] }
    ensures is_exception { result.is_exception ≡ is_exception }
    ensures is_made { result.is_made ≡ false }
{
    Class {
        number: 0,
        first: &[],
        is_exception,
        is_made: false,
    }
}

/// The class of an exception that every program has.
fn exception(number: u16) -> Class<'static>
    ensures number { result.number ≡ number }
    ensures first { result.first.now ≡ [] }
    ensures is_exception { result.is_exception ≡ true }
    ensures is_made { result.is_made ≡ true }
{
    Class {
        number,
        first: &[],
        is_exception: true,
        is_made: true,
    }
}

impl MethodArea {
    /// The number that an index of the constant pool of a class is.
    pub fn number(&self, class: u16, index: u16) -> Option<i32>
        ensures { result ≡ linked_number (link_at self.now.files class index) }
    {
        let entries = self.linked.file(class)?.pool.entries.as_slice();
        match entry(entries, index) {
            Some(Constant::Integer(number)) => Some(*number),
            _ => None,
        }
    }

    /// The field that an index of the constant pool of a class names.
    pub fn field(&self, class: u16, index: u16) -> Option<NamedField>
        ensures { KnowsField (class_names self.now.files)
            (link_at self.now.files class index) result }
    {
        match self.linked.named(class, index) {
            Named::Field(declared) => self.declared_field(declared),
            Named::Lock(number) => Some(self.lock(number)),
            _ => None,
        }
    }

    /// A field of one of the files.
    fn declared_field(&self, declared: Declared) -> Option<NamedField>
        ensures { KnowsField (class_names self.now.files)
            (field_in self.now.files declared.class declared.place
            (slice_get self.now.files declared.class)) result }
    {
        let row = self.rows.get(declared.class as usize)?;
        let field = *row.fields.get(declared.place as usize)?;
        Some(NamedField {
            field,
            owner: Fit::OfClass(declared.class),
            is_lock: false,
        })
    }

    /// The field of the lock of this number.
    fn lock(&self, number: u8) -> NamedField
        ensures { KnowsField (class_names self.now.files) (lock_link self.now.files number)
            (Some result) }
    {
        let shared = self.statics.len() - LOCKS;
        NamedField {
            field: Field {
                is_static: true,
                fit: Fit::Number,
                place: shared as u32 + number as u32,
            },
            owner: Fit::Nothing,
            is_lock: true,
        }
    }

    /// The class that an index of the constant pool of a class names.
    pub fn class(&self, class: u16, index: u16) -> Option<Class<'_>>
        ensures { KnowsClass (class_names self.now.files)
            (link_at self.now.files class index) result }
    {
        match self.linked.named(class, index) {
            Named::Class(named) => self.listed_class(named),
            Named::Builtin(named) => Some(self.builtin_class(named)),
            _ => None,
        }
    }

    /// The class of one of the files.
    fn listed_class(&self, class: u16) -> Option<Class<'_>>
        ensures { KnowsClass (class_names self.now.files)
            (class_link class (slice_get self.now.files class)) result }
    {
        let row = self.rows.get(class as usize)?;
        let is_exception = *self.exceptions.get(class as usize)?;
        Some(Class {
            number: class,
            first: row.first.as_slice(),
            is_exception,
            is_made: true,
        })
    }

    /// A class that every program has.
    fn builtin_class(&self, class: Builtin) -> Class<'_>
        ensures { KnowsClass (class_names self.now.files) (builtin_class self.now.files class)
            (Some result) }
    {
        match class {
            Builtin::Object => unmade(false),
            Builtin::Exception => unmade(true),
            Builtin::ArithmeticException => exception(self.linked.count()),
            Builtin::NullPointerException => exception(self.linked.count() + 1),
            Builtin::Locks => unmade(false),
        }
    }

    /// The method that an index of the constant pool of a class names.
    pub fn callee(&self, class: u16, index: u16) -> Option<Callee<'_>>
        ensures { KnowsMethod self.now (named_at self.now.files class index)
            (link_at self.now.files class index) result }
    {
        match self.linked.named(class, index) {
            Named::Method(declared) => self.declared_method(declared),
            Named::Initializer(named) => self.initializer(named),
            _ => None,
        }
    }

    /// A method of one of the files.
    fn declared_method(&self, declared: Declared) -> Option<Callee<'_>>
        ensures { KnowsMethod self.now (Named.Method declared)
            (method_in declared.class declared.place (slice_get self.now.files declared.class))
            result }
    {
        let file = self.linked.file(declared.class)?;
        let method = file.methods.get(declared.place as usize)?;
        let class = self.rows.get(declared.class as usize)?;
        let row = class.methods.get(declared.place as usize)?;
        let takes = takes_at(&class.signatures, method.descriptor);
        Some(Callee {
            is_static: is_static(method.access),
            is_initializer: row.is_initializer,
            receiver: Fit::OfClass(declared.class),
            only_exceptions: false,
            takes,
            gives: gives_result(row.gives),
            target: target_of(declared, method, takes, row.line),
        })
    }

    /// The initializer of a class that every program has.
    fn initializer(&self, class: Builtin) -> Option<Callee<'_>>
        ensures { KnowsMethod self.now (Named.Initializer class)
            (builtin_initializer class) result }
    {
        match class {
            Builtin::Object => Some(initializer(Fit::AnyObject, false)),
            Builtin::Exception => Some(initializer(Fit::AnyObject, true)),
            Builtin::ArithmeticException => {
                let number = self.linked.count();
                Some(initializer(Fit::OfClass(number), false))
            }
            Builtin::NullPointerException => {
                let number = self.linked.count() + 1;
                Some(initializer(Fit::OfClass(number), false))
            }
            Builtin::Locks => None,
        }
    }
}

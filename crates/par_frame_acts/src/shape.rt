//! What an index of a constant pool is to frames.

ghost use Rattle.std.specs.Prelude.{◌≡◌, [], true, false, codes, List as Items, IfOk, slice_get};
ghost use Rattle.par_class.specs.declared.file.ClassFile.{ClassFile as File};
ghost use Rattle.par_pool.specs.Entries.{entry_at};
ghost use Rattle.par_frame_steps.specs.par_step_laws.Methods.{class_pool};
ghost use Rattle.par_frame_steps.specs.par_step_laws.Links.{class_link, builtin_class, field_in};
ghost use Rattle.par_frame_steps.specs.par_step_laws.Links.{method_in};
ghost use Rattle.par_frame_steps.specs.par_step_laws.Links.{builtin_initializer, link_of};
ghost use Rattle.par_frame_steps.specs.par_kinds.Shapes.{shape_at, shape_of_link};
ghost use Rattle.par_frame_steps.specs.par_kinds.Shapes.{Field, Class, Method};
ghost use Rattle.par_values.specs.declared.kind.Kind.TheVariants as asks;
ghost use Rattle.par_frame_steps.specs.Marks.{asked_of, also_of, given};
ghost use Rattle.par_frame_acts.specs.Shapes.{shape_of, is_integer, result_in};

use crate::descriptor::{asked, asked_kind, field_asked, gives_at, takes_at};
use par_base::memory::NoMemory;
use par_class::file::MethodFile;
use par_class::is_native;
use par_frame_steps::{Also, Asked, PlaceKind};
use par_link::{Builtin, Declared, Linked, Named};
use par_pool::constant::Constant;
use par_pool::kind::entry;
use par_single::member::{is_initializer, is_static, own_name, text_at};
use std::alloc::Global;

/// A method.
#[derive(Drop)]
pub(crate) struct Callee<'f> {
    pub(crate) is_static: bool,
    pub(crate) is_initializer: bool,
    pub(crate) receiver: Asked<'f>,
    /// The arguments, the last first.
    pub(crate) takes: Vec<Asked<'f>>,
    pub(crate) result: Option<PlaceKind<'f>>,
    pub(crate) also: Also<'f>,
}

/// What an index is to frames.
#[derive(Drop)]
pub(crate) enum PlaceShape<'f> {
    Number,
    Field {
        class: &'f [u8],
        is_static: bool,
        kind: Asked<'f>,
    },
    Method(Callee<'f>),
    Class {
        name: &'f [u8],
        is_made: bool,
    },
    Other,
}

/// Whether an index of the constant pool of a file is a number.
fn is_integer(linked: &Linked, class: u16, index: u16) -> bool
    ensures { result ≡ is_integer (entry_at (class_pool linked.now class) index) }
{
    let Some(file) = linked.file(class) else {
        return false;
    };
    match entry(file.pool.entries.as_slice(), index) {
        Some(Constant::Integer(_)) => true,
        _ => false,
    }
}

/// What an index of the constant pool of a file is.
pub(crate) fn shape(
    alloc: Global,
    linked: &Linked,
    class: u16,
    index: u16,
) -> Result<PlaceShape, NoMemory>
    ensures { IfOk result (λ shape. shape_of shape ≡ shape_at linked.now class index) }
{
    if is_integer(linked, class, index) {
        return Ok(PlaceShape::Number);
    }
    named_shape(alloc, linked, linked.named(class, index))
}

/// What something that is named is.
fn named_shape(alloc: Global, linked: &Linked, named: Named) -> Result<PlaceShape, NoMemory>
    ensures { IfOk result (λ shape.
        shape_of shape ≡ shape_of_link linked.now named (link_of linked.now named)) }
{
    match named {
        Named::Class(class) => Ok(class_shape(linked, class)),
        Named::Builtin(class) => Ok(builtin_shape(class)),
        Named::Field(declared) => Ok(field_shape(linked, declared)),
        Named::Method(declared) => method_shape(alloc, linked, declared),
        Named::Lock(_) => Ok(lock_shape()),
        Named::Initializer(class) => Ok(initializer_shape(alloc, class)),
        Named::Nothing => Ok(PlaceShape::Other),
    }
}

/// The class of one of the files.
fn class_shape(linked: &Linked, class: u16) -> PlaceShape
    ensures { shape_of result ≡ shape_of_link linked.now (Named.Class class)
        (class_link class (slice_get linked.now class)) }
{
    match linked.file(class) {
        Some(file) => PlaceShape::Class {
            name: own_name(file),
            is_made: true,
        },
        None => PlaceShape::Other,
    }
}

/// The name under which a class that every program has stands in frames, and whether objects of it
/// are made.
fn builtin_shape(class: Builtin) -> PlaceShape<'static>
    ensures { (files : Items File) → shape_of result
        ≡ shape_of_link files (Named.Builtin class) (builtin_class files class) }
{
    match class {
        Builtin::Object => unmade(b"java/lang/Object"),
        Builtin::Exception => unmade(b"java/lang/Exception"),
        Builtin::ArithmeticException => made(b"ArithmeticException"),
        Builtin::NullPointerException => made(b"NullPointerException"),
        Builtin::Locks => unmade(b"paragon/Locks"),
    }
}

/// A class of which objects are made.
fn made(name: &[u8]) -> PlaceShape
    ensures { shape_of result ≡ Class name.now true }
{
    PlaceShape::Class {
        name,
        is_made: true,
    }
}

/// A class of which no object is made.
fn unmade(name: &[u8]) -> PlaceShape
    ensures { shape_of result ≡ Class name.now false }
{
    PlaceShape::Class {
        name,
        is_made: false,
    }
}

/// A field of one of the files.
fn field_shape(linked: &Linked, declared: Declared) -> PlaceShape
    ensures { shape_of result ≡ shape_of_link linked.now (Named.Field declared)
        (field_in linked.now declared.class declared.place
        (slice_get linked.now declared.class)) }
{
    let Some(file) = linked.file(declared.class) else {
        return PlaceShape::Other;
    };
    match file.fields.get(declared.place as usize) {
        Some(field) => PlaceShape::Field {
            class: own_name(file),
            is_static: is_static(field.access),
            kind: field_asked(text_at(file.pool.entries.as_slice(), field.descriptor)),
        },
        None => PlaceShape::Other,
    }
}

/// The field of a lock.
fn lock_shape() -> PlaceShape<'static>
    ensures { shape_of result ≡ Field (codes "paragon/Locks") true asks.Number }
{
    PlaceShape::Field {
        class: b"paragon/Locks",
        is_static: true,
        kind: Asked::Number,
    }
}

/// The kind of what a method gives of this descriptor, where a channel gives a number or nothing.
fn result<'f>(method: &MethodFile, takes: &[Asked], descriptor: &'f [u8]) -> Option<PlaceKind<'f>>
    ensures { given result ≡ result_in method.now takes.now descriptor.entry.now }
{
    if is_native(method.access) {
        return if takes.is_empty() {
            Some(PlaceKind::Int)
        } else {
            None
        };
    }
    match gives_at(descriptor) {
        Some(said) => Some(asked_kind(asked(said))),
        None => None,
    }
}

/// A method of one of the files.
fn method_shape(alloc: Global, linked: &Linked, declared: Declared) -> Result<PlaceShape, NoMemory>
    ensures { IfOk result (λ shape. shape_of shape ≡ shape_of_link linked.now
        (Named.Method declared) (method_in declared.class declared.place
        (slice_get linked.now declared.class))) }
{
    let Some(file) = linked.file(declared.class) else {
        return Ok(PlaceShape::Other);
    };
    let Some(method) = file.methods.get(declared.place as usize) else {
        return Ok(PlaceShape::Other);
    };
    let entries = file.pool.entries.as_slice();
    let descriptor = text_at(entries, method.descriptor);
    let takes = takes_at(alloc, descriptor)?;
    Ok(PlaceShape::Method(Callee {
        is_static: is_static(method.access),
        is_initializer: is_initializer(text_at(entries, method.name), descriptor),
        receiver: Asked::Object(own_name(file)),
        result: result(method, takes.as_slice(), descriptor),
        takes,
        also: Also::Nothing,
    }))
}

/// The initializer of a class that every program has, which takes such objects.
fn initializer<'f>(alloc: Global, receiver: Asked<'f>, also: Also<'f>) -> PlaceShape<'f>
    ensures { shape_of result ≡ Method (record {
      static = false;
      initializer = true;
      receiver = asked_of receiver.entry;
      takes = [];
      results = [];
      also = also_of also.entry;
    }) }
{
    PlaceShape::Method(Callee {
        is_static: false,
        is_initializer: true,
        receiver,
        takes: Vec::new(alloc),
        result: None,
        also,
    })
}

/// The initializer of a class that every program has.
fn initializer_shape(alloc: Global, class: Builtin) -> PlaceShape<'static>
    ensures { (files : Items File) → shape_of result
        ≡ shape_of_link files (Named.Initializer class) (builtin_initializer class) }
{
    match class {
        Builtin::Object => initializer(alloc, Asked::AnyObject, Also::Nothing),
        Builtin::Exception => initializer(alloc, Asked::AnyObject, Also::Exceptional),
        Builtin::ArithmeticException => {
            let receiver = Asked::Object(b"ArithmeticException");
            initializer(alloc, receiver, Also::Nothing)
        }
        Builtin::NullPointerException => {
            let receiver = Asked::Object(b"NullPointerException");
            initializer(alloc, receiver, Also::Nothing)
        }
        Builtin::Locks => PlaceShape::Other,
    }
}

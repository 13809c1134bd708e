//! What handlers take.

ghost use Rattle.std.specs.Prelude.{◌≡◌};
ghost use Rattle.par_frame_steps.specs.par_kinds.Linked.{builtin_kind, named_kind, caught_kind};
ghost use Rattle.par_frame_steps.specs.par_step_laws.Classes.{class_names};
ghost use Rattle.par_values.specs.Areas.{class_named};
ghost use Rattle.par_frame_steps.specs.Marks.{kind_of};

use par_class::file::Catch;
use par_frame_steps::PlaceKind;
use par_link::{Builtin, Linked, Named};
use par_single::member::own_name;

/// The kind of what a handler of a method of a file takes.
pub fn caught<'f>(linked: &'f Linked, class: u16, catch: &Catch) -> PlaceKind<'f>
    ensures { kind_of result ≡ caught_kind linked.now class catch.now }
{
    if catch.class == 0 {
        return PlaceKind::Base(true);
    }
    named_kind(linked, linked.named(class, catch.class))
}

/// The kind of the objects of a class that is named.
fn named_kind(linked: &Linked, named: Named) -> PlaceKind
    ensures { kind_of result ≡ named_kind linked.now named }
{
    match named {
        Named::Class(class) => PlaceKind::Object(class_name(linked, class)),
        Named::Builtin(class) => builtin_kind(class),
        _ => PlaceKind::Base(false),
    }
}

/// The kind of the objects of a class that every program has.
fn builtin_kind(class: Builtin) -> PlaceKind<'static>
    ensures { kind_of result ≡ builtin_kind class }
{
    match class {
        Builtin::Object => PlaceKind::Base(false),
        Builtin::Exception => PlaceKind::Base(true),
        Builtin::ArithmeticException => PlaceKind::Object(b"ArithmeticException"),
        Builtin::NullPointerException => PlaceKind::Object(b"NullPointerException"),
        Builtin::Locks => PlaceKind::Base(false),
    }
}

/// The name of the class of this number, no bytes where there is none.
fn class_name(linked: &Linked, class: u16) -> &[u8]
    ensures { result.now ≡ class_named (class_names linked.now) class }
{
    let count = linked.count();
    match linked.file(class) {
        Some(file) => own_name(file),
        None if class == count => b"ArithmeticException",
        None if class == count + 1 => b"NullPointerException",
        None => &[],
    }
}

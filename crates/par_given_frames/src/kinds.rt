//! The kinds that types say.

ghost use Rattle.std.specs.Prelude.{◌≡◌, ◌++◌, None, codes, IfOk};
ghost use Rattle.std.specs.Option.{option_map};
ghost use Rattle.std.specs.Str.{bytes_eq};
ghost use Rattle.par_base.specs.Names.{IsName};
ghost use Rattle.par_frames.specs.par_link.Builtins.{builtin};
ghost use Rattle.par_frames.specs.Names as names;
ghost use Rattle.par_frames.specs.Names.{kind_of_class};
ghost use Rattle.par_frames.specs.Given.{kinds_of};
ghost use Rattle.par_given_frames.specs.Reads.{Gives};
ghost use Rattle.par_given_frames.specs.Named.{AreNamed};
ghost use Rattle.par_given_frames.specs.Sizes as sizes;

use crate::error::Unread;
use par_base::list::List;
use par_base::memory::NoMemory;
use par_base::name::Name;
use par_frame_forms::PlaceType;
use par_kinds::frame::VKind;
use par_pool::constant::Constant;
use par_pool::kind::entry;
use par_single::member::text_at;
use std::alloc::Global;

/// Whether this is the class whose fields are the locks. No value is of it.
fn is_locks(name: &[u8]) -> bool
    ensures { result ≡ bytes_eq name.now (codes "paragon/Locks") }
{
    name == b"paragon/Locks".as_slice()
}

/// Whether a type says a kind.
pub(crate) fn is_kind(entries: &[Constant], t: &PlaceType) -> bool
    ensures { result ≡ sizes.is_kind entries.now t.now }
{
    match t {
        PlaceType::Top | PlaceType::Int | PlaceType::Null => true,
        PlaceType::Class(index) => match entry(entries, *index) {
            Some(Constant::Class(name)) => !is_locks(text_at(entries, *name)),
            _ => false,
        },
    }
}

/// The kind of the class of this name.
fn class_kind(alloc: Global, name: &[u8]) -> Result<VKind, Unread>
    requires { builtin name.now ≡ None → IsName name.now }
    ensures { Gives (λ kind. kind) result (kind_of_class (builtin name.now) name.now) }
{
    if name == b"java/lang/Object".as_slice() {
        Ok(VKind::Base(false))
    } else if name == b"java/lang/Exception".as_slice() {
        Ok(VKind::Base(true))
    } else if name == b"java/lang/ArithmeticException".as_slice() {
        Ok(VKind::Object(Name::new(alloc, b"ArithmeticException")?))
    } else if name == b"java/lang/NullPointerException".as_slice() {
        Ok(VKind::Object(Name::new(alloc, b"NullPointerException")?))
    } else if is_locks(name) {
        Err(Unread::Refused)
    } else {
        Ok(VKind::Object(Name::new(alloc, name)?))
    }
}

/// The kind that a type says.
pub(crate) fn kind_of(alloc: Global, entries: &[Constant], t: &PlaceType) -> Result<VKind, Unread>
    requires { AreNamed entries.now }
    ensures { Gives (λ kind. kind) result (names.kind_of entries.now t.now) }
{
    match t {
        PlaceType::Top => Ok(VKind::Top),
        PlaceType::Int => Ok(VKind::Int),
        PlaceType::Null => Ok(VKind::Null),
        PlaceType::Class(index) => match entry(entries, *index) {
            Some(Constant::Class(name)) => class_kind(alloc, text_at(entries, *name)),
            _ => Err(Unread::Refused),
        },
    }
}

/// The kinds that types say, put behind others.
pub(crate) fn put_kinds(
    alloc: Global,
    entries: &[Constant],
    types: &[PlaceType],
    first: List<VKind>,
) -> Result<List<VKind>, Unread>
    requires { AreNamed entries.now }
    ensures { Gives (λ all. all) result
        (option_map (λ more. first ++ more) (kinds_of entries.now types.now)) }
{
    let mut kinds = first;
    let mut rest = types;
    while let [t, behind @ ..] = rest {
        kinds.push(kind_of(alloc, entries, t)?)?;
        rest = behind;
    }
    Ok(kinds)
}

/// A second kind like this one.
fn copied(alloc: Global, kind: &VKind) -> Result<VKind, NoMemory>
    ensures { IfOk result (λ second. second ≡ kind.now) }
{
    match kind {
        VKind::Top => Ok(VKind::Top),
        VKind::Int => Ok(VKind::Int),
        VKind::Null => Ok(VKind::Null),
        VKind::Object(name) => Ok(VKind::Object(name.copy(alloc)?)),
        VKind::Base(is_exception) => Ok(VKind::Base(*is_exception)),
    }
}

/// Second kinds like these.
pub(crate) fn all_copied(alloc: Global, kinds: &[VKind]) -> Result<List<VKind>, NoMemory>
    ensures { IfOk result (λ copies. copies ≡ kinds.now) }
{
    let mut copies = List::new(alloc);
    for kind in kinds {
        copies.push(copied(alloc, kind)?)?;
    }
    Ok(copies)
}

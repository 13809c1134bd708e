//! The classes that every program has, and their members.

ghost use Rattle.std.specs.Prelude.{◌≡◌};
ghost use Rattle.par_base.specs.Numbers.{magnitude_of};
ghost use Rattle.par_single.specs.Members.{named};
ghost use Rattle.par_references.specs.Builtins.{builtin, lock_number, lock_field, initializer};
ghost use Rattle.par_references.specs.Builtins.{builtin_field, builtin_method};

use crate::entry::{Builtin, Named};
use par_base::numbers::magnitude_of;
use par_single::member::{Naming, is_initializer};

/// The greatest number of a lock that has a field.
const LAST_LOCK: u32 = 255;

/// The most digits of such a number.
const MOST_DIGITS: usize = 3;

/// The class of this name that every program has.
pub(crate) fn builtin(name: &[u8]) -> Option<Builtin>
    ensures { result ≡ builtin name.now }
{
    if name == b"java/lang/Object".as_slice() {
        Some(Builtin::Object)
    } else if name == b"java/lang/Exception".as_slice() {
        Some(Builtin::Exception)
    } else if name == b"java/lang/ArithmeticException".as_slice() {
        Some(Builtin::ArithmeticException)
    } else if name == b"java/lang/NullPointerException".as_slice() {
        Some(Builtin::NullPointerException)
    } else if name == b"paragon/Locks".as_slice() {
        Some(Builtin::Locks)
    } else {
        None
    }
}

/// The number that decimal digits write, where a lock of this number may have a field.
fn number_of(digits: &[u8]) -> Option<u8>
    ensures { result ≡ magnitude_of 255 digits.now }
{
    // A long text is not read to its end for each field that has it as its name.
    if digits.len() > MOST_DIGITS {
        return None;
    }
    let number = magnitude_of(digits, LAST_LOCK)?;
    Some(number as u8)
}

/// The number of the lock whose field has this name.
#[tactic(auto, unfolding(crate::specs::Builtins::lock_number))]
fn lock_number(name: &[u8]) -> Option<u8>
    ensures { result ≡ lock_number name.now }
{
    match name {
        [b'L', digits @ ..] => number_of(digits),
        _ => None,
    }
}

/// The field that is named among those of `paragon/Locks`.
fn lock_field(naming: Naming) -> Named
    ensures { result ≡ lock_field (named naming.entry) }
{
    if naming.descriptor != b"Z".as_slice() {
        return Named::Nothing;
    }
    match lock_number(naming.name) {
        Some(number) => Named::Lock(number),
        None => Named::Nothing,
    }
}

/// The initializer of a class, where it is named.
fn initializer(class: Builtin, naming: Naming) -> Named
    ensures { result ≡ initializer class (named naming.entry) }
{
    if is_initializer(naming.name, naming.descriptor) {
        return Named::Initializer(class);
    }
    Named::Nothing
}

/// The field that is named in a class that every program has.
#[tactic(auto, unfolding(crate::specs::Builtins::builtin_field))]
pub(crate) fn builtin_field(class: Builtin, naming: Naming) -> Named
    ensures { result ≡ builtin_field class (named naming.entry) }
{
    match class {
        Builtin::Locks => lock_field(naming),
        _ => Named::Nothing,
    }
}

/// The method that is named in a class that every program has.
#[tactic(auto, unfolding(crate::specs::Builtins::builtin_method))]
pub(crate) fn builtin_method(class: Builtin, naming: Naming) -> Named
    ensures { result ≡ builtin_method class (named naming.entry) }
{
    match class {
        Builtin::Locks => Named::Nothing,
        _ => initializer(class, naming),
    }
}

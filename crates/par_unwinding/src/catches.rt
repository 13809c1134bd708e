ghost use Rattle.std.specs.Prelude.{◌≡◌, ℕ, ◌≤◌, true, false, Some, slice_set, slice_index_or};
ghost use Rattle.par_step_laws.specs.Handlers.{builtin_takes, named_takes, covers, takes};
ghost use Rattle.par_step_laws.specs.Handlers.{first_handler, handler_in};
ghost use Rattle.par_unwinding.specs.Standing.{standing, class_takes};

use par_class::file::Catch;
use par_step_laws::par_link::{Builtin, Linked, Named};

/// How many places there are in the pool of constants of a class file.
const PLACES: usize = 65536;

/// With so many handlers it pays to remember what refuses, by place.
const MANY: usize = 512;

/// Whether a class that every program has is that of an exception of a class, or of all exceptions.
fn is_builtin_taken(linked: &Linked, thrown: u16, class: Builtin) -> bool
    ensures { result ≡ builtin_takes linked.now thrown class }
{
    match class {
        Builtin::Object => false,
        Builtin::Exception => true,
        Builtin::ArithmeticException => thrown as usize == linked.files().len(),
        Builtin::NullPointerException => thrown as usize == linked.files().len() + 1,
        Builtin::Locks => false,
    }
}

/// Whether what a handler names takes an exception of a class.
fn is_taken(linked: &Linked, thrown: u16, named: Named) -> bool
    ensures { result ≡ named_takes linked.now thrown named }
{
    match named {
        Named::Class(own) => thrown == own,
        Named::Builtin(class) => is_builtin_taken(linked, thrown, class),
        _ => false,
    }
}

/// Whether a handler that names this class, or none, takes an exception of a class.
fn is_class_taken(linked: &Linked, thrown: u16, class: u16, named: u16) -> bool
    ensures { result ≡ class_takes linked.now thrown class named }
{
    named == 0 || is_taken(linked, thrown, linked.named(class, named))
}

/// Whether a handler covers an offset.
fn covers(at: u32, catch: &Catch) -> bool
    ensures { (class method : ℕ) → result ≡ covers (standing class method at) catch.now }
{
    let at_or_behind_start = catch.start as u32 <= at;
    let before_end = at < catch.end as u32;
    at_or_behind_start && before_end
}

/// Whether a place is marked as one that refuses.
fn is_refused(refused: &[bool], named: u16) -> bool
    ensures { result ≡ slice_index_or refused.now named false }
{
    match refused.get(named as usize) {
        Some(known) => *known,
        None => false,
    }
}

/// Marks a place as one that refuses, if there is a mark for it.
fn refuse(refused: &mut [bool], named: u16)
    ensures { refused.new ≡ slice_set refused.old named true }
{
    if (named as usize) < refused.len() {
        refused[named as usize] = true;
    }
}

/// The offset to which the first of some handlers takes it. What is marked refuses: handlers that
/// name it need not be asked.
fn first(
    linked: &Linked,
    thrown: u16,
    class: u16,
    at: u32,
    catches: &[Catch],
    refused: &mut [bool],
) -> Option<u16>
    requires { (named : ℕ) → slice_index_or refused.old named false ≡ true →
        class_takes linked.now thrown class named ≡ false }
    ensures { (method : ℕ) → result
        ≡ first_handler (takes linked.now thrown (standing class method at)) catches.now }
{
    for catch in catches {
        if covers(at, catch) && !is_refused(refused, catch.class) {
            if is_class_taken(linked, thrown, class, catch.class) {
                return Some(catch.handler);
            }
            refuse(refused, catch.class);
        }
    }
    None
}

/// The same of many handlers: each place is asked once, in whichever order they name them.
#[inline(never)]
fn first_of_many<const N: usize>(
    linked: &Linked,
    thrown: u16,
    class: u16,
    at: u32,
    catches: &[Catch],
) -> Option<u16>
    requires { N ≤ PLACES }
    ensures { (method : ℕ) → result
        ≡ first_handler (takes linked.now thrown (standing class method at)) catches.now }
{
    let mut refused = [false; N];
    first(linked, thrown, class, at, catches, &mut refused)
}

/// The offset of the handler to which an exception of a class goes in a frame that stands at this
/// offset of a method, none where no handler takes it.
#[tactic(auto, unfolding(par_step_laws::specs::Handlers::first_handler))]
pub fn handler(linked: &Linked, thrown: u16, class: u16, method: u16, at: u32) -> Option<u16>
    ensures { result ≡ handler_in linked.now thrown (standing class method at) }
{
    let file = linked.file(class)?;
    let method = file.methods.get(method as usize)?;
    match &method.code {
        Some(code) => {
            let catches = code.catches.as_slice();
            if catches.len() < MANY {
                first(linked, thrown, class, at, catches, &mut [])
            } else {
                first_of_many::<PLACES>(linked, thrown, class, at, catches)
            }
        }
        None => None,
    }
}

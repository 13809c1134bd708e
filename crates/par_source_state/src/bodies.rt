//! The bodies of methods.

ghost use Rattle.std.specs.Prelude.{◌≡◌, slice_get, IfOk};
ghost use Rattle.par_typed.specs.Shown.{bodies};
ghost use Rattle.par_run_laws.specs.Names.{body_of};
ghost use Rattle.par_source_state.specs.Bodied.{ArePlaced, body_at, body_shown, main_body};

use crate::names;
use par_base::memory::NoMemory;
use par_index::Firsts;
use par_typed::program::{TBody, Typed};
use par_typed::stmt::TStmt;
use std::alloc::Global;

/// Where the methods have their bodies, by the numbers of the class and of the method there.
pub(crate) fn places(alloc: Global, all: &[TBody]) -> Result<Firsts<(u16, u16)>, NoMemory>
    ensures { IfOk result (λ firsts. ArePlaced all.now firsts) }
{
    let mut methods = Vec::new(alloc);
    for body in all {
        methods.push((body.class, body.method))?;
    }
    let firsts = Firsts::of(alloc, methods.as_slice())?;
    Ok(firsts)
}

/// The body at this place.
pub(crate) fn at(all: &[TBody], place: usize) -> Option<&TStmt>
    ensures { body_shown result ≡ body_at (slice_get all.now place) }
{
    match all.get(place) {
        Some(body) => Some(&body.body),
        None => None,
    }
}

/// The body of the method `main`.
pub fn main_body(typed: &Typed) -> Option<&TStmt>
    ensures { body_shown result ≡ main_body typed.now }
{
    let place = names::main(&typed.table);
    first_body(typed.bodies.as_slice(), typed.table.main, place)
}

/// The first body of a method.
fn first_body(all: &[TBody], class: u16, method: usize) -> Option<&TStmt>
    ensures { body_shown result ≡ body_of (bodies all.now) class method }
{
    for body in all {
        if body.class == class && usize::from(body.method) == method {
            return Some(&body.body);
        }
    }
    None
}

//! Descriptors, read where they stand.

ghost use Rattle.std.specs.Prelude.{◌≡◌, map, reverse, option_map, IfOk, IfSome};
ghost use Rattle.par_single.specs.Descriptors.{kind_of, kinds_at};
ghost use Rattle.par_single.specs.Links.{kind_said, signature_said};
ghost use Rattle.par_frame_steps.specs.par_kinds.Kinds.{vkind};
ghost use Rattle.par_frame_steps.specs.Marks as marks;
ghost use Rattle.par_frame_steps.specs.Marks.{asked_of};

use par_base::memory::NoMemory;
use par_frame_steps::{Asked, PlaceKind};
use par_single::descriptor::{Said, field_said, kind_at, method_gives};
use std::alloc::Global;

/// What is asked of a place whose descriptor says this.
pub(crate) fn asked<'f>(said: Said<'f>) -> Asked<'f>
    ensures { asked_of result ≡ kind_of said.entry }
{
    match said {
        Said::Number => Asked::Number,
        Said::Object(name) => Asked::Object(name),
    }
}

/// What is asked of a place of this descriptor.
pub(crate) fn field_asked(descriptor: &[u8]) -> Asked
    ensures { asked_of result ≡ kind_said descriptor.now }
{
    match field_said(descriptor) {
        Some(said) => asked(said),
        None => Asked::Anything,
    }
}

/// The kind of what is asked for.
pub fn asked_kind<'f>(asked: Asked<'f>) -> PlaceKind<'f>
    ensures { marks.kind_of result ≡ vkind (asked_of asked.entry) }
{
    match asked {
        Asked::Number => PlaceKind::Int,
        Asked::Object(name) => PlaceKind::Object(name),
        Asked::AnyObject => PlaceKind::Base(false),
        Asked::Anything => PlaceKind::Top,
    }
}

/// What a method of this descriptor gives, where it gives something.
pub fn gives_at(descriptor: &[u8]) -> Option<Said>
    ensures { option_map kind_of result ≡ (signature_said descriptor.now).gives }
{
    match method_gives(descriptor) {
        Some(gives) => gives,
        None => None,
    }
}

/// What is asked of the arguments whose descriptors a text begins with, where `)` ends them.
fn arguments(alloc: Global, text: &[u8]) -> Result<Vec<Asked>, NoMemory>
    ensures { IfOk result (λ all.
        IfSome (kinds_at text.now) (λ found. map asked_of all.items ≡ found.0)) }
{
    let mut all = Vec::new(alloc);
    let mut rest = text;
    while let Some((said, behind)) = kind_at(rest) {
        all.push(asked(said))?;
        rest = behind;
    }
    Ok(all)
}

/// What is asked of the arguments of a method of this descriptor.
pub fn arguments_at(alloc: Global, descriptor: &[u8]) -> Result<Vec<Asked>, NoMemory>
    ensures { IfOk result (λ all.
        map asked_of all.items ≡ (signature_said descriptor.now).takes) }
{
    let Some(_) = method_gives(descriptor) else {
        return Ok(Vec::new(alloc));
    };
    arguments(alloc, &descriptor[1..])
}

/// The same, the last first.
#[tactic(auto, using(crate::proofs::Turned::turned_back))]
pub(crate) fn takes_at(alloc: Global, descriptor: &[u8]) -> Result<Vec<Asked>, NoMemory>
    ensures { IfOk result (λ takes.
        reverse (map asked_of takes.items) ≡ (signature_said descriptor.now).takes) }
{
    let mut takes = arguments_at(alloc, descriptor)?;
    takes.reverse();
    Ok(takes)
}

//! What the descriptors of methods say, told once for each text of a constant pool, however many
//! methods share it.

ghost use Rattle.std.specs.Prelude.{◌≡◌, map, Some, IfOk, IfSome};
ghost use Rattle.std.specs.Option.{option_copied};
ghost use Rattle.par_single.specs.Descriptors.{kinds_at};
ghost use Rattle.par_single.specs.Members.{text_of};
ghost use Rattle.par_step_laws.specs.par_link.Placed.{pool_texts};
ghost use Rattle.par_method_area.specs.Fits.{fit_of};
ghost use Rattle.par_method_area.specs.Signatures.{read, told, said_by, signature_in};

use crate::names::ClassNumbers;
use par_actions::{Fit, Gives};
use par_base::list::List;
use par_base::memory::NoMemory;
use par_pool::constant::Constant;
use par_single::descriptor::{kind_at, method_gives};
use std::alloc::Global;

/// What the descriptor of a method says.
#[derive(Drop)]
pub(crate) struct Signature {
    /// What the arguments have to be, in their order.
    takes: Vec<Fit>,
    gives: Gives,
}

/// What a text says, nothing where it is no descriptor of a method.
pub(crate) type Said = Option<Box<Signature>>;

/// What the arguments have to be whose descriptors a text begins with, where `)` ends them.
fn fits(alloc: Global, numbers: &ClassNumbers, text: &[u8]) -> Result<Vec<Fit>, NoMemory>
    ensures { IfOk result (λ fits.
        IfSome (kinds_at text.now) (λ found. fits.items ≡ map (fit_of numbers.now) found.0)) }
{
    let mut fits = Vec::new(alloc);
    let mut rest = text;
    while let Some((said, behind)) = kind_at(rest) {
        fits.push(numbers.fit(Some(said)))?;
        rest = behind;
    }
    Ok(fits)
}

/// What a text says.
fn said_by(alloc: Global, numbers: &ClassNumbers, text: &[u8]) -> Result<Said, NoMemory>
    ensures { IfOk result (λ said. told said ≡ said_by numbers.now text.now) }
{
    let Some(gives) = method_gives(text) else {
        return Ok(None);
    };
    let takes = fits(alloc, numbers, &text[1..])?;
    let gives = numbers.gives(gives);
    let said = Box::new(alloc, Signature { takes, gives })?;
    Ok(Some(said))
}

/// What the text of a constant says.
fn constant_said(
    alloc: Global,
    numbers: &ClassNumbers,
    constant: &Constant,
) -> Result<Said, NoMemory>
    ensures { IfOk result (λ said. told said
        ≡ said_by numbers.now (text_of (Some constant.now))) }
{
    match constant {
        Constant::Utf8(text) => said_by(alloc, numbers, text.as_slice()),
        _ => Ok(None),
    }
}

/// What the texts of a constant pool say, by their indices.
pub(crate) fn signatures(
    alloc: Global,
    numbers: &ClassNumbers,
    entries: &[Constant],
) -> Result<List<Said>, NoMemory>
    ensures { IfOk result (λ all.
        map told all ≡ map (said_by numbers.now) (pool_texts entries.now)) }
{
    let mut all = List::new(alloc);
    all.push(None)?;
    for constant in entries {
        all.push(constant_said(alloc, numbers, constant)?)?;
    }
    Ok(all)
}

/// What the text of an index says.
fn said_at(signatures: &List<Said>, index: u16) -> Option<&Signature>
    ensures { read (option_copied result) ≡ signature_in signatures.now index }
{
    match signatures.get(index as usize)? {
        Some(signature) => Some(signature),
        None => None,
    }
}

/// What the arguments of a method have to be whose descriptor has this index.
pub(crate) fn takes_at(signatures: &List<Said>, index: u16) -> &[Fit]
    ensures { result.now ≡ (signature_in signatures.now index).0 }
{
    match said_at(signatures, index) {
        Some(signature) => signature.takes.as_slice(),
        None => &[],
    }
}

/// What a method gives whose descriptor has this index.
pub(crate) fn gives_at(signatures: &List<Said>, index: u16) -> Gives
    ensures { result ≡ (signature_in signatures.now index).1 }
{
    match said_at(signatures, index) {
        Some(signature) => signature.gives,
        None => Gives::Nothing,
    }
}

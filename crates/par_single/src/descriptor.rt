//! What descriptors say (Java Virtual Machine Specification, Java SE 7, section 4.3).

ghost use Rattle.std.specs.Prelude.{◌≡◌, option_map, IfOk, IfSome, position};
ghost use Rattle.par_single.specs.Descriptors.{Text, kind_at, alone, field_kind, no_kinds};
ghost use Rattle.par_single.specs.Descriptors.{kinds_at, result_kind, method_signature, kind_of};
ghost use Rattle.par_single.specs.Descriptors.{IsSaid, ends_name, object_to};

use par_values::kind::Kind;
use par_values::par_base::list::List;
use par_values::par_base::memory::NoMemory;
use par_values::par_base::name::Name;
use std::alloc::Global;

/// A kind of value as it stands in a descriptor.
#[derive(Clone, Copy)]
pub enum Said<'t> {
    /// An `int` or a `boolean`.
    Number,
    /// An object of the class of this name.
    Object(&'t [u8]),
}

/// What the descriptor of a method says.
#[derive(Drop)]
pub struct Signature {
    /// The kinds of the arguments, in their order.
    pub takes: List<Kind>,
    /// The kind of the result, none where there is no result.
    pub gives: Option<Kind>,
}

impl Said<'_> {
    /// The kind, with a name of its own.
    pub fn to_kind(self, alloc: Global) -> Result<Kind, NoMemory>
        requires { IsSaid self }
        ensures { IfOk result (λ kind. kind ≡ kind_of self.entry) }
    {
        match self {
            Said::Number => Ok(Kind::Number),
            Said::Object(name) => Ok(Kind::Object(Name::new(alloc, name)?)),
        }
    }
}

/// The place of the `;` that ends the name with which a text begins.
fn name_end(text: &[u8]) -> Option<usize>
    ensures { result ≡ position ends_name text.now }
{
    text.iter().position(|byte| *byte == b';')
}

/// An object of the class whose name a text begins with, and the text behind the `;`.
fn object_at(text: &[u8]) -> Option<(Said, &[u8])>
    ensures found { option_map (λ found. (kind_of found.0, found.1.now)) result
        ≡ object_to text.now (position ends_name text.now) }
    ensures named { IfSome result (λ found. IsSaid found.0) }
{
    let end = name_end(text)?;
    let name = &text[..end];
    if !Name::is_name(name) {
        return None;
    }
    Some((Said::Object(name), &text[end + 1..]))
}

/// The kind that a text begins with, and the text behind it.
#[tactic(auto, unfolding(crate::specs::Descriptors::kind_at))]
pub fn kind_at(text: &[u8]) -> Option<(Said, &[u8])>
    ensures found { option_map (λ found. (kind_of found.0, found.1.now)) result ≡ kind_at text.now }
    ensures named { IfSome result (λ found. IsSaid found.0) }
{
    match text {
        [b'I' | b'Z', rest @ ..] => Some((Said::Number, rest)),
        [b'L', rest @ ..] => object_at(rest),
        _ => None,
    }
}

/// The kind that the descriptor of a field says.
pub fn field_said(text: &[u8]) -> Option<Said>
    ensures found { option_map kind_of result ≡ field_kind text.now }
    ensures named { IfSome result IsSaid }
{
    let (said, rest) = kind_at(text)?;
    rest.is_empty().then_some(said)
}

/// The kind that the descriptor of a field says, with a name of its own.
pub fn field_kind(alloc: Global, text: &[u8]) -> Result<Option<Kind>, NoMemory>
    ensures { IfOk result (λ kind. kind ≡ field_kind text.now) }
{
    match field_said(text) {
        None => Ok(None),
        Some(said) => Ok(Some(said.to_kind(alloc)?)),
    }
}

/// What stands behind the `)` that a text begins with.
fn behind_end(text: &[u8]) -> Option<&[u8]>
    ensures { option_map (λ behind. behind.now) result
        ≡ option_map (λ found. found.1) (no_kinds text.now) }
{
    match text {
        [b')', behind @ ..] => Some(behind),
        _ => None,
    }
}

/// What stands behind the kinds that a text begins with and the `)` that ends them.
fn behind_kinds(text: &[u8]) -> Option<&[u8]>
    ensures { option_map (λ behind. behind.now) result
        ≡ option_map (λ found. found.1) (kinds_at text.now) }
{
    let mut rest = text;
    while let Some((_, behind)) = kind_at(rest) {
        rest = behind;
    }
    behind_end(rest)
}

/// The kinds that a text begins with, each with a name of its own, where `)` ends them.
fn kinds(alloc: Global, text: &[u8]) -> Result<List<Kind>, NoMemory>
    ensures { IfOk result (λ kinds. IfSome (kinds_at text.now) (λ found. kinds ≡ found.0)) }
{
    let mut kinds = List::new(alloc);
    let mut rest = text;
    while let Some((said, behind)) = kind_at(rest) {
        kinds.push(said.to_kind(alloc)?)?;
        rest = behind;
    }
    Ok(kinds)
}

/// The kind of a result, `Some(None)` where there is no result.
fn result_kind(text: &[u8]) -> Option<Option<Said>>
    ensures found { option_map (option_map kind_of) result ≡ result_kind text.now }
    ensures named { IfSome result (λ gives. IfSome gives IsSaid) }
{
    if text == b"V".as_slice() {
        return Some(None);
    }
    field_said(text).map(Some)
}

/// The kind of the result that the descriptor of a method says: none where it is no descriptor of
/// a method, and `Some(None)` where the method gives no result.
#[tactic(auto, using(crate::proofs::Following::signature_gives))]
pub fn method_gives(text: &[u8]) -> Option<Option<Said>>
    ensures found { option_map (option_map kind_of) result
        ≡ option_map (λ signature. signature.gives) (method_signature text.now) }
    ensures named { IfSome result (λ gives. IfSome gives IsSaid) }
{
    match text {
        [b'(', rest @ ..] => result_kind(behind_kinds(rest)?),
        _ => None,
    }
}

/// What the descriptor of a method says, with names of its own.
pub fn method_signature(alloc: Global, text: &[u8]) -> Result<Option<Signature>, NoMemory>
    ensures { IfOk result (λ signature. signature ≡ method_signature text.now) }
{
    let Some(said) = method_gives(text) else {
        return Ok(None);
    };
    let gives = match said {
        None => None,
        Some(said) => Some(said.to_kind(alloc)?),
    };
    let takes = kinds(alloc, &text[1..])?;
    Ok(Some(Signature { takes, gives }))
}

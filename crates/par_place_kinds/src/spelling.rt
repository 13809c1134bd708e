//! Kinds as bytes, so that lists of them are compared at once.

ghost use Rattle.std.specs.Prelude.{◌≡◌, ◌+◌, length, map, IsTrue, IfOk, IfSome};
ghost use Rattle.par_place_kinds.specs.Marks.{kind_of, kinds_of};
ghost use Rattle.par_place_kinds.specs.Spelled.{shape_of, name_of, names_of};

use crate::kind::PlaceKind;
use par_base::memory::NoMemory;
use std::alloc::Global;
use std::marker::Model;

/// The longest name that is spelled.
const LONGEST_NAME: usize = 250;

/// What a class is called, where a kind is of its objects.
fn name_of<'f>(kind: PlaceKind<'f>) -> &'f [u8]
    ensures { result.now ≡ name_of (kind_of kind.entry) }
{
    match kind {
        PlaceKind::Object(name) => name,
        _ => &[],
    }
}

/// The shape of the objects of a class of this name, if a byte tells it.
fn shape_of_objects(name: &[u8]) -> Option<u8>
    ensures { IfSome result (λ shape. shape ≡ 5 + length name.now) }
{
    if name.len() > LONGEST_NAME {
        return None;
    }
    Some(5 + name.len() as u8)
}

/// What a kind is and how long its name is, if a byte tells it.
fn shape_of(kind: PlaceKind) -> Option<u8>
    ensures { IfSome result (λ shape. shape ≡ shape_of (kind_of kind.entry)) }
{
    match kind {
        PlaceKind::Top => Some(0),
        PlaceKind::Int => Some(1),
        PlaceKind::Null => Some(2),
        PlaceKind::Base(true) => Some(3),
        PlaceKind::Base(false) => Some(4),
        PlaceKind::Object(name) => shape_of_objects(name),
    }
}

/// The shapes of kinds, if a byte tells each.
fn shapes_of(alloc: Global, kinds: &[PlaceKind]) -> Result<Option<Vec<u8>>, NoMemory>
    ensures { IfOk result (λ all. IfSome all (λ shapes.
        shapes.items ≡ map shape_of (kinds_of kinds.now))) }
{
    let mut shapes = Vec::with_capacity(alloc, kinds.len())?;
    for kind in kinds {
        let Some(shape) = shape_of(*kind) else {
            return Ok(None);
        };
        shapes.push(shape)?;
    }
    Ok(Some(shapes))
}

/// The names of kinds, one behind another.
fn names_of(alloc: Global, kinds: &[PlaceKind]) -> Result<Vec<u8>, NoMemory>
    ensures { IfOk result (λ names. names.items ≡ names_of (kinds_of kinds.now)) }
{
    let mut names = Vec::new(alloc);
    for kind in kinds {
        names.extend_from_slice(name_of(*kind))?;
    }
    Ok(names)
}

/// Kinds as bytes. Contracts see the kinds.
#[derive(Drop)]
pub(crate) struct Spelling {
    shapes: Vec<u8>,
    names: Vec<u8>,
}

impl Model for Spelling {
    ghost use Rattle.std.specs.Prelude.{List};
    ghost use Rattle.par_kinds.specs.declared.frame.VKind.{VKind};
    ghost use Rattle.par_place_kinds.specs.Spelled.{spelled};

    ghost Value = { List VKind };

    ghost view = { λ s. spelled s.shapes.items s.names.items };
}

impl Spelling {
    /// These kinds, where no name is long.
    #[tactic(auto, using(crate::proofs::Spelled::spelled_is))]
    pub(crate) fn of(alloc: Global, kinds: &[PlaceKind]) -> Result<Option<Spelling>, NoMemory>
        ensures { IfOk result (λ all. IfSome all (λ spelling. spelling ≡ kinds_of kinds.now)) }
    {
        let Some(shapes) = shapes_of(alloc, kinds)? else {
            return Ok(None);
        };
        let names = names_of(alloc, kinds)?;
        Ok(Some(Spelling { shapes, names }))
    }

    /// Whether it has the bytes of another.
    pub(crate) fn is_same(&self, other: &Spelling) -> bool
        ensures { IsTrue result → self.now ≡ other.now }
    {
        self.shapes.as_slice() == other.shapes.as_slice()
            && self.names.as_slice() == other.names.as_slice()
    }
}

//! The objects of one class, whose fields lie in one vector.

ghost use Rattle.std.specs.Prelude.{◌≡◌, ◌<◌, ◌≤◌, ◌*◌, ◌⊎◌, [], ◌∷◌, ◌++◌, length, is_some};
ghost use Rattle.std.specs.Prelude.{slice_get, IfSome, IfNone, IfOk, OnOk, OnErr};
ghost use Rattle.std.specs.List.{All, flat_map};
ghost use Rattle.par_heap.specs.Cut.{cut, IsPlace};
ghost use Rattle.par_heap.specs.Heap.{field_in, with_field_in};

use par_base::memory::NoMemory;
use par_values::value::MVal;
use std::alloc::Global;

/// The objects of one class.
#[derive(Drop)]
pub(crate) struct Block {
    /// How many fields each object has.
    width: usize,
    /// How many objects there are.
    count: u32,
    /// The fields of all, in the order of the births.
    fields: Vec<MVal>,
    ghost whole: { length fields.items ≡ count * width },
}

impl Block {
    /// No object.
    #[tactic(auto, using(crate::proofs::Cut::cut_none))]
    pub(crate) fn new(alloc: Global) -> Block
        ensures { cut result.count result.width result.fields.items ≡ [] }
    {
        Block {
            width: 0,
            count: 0,
            fields: Vec::new(alloc),
        }
    }

    /// One object.
    #[tactic(auto, using(crate::proofs::Cut::cut_one))]
    pub(crate) fn of(alloc: Global, fields: &[MVal]) -> Result<Block, NoMemory>
        ensures { IfOk result (λ block.
            cut block.count block.width block.fields.items ≡ fields.now ∷ []) }
    {
        let width = fields.len();
        let fields = Vec::from_slice(alloc, fields)?;
        Ok(Block {
            width,
            count: 1,
            fields,
        })
    }

    /// The number of objects.
    #[tactic(auto, using(crate::proofs::Cut::length_cut))]
    pub(crate) fn count(&self) -> u32
        ensures { result ≡ length (cut self.now.count self.now.width self.now.fields.items) }
    {
        self.count
    }

    /// Puts an object behind the others.
    pub(crate) fn add(&mut self, fields: &[MVal]) -> Result<(), NoMemory>
        requires few { length (cut self.old.count self.old.width self.old.fields.items)
            < 4294967295 }
        requires same { All (λ object. length object ≡ length fields.now)
            (cut self.old.count self.old.width self.old.fields.items) }
        ensures added { OnOk result (cut self.new.count self.new.width self.new.fields.items
            ≡ cut self.old.count self.old.width self.old.fields.items ++ fields.now ∷ []) }
        ensures refused { OnErr result (cut self.new.count self.new.width self.new.fields.items
            ≡ cut self.old.count self.old.width self.old.fields.items) }
    {
        self.fields.extend_from_slice(fields)?;
        self.width = fields.len();
        self.count += 1;
        Ok(())
    }

    /// The place of a field of an object among all fields, where both are there.
    fn place(&self, n: u32, field: u16) -> Option<usize>
        ensures within { IfSome result
            (λ place. IsPlace self.now.count self.now.width n field place) }
        ensures outside { IfNone result ((self.now.count ≤ n) ⊎ (self.now.width ≤ field)) }
    {
        if n >= self.count || field as usize >= self.width {
            return None;
        }
        Some(n as usize * self.width + field as usize)
    }

    /// What a field of an object holds, where both are there.
    #[inline(always)]
    pub(crate) fn get(&self, n: u32, field: u16) -> Option<MVal>
        ensures { result
            ≡ field_in (cut self.now.count self.now.width self.now.fields.items) n field }
    {
        let place = self.place(n, field)?;
        self.held(place)
    }

    /// What the field at a place among all fields holds.
    fn held(&self, place: usize) -> Option<MVal>
        ensures { result ≡ slice_get self.now.fields.items place }
    {
        self.fields.get(place).copied()
    }

    /// Writes a field of an object, and tells whether both are there.
    pub(crate) fn set(&mut self, n: u32, field: u16, value: MVal) -> bool
        ensures written { cut self.new.count self.new.width self.new.fields.items
            ≡ with_field_in (cut self.old.count self.old.width self.old.fields.items) n field
            value }
        ensures there { result
            ≡ is_some (field_in (cut self.old.count self.old.width self.old.fields.items) n field) }
    {
        match self.place(n, field) {
            Some(place) => {
                self.fields[place] = value;
                true
            }
            None => false,
        }
    }

    /// The fields of all objects, in the order of the births.
    #[tactic(auto, using(crate::proofs::Cut::cut_flat))]
    pub(crate) fn all(&self) -> &[MVal]
        ensures { result.now
            ≡ flat_map (λ object. object)
            (cut self.now.count self.now.width self.now.fields.items) }
    {
        self.fields.as_slice()
    }
}

ghost use Rattle.std.specs.Prelude.{◌≡◌, ◌<◌, ◌≤◌, ◌+◌, [], ◌∷◌, ◌++◌, length, is_some, IfOk, OnOk};
ghost use Rattle.std.specs.Prelude.{OnErr};
ghost use Rattle.std.specs.List.{All, flat_map};
ghost use Rattle.par_heap.specs.Heap.{objects_of, field_at, with_object, with_field};

use crate::block::Block;
use par_base::memory::NoMemory;
use par_values::value::MVal;
use std::alloc::Global;
use std::marker::Model;

/// The objects of a running program, by their classes and their numbers among the objects of one
/// class. Contracts see of each class the list of its objects, and of each object the list of its
/// fields.
#[derive(Drop)]
pub struct Heap {
    alloc: Global,
    // Up to the last class of which there is an object.
    classes: Vec<Block>,
}

impl Model for Heap {
    ghost use Rattle.std.specs.Prelude.{map};
    ghost use Rattle.par_heap.specs.Blocks.{shown};
    ghost use Rattle.par_heap.specs.Heap.{Objects};

    ghost Value = { Objects };

    ghost view = { λ heap. map shown heap.classes.items };
}

impl Heap {
    /// No object.
    pub fn new(alloc: Global) -> Heap
        ensures { result ≡ [] }
    {
        Heap {
            alloc,
            classes: Vec::new(alloc),
        }
    }

    /// Makes the next object of a class, whose fields start with these values, and gives its
    /// number. The objects of one class count from 0.
    pub fn birth(&mut self, class: u16, fields: &[MVal]) -> Result<u32, NoMemory>
        requires few { length (objects_of self.old class) < 4294967295 }
        requires same { All (λ object. length object ≡ length fields.now)
            (objects_of self.old class) }
        ensures born { OnOk result (self.new ≡ with_object self.old class fields.now) }
        ensures number { IfOk result (λ n. n ≡ length (objects_of self.old class)) }
        ensures refused { OnErr result (self.new ≡ self.old) }
    {
        let class = class as usize;
        if class >= self.classes.len() {
            self.append(class, fields)?;
            return Ok(0);
        }
        let number = self.classes[class].count();
        self.classes[class].add(fields)?;
        Ok(number)
    }

    /// Makes the first object of a class behind all that have one.
    fn append(&mut self, class: usize, fields: &[MVal]) -> Result<(), NoMemory>
        requires behind { length self.old ≤ class }
        requires few { class < 65536 }
        ensures born { OnOk result (self.new ≡ with_object self.old class fields.now) }
        ensures refused { OnErr result (self.new ≡ self.old) }
    {
        let block = Block::of(self.alloc, fields)?;
        self.classes.reserve(class + 1 - self.classes.len())?;
        for _ in self.classes.len()..class {
            self.classes.push(Block::new(self.alloc)).unwrap();
        }
        self.classes.push(block).unwrap();
        Ok(())
    }

    /// What a field of an object holds, none where the object or the field is not there.
    #[inline(always)]
    pub fn get(&self, class: u16, n: u32, field: u16) -> Option<MVal>
        ensures { result ≡ field_at self.now class n field }
    {
        self.classes.get(class as usize)?.get(n, field)
    }

    /// Writes a field of an object, and tells whether the object and the field are there.
    pub fn set(&mut self, class: u16, n: u32, field: u16, value: MVal) -> bool
        ensures written { self.new ≡ with_field self.old class n field value }
        ensures there { result ≡ is_some (field_at self.old class n field) }
    {
        let class = class as usize;
        if class >= self.classes.len() {
            return false;
        }
        self.classes[class].set(n, field, value)
    }

    /// The fields of all objects of a class, in the order of the births.
    pub fn objects(&self, class: u16) -> &[MVal]
        ensures { result.now ≡ flat_map (λ object. object) (objects_of self.now class) }
    {
        match self.classes.get(class as usize) {
            Some(block) => block.all(),
            None => &[],
        }
    }
}

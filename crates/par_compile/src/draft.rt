//! The methods of a file in the making, with the pool of the file.

ghost use Rattle.std.specs.Prelude.{◌≡◌, ◌+◌, ◌<◌, ◌≤◌, length, OnOk};
ghost use Rattle.par_pool.specs.Spelling.{IsText};
ghost use Rattle.par_compile.specs.Drafts.{PutsMember};

use crate::entries::text;
use par_base::list::List;
use par_base::memory::NoMemory;
use par_class::{CodeAttr, MethodFile};
use par_pool::PoolBuilder;
use std::alloc::Global;

/// The methods so far, and the constants of the class so far.
#[derive(Drop)]
pub struct Draft {
    pub pool: PoolBuilder,
    pub methods: List<MethodFile>,
}

impl Draft {
    /// One more method, whose code is placed already.
    pub fn put(
        &mut self,
        alloc: Global,
        access: u16,
        name: &[u8],
        descriptor: &[u8],
        code: Option<CodeAttr>,
    ) -> Result<(), NoMemory>
        requires room { length self.old.pool + 2 < 65535 }
        requires name { IsText name.now }
        requires descriptor { IsText descriptor.now }
        ensures puts { OnOk result
            (PutsMember access name.now descriptor.now code self.old self.new) }
        ensures few { OnOk result (length self.new.pool ≤ length self.old.pool + 2) }
    {
        let name = text(&mut self.pool, name)?;
        let descriptor = text(&mut self.pool, descriptor)?;
        self.methods.push(MethodFile {
            access,
            name,
            descriptor,
            code,
            attributes: List::new(alloc),
        })?;
        Ok(())
    }
}

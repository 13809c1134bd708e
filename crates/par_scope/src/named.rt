//! Names of what a table lists.

ghost use Rattle.std.specs.Prelude.{◌≡◌, ℕ, List, IfOk, map};
ghost use Rattle.par_index.specs.Texts.{texts};

use par_base::memory::NoMemory;
use par_base::name::Name;
use par_index::NameIndex;
use par_typed::table::{ChannelInfo, ClassInfo, FieldInfo, MethodInfo};
use std::alloc::Global;

/// What a table has by a name.
pub(crate) trait Named {
    ghost named: { Self → List ℕ };

    /// The name.
    fn name(&self) -> &Name
        ensures { result.now ≡ named self.now };
}

impl Named for FieldInfo {
    ghost named = { λ field. field.name };

    fn name(&self) -> &Name {
        &self.name
    }
}

impl Named for ChannelInfo {
    ghost named = { λ channel. channel.name };

    fn name(&self) -> &Name {
        &self.name
    }
}

impl Named for MethodInfo {
    ghost named = { λ method. method.name };

    fn name(&self) -> &Name {
        &self.name
    }
}

impl Named for ClassInfo {
    ghost named = { λ class. class.name };

    fn name(&self) -> &Name {
        &self.name
    }
}

/// An index of the names of these.
pub(crate) fn by_name<'a, T: Named>(
    alloc: Global,
    items: &'a [T],
) -> Result<NameIndex<'a>, NoMemory>
    ensures { IfOk result (λ index. texts index.names.items ≡ map T.named items.now) }
{
    let mut names = Vec::new(alloc);
    for item in items {
        names.push(item.name().bytes())?;
    }
    NameIndex::of(alloc, names)
}

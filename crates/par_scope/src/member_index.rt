//! The names of the members of a class.

ghost use Rattle.std.specs.Prelude.{◌≡◌, IfOk};
ghost use Rattle.par_scope.specs.Names.{member_names};
ghost use Rattle.par_scope.specs.Indexed.{members_indexed};

use crate::named::by_name;
use par_base::memory::NoMemory;
use par_index::NameIndex;
use par_typed::table::ClassInfo;
use std::alloc::Global;

/// The names of the members of a class: fields have one set of names, channels and methods have
/// theirs.
#[derive(Drop)]
pub struct MemberIndex<'a> {
    pub(crate) fields: NameIndex<'a>,
    pub(crate) channels: NameIndex<'a>,
    pub(crate) methods: NameIndex<'a>,
}

/// The names of the members of this class.
pub(crate) fn members_of_class<'a>(
    alloc: Global,
    class: &'a ClassInfo,
) -> Result<MemberIndex<'a>, NoMemory>
    ensures { IfOk result (λ index. members_indexed index ≡ member_names class.now) }
{
    Ok(MemberIndex {
        fields: by_name(alloc, class.fields.as_slice())?,
        channels: by_name(alloc, class.channels.as_slice())?,
        methods: by_name(alloc, class.methods.as_slice())?,
    })
}

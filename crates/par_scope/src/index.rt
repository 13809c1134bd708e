//! The names of a table.

ghost use Rattle.std.specs.Prelude.{◌≡◌, ◌<◌, ◌^◌, IfOk, IfSome, map, length, slice_get};
ghost use Rattle.std.specs.Option.{option_copied, option_map};
ghost use Rattle.par_index.specs.Texts.{texts};
ghost use Rattle.par_scope.specs.Names.{number_in, names_of, member_names, fields_in, channels_in};
ghost use Rattle.par_scope.specs.Names.{methods_in, IsFewTable, IsFewMembers};
ghost use Rattle.par_scope.specs.Indexed.{members_indexed};

use crate::member_index::{MemberIndex, members_of_class};
use crate::named::by_name;
use par_base::memory::NoMemory;
use par_base::name::Name;
use par_index::NameIndex;
use par_typed::table::{ClassInfo, Table};
use std::alloc::Global;
use std::marker::Model;

/// The names of the classes of a table and of their members. Contracts see it as lists of names.
#[derive(Drop)]
pub struct TableIndex<'a> {
    classes: NameIndex<'a>,
    members: Vec<MemberIndex<'a>>,
}

impl<'a> Model for TableIndex<'a> {
    ghost use Rattle.std.specs.Prelude.{map};
    ghost use Rattle.par_index.specs.Texts.{texts};
    ghost use Rattle.par_scope.specs.Names.{Names, AreFew};
    ghost use Rattle.par_scope.specs.Indexed.{members_indexed};

    ghost Value = { Names };

    ghost view = { λ index. record {
      classes = texts index.classes.names.items;
      members = map members_indexed index.members.items;
    } };

    ghost invariant = { λ index. AreFew (record {
      classes = texts index.classes.names.items;
      members = map members_indexed index.members.items;
    }) };
}

impl<'a> TableIndex<'a> {
    /// The names of this table.
    pub fn of(alloc: Global, table: &'a Table) -> Result<TableIndex<'a>, NoMemory>
        requires { IsFewTable table.now }
        ensures { IfOk result (λ index. index ≡ names_of table.now) }
    {
        let classes = table.classes.as_slice();
        let members = members_of(alloc, classes)?;
        Ok(TableIndex {
            classes: by_name(alloc, classes)?,
            members,
        })
    }

    fn members_of(&self, class: u16) -> Option<&MemberIndex<'a>>
        ensures seen { option_map members_indexed (option_copied result)
            ≡ slice_get self.now.members class }
        ensures few { IfSome result (λ members. IsFewMembers (members_indexed members.now)) }
    {
        self.members.get(usize::from(class))
    }

    /// The number of the class of this name.
    pub fn class(&self, name: &Name) -> Option<u16>
        ensures { result ≡ number_in self.now.classes name.now }
    {
        number_in(&self.classes, name)
    }

    /// The number of the field of this name in this class.
    pub fn field(&self, class: u16, name: &Name) -> Option<u16>
        ensures { result ≡ number_in (fields_in (slice_get self.now.members class)) name.now }
    {
        match self.members_of(class) {
            None => None,
            Some(members) => number_in(&members.fields, name),
        }
    }

    /// The number of the channel of this name in this class.
    pub fn channel(&self, class: u16, name: &Name) -> Option<u16>
        ensures { result ≡ number_in (channels_in (slice_get self.now.members class)) name.now }
    {
        match self.members_of(class) {
            None => None,
            Some(members) => number_in(&members.channels, name),
        }
    }

    /// The number of the method of this name in this class.
    pub fn method(&self, class: u16, name: &Name) -> Option<u16>
        ensures { result ≡ number_in (methods_in (slice_get self.now.members class)) name.now }
    {
        match self.members_of(class) {
            None => None,
            Some(members) => number_in(&members.methods, name),
        }
    }
}

#[tactic(auto, using(crate::proofs::Numbers::numbers))]
fn number_in(names: &NameIndex<'_>, name: &Name) -> Option<u16>
    requires { length (texts names.now.names.items) < 2 ^ 16 }
    ensures { result ≡ number_in (texts names.now.names.items) name.now }
{
    match names.place(name) {
        None => None,
        Some(place) => Some(place as u16),
    }
}

fn members_of<'a>(alloc: Global, classes: &'a [ClassInfo]) -> Result<Vec<MemberIndex<'a>>, NoMemory>
    ensures { IfOk result (λ members.
        map members_indexed members.items ≡ map member_names classes.now) }
{
    let mut members = Vec::new(alloc);
    for class in classes {
        members.push(members_of_class(alloc, class)?)?;
    }
    Ok(members)
}

//! What the numbers of a table name.

ghost use Rattle.std.specs.Prelude.{◌≡◌, codes, slice_get};
ghost use Rattle.std.specs.Option.{option_copied};
ghost use Rattle.par_run_laws.specs.Names.{class_named, made_named, field_named, channel_named};
ghost use Rattle.par_run_laws.specs.Names.{first_field, first_value, place_of, main_of};
ghost use Rattle.par_source_state.specs.Named.{member, name_of};

use par_base::name::Name;
use par_typed::table::{ClassInfo, MethodInfo, Table};
use par_typed::ty::Ty;
use par_values::value::MVal;

/// A member with its class.
#[derive(Clone, Copy)]
pub struct Member<'a> {
    pub class: &'a Name,
    pub name: &'a Name,
}

fn class_at(table: &Table, class: u16) -> Option<&ClassInfo>
    ensures { option_copied result ≡ slice_get table.now.classes class }
{
    table.classes.get(usize::from(class))
}

/// The name of a class.
pub fn class(table: &Table, class: u16) -> Option<&Name>
    ensures { name_of result ≡ class_named table.now class }
{
    match class_at(table, class) {
        Some(info) => Some(&info.name),
        None => None,
    }
}

/// The name of a class of which objects are made.
pub fn made(table: &Table, class: u16) -> Option<&Name>
    ensures { name_of result ≡ made_named table.now class }
{
    match class_at(table, class) {
        Some(info) => {
            if info.exception {
                None
            } else {
                Some(&info.name)
            }
        }
        None => None,
    }
}

/// The names of a field and of its class.
pub fn field(table: &Table, class: u16, field: u16) -> Option<Member<'_>>
    ensures { member result ≡ field_named table.now class field }
{
    let info = class_at(table, class)?;
    match info.fields.get(usize::from(field)) {
        Some(field) => Some(Member {
            class: &info.name,
            name: &field.name,
        }),
        None => None,
    }
}

/// The names of a channel and of its class.
pub fn channel(table: &Table, class: u16, channel: u16) -> Option<Member<'_>>
    ensures { member result ≡ channel_named table.now class channel }
{
    let info = class_at(table, class)?;
    match info.channels.get(usize::from(channel)) {
        Some(channel) => Some(Member {
            class: &info.name,
            name: &channel.name,
        }),
        None => None,
    }
}

fn first_value(ty: Ty) -> MVal
    ensures { result ≡ first_value ty }
{
    match ty {
        Ty::Int | Ty::Boolean => MVal::Int(0),
        Ty::Class(_) | Ty::Null | Ty::Void => MVal::Null,
    }
}

/// What a field holds before it is written.
pub fn first_field(table: &Table, class: u16, field: u16) -> MVal
    ensures { result ≡ first_field table.now class field }
{
    match class_at(table, class) {
        Some(info) => match info.fields.get(usize::from(field)) {
            Some(field) => first_value(field.ty),
            None => MVal::Null,
        },
        None => MVal::Null,
    }
}

/// The number of the method `main`.
pub(crate) fn main(table: &Table) -> usize
    ensures { result ≡ main_of table.now }
{
    match class_at(table, table.main) {
        Some(info) => main_place(info.methods.as_slice()),
        None => 0,
    }
}

/// The place of the first method `main`, and else how many methods there are.
fn main_place(methods: &[MethodInfo]) -> usize
    ensures { result ≡ place_of (codes "main") methods.now }
{
    for (place, method) in methods.iter().enumerate() {
        if method.name.bytes() == b"main".as_slice() {
            return place;
        }
    }
    methods.len()
}

//! The classes of some files and the members of each, as they are looked up by what a constant
//! says.

ghost use Rattle.std.specs.Prelude.{◌≡◌, ◌<◌, ◌^◌, length, map, slice_get, IfOk, IfSome};
ghost use Rattle.std.specs.Option.{option_map};
ghost use Rattle.std.specs.List.{All};
ghost use Rattle.par_single.specs.Members.{member_at};
ghost use Rattle.par_references.specs.Conditions.{IsSmall};
ghost use Rattle.par_references.specs.Named.{fields_of, methods_of, declared};
ghost use Rattle.par_references.specs.Named.{field_declared, method_declared, named_by};
ghost use Rattle.par_references.specs.Placed.{key_place};
ghost use Rattle.par_references.specs.Twice.{repeated_class};

use crate::builtin::{builtin_field, builtin_method};
use crate::classes::Classes;
use crate::entry::{Declared, Named};
use crate::keys::Key;
use crate::members::Members;
use crate::texts::TextIndex;
use par_index::par_base::memory::NoMemory;
use par_single::member::naming_at;
use par_single::par_class::file::ClassFile;
use par_single::par_pool::constant::Constant;
use std::alloc::Global;

/// Some files, with their classes and the members of each.
#[derive(Drop)]
pub struct Tables<'f> {
    pub files: &'f [ClassFile],
    classes: Classes<'f>,
    pub members: Vec<Members<'f>>,
    ghost same: { classes.files.now ≡ files.now },
    ghost each: { map (λ m. m.file.now) members.items ≡ files.now },
    ghost among: { All (λ m. m.texts.files.now ≡ files.now) members.items },
}

/// The members of each of the files that have these texts.
fn all_members<'f>(alloc: Global, index: &TextIndex<'_, 'f>) -> Result<Vec<Members<'f>>, NoMemory>
    requires small { All IsSmall index.now.classes.now.files.now }
    ensures each { IfOk result
        (λ all. map (λ m. m.file.now) all.items ≡ index.now.classes.now.files.now) }
    ensures among { IfOk result
        (λ all. All (λ m. m.texts.files.now ≡ index.now.classes.now.files.now) all.items) }
{
    let mut all = Vec::new(alloc);
    for file in index.classes.files {
        all.push(Members::of(alloc, index, file)?)?;
    }
    Ok(all)
}

/// The members of each of the files that have these classes. Their texts are looked up here alone.
fn looked_up<'f>(alloc: Global, classes: &Classes<'f>) -> Result<Vec<Members<'f>>, NoMemory>
    requires few { length classes.now.files.now < 2 ^ 16 }
    requires small { All IsSmall classes.now.files.now }
    ensures each { IfOk result
        (λ all. map (λ m. m.file.now) all.items ≡ classes.now.files.now) }
    ensures among { IfOk result
        (λ all. All (λ m. m.texts.files.now ≡ classes.now.files.now) all.items) }
{
    let index = TextIndex::of(alloc, classes)?;
    let all = all_members(alloc, &index);
    drop(index);
    all
}

impl<'f> Tables<'f> {
    /// The tables of some files.
    pub fn of(alloc: Global, files: &'f [ClassFile]) -> Result<Tables<'f>, NoMemory>
        requires few { length files.now < 2 ^ 16 }
        requires small { All IsSmall files.now }
        ensures { IfOk result (λ tables. tables.files.now ≡ files.entry.now) }
    {
        let classes = Classes::of(alloc, files)?;
        let members = looked_up(alloc, &classes)?;
        Ok(Tables {
            files,
            classes,
            members,
        })
    }

    /// The place of the first file whose class has a name that is taken, or that of an earlier
    /// file.
    pub fn repeated_class(&self) -> Option<u16>
        ensures { result ≡ repeated_class self.now.files.now }
    {
        self.classes.repeated()
    }

    /// The members of the file at this place.
    fn members_of(&self, class: u16) -> Option<&Members<'f>>
        ensures file { option_map (λ m. m.now.file.now) result
            ≡ slice_get self.now.files.now class }
        ensures files { IfSome result (λ m. m.now.texts.files.now ≡ self.now.files.now) }
    {
        self.members.get(class as usize)
    }

    /// The field of this key in one of the files.
    fn listed_field(&self, class: u16, key: &Key) -> Named
        ensures { result ≡ declared Named.Field class
            (key_place fields_of self.now.files.now class key.now) }
    {
        let Some(members) = self.members_of(class) else {
            return Named::Nothing;
        };
        match members.field(key) {
            Some(place) => Named::Field(Declared { class, place }),
            None => Named::Nothing,
        }
    }

    /// The method of this key in one of the files.
    fn listed_method(&self, class: u16, key: &Key) -> Named
        ensures { result ≡ declared Named.Method class
            (key_place methods_of self.now.files.now class key.now) }
    {
        let Some(members) = self.members_of(class) else {
            return Named::Nothing;
        };
        match members.method(key) {
            Some(place) => Named::Method(Declared { class, place }),
            None => Named::Nothing,
        }
    }

    /// The field that these indices of the constant pool of one of the files name.
    #[tactic(auto, unfolding(crate::specs::Named::field_of))]
    fn field(&self, from: &Members, class: u16, member: u16) -> Named
        requires { from.now.texts.files.now ≡ self.now.files.now }
        ensures { result ≡ field_declared self.now.files.now
            (member_at from.now.file.now.pool.entries class member) }
    {
        match from.class_at(class) {
            Named::Class(place) => self.listed_field(place, &from.key_at(member)),
            Named::Builtin(builtin) => {
                builtin_field(
                    builtin,
                    naming_at(from.file.pool.entries.as_slice(), class, member),
                )
            }
            _ => Named::Nothing,
        }
    }

    /// The method that these indices of the constant pool of one of the files name.
    #[tactic(auto, unfolding(crate::specs::Named::method_of))]
    fn method(&self, from: &Members, class: u16, member: u16) -> Named
        requires { from.now.texts.files.now ≡ self.now.files.now }
        ensures { result ≡ method_declared self.now.files.now
            (member_at from.now.file.now.pool.entries class member) }
    {
        match from.class_at(class) {
            Named::Class(place) => self.listed_method(place, &from.key_at(member)),
            Named::Builtin(builtin) => {
                builtin_method(
                    builtin,
                    naming_at(from.file.pool.entries.as_slice(), class, member),
                )
            }
            _ => Named::Nothing,
        }
    }

    /// What a constant of one of the files names.
    #[tactic(auto, unfolding(crate::specs::Named::named_by))]
    pub fn named_by(&self, from: &Members, constant: &Constant) -> Named
        requires { from.now.texts.files.now ≡ self.now.files.now }
        ensures { result
            ≡ named_by self.now.files.now from.now.file.now.pool.entries constant.now }
    {
        match constant {
            Constant::Class(name) => from.class(*name),
            Constant::Field(class, member) => self.field(from, *class, *member),
            Constant::Method(class, member) => self.method(from, *class, *member),
            _ => Named::Nothing,
        }
    }
}

//! The members of a class, as they are looked up by name and descriptor.

ghost use Rattle.std.specs.Prelude.{◌≡◌, ℕ, position, IfOk};
ghost use Rattle.par_single.specs.Members.{text_at, class_name_at, member_at};
ghost use Rattle.par_single.specs.Described.{is_method_right};
ghost use Rattle.par_references.specs.Conditions.{IsSmall};
ghost use Rattle.par_references.specs.Firsts.{first_repeated};
ghost use Rattle.par_references.specs.Named.{is_same, fields_of, methods_of, class_named};
ghost use Rattle.par_references.specs.Placed.{AreAmong, key_of, same_key, keys_of};

use crate::entry::Named;
use crate::keys::{Key, Keys};
use crate::places::narrow;
use crate::texts::{TextIndex, Texts};
use par_index::par_base::memory::NoMemory;
use par_single::described::is_method_right;
use par_single::par_class::file::{ClassFile, MethodFile};
use par_single::par_class::is_native;
use par_single::par_pool::constant::Constant;
use par_single::par_pool::kind::entry;
use std::alloc::Global;

/// The fields and the methods of one of some files, and what its constants name.
#[derive(Drop)]
pub struct Members<'f> {
    pub file: &'f ClassFile,
    pub texts: Texts<'f>,
    fields: Keys,
    methods: Keys,
    ghost small: { IsSmall file.now },
    ghost same: { texts.entries.now ≡ file.now.pool.entries },
    ghost among: { AreAmong texts.files.now file.now },
    ghost fields_keyed: { fields.keys.items ≡ keys_of texts.files.now (fields_of file.now) },
    ghost methods_keyed: { methods.keys.items ≡ keys_of texts.files.now (methods_of file.now) },
}

/// The keys of the fields of a file whose constant pool has these texts.
fn field_keys(alloc: Global, texts: &Texts, file: &ClassFile) -> Result<Vec<Key>, NoMemory>
    requires { texts.now.entries.now ≡ file.now.pool.entries }
    ensures { IfOk result
        (λ keys. keys.items ≡ keys_of texts.now.files.now (fields_of file.now)) }
{
    let mut keys = Vec::new(alloc);
    for field in file.fields.as_slice() {
        keys.push(texts.key(field.name, field.descriptor))?;
    }
    Ok(keys)
}

/// The keys of the methods of a file whose constant pool has these texts.
fn method_keys(alloc: Global, texts: &Texts, file: &ClassFile) -> Result<Vec<Key>, NoMemory>
    requires { texts.now.entries.now ≡ file.now.pool.entries }
    ensures { IfOk result
        (λ keys. keys.items ≡ keys_of texts.now.files.now (methods_of file.now)) }
{
    let mut keys = Vec::new(alloc);
    for method in file.methods.as_slice() {
        keys.push(texts.key(method.name, method.descriptor))?;
    }
    Ok(keys)
}

/// The table of the fields of a file whose constant pool has these texts.
fn field_table(alloc: Global, texts: &Texts, file: &ClassFile) -> Result<Keys, NoMemory>
    requires { texts.now.entries.now ≡ file.now.pool.entries }
    ensures { IfOk result
        (λ table. table.keys.items ≡ keys_of texts.now.files.now (fields_of file.now)) }
{
    let keys = field_keys(alloc, texts, file)?;
    let table = Keys::of(alloc, keys)?;
    Ok(table)
}

/// The table of the methods of a file whose constant pool has these texts.
fn method_table(alloc: Global, texts: &Texts, file: &ClassFile) -> Result<Keys, NoMemory>
    requires { texts.now.entries.now ≡ file.now.pool.entries }
    ensures { IfOk result
        (λ table. table.keys.items ≡ keys_of texts.now.files.now (methods_of file.now)) }
{
    let keys = method_keys(alloc, texts, file)?;
    let table = Keys::of(alloc, keys)?;
    Ok(table)
}

impl<'f> Members<'f> {
    /// The members of one of the files that have these texts.
    pub(crate) fn of(
        alloc: Global,
        index: &TextIndex<'_, 'f>,
        file: &'f ClassFile,
    ) -> Result<Members<'f>, NoMemory>
        requires small { IsSmall file.now }
        requires among { AreAmong index.now.classes.now.files.now file.now }
        ensures file { IfOk result (λ members. members.file.now ≡ file.entry.now) }
        ensures files { IfOk result
            (λ members. members.texts.files.now ≡ index.now.classes.now.files.now) }
    {
        let texts = Texts::of(alloc, index, file.pool.entries.as_slice())?;
        let fields = field_table(alloc, &texts, file)?;
        let methods = method_table(alloc, &texts, file)?;
        Ok(Members {
            file,
            texts,
            fields,
            methods,
        })
    }

    /// The class whose name an index of the constant pool says.
    pub(crate) fn class(&self, name: u16) -> Named
        ensures { result ≡ class_named self.now.texts.files.now
            (text_at self.now.file.now.pool.entries name) }
    {
        self.texts.class(name)
    }

    /// The class that an index of the constant pool names.
    pub(crate) fn class_at(&self, class: u16) -> Named
        ensures { result ≡ class_named self.now.texts.files.now
            (class_name_at self.now.file.now.pool.entries class) }
    {
        match entry(self.file.pool.entries.as_slice(), class) {
            Some(Constant::Class(name)) => self.class(*name),
            _ => self.class(0),
        }
    }

    /// The key of the member that an index of the constant pool names.
    pub(crate) fn key_at(&self, member: u16) -> Key
        ensures { (class : ℕ) → result ≡ key_of self.now.texts.files.now
            (member_at self.now.file.now.pool.entries class member) }
    {
        match entry(self.file.pool.entries.as_slice(), member) {
            Some(Constant::NameType(name, descriptor)) => self.texts.key(*name, *descriptor),
            _ => self.texts.key(0, 0),
        }
    }

    /// The place of the field of this key.
    pub(crate) fn field(&self, key: &Key) -> Option<u16>
        ensures { result ≡ position (same_key key.now)
            (keys_of self.now.texts.files.now (fields_of self.now.file.now)) }
    {
        narrow(self.fields.place(key))
    }

    /// The place of the method of this key.
    pub(crate) fn method(&self, key: &Key) -> Option<u16>
        ensures { result ≡ position (same_key key.now)
            (keys_of self.now.texts.files.now (methods_of self.now.file.now)) }
    {
        narrow(self.methods.place(key))
    }

    /// The place of the first field that an earlier one has the name and the descriptor of.
    pub fn repeated_field(&self) -> Option<usize>
        ensures { result ≡ first_repeated is_same (fields_of self.now.file.now) }
    {
        self.fields.repeated()
    }

    /// The place of the first method that an earlier one has the name and the descriptor of.
    pub fn repeated_method(&self) -> Option<usize>
        ensures { result ≡ first_repeated is_same (methods_of self.now.file.now) }
    {
        self.methods.repeated()
    }

    /// Whether a method of the file has the descriptor of a method, and is a channel where it is
    /// native.
    pub fn is_method_right(&self, method: &MethodFile) -> bool
        ensures { result ≡ is_method_right self.now.file.now.pool.entries method.now }
    {
        // A channel has a short descriptor, so that it is read again without cost.
        self.texts.is_method(method.descriptor)
            && (!is_native(method.access)
                || is_method_right(self.file.pool.entries.as_slice(), method))
    }
}

//! What the indices of a constant pool say as texts, and where members stand in their class.

ghost use Rattle.std.specs.Prelude.{◌≡◌, []};
ghost use Rattle.par_single.specs.Members.{text_at, class_name_at, own_name, member_at, named};
ghost use Rattle.par_single.specs.Members.{is_method_of, method_place, is_static, is_initializer};
ghost use Rattle.par_single.specs.Described.{is_taken};

use par_class::file::{ClassFile, MethodFile};
use par_class::par_pool::constant::Constant;
use par_class::par_pool::kind::entry;

/// The text that an index names, no bytes where it names none.
pub fn text_at(entries: &[Constant], index: u16) -> &[u8]
    ensures { result.now ≡ text_at entries.now index }
{
    match entry(entries, index) {
        Some(Constant::Utf8(text)) => text.as_slice(),
        _ => &[],
    }
}

/// The name of the class that an index names, no bytes where it names none.
pub fn class_name_at(entries: &[Constant], index: u16) -> &[u8]
    ensures { result.now ≡ class_name_at entries.now index }
{
    match entry(entries, index) {
        Some(Constant::Class(name)) => text_at(entries, *name),
        _ => &[],
    }
}

/// The name of the class of a file.
pub fn own_name(file: &ClassFile) -> &[u8]
    ensures { result.now ≡ own_name file.now }
{
    class_name_at(file.pool.entries.as_slice(), file.this_class)
}

/// Whether a name is that of a class that every program has.
pub fn is_taken(name: &[u8]) -> bool
    ensures { result ≡ is_taken name.now }
{
    name == b"ArithmeticException".as_slice() || name == b"NullPointerException".as_slice()
}

/// How a member is named: by its class, its name and its descriptor.
#[derive(Clone, Copy)]
pub struct Naming<'f> {
    pub class: &'f [u8],
    pub name: &'f [u8],
    pub descriptor: &'f [u8],
}

/// The member of a class that an index names.
pub fn naming_at(entries: &[Constant], class: u16, index: u16) -> Naming
    ensures { named result ≡ member_at entries.now class index }
{
    let class = class_name_at(entries, class);
    match entry(entries, index) {
        Some(Constant::NameType(name, descriptor)) => Naming {
            class,
            name: text_at(entries, *name),
            descriptor: text_at(entries, *descriptor),
        },
        _ => Naming {
            class,
            name: &[],
            descriptor: &[],
        },
    }
}

/// Whether a method has this name and this descriptor.
pub fn is_method_of(
    entries: &[Constant],
    name: &[u8],
    descriptor: &[u8],
    method: &MethodFile,
) -> bool
    ensures { result ≡ is_method_of entries.now
        (record { class = []; name = name.now; descriptor = descriptor.now }) method.now }
{
    text_at(entries, method.name) == name && text_at(entries, method.descriptor) == descriptor
}

/// The place of the first method of this name and descriptor in its class.
pub fn method_place(file: &ClassFile, name: &[u8], descriptor: &[u8]) -> Option<usize>
    ensures { result ≡ method_place file.now
        (record { class = []; name = name.now; descriptor = descriptor.now }) }
{
    let entries = file.pool.entries.as_slice();
    file.methods
        .as_slice()
        .iter()
        .position(|method| is_method_of(entries, name, descriptor, method))
}

/// Whether this is the initializer, which takes and gives nothing.
pub fn is_initializer(name: &[u8], descriptor: &[u8]) -> bool
    ensures { result ≡ is_initializer
        (record { class = []; name = name.now; descriptor = descriptor.now }) }
{
    name == b"<init>".as_slice() && descriptor == b"()V".as_slice()
}

/// Whether access flags have STATIC.
pub fn is_static(access: u16) -> bool
    ensures { result ≡ is_static access }
{
    access & 8 != 0
}

//! What kind of entry an index names.

ghost use Rattle.std.specs.Prelude.{◌≡◌};
ghost use Rattle.std.specs.Option.{option_copied};
ghost use Rattle.par_pool.specs.Entries.{entry_at};
ghost use Rattle.par_pool.specs.Spelling as spelling;

use crate::constant::Constant;

/// The entry of an index, which counts from 1.
pub fn entry(entries: &[Constant], index: u16) -> Option<&Constant>
    ensures { option_copied result ≡ entry_at entries.now index }
{
    if index == 0 {
        return None;
    }
    entries.get(index as usize - 1)
}

/// Whether an index names a text.
pub fn is_text(entries: &[Constant], index: u16) -> bool
    ensures { result ≡ spelling.is_text (entry_at entries.now index) }
{
    matches!(entry(entries, index), Some(Constant::Utf8(_)))
}

/// Whether an index names a class.
pub fn is_class(entries: &[Constant], index: u16) -> bool
    ensures { result ≡ spelling.is_class (entry_at entries.now index) }
{
    matches!(entry(entries, index), Some(Constant::Class(_)))
}

/// Whether an index names a name and a descriptor.
pub fn is_member(entries: &[Constant], index: u16) -> bool
    ensures { result ≡ spelling.is_member (entry_at entries.now index) }
{
    matches!(entry(entries, index), Some(Constant::NameType(_, _)))
}

/// Whether each index that a constant has is of the kind that its place needs.
pub fn refers(entries: &[Constant], constant: &Constant) -> bool
    ensures { result ≡ spelling.refers entries.now constant.now }
{
    match constant {
        Constant::Utf8(_) | Constant::Integer(_) => true,
        Constant::Class(text) | Constant::Text(text) => is_text(entries, *text),
        Constant::Field(class, member) | Constant::Method(class, member) => {
            is_class(entries, *class) && is_member(entries, *member)
        }
        Constant::NameType(name, descriptor) => {
            is_text(entries, *name) && is_text(entries, *descriptor)
        }
    }
}

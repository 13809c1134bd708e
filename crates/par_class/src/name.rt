//! What the texts are that indices name.

ghost use Rattle.std.specs.Prelude.{◌≡◌};
ghost use Rattle.par_pool.specs.Entries.{entry_at};
ghost use Rattle.par_class.specs.Spelling as spelling;

use par_pool::constant::Constant;
use par_pool::kind::entry;

/// Whether an index names this text.
pub fn is_named(entries: &[Constant], index: u16, text: &[u8]) -> bool
    ensures { result ≡ spelling.is_named text.now (entry_at entries.now index) }
{
    match entry(entries, index) {
        Some(Constant::Utf8(bytes)) => bytes.as_slice() == text,
        _ => false,
    }
}

/// Whether an index names a class of this name.
fn is_class_named(entries: &[Constant], index: u16, text: &[u8]) -> bool
    ensures { result ≡ spelling.is_class_named text.now entries.now (entry_at entries.now index) }
{
    match entry(entries, index) {
        Some(Constant::Class(name)) => is_named(entries, *name, text),
        _ => false,
    }
}

/// Whether an index names the text `Code`.
pub fn names_code(entries: &[Constant], index: u16) -> bool
    ensures { result ≡ spelling.names_code entries.now index }
{
    is_named(entries, index, b"Code")
}

/// Whether an index names one of the two superclasses.
pub fn is_super(entries: &[Constant], index: u16) -> bool
    ensures { result ≡ spelling.is_super entries.now index }
{
    is_class_named(entries, index, b"java/lang/Object")
        || is_class_named(entries, index, b"java/lang/Exception")
}

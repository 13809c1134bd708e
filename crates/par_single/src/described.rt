//! Whether a member of a class has the name and the descriptor that it needs.

ghost use Rattle.std.specs.Prelude.{◌≡◌};
ghost use Rattle.par_class.specs.Spelling.{is_native};
ghost use Rattle.par_single.specs.Described.{is_field_right, is_of_channel, is_channel_right};
ghost use Rattle.par_single.specs.Described.{is_method_right};

use crate::descriptor::{field_said, method_gives};
use crate::member::{is_static, text_at};
use par_class::file::{FieldFile, MethodFile};
use par_class::is_native;
use par_class::par_pool::constant::Constant;
use par_values::par_base::name::Name;

/// Whether a field has a name and the descriptor of a field.
pub fn is_field_right(entries: &[Constant], field: &FieldFile) -> bool
    ensures { result ≡ is_field_right entries.now field.now }
{
    Name::is_name(text_at(entries, field.name))
        && field_said(text_at(entries, field.descriptor)).is_some()
}

/// Whether a descriptor is that of an input or of an output channel.
fn is_of_channel(descriptor: &[u8]) -> bool
    ensures { result ≡ is_of_channel descriptor.now }
{
    descriptor == b"()I".as_slice() || descriptor == b"(I)V".as_slice()
}

/// Whether a native method is a channel.
fn is_channel_right(entries: &[Constant], method: &MethodFile) -> bool
    ensures { result ≡ is_channel_right entries.now method.now }
{
    Name::is_name(text_at(entries, method.name))
        && is_static(method.access)
        && is_of_channel(text_at(entries, method.descriptor))
}

/// Whether a method has the descriptor of a method, and is a channel where it is native.
pub fn is_method_right(entries: &[Constant], method: &MethodFile) -> bool
    ensures { result ≡ is_method_right entries.now method.now }
{
    method_gives(text_at(entries, method.descriptor)).is_some()
        && (!is_native(method.access) || is_channel_right(entries, method))
}

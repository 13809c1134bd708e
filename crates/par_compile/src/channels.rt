//! The channels of a class's file.

ghost use Rattle.std.specs.Prelude.{◌≡◌, ◌+◌, ◌*◌, ◌<◌, ◌≤◌, [], ◌∷◌, length, map, OnOk, Bool};
ghost use Rattle.par_pool.specs.Spelling.{IsText};
ghost use Rattle.par_compile.specs.Drafts.{Puts};
ghost use Rattle.par_compile.specs.Own.{channel_in, channel_kind};

use crate::access::CHANNEL;
use crate::draft::Draft;
use par_base::memory::NoMemory;
use par_base::name::Name;
use std::alloc::Global;

/// The descriptor of a channel: one into the program gives a number, one out of it takes one.
fn descriptor(is_input: bool) -> &'static [u8]
    ensures is { result.now ≡ channel_kind is_input }
    ensures text { IsText result.now }
{
    if is_input {
        b"()I".as_slice()
    } else {
        b"(I)V".as_slice()
    }
}

fn put_channel(
    alloc: Global,
    name: &Name,
    is_input: bool,
    draft: &mut Draft,
) -> Result<(), NoMemory>
    requires { length draft.old.pool + 2 < 65535 }
    ensures puts { OnOk result ((frames : Bool) →
        Puts frames (channel_in is_input name.now ∷ []) draft.old draft.new) }
    ensures few { OnOk result (length draft.new.pool ≤ length draft.old.pool + 2) }
{
    draft.put(alloc, CHANNEL, name.bytes(), descriptor(is_input), None)?;
    Ok(())
}

/// The channels of one direction.
pub fn put_channels(
    alloc: Global,
    names: &[Name],
    is_input: bool,
    draft: &mut Draft,
) -> Result<(), NoMemory>
    requires { length draft.old.pool + 2 * length names.now < 65535 }
    ensures puts { OnOk result ((frames : Bool) →
        Puts frames (map (channel_in is_input) names.now) draft.old draft.new) }
    ensures few { OnOk result
        (length draft.new.pool ≤ length draft.old.pool + 2 * length names.now) }
{
    for name in names {
        put_channel(alloc, name, is_input, draft)?;
    }
    Ok(())
}

ghost use Rattle.std.specs.Prelude.{◌≡◌};
ghost use Rattle.par_given_frames.specs.Reads.{read_or};

use par_base::memory::NoMemory;
use std::alloc::AllocError;

/// Why there are no frames, or none could be kept.
#[derive(Clone, Copy)]
pub(crate) enum Unread {
    /// The bytes of an attribute say none.
    Refused,
    Memory,
}

impl From<NoMemory> for Unread {
    ghost use Rattle.std.specs.Prelude.{◌≡◌};
    ghost use Rattle.par_given_frames.specs.declared.error.Unread.TheVariants.{Memory};

    ghost from_gives = { λ _ e. e ≡ Memory };

    fn from(_: NoMemory) -> Unread {
        Unread::Memory
    }
}

impl From<AllocError> for Unread {
    ghost use Rattle.std.specs.Prelude.{◌≡◌};
    ghost use Rattle.par_given_frames.specs.declared.error.Unread.TheVariants.{Memory};

    ghost from_gives = { λ _ e. e ≡ Memory };

    fn from(_: AllocError) -> Unread {
        Unread::Memory
    }
}

/// What was read, or something else where that was refused.
///
/// It asks for no memory, so that what is refused does not turn into want of memory here.
pub(crate) fn read_or<T: Drop>(read: Result<T, Unread>, otherwise: T) -> Result<T, NoMemory>
    ensures { result ≡ read_or read otherwise }
{
    match read {
        Ok(value) => Ok(value),
        Err(Unread::Refused) => Ok(otherwise),
        Err(Unread::Memory) => Err(NoMemory),
    }
}

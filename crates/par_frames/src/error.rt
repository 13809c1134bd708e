use par_base::memory::NoMemory;
use par_base::name::Name;
use std::alloc::AllocError;

/// The class of exceptions that a handler takes: one under its name, or a base of them all.
#[derive(Drop)]
pub enum KindName {
    Own(Name),
    Exception,
    Object,
}

/// Why a class file has no frames.
#[derive(Clone, Copy)]
pub enum FrameError {
    /// A method, by its place in the table, whose attributes give none.
    Broken { number: u16, method: u32 },
    Memory,
}

impl From<NoMemory> for FrameError {
    ghost use Rattle.std.specs.Prelude.{◌≡◌};
    ghost use Rattle.par_frames.specs.declared.error.FrameError.TheVariants.{Memory};

    ghost from_gives = { λ _ e. e ≡ Memory };

    fn from(_: NoMemory) -> FrameError {
        FrameError::Memory
    }
}

impl From<AllocError> for FrameError {
    ghost use Rattle.std.specs.Prelude.{◌≡◌};
    ghost use Rattle.par_frames.specs.declared.error.FrameError.TheVariants.{Memory};

    ghost from_gives = { λ _ e. e ≡ Memory };

    fn from(_: AllocError) -> FrameError {
        FrameError::Memory
    }
}

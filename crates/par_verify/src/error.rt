ghost use Rattle.par_verify.specs.Told.{Tells};

use par_base::memory::NoMemory;
use std::alloc::AllocError;

/// A method that no frames fit.
#[derive(Clone, Copy, Debug, PartialEq, Eq)]
pub struct Unfit {
    /// The place of its file in the list.
    pub class: u16,
    /// Its own place in the table of methods.
    pub method: u32,
}

/// Why class files are not verified.
#[derive(Clone, Copy, Debug, PartialEq, Eq)]
pub enum VerifyError {
    /// The first method that no frames fit: the place of its file in the list, and its own in the
    /// table of methods.
    Broken { class: u16, method: u32 },
    Memory,
}

impl VerifyError {
    /// The first method that no frames fit, or want of memory.
    pub fn unfit(self) -> Result<Unfit, NoMemory>
        ensures { Tells self result }
    {
        match self {
            VerifyError::Broken { class, method } => Ok(Unfit { class, method }),
            VerifyError::Memory => Err(NoMemory),
        }
    }
}

impl From<NoMemory> for VerifyError {
    ghost use Rattle.std.specs.Prelude.{◌≡◌};
    ghost use Rattle.par_verify.specs.declared.error.VerifyError.TheVariants.{Memory};

    ghost from_gives = { λ _ e. e ≡ Memory };

    fn from(_: NoMemory) -> VerifyError {
        VerifyError::Memory
    }
}

impl From<AllocError> for VerifyError {
    ghost use Rattle.std.specs.Prelude.{◌≡◌};
    ghost use Rattle.par_verify.specs.declared.error.VerifyError.TheVariants.{Memory};

    ghost from_gives = { λ _ e. e ≡ Memory };

    fn from(_: AllocError) -> VerifyError {
        VerifyError::Memory
    }
}

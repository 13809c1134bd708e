ghost use Rattle.std.specs.Prelude.{◌≡◌};
ghost use Rattle.par_loader.specs.declared.error.Unloaded.TheVariants.{Memory};

use par_base::memory::NoMemory;
use par_base::name::Name;
use std::alloc::{AllocError, AllocFailed};

/// Why a class has no files that link.
#[derive(Drop)]
pub enum Unloaded {
    /// The class that is asked for has no file.
    Absent,
    /// A file is too long.
    TooLong,
    /// A read failed.
    Failed,
    /// A class file is refused: the class, the number of the refusal, and what it carries.
    BadClass {
        class: Name,
        number: u16,
        value: u32,
    },
    /// Memory is wanting.
    Memory,
}

impl From<AllocError> for Unloaded {
    ghost from_gives = { λ _ error. error ≡ Memory };

    fn from(_: AllocError) -> Unloaded {
        Unloaded::Memory
    }
}

impl<T: Drop> From<AllocFailed<T>> for Unloaded {
    ghost from_gives = { λ _ error. error ≡ Memory };

    fn from(_: AllocFailed<T>) -> Unloaded {
        Unloaded::Memory
    }
}

impl From<NoMemory> for Unloaded {
    ghost from_gives = { λ _ error. error ≡ Memory };

    fn from(_: NoMemory) -> Unloaded {
        Unloaded::Memory
    }
}

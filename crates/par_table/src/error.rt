ghost use Rattle.std.specs.Prelude.{◌≡◌};
ghost use Rattle.par_table.specs.declared.error.NameError.TheVariants.{Memory};

use par_refusals::refusal::Refusal;
use par_resolved::NoMemory;
use thiserror::Error;

/// Why a program has no table.
#[derive(Clone, Copy, Debug, PartialEq, Eq, Error)]
pub enum NameError {
    /// A rule on names or a limit is broken. Of several this is the first.
    #[error("a broken rule on names or limits")]
    Broken(Refusal),
    #[error("out of memory")]
    Memory,
}

impl From<NoMemory> for NameError {
    ghost from_gives = { λ _ error. error ≡ Memory };

    fn from(_: NoMemory) -> NameError {
        NameError::Memory
    }
}

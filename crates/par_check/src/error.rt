//! Why a program is not accepted.

ghost use Rattle.std.specs.Prelude.{◌≡◌};
ghost use Rattle.par_check.specs.declared.error.CheckError.TheVariants.{Memory};

use par_base::memory::NoMemory;
use par_refusals::refusal::Refusal;
use thiserror::Error;

/// Why a program is not accepted.
#[derive(Clone, Copy, Debug, PartialEq, Eq, Error)]
pub enum CheckError {
    /// The first broken rule: the one at the least place, and there the least rule.
    #[error("a rule on flows is broken")]
    Broken(Refusal),
    #[error("out of memory")]
    Memory,
}

impl From<NoMemory> for CheckError {
    ghost from_gives = { λ _ error. error ≡ Memory };

    fn from(_: NoMemory) -> CheckError {
        CheckError::Memory
    }
}

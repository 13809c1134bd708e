//! Why no policies are found.

ghost use Rattle.std.specs.Prelude.{◌≡◌};
ghost use Rattle.par_infer.specs.declared.error.InferError.TheVariants.{Memory};

use par_base::memory::NoMemory;
use par_refusals::refusal::Refusal;
use thiserror::Error;

/// Why no policies are found.
#[derive(Clone, Copy, Debug, PartialEq, Eq, Error)]
pub enum InferError {
    /// The first rule that fails with all policies that meet the lower bounds: the one at the least
    /// place, and there the least rule.
    #[error("no policies for inferred fields keep a rule on flows")]
    Broken(Refusal),
    #[error("out of memory")]
    Memory,
}

impl From<NoMemory> for InferError {
    ghost from_gives = { λ _ error. error ≡ Memory };

    fn from(_: NoMemory) -> InferError {
        InferError::Memory
    }
}

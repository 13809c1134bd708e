ghost use Rattle.std.specs.Prelude.{◌≡◌};
ghost use Rattle.par_refusals.specs.First.{broken};
ghost use Rattle.par_observer.specs.declared.error.JudgeError.TheVariants.{Memory};

use par_lexer::memory::NoMemory;
use par_refusals::refusal::Refusal;
use thiserror::Error;

/// Why a source is not accepted.
#[derive(Clone, Copy, Debug, PartialEq, Eq, Error)]
pub enum JudgeError {
    /// The first broken rule of the earliest pass in which one is broken. Its place is an offset
    /// into the source that is at most its length.
    #[error("the source is refused")]
    Refused(Refusal),
    #[error("out of memory")]
    Memory,
}

impl From<NoMemory> for JudgeError {
    ghost from_gives = { λ _ error. error ≡ Memory };

    fn from(_: NoMemory) -> JudgeError {
        JudgeError::Memory
    }
}

/// The refusal by a rule that has no limit.
pub(crate) fn broken(rule: u16, at: u32) -> Refusal
    ensures { result ≡ broken rule at }
{
    Refusal {
        rule,
        at,
        limit: 0,
        count: 0,
    }
}

//! What one instruction comes to.

use par_base::list::List;
use par_base::memory::NoMemory;
use par_base::name::Name;
use par_values::run::{Ending, Event};

/// What one instruction comes to.
#[derive(Drop)]
pub enum Turn {
    /// The run goes on, and there is nothing to show.
    Silent,
    /// The run goes on behind an event.
    Happened(Event),
    /// The run is over.
    Ended(Ending),
}

/// Why an instruction is not run.
#[derive(Drop)]
pub enum Stuck {
    /// It is bad code: the class and the method, the offset, and the number of the reason.
    BadCode {
        class: Name,
        method: List<u8>,
        offset: u32,
        reason: u8,
    },
    /// There was not enough memory.
    Memory,
}

impl From<NoMemory> for Stuck {
    ghost use Rattle.std.specs.Prelude.{◌≡◌};
    ghost use Rattle.par_machine.specs.declared.turn.Stuck.TheVariants.{Memory};

    ghost from_gives = { λ _ e. e ≡ Memory };

    fn from(_: NoMemory) -> Stuck {
        Stuck::Memory
    }
}

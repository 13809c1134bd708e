//! Where instructions start in code.

ghost use Rattle.std.specs.Prelude.{◌≡◌, ℕ, false, length, replicate, slice_index_or, IfOk};
ghost use Rattle.par_single.specs.Walk.{starts_at};

use par_base::memory::NoMemory;
use par_instr::decode;
use std::alloc::Global;
use std::marker::Model;

/// Where the instructions of some code start. Contracts see whether one starts at each offset.
#[derive(Drop)]
pub struct Starts {
    flags: Vec<bool>,
}

impl Model for Starts {
    ghost use Rattle.std.specs.Prelude.{Bool, List};

    ghost Value = { List Bool };

    ghost view = { λ starts. starts.flags.items };
}

/// Tells at which offsets of code the instructions of the walk start.
fn mark(flags: &mut [bool], code: &[u8])
    requires { flags.old ≡ replicate (length code.now) false }
    ensures { (at : ℕ) → slice_index_or flags.new at false ≡ starts_at code.now at }
{
    let mut at = 0;
    while at < code.len() {
        flags[at] = true;
        match decode(code, at) {
            Ok((_, next)) => at = next,
            Err(_) => return,
        }
    }
}

impl Starts {
    /// Where the instructions of the walk through code start.
    pub fn of(alloc: Global, code: &[u8]) -> Result<Starts, NoMemory>
        ensures { IfOk result (λ starts.
            (at : ℕ) → slice_index_or starts at false ≡ starts_at code.now at) }
    {
        let mut flags = vec![in alloc; false; code.len()]?;
        mark(flags.as_mut_slice(), code);
        Ok(Starts { flags })
    }

    /// Whether an instruction starts at an offset.
    pub fn has(&self, at: u32) -> bool
        ensures { result ≡ slice_index_or self.now at false }
    {
        match self.flags.get(at as usize) {
            Some(flag) => *flag,
            None => false,
        }
    }
}

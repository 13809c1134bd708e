ghost use Rattle.std.specs.Prelude.{◌≡◌, ℕ, List, ◌||◌, not, IfOk, OnOk};
ghost use Rattle.std.specs.Str.{bytes_eq};
ghost use Rattle.par_inputs.specs.Seen.{has};

use par_base::memory::NoMemory;
use std::collections::BTreeSet;

// Takes a text in, and says whether it is a new one.
pub fn take_in<'a>(seen: &mut BTreeSet<&'a [u8]>, text: &'a [u8]) -> Result<bool, NoMemory>
    ensures fresh { IfOk result (λ fresh. fresh ≡ not (has seen.old text.now)) }
    ensures taken { OnOk result ((other : List ℕ) → has seen.new other
        ≡ (bytes_eq other text.now || has seen.old other)) }
{
    Ok(seen.insert(text)?)
}

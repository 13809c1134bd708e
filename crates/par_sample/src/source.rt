//! The whole source.

ghost use Rattle.std.specs.Prelude.{◌≡◌, ◌≤◌, IfOk, length};
ghost use Rattle.par_sample.specs.Source.{source};

use crate::classes::add_class;
use crate::numbers::Numbers;
use par_lexer::LONGEST_SOURCE;
use par_lexer::memory::NoMemory;
use std::alloc::Global;

const CLASSES: u32 = 100;

// The lines before the classes.
const OPENING: &str = "actor alice, bob;
lock Paid;
class Shop {
?{alice:; bob: Paid} input int key();
?{alice:; bob:} output void show(int v);
static void main() !bottom { open Paid; show(G0.m0(key())); }
}
";

/// The source that is made of this number: about 133,000 bytes. The same number always gives the
/// same text.
pub fn sample(alloc: Global, n: u64) -> Result<Vec<u8>, NoMemory>
    ensures made { IfOk result (λ text. text.items ≡ source n) }
    ensures short { IfOk result (λ text. length text.items ≤ LONGEST_SOURCE) }
{
    let mut text = String::from_str(alloc, OPENING)?;
    let mut numbers = Numbers::behind(n);
    for class in 0..CLASSES {
        add_class(alloc, &mut text, class, &mut numbers)?;
    }
    Ok(text.into_bytes())
}

//! What classes are called in class files.

ghost use Rattle.std.specs.Prelude.{◌≡◌, ◌<◌, IfOk};
ghost use Rattle.par_code_form.specs.PoolNames as named;
ghost use Rattle.par_code_form.specs.Placeable.{MOST_LOCKS};
ghost use Rattle.par_pool.specs.Spelling.{IsText};

use par_base::memory::NoMemory;
use par_base::name::Name;
use std::alloc::Global;

/// Whether each program has this class, and may throw it.
fn is_builtin(class: &[u8]) -> bool
    ensures { result ≡ named.is_builtin class.now }
{
    class == b"ArithmeticException".as_slice() || class == b"NullPointerException".as_slice()
}

/// The name of a class, with its package.
pub fn full_name(alloc: Global, class: &Name) -> Result<Vec<u8>, NoMemory>
    ensures { IfOk result (λ name. name.items ≡ named.full_name class.now) }
{
    let simple = class.bytes();
    let mut full = Vec::new(alloc);
    if is_builtin(simple) {
        full.extend_from_slice(b"java/lang/")?;
    }
    full.extend_from_slice(simple)?;
    Ok(full)
}

/// The name of the field that says whether a lock is open.
#[tactic(auto, using(crate::proofs::Texts::lock_text))]
pub fn lock_field(alloc: Global, lock: u16) -> Result<Vec<u8>, NoMemory>
    requires { lock < MOST_LOCKS }
    ensures name { IfOk result (λ name. name.items ≡ named.lock_field lock) }
    ensures text { IsText (named.lock_field lock) }
{
    let digits = format!(in alloc; "{lock}")?;
    let mut name = Vec::new(alloc);
    name.extend_from_slice(b"L")?;
    name.extend_from_slice(digits.as_bytes())?;
    Ok(name)
}

//! Entries of the pool, by what they add.

ghost use Rattle.std.specs.Prelude.{◌≡◌, ◌+◌, ◌<◌, ◌≤◌, length, IfOk, OnOk};
ghost use Rattle.par_pool.specs.Entries.{IsUtf8At, IsClassAt};
ghost use Rattle.par_pool.specs.Spelling.{IsText};
ghost use Rattle.par_compile_laws.specs.Members as members;
ghost use Rattle.par_compile.specs.Growing.{Grows, Stays, IsOneText, IsOneClass};

use par_base::memory::NoMemory;
use par_pool::PoolBuilder;

/// The index of a text.
#[tactic(auto, using(crate::proofs::Growing::text_grows, crate::proofs::Growing::text_stays))]
pub fn text(pool: &mut PoolBuilder, bytes: &[u8]) -> Result<u16, NoMemory>
    requires room { length pool.old + 1 < 65535 }
    requires text { IsText bytes.now }
    ensures grows { OnOk result (Grows (IsOneText bytes.now) pool.old pool.new) }
    ensures named { IfOk result (λ index. Stays pool.new (λ q. IsUtf8At q index bytes.now)) }
    ensures few { length pool.new ≤ length pool.old + 1 }
{
    pool.utf8(bytes)
}

/// The index of a class.
#[tactic(auto, using(crate::proofs::Growing::class_grows, crate::proofs::Growing::class_stays))]
pub fn class(pool: &mut PoolBuilder, name: &[u8]) -> Result<u16, NoMemory>
    requires room { length pool.old + 2 < 65535 }
    requires text { IsText name.now }
    ensures grows { OnOk result (Grows (IsOneClass name.now) pool.old pool.new) }
    ensures named { IfOk result (λ index. Stays pool.new (λ q. IsClassAt q index name.now)) }
    ensures few { length pool.new ≤ length pool.old + 2 }
{
    pool.class(name)
}

/// What a class extends: exceptions extend one class, all others another.
pub fn above(exception: bool) -> &'static [u8]
    ensures is { result.now ≡ members.above exception }
    ensures text { IsText result.now }
{
    if exception {
        b"java/lang/Exception".as_slice()
    } else {
        b"java/lang/Object".as_slice()
    }
}

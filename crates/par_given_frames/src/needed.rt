//! Whether all offsets are flagged at which code needs a frame.

ghost use Rattle.std.specs.Prelude.{◌≡◌, ◌↔◌, ℕ, ℤ, ◌≤◌, ◌<◌, pos, false, true, length, IsTrue};
ghost use Rattle.std.specs.Prelude.{slice_index_or};
ghost use Rattle.par_single.specs.Walk.{starts_at};
ghost use Rattle.par_frames.specs.Needed.{flow_at, IsNeeded};
ghost use Rattle.par_given_frames.specs.Met as met;
ghost use Rattle.par_given_frames.specs.Met.{flag_at, branch_of, branch_met, behind_met};
ghost use Rattle.par_given_frames.specs.Met.{met_at, met_by_catches};

use par_class::file::{Catch, CodeAttr};
use par_instr::{Instr, decode};
use par_starts::Starts;

/// Whether an offset is flagged.
fn is_flagged(flags: &[bool], at: i32) -> bool
    ensures { result ≡ flag_at flags.now at }
{
    at >= 0 && matches!(flags.get(at as usize), Some(true))
}

/// How far a branch goes.
fn branch_of(instr: Instr) -> Option<i16>
    ensures { result ≡ branch_of (flow_at instr) }
{
    match instr {
        Instr::If(_, to) => Some(to),
        Instr::IfIcmp(_, to) => Some(to),
        Instr::IfAcmpeq(to) => Some(to),
        Instr::IfAcmpne(to) => Some(to),
        Instr::Goto(to) => Some(to),
        Instr::Ifnull(to) => Some(to),
        Instr::Ifnonnull(to) => Some(to),
        _ => None,
    }
}

/// Whether the instruction behind one may be the next.
fn goes_on(instr: Instr) -> bool
    ensures { result ≡ met.goes_on (flow_at instr) }
{
    !matches!(
        instr,
        Instr::Goto(_) | Instr::Ireturn | Instr::Areturn | Instr::Return | Instr::Athrow
    )
}

/// Whether a branch goes to a flagged offset, or there is none.
fn branch_is_met(flags: &[bool], at: usize, to: Option<i16>) -> bool
    requires { at ≤ 65535 }
    ensures { result ≡ branch_met flags.now at to }
{
    match to {
        Some(to) => is_flagged(flags, at as i32 + i32::from(to)),
        None => true,
    }
}

/// Whether the offset behind an instruction is flagged, or needs not be.
fn behind_is_met(flags: &[bool], len: usize, next: usize, instr: Instr) -> bool
    requires { next ≤ 65535 }
    ensures { result ≡ behind_met flags.now len next (flow_at instr) }
{
    goes_on(instr) || next == len || is_flagged(flags, next as i32)
}

/// Whether all that the instruction at an offset needs is flagged.
fn is_met(flags: &[bool], code: &[u8], at: usize) -> bool
    requires within { at ≤ length code.now }
    requires short { length code.now ≤ 65535 }
    ensures { result ≡ met_at flags.now code.now at }
{
    let Ok((instr, next)) = decode(code, at) else {
        return true;
    };
    branch_is_met(flags, at, branch_of(instr)) && behind_is_met(flags, code.len(), next, instr)
}

/// Whether all that instructions of the walk need is flagged.
fn walk_is_met(flags: &[bool], starts: &Starts, code: &[u8]) -> bool
    requires short { length code.now ≤ 65535 }
    requires starts { (k : ℕ) → slice_index_or starts.now k false ≡ starts_at code.now k }
    ensures { IsTrue result ↔ ((at : ℕ) → at < length code.now → starts_at code.now at ≡ true →
        met_at flags.now code.now at ≡ true) }
{
    for at in 0..code.len() {
        if starts.has(at as u32) && !is_met(flags, code, at) {
            return false;
        }
    }
    true
}

/// Whether all offsets are flagged where handlers begin.
fn catches_are_met(flags: &[bool], catches: &[Catch]) -> bool
    ensures { result ≡ met_by_catches flags.now catches.now }
{
    catches
        .iter()
        .all(|c| is_flagged(flags, i32::from(c.handler)))
}

/// Whether all needed offsets of code are flagged.
pub(crate) fn are_met(flags: &[bool], starts: &Starts, code: &CodeAttr) -> bool
    requires short { length code.now.code ≤ 65535 }
    requires starts { (k : ℕ) → slice_index_or starts.now k false ≡ starts_at code.now.code k }
    ensures { IsTrue result ↔
        ((to : ℤ) → IsNeeded code.now to → flag_at flags.now to ≡ true) }
{
    walk_is_met(flags, starts, code.code.as_slice())
        && catches_are_met(flags, code.catches.as_slice())
}

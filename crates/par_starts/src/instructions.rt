//! The instructions of code, taken apart once.

ghost use Rattle.std.specs.Prelude.{◌≡◌, ℕ, ◌≤◌, List, pos, ◌+ℤ◌, None, false, length, IfOk};
ghost use Rattle.std.specs.Prelude.{slice_index_or};
ghost use Rattle.par_single.specs.Walk.{starts_at, stands_at};
ghost use Rattle.par_starts.specs.Standing.{reach_of, IsStanding};

use crate::starts::Starts;
use par_base::memory::NoMemory;
use par_instr::{Instr, decode};
use std::alloc::Global;
use std::marker::Model;

/// An instruction as it stands in code.
#[derive(Clone, Copy)]
pub struct Standing {
    pub instr: Instr,
    /// The offset behind it.
    pub next: u32,
    /// An instruction starts there.
    pub ahead: bool,
    /// An instruction starts where it goes on if it branches; at its own offset if it is no branch.
    pub aside: bool,
}

/// The instruction at each offset of some code. Contracts see them as a list, in which there is
/// none where no instruction stands.
#[derive(Drop)]
pub struct Instructions {
    rows: Vec<Option<Standing>>,
}

impl Model for Instructions {
    ghost use Rattle.std.specs.Prelude.{List, Option};
    ghost use Rattle.par_starts.specs.declared.instructions.Standing.{Standing as Row};

    ghost Value = { List (Option Row) };

    ghost view = { λ instructions. instructions.rows.items };
}

/// How far from its offset a branch goes on, 0 where an instruction is none.
pub fn distance(instr: Instr) -> i16
    ensures { result ≡ reach_of instr }
{
    match instr {
        Instr::If(_, to) => to,
        Instr::IfIcmp(_, to) => to,
        Instr::IfAcmpeq(to) => to,
        Instr::IfAcmpne(to) => to,
        Instr::Goto(to) => to,
        Instr::Ifnull(to) => to,
        Instr::Ifnonnull(to) => to,
        _ => 0,
    }
}

/// Whether an instruction starts at a distance from an offset.
fn starts_aside(starts: &Starts, at: u32, distance: i16) -> bool
    requires { at ≤ 65535 }
    ensures { (code : List ℕ) →
        ((k : ℕ) → slice_index_or starts.now k false ≡ starts_at code k) →
        result ≡ stands_at code (pos at +ℤ distance) }
{
    let to = at as i32 + distance as i32;
    to >= 0 && starts.has(to as u32)
}

/// The instruction at an offset. In code with offsets beyond a `u16` there may be none.
fn row(code: &[u8], starts: &Starts, at: usize) -> Option<Standing>
    requires within { at ≤ length code.now }
    requires starts { (k : ℕ) → slice_index_or starts.now k false ≡ starts_at code.now k }
    ensures { IsStanding code.now at result }
{
    let Ok((instr, next)) = decode(code, at) else {
        return None;
    };
    let Ok(next) = u16::try_from(next) else {
        return None;
    };
    let next = u32::from(next);
    Some(Standing {
        instr,
        next,
        ahead: starts.has(next),
        aside: starts_aside(starts, at as u32, distance(instr)),
    })
}

impl Instructions {
    /// The instructions of code, which start there.
    pub fn of(alloc: Global, code: &[u8], starts: &Starts) -> Result<Instructions, NoMemory>
        requires { (k : ℕ) → slice_index_or starts.now k false ≡ starts_at code.now k }
        ensures { IfOk result (λ rows.
            (at : ℕ) → IsStanding code.now at (slice_index_or rows at None)) }
    {
        let mut rows = Vec::new(alloc);
        for at in 0..code.len() {
            rows.push(row(code, starts, at))?;
        }
        Ok(Instructions { rows })
    }

    /// The instruction at an offset, none where there is none.
    #[inline(always)]
    pub fn at(&self, at: u32) -> Option<Standing>
        ensures { result ≡ slice_index_or self.now at None }
    {
        standing_at(self.rows.as_slice(), at)
    }

    /// The instructions by their offsets.
    #[inline(always)]
    pub fn rows(&self) -> &[Option<Standing>]
        ensures { result.now ≡ self.now }
    {
        self.rows.as_slice()
    }
}

/// The instruction at an offset, none where there is none.
#[inline(always)]
pub fn standing_at(rows: &[Option<Standing>], at: u32) -> Option<Standing>
    ensures { result ≡ slice_index_or rows.now at None }
{
    match rows.get(at as usize) {
        Some(row) => *row,
        None => None,
    }
}

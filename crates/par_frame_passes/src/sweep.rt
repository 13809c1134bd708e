//! Where a way through code stands, and which offsets keep their frames.

ghost use Rattle.std.specs.Prelude.{◌≡◌, ◌<◌, ◌≤◌, ◌+◌, ◌^◌, true, false, nat_lt, length};
ghost use Rattle.std.specs.Prelude.{slice_index_or, IfOk};
ghost use Rattle.par_frame_guesses.specs.Methods.{code_in};
ghost use Rattle.par_frame_passes.specs.Tables.{next_after, rose_after, marks_after};

use crate::course::Course;
use par_base::memory::NoMemory;
use par_frame_guesses::{Method, back_offsets, is_marked, mark};
use std::alloc::Global;

/// A way through code, after which another one follows where something rose.
///
/// It is moved by what becomes of the frames, and by nothing else.
#[derive(Drop)]
pub(crate) struct Sweep {
    at: usize,
    again: bool,
    marks: Vec<bool>,
    left: u64,
}

impl Sweep {
    /// The first way, with more steps than frames ever rise.
    pub(crate) fn new(alloc: Global, method: &Method) -> Result<Sweep, NoMemory>
        requires { length (code_in method.now).code ≤ 65535 }
        ensures at { IfOk result (λ sweep. sweep.at ≡ 0) }
        ensures again { IfOk result (λ sweep. sweep.again ≡ false) }
        ensures left { IfOk result (λ sweep. sweep.left + 1 ≡ 2 ^ 64) }
    {
        Ok(Sweep {
            at: 0,
            again: false,
            marks: back_offsets(alloc, method)?,
            left: u64::MAX,
        })
    }

    /// Whether a step is left.
    pub(crate) fn has_steps(&self) -> bool
        ensures { result ≡ nat_lt 0 self.now.left }
    {
        self.left > 0
    }

    /// The offset that is looked at next.
    pub(crate) fn at(&self) -> usize
        ensures { result ≡ self.now.at }
    {
        self.at
    }

    /// Whether something rose on this way.
    pub(crate) fn rose(&self) -> bool
        ensures { result ≡ self.now.again }
    {
        self.again
    }

    /// Whether the frame stays at the offset that is looked at next, since code comes back to it.
    pub(crate) fn stays(&self) -> bool
        ensures { result ≡ slice_index_or self.now.marks.items self.now.at false }
    {
        is_marked(&self.marks, self.at)
    }

    /// Begins another way behind one on which something rose.
    pub(crate) fn begin_again(&mut self)
        requires rose { self.old.again ≡ true }
        requires left { 0 < self.old.left }
        ensures at { self.new.at ≡ 0 }
        ensures again { self.new.again ≡ false }
        ensures marks { self.new.marks ≡ self.old.marks }
        ensures left { self.new.left + 1 ≡ self.old.left }
    {
        self.at = 0;
        self.again = false;
        self.left -= 1;
    }

    /// Goes on where this became of the frames: back to one that rose, which is marked.
    pub(crate) fn go_on(&mut self, course: Course)
        requires at { self.old.at < 65535 }
        requires left { 0 < self.old.left }
        ensures at { self.new.at ≡ next_after course self.old.at }
        ensures again { self.new.again ≡ rose_after course self.old.again }
        ensures marks { self.new.marks.items ≡ marks_after course self.old.marks.items }
        ensures left { self.new.left + 1 ≡ self.old.left }
    {
        self.left -= 1;
        match course {
            Course::Refused => {}
            Course::Calm => self.at += 1,
            Course::Rises(to) => {
                mark(&mut self.marks, to);
                self.again = true;
                self.at = to.min(self.at + 1);
            }
        }
    }
}

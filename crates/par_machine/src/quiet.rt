//! Instructions that go on in their frame and show nothing, one after another.

ghost use Rattle.std.specs.Prelude.{◌≡◌, ◌≤◌, ◌+◌, ℕ, true, false, length, MatchOption};
ghost use Rattle.par_heap.specs.Heap.{objects_of};
ghost use Rattle.par_stack.specs.Frames.{running};
ghost use Rattle.par_method_area.specs.par_step_laws.Step.{turn};
ghost use Rattle.par_machine.specs.Frames.{code_of};
ghost use Rattle.par_machine.specs.Quiet.{is_loud, AreRows, IsSameMethod, GoesOn, IsTried};
ghost use Rattle.par_machine.specs.Running.{state_in, IsSound};
ghost use Rattle.par_machine.specs.Settled.{turn_from};
ghost use Rattle.par_machine.specs.Site.{IsThere, IsPerformed};

use crate::outcome::target;
use crate::run::Running;
use crate::site::Site;
use par_instr::Instr;
use par_method_area::MethodArea;
use par_method_area::par_actions::{
    Done, Operator, combine, copy, discard, increase, load_number, load_object, negate, push_null,
    push_number, store_number, store_object,
};
use par_stack::Point;
use par_starts::{Standing, distance, standing_at};

impl Running {
    /// Does what the instruction of a site does, behind which one stands, where it makes no event,
    /// calls no method and leaves none. Else nothing is changed. The arms of `work` stand here once
    /// more, for speed alone: what is left out here is run by `step`.
    #[inline(always)]
    fn try_perform(&mut self, area: &MethodArea, site: Site) -> Option<Done>
        requires sound { IsSound area.now self.old }
        requires there { IsThere area.now.files self.old site true }
        ensures { MatchOption result (self.new ≡ self.old) (λ done.
            IsPerformed area.now self.old site done self.new × (is_loud site.instr ≡ false)) }
    {
        // All in one, so that a step jumps once by its instruction.
        match site.instr {
            Instr::Ldc(index) => Some(self.push_constant(area, site, index as u16, true)),
            Instr::LdcW(index) => Some(self.push_constant(area, site, index, true)),
            Instr::Getstatic(index) => Some(self.read_static(area, site, index, true)),
            Instr::Getfield(index) => Some(self.read_field(area, site, index, true)),
            Instr::If(_, _)
            | Instr::IfIcmp(_, _)
            | Instr::IfAcmpeq(_)
            | Instr::IfAcmpne(_)
            | Instr::Goto(_)
            | Instr::Ifnull(_)
            | Instr::Ifnonnull(_) => Some(self.branch(area, site, true)),
            Instr::AconstNull => Some(push_null(&mut self.stack, true)),
            Instr::Iconst(number) => Some(push_number(&mut self.stack, number as i32, true)),
            Instr::Bipush(number) => Some(push_number(&mut self.stack, number as i32, true)),
            Instr::Sipush(number) => Some(push_number(&mut self.stack, number as i32, true)),
            Instr::Iload(place) => Some(load_number(&mut self.stack, place, true)),
            Instr::Aload(place) => Some(load_object(&mut self.stack, place, true)),
            Instr::IloadShort(place) => Some(load_number(&mut self.stack, place, true)),
            Instr::AloadShort(place) => Some(load_object(&mut self.stack, place, true)),
            Instr::Istore(place) => Some(store_number(&mut self.stack, place, true)),
            Instr::Astore(place) => Some(store_object(&mut self.stack, place, true)),
            Instr::IstoreShort(place) => Some(store_number(&mut self.stack, place, true)),
            Instr::AstoreShort(place) => Some(store_object(&mut self.stack, place, true)),
            Instr::Pop => Some(discard(&mut self.stack, true)),
            Instr::Dup => Some(copy(&mut self.stack, true)),
            Instr::Ineg => Some(negate(&mut self.stack, true)),
            Instr::Iinc(place, by) => Some(increase(&mut self.stack, place, by, true)),
            Instr::Iadd => Some(combine(&mut self.stack, Operator::Plus, true)),
            Instr::Isub => Some(combine(&mut self.stack, Operator::Minus, true)),
            Instr::Imul => Some(combine(&mut self.stack, Operator::Times, true)),
            Instr::Idiv => Some(combine(&mut self.stack, Operator::Quotient, true)),
            Instr::Irem => Some(combine(&mut self.stack, Operator::Remainder, true)),
            Instr::Ishl => Some(combine(&mut self.stack, Operator::ShiftLeft, true)),
            Instr::Ishr => Some(combine(&mut self.stack, Operator::ShiftRight, true)),
            Instr::Iushr => Some(combine(&mut self.stack, Operator::ShiftRightUnsigned, true)),
            Instr::Iand => Some(combine(&mut self.stack, Operator::And, true)),
            Instr::Ior => Some(combine(&mut self.stack, Operator::Or, true)),
            Instr::Ixor => Some(combine(&mut self.stack, Operator::Xor, true)),
            _ => None,
        }
    }

    /// Runs the instruction of a site, behind which one stands, where it goes on in its frame and
    /// shows nothing, and tells whether it did.
    #[inline(always)]
    fn try_run(&mut self, area: &MethodArea, site: Site) -> bool
        requires sound { IsSound area.now self.old }
        requires there { IsThere area.now.files self.old site true }
        requires small { site.point.at ≤ 65535 }
        requires within { site.next ≤ length (code_of area.now.files site.point).code }
        ensures { IsTried area.now (turn_from area.now.files self.old site)
            self.old result self.new }
    {
        let Some(done) = self.try_perform(area, site) else {
            return false;
        };
        let _ = self.stack.point();
        match done {
            Done::Goes => {
                self.stack.go_to(site.next);
                true
            }
            Done::Jumps => {
                self.stack
                    .go_to(target(site.point.at, distance(site.instr)));
                true
            }
            _ => false,
        }
    }

    /// Runs the instruction at which the run stands where it goes on in its frame and shows
    /// nothing, and tells whether it did. These are the instructions of its method, in which this
    /// point lies.
    #[inline(always)]
    fn try_advance(&mut self, area: &MethodArea, rows: &[Option<Standing>], first: Point) -> bool
        requires sound { IsSound area.now self.old }
        requires rows { AreRows area.now.files rows.now first }
        requires same { IsSameMethod first (running self.old.stack).point }
        ensures { IsTried area.now (turn area.now.files (state_in area.now.files self.old))
            self.old result self.new }
    {
        let at = self.stack.at();
        let Some(row) = standing_at(rows, at) else {
            return false;
        };
        if !row.ahead {
            return false;
        }
        let site = Site {
            point: Point {
                class: first.class,
                method: first.method,
                at,
            },
            instr: row.instr,
            next: row.next,
            aside: row.aside,
        };
        self.try_run(area, site)
    }

    /// Runs instructions as long as they go on in their frame and show nothing, at most so many,
    /// and gives how many. It may stop before, and does at the last instruction of code.
    #[inline(never)]
    pub(crate) fn go_on(&mut self, area: &MethodArea, most: u32) -> u32
        requires { IsSound area.now self.old }
        ensures most { result ≤ most }
        ensures goes { GoesOn area.now.files result
            (state_in area.now.files self.old) (state_in area.now.files self.new) }
        ensures sound { IsSound area.now self.new }
        ensures grown { (class : ℕ) → length (objects_of self.new.heap class)
            ≤ length (objects_of self.old.heap class) + result }
    {
        let first = self.stack.point();
        let Some(instructions) = area.instructions(first.class, first.method) else {
            return 0;
        };
        let rows = instructions.rows();
        for done in 0..most {
            if !self.try_advance(area, rows, first) {
                return done;
            }
        }
        most
    }
}

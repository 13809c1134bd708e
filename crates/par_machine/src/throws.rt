//! Throws: to the handler where an exception lands, or out of the program.

ghost use Rattle.std.specs.Prelude.{◌≡◌, ◌<◌, ◌≤◌, ℕ, suc, true, not, ◌==◌, List as Items, ◌∷◌};
ghost use Rattle.std.specs.Prelude.{length, if◌then◌else◌, IsTrue, IsErrOf, Option, Some, None};
ghost use Rattle.par_single.specs.Walk.{starts_at};
ghost use Rattle.par_heap.specs.Heap.{objects_of};
ghost use Rattle.par_values.specs.Reasons.{is_of};
ghost use Rattle.par_method_area.specs.par_step_laws.Classes.{exceptions};
ghost use Rattle.par_method_area.specs.par_step_laws.Handlers.{caught};
ghost use Rattle.par_method_area.specs.par_actions.Done.{lesser};
ghost use Rattle.par_stack.specs.Frames.{running, Frame};
ghost use Rattle.par_unwinding.specs.Shown.{frames_of};
ghost use Rattle.par_machine.specs.Frames.{code_of};
ghost use Rattle.par_machine.specs.Objects.{count_classes, width};
ghost use Rattle.par_machine.specs.Running.{here, below, state_in, IsSound};
ghost use Rattle.par_machine.specs.Site.{areas_at, is_object};
ghost use Rattle.par_machine.specs.Throwing.{landing_reason, throw_of, throw_next_of, IsLanding};
ghost use Rattle.par_machine.specs.Turn.{IsTurn, is_over, MakesOrTells};
ghost use Rattle.par_machine.specs.declared.turn.Stuck.TheVariants.{Memory};

use crate::events::{stuck, uncaught};
use crate::run::Running;
use crate::turn::{Stuck, Turn};
use par_method_area::MethodArea;
use par_method_area::par_actions::is_exception;
use par_stack::Point;
use par_unwinding::{Landing, land, landing_of};
use par_values::value::MVal;
use std::alloc::Global;

/// The lesser of two reasons.
fn lesser(reason: Option<u8>, other: Option<u8>) -> Option<u8>
    ensures { result ≡ lesser reason other }
{
    match reason {
        None => other,
        Some(reason) => match other {
            None => Some(reason),
            Some(other) => Some(reason.min(other)),
        },
    }
}

/// The reason of a handler at a point: its method has no room for the exception, or no instruction
/// stands there.
fn handler_reason(area: &MethodArea, point: Point) -> Option<u8>
    ensures { result ≡ (if (code_of area.now.files point).max_stack == 0 then Some 3 else
        (if not (starts_at (code_of area.now.files point).code point.at) then Some 5 else None)) }
{
    let Some(code) = area.code(point.class, point.method) else {
        return Some(3);
    };
    if code.room == 0 {
        return Some(3);
    }
    if code.starts.has(point.at) {
        None
    } else {
        Some(5)
    }
}

/// The least reason against a throw, against which another one may stand too.
fn reason_against(area: &MethodArea, landing: Option<Landing>, other: Option<u8>) -> Option<u8>
    ensures { (thrown : ℕ) (frames : Items Frame) → IsLanding area.now.files thrown frames landing →
        result ≡ landing_reason area.now.files
        (caught area.now.files thrown (frames_of frames)) other }
{
    match landing {
        None => other,
        Some(landing) => lesser(handler_reason(area, landing.point), other),
    }
}

impl Running {
    /// Throws an object from the frame that runs, where no reason stands against it: neither this
    /// one nor one of its handler. An object that is no exception goes to no handler.
    #[inline(always)]
    pub(crate) fn throw(
        &mut self,
        alloc: Global,
        area: &MethodArea,
        exception: MVal,
        other: Option<u8>,
    ) -> Result<Turn, Stuck>
        requires sound { IsSound area.now self.old }
        requires object { is_object exception ≡ true }
        requires free { other ≡ None → is_of (exceptions area.now.files) exception ≡ true }
        ensures turn { IsTurn result
            (throw_of area.now.files (running self.old.stack).point other exception
            (here self.old ∷ below self.old) (areas_at area.now.files self.old))
            (state_in area.now.files self.new) }
        ensures memory { IsErrOf result Memory → MakesOrTells
            (throw_of area.now.files (running self.old.stack).point other exception
            (here self.old ∷ below self.old) (areas_at area.now.files self.old))
            (state_in area.now.files self.old) }
        ensures over { IsTrue (is_over result) → self.new ≡ self.old }
        ensures sound { IsSound area.now self.new }
        ensures heap { self.new.heap ≡ self.old.heap }
    {
        let MVal::Ref(thrown, _) = exception else {
            unreachable!();
        };
        let point = self.stack.point();
        if !is_exception(area.exceptions(), thrown) {
            let Some(reason) = other else {
                unreachable!();
            };
            return stuck(alloc, area, point, reason);
        }
        let landing = landing_of(area.linked(), &self.stack, thrown);
        if let Some(reason) = reason_against(area, landing, other) {
            return stuck(alloc, area, point, reason);
        }
        let Some(landing) = landing else {
            return uncaught(alloc, area, thrown);
        };
        land(&mut self.stack, landing, exception);
        Ok(Turn::Silent)
    }

    /// Makes the next object of an exception that every program has, and throws it in the same way.
    #[inline(always)]
    pub(crate) fn throw_next(
        &mut self,
        alloc: Global,
        area: &MethodArea,
        thrown: u16,
        other: Option<u8>,
    ) -> Result<Turn, Stuck>
        requires sound { IsSound area.now self.old }
        requires class { thrown < count_classes area.now.files }
        requires bare { width area.now.files thrown ≡ 0 }
        requires few { length (objects_of self.old.heap thrown) < 4294967295 }
        ensures turn { IsTurn result
            (throw_next_of area.now.files (running self.old.stack).point other thrown
            (here self.old ∷ below self.old) (areas_at area.now.files self.old))
            (state_in area.now.files self.new) }
        ensures memory { IsErrOf result Memory → MakesOrTells
            (throw_next_of area.now.files (running self.old.stack).point other thrown
            (here self.old ∷ below self.old) (areas_at area.now.files self.old))
            (state_in area.now.files self.old) }
        ensures over { IsTrue (is_over result) → self.new ≡ self.old }
        ensures sound { IsSound area.now self.new }
        ensures grown { (class : ℕ) →
            length (objects_of self.new.heap class)
            ≤ suc (length (objects_of self.old.heap class)) }
    {
        let point = self.stack.point();
        let landing = landing_of(area.linked(), &self.stack, thrown);
        if let Some(reason) = reason_against(area, landing, other) {
            return stuck(alloc, area, point, reason);
        }
        let Some(landing) = landing else {
            return uncaught(alloc, area, thrown);
        };
        let n = self.heap.birth(thrown, &[])?;
        land(&mut self.stack, landing, MVal::Ref(thrown, n));
        Ok(Turn::Silent)
    }
}

//! Instructions that name nothing.

ghost use Rattle.std.specs.Prelude.{◌≡◌, ℕ, List, true};
ghost use Rattle.par_values.specs.Areas.{Name, Areas};
ghost use Rattle.par_values.specs.declared.link.Link.{Link};
ghost use Rattle.par_values.specs.Operations.{operation};
ghost use Rattle.par_values.specs.Reasons.{Spot};
ghost use Rattle.par_method_area.specs.par_actions.Done.{IsRoomy, Comes};
ghost use Rattle.par_method_area.specs.par_actions.Leaving.{HasResult};
ghost use Rattle.par_method_area.specs.par_step_laws.Classes.{exceptions};
ghost use Rattle.par_machine.specs.Instructions.{is_departure};

use par_instr::Instr;
use par_method_area::MethodArea;
use par_method_area::par_actions::{Done, Gives, leave, leave_number, leave_object, throw};
use par_stack::Stack;

/// Leaves its method, which gives this, by a return or a throw.
pub(crate) fn depart(stack: &Stack, area: &MethodArea, instr: Instr, gives: Gives) -> Done
    requires { is_departure instr ≡ true }
    ensures { (names : ℕ → Link) (classes : List Name) (spot : Spot) (program : Areas) →
        IsRoomy spot stack.now → HasResult classes spot gives →
        spot.exceptions ≡ exceptions area.now.files →
        Comes result classes spot (operation names instr) program stack.now stack.now }
{
    match instr {
        Instr::Ireturn => leave_number(stack, gives),
        Instr::Areturn => leave_object(stack, gives),
        Instr::Return => leave(stack, gives),
        Instr::Athrow => throw(stack, area.exceptions()),
        _ => unreachable!(),
    }
}

//! Branches.

ghost use Rattle.std.specs.Prelude.{◌≡◌, ℕ, List, true, IsTrue};
ghost use Rattle.par_values.specs.Areas.{Name, Areas};
ghost use Rattle.par_values.specs.declared.link.Link.{Link};
ghost use Rattle.par_values.specs.Operations.{operation};
ghost use Rattle.par_values.specs.Reasons.{Spot};
ghost use Rattle.par_method_area.specs.par_actions.Done.{IsAtFork, Comes, Keeps, is_still};
ghost use Rattle.par_machine.specs.Instructions.{is_branch};

use par_instr::Instr;
use par_method_area::par_actions::{
    Done, Ways, jump, jump_if, jump_if_both, jump_if_null, jump_if_same,
};
use par_stack::Stack;

/// Branches, or goes on behind.
#[inline(always)]
pub(crate) fn branch(stack: &mut Stack, instr: Instr, ways: Ways) -> Done
    requires { is_branch instr ≡ true }
    ensures done { (names : ℕ → Link) (classes : List Name) (spot : Spot) (program : Areas) →
        IsAtFork spot ways classes (operation names instr) program stack.old →
        Comes result classes spot (operation names instr) program stack.old stack.new }
    ensures kept { Keeps stack.old stack.new }
    ensures still { IsTrue (is_still result) → stack.new ≡ stack.old }
{
    match instr {
        Instr::If(test, _) => jump_if(stack, test, ways),
        Instr::IfIcmp(test, _) => jump_if_both(stack, test, ways),
        Instr::IfAcmpeq(_) => jump_if_same(stack, true, ways),
        Instr::IfAcmpne(_) => jump_if_same(stack, false, ways),
        Instr::Goto(_) => jump(stack, ways),
        Instr::Ifnull(_) => jump_if_null(stack, true, ways),
        Instr::Ifnonnull(_) => jump_if_null(stack, false, ways),
        _ => unreachable!(),
    }
}

//! The items of labelled code.

use par_values::par_base::list::List;
use par_values::par_base::name::Name;
use par_values::par_instr::Instr;

/// An item of labelled code: the mark of a spot, or an instruction.
#[derive(Drop)]
pub enum Item {
    /// A spot that branches, handlers and frames name by this number.
    Label(u32),
    /// An instruction that neither branches nor names a constant.
    Op(Instr),
    /// Pushes a number.
    Const(i32),
    /// A branch, by its opcode and the label that it goes to.
    Jump(u8, u32),
    /// An instruction on a member, by its opcode, the class, the name and the descriptor.
    Member(u8, Name, List<u8>, List<u8>),
    /// An instruction on a class, by its opcode.
    ClassOp(u8, Name),
    /// An instruction on the field that says whether a lock is open, by its opcode and the lock.
    LockOp(u8, u16),
}

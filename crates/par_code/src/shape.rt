//! How operators are made, and which instructions go by the type of a value.

ghost use Rattle.std.specs.Prelude.{◌≡◌, IfOk};
ghost use Rattle.par_code_form.specs.Code as form;
ghost use Rattle.par_code.specs.Shapes.{made_of};

use par_base::memory::NoMemory;
use par_code_form::Item;
use par_code_form::opcode::{IF_ACMPEQ, IF_ACMPNE, IF_ICMPEQ, IFEQ, IFNE};
use par_instr::Instr;
use par_typed::par_lexer::operator::BinOp;
use par_typed::ty::Ty;

/// How the value of an operator is made of its two parts.
#[derive(Clone, Copy)]
pub enum Shape {
    /// By one instruction.
    Calculates(Instr),
    /// By the branch of this opcode: 1 where it is taken, else 0.
    Compares(u8),
    /// The branch of this opcode passes the second part by, where the first decides.
    Decides(u8),
}

/// Whether a value of the type is a number of the machine.
pub fn is_number(ty: Ty) -> bool
    ensures { result ≡ form.is_number ty }
{
    matches!(ty, Ty::Int | Ty::Boolean)
}

/// How an operator is made, on numbers or on references.
pub fn shape_of(op: BinOp, numbers: bool) -> Shape
    ensures { result ≡ made_of (form.shape op numbers) }
{
    match op {
        BinOp::Or => Shape::Decides(IFNE),
        BinOp::And => Shape::Decides(IFEQ),
        BinOp::BitOr => Shape::Calculates(Instr::Ior),
        BinOp::BitXor => Shape::Calculates(Instr::Ixor),
        BinOp::BitAnd => Shape::Calculates(Instr::Iand),
        BinOp::Eq => Shape::Compares(if numbers { IF_ICMPEQ } else { IF_ACMPEQ }),
        BinOp::Ne => Shape::Compares(if numbers { IF_ICMPEQ + 1 } else { IF_ACMPNE }),
        BinOp::Lt => Shape::Compares(IF_ICMPEQ + 2),
        BinOp::Le => Shape::Compares(IF_ICMPEQ + 5),
        BinOp::Gt => Shape::Compares(IF_ICMPEQ + 4),
        BinOp::Ge => Shape::Compares(IF_ICMPEQ + 3),
        BinOp::Shl => Shape::Calculates(Instr::Ishl),
        BinOp::Shr => Shape::Calculates(Instr::Ishr),
        BinOp::Ushr => Shape::Calculates(Instr::Iushr),
        BinOp::Add => Shape::Calculates(Instr::Iadd),
        BinOp::Sub => Shape::Calculates(Instr::Isub),
        BinOp::Mul => Shape::Calculates(Instr::Imul),
        BinOp::Div => Shape::Calculates(Instr::Idiv),
        BinOp::Rem => Shape::Calculates(Instr::Irem),
    }
}

/// The greatest local that has instructions of its own.
const LAST_SHORT: u8 = 3;

/// Pushes a local. A method has at most as many as an instruction can name.
pub fn load(ty: Ty, local: u16) -> Result<Item, NoMemory>
    ensures { IfOk result (λ item. item ≡ form.load ty local) }
{
    let Ok(local) = u8::try_from(local) else {
        return Err(NoMemory);
    };
    let instr = match (is_number(ty), local <= LAST_SHORT) {
        (true, true) => Instr::IloadShort(local),
        (true, false) => Instr::Iload(local),
        (false, true) => Instr::AloadShort(local),
        (false, false) => Instr::Aload(local),
    };
    Ok(Item::Op(instr))
}

/// Takes a local from the operands. A method has at most as many as an instruction can name.
pub fn store(ty: Ty, local: u16) -> Result<Item, NoMemory>
    ensures { IfOk result (λ item. item ≡ form.store ty local) }
{
    let Ok(local) = u8::try_from(local) else {
        return Err(NoMemory);
    };
    let instr = match (is_number(ty), local <= LAST_SHORT) {
        (true, true) => Instr::IstoreShort(local),
        (true, false) => Instr::Istore(local),
        (false, true) => Instr::AstoreShort(local),
        (false, false) => Instr::Astore(local),
    };
    Ok(Item::Op(instr))
}

/// Returns with a value.
pub fn give_back(ty: Ty) -> Item
    ensures { result ≡ form.give_back ty }
{
    if is_number(ty) {
        Item::Op(Instr::Ireturn)
    } else {
        Item::Op(Instr::Areturn)
    }
}

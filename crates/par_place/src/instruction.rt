//! Which instruction an item is, and how many bytes it has.

ghost use Rattle.std.specs.Prelude.{◌≡◌, ◌≤◌, length, IfSome, IsTrue};
ghost use Rattle.par_instr.specs.Spelling.{spelling, has_spelling};
ghost use Rattle.par_code_form.specs.Instructions as form;
ghost use Rattle.par_code_form.specs.Placed.{size};
ghost use Rattle.par_code_form.specs.Placeable.{FitsItem, most_bytes};

use par_code_form::Item;
use par_code_form::opcode::{
    GETFIELD, GETSTATIC, GOTO, IF_ACMPEQ, IF_ACMPNE, IF_ICMPEQ, IFEQ, INVOKESPECIAL, INVOKEVIRTUAL,
    PUTFIELD, PUTSTATIC,
};
use par_instr::Instr;

const IFNULL: u8 = 198;

/// Pushes a number. One of more than 16 bits is the constant of this index.
fn push(number: i32, index: u16) -> Instr
    ensures is { result ≡ form.push number index }
    ensures spelled { IsTrue (has_spelling result) }
{
    if number >= -1 && number <= 5 {
        Instr::Iconst(number as i8)
    } else if number >= -128 && number <= 127 {
        Instr::Bipush(number as i8)
    } else if number >= -32768 && number <= 32767 {
        Instr::Sipush(number as i16)
    } else if index <= 255 {
        Instr::Ldc(index as u8)
    } else {
        Instr::LdcW(index)
    }
}

/// A branch of this distance.
fn branch(opcode: u8, to: i16) -> Instr
    requires { IsTrue (form.is_branch opcode) }
    ensures is { result ≡ form.branch opcode to }
    ensures spelled { IsTrue (has_spelling result) }
{
    if opcode < IF_ICMPEQ {
        Instr::If(opcode - IFEQ, to)
    } else if opcode < IF_ACMPEQ {
        Instr::IfIcmp(opcode - IF_ICMPEQ, to)
    } else if opcode == IF_ACMPEQ {
        Instr::IfAcmpeq(to)
    } else if opcode == IF_ACMPNE {
        Instr::IfAcmpne(to)
    } else if opcode == GOTO {
        Instr::Goto(to)
    } else if opcode == IFNULL {
        Instr::Ifnull(to)
    } else {
        Instr::Ifnonnull(to)
    }
}

/// An instruction on the member of this index.
fn on_member(opcode: u8, index: u16) -> Instr
    ensures is { result ≡ form.on_member opcode index }
    ensures spelled { IsTrue (has_spelling result) }
{
    if opcode == GETSTATIC {
        Instr::Getstatic(index)
    } else if opcode == PUTSTATIC {
        Instr::Putstatic(index)
    } else if opcode == GETFIELD {
        Instr::Getfield(index)
    } else if opcode == PUTFIELD {
        Instr::Putfield(index)
    } else if opcode == INVOKEVIRTUAL {
        Instr::Invokevirtual(index)
    } else if opcode == INVOKESPECIAL {
        Instr::Invokespecial(index)
    } else {
        Instr::Invokestatic(index)
    }
}

/// The instruction of an item that names what has this index, or that branches so far.
pub fn instruction(item: &Item, index: u16, to: i16) -> Option<Instr>
    requires { FitsItem item.now }
    ensures is { result ≡ form.instruction index to item.now }
    ensures spelled { IfSome result (λ i. IsTrue (has_spelling i)) }
{
    match item {
        Item::Label(_) => None,
        Item::Op(instr) => Some(*instr),
        Item::Const(number) => Some(push(*number, index)),
        Item::Jump(opcode, _) => Some(branch(*opcode, to)),
        Item::Member(opcode, _, _, _) | Item::LockOp(opcode, _) => {
            Some(on_member(*opcode, index))
        }
        Item::ClassOp(_, _) => Some(Instr::New(index)),
    }
}

/// How many bytes an instruction has.
fn length(instr: Instr) -> usize
    ensures exact { result ≡ length (spelling instr) }
    ensures few { result ≤ 3 }
{
    match instr {
        Instr::Bipush(_)
        | Instr::Ldc(_)
        | Instr::Iload(_)
        | Instr::Aload(_)
        | Instr::Istore(_)
        | Instr::Astore(_) => 2,
        Instr::Sipush(_)
        | Instr::LdcW(_)
        | Instr::Iinc(_, _)
        | Instr::If(_, _)
        | Instr::IfIcmp(_, _)
        | Instr::IfAcmpeq(_)
        | Instr::IfAcmpne(_)
        | Instr::Goto(_)
        | Instr::Getstatic(_)
        | Instr::Putstatic(_)
        | Instr::Getfield(_)
        | Instr::Putfield(_)
        | Instr::Invokevirtual(_)
        | Instr::Invokespecial(_)
        | Instr::Invokestatic(_)
        | Instr::New(_)
        | Instr::Ifnull(_)
        | Instr::Ifnonnull(_) => 3,
        Instr::AconstNull
        | Instr::Iconst(_)
        | Instr::IloadShort(_)
        | Instr::AloadShort(_)
        | Instr::IstoreShort(_)
        | Instr::AstoreShort(_)
        | Instr::Pop
        | Instr::Dup
        | Instr::Iadd
        | Instr::Isub
        | Instr::Imul
        | Instr::Idiv
        | Instr::Irem
        | Instr::Ineg
        | Instr::Ishl
        | Instr::Ishr
        | Instr::Iushr
        | Instr::Iand
        | Instr::Ior
        | Instr::Ixor
        | Instr::Ireturn
        | Instr::Areturn
        | Instr::Return
        | Instr::Athrow => 1,
    }
}

/// How many bytes an item has that names what has this index.
pub fn size(item: &Item, index: u16) -> usize
    requires { FitsItem item.now }
    ensures exact { result ≡ size item.now index }
    ensures few { result ≤ most_bytes item.now }
{
    match instruction(item, index, 0) {
        Some(instr) => length(instr),
        None => 0,
    }
}

//! What each instruction asks of a frame, and what it leaves.

ghost use Rattle.std.specs.Prelude.{◌≡◌, ℕ, [], ◌∷◌, true, false, Option, option_map, IfOk};
ghost use Rattle.par_values.specs.Operations.{operation};
ghost use Rattle.par_values.specs.declared.kind.Kind.{Kind};
ghost use Rattle.par_values.specs.declared.kind.Kind.TheVariants as asks;
ghost use Rattle.par_frame_steps.specs.par_kinds.declared.frame.VKind.TheVariants as kind;
ghost use Rattle.par_frame_steps.specs.par_kinds.Acts as meaning;
ghost use Rattle.par_values.specs.declared.link.Link.TheVariants as link;
ghost use Rattle.par_link.specs.entry.Named.TheVariants as named;
ghost use Rattle.par_single.specs.Descriptors.{kind_of};
ghost use Rattle.par_frame_steps.specs.par_kinds.Linked.{acted};
ghost use Rattle.par_frame_steps.specs.par_kinds.Shapes as shapes;
ghost use Rattle.par_frame_steps.specs.par_kinds.Shapes.{Shape, shape_at};
ghost use Rattle.par_frame_steps.specs.Marks.{act_of};
ghost use Rattle.par_frame_acts.specs.Indexed.{is_indexed, is_work};

use crate::forms::{branch, load, one, plain, right, store, two};
use crate::indexed::{
    constant, created, read_field, read_static, special_call, static_call, virtual_call,
    written_field, written_static,
};
use crate::returns::{leave, leave_with};
use crate::shape::shape;
use par_base::memory::NoMemory;
use par_frame_steps::{Act, Also, Asked, Flow, Leaves, PlaceKind};
use par_instr::Instr;
use par_link::Linked;
use par_single::descriptor::Said;
use std::alloc::Global;

/// What an instruction of a method of a file asks and leaves, where the method gives this.
pub fn act<'f>(
    alloc: Global,
    linked: &'f Linked,
    class: u16,
    gives: Option<Said<'f>>,
    instr: Instr,
) -> Result<Act<'f>, NoMemory>
    ensures { IfOk result (λ act. act_of act
        ≡ shapes.act_of (option_map kind_of gives.entry) (shape_at linked.entry.now class) instr) }
{
    match instr {
        Instr::Ldc(index) => constant(alloc, shape(alloc, linked, class, index as u16)?),
        Instr::LdcW(index) => constant(alloc, shape(alloc, linked, class, index)?),
        Instr::Getstatic(index) => read_static(alloc, shape(alloc, linked, class, index)?),
        Instr::Putstatic(index) => written_static(alloc, shape(alloc, linked, class, index)?),
        Instr::Getfield(index) => read_field(alloc, shape(alloc, linked, class, index)?),
        Instr::Putfield(index) => written_field(alloc, shape(alloc, linked, class, index)?),
        Instr::Invokestatic(index) => static_call(alloc, shape(alloc, linked, class, index)?),
        Instr::Invokespecial(index) => special_call(alloc, shape(alloc, linked, class, index)?),
        Instr::Invokevirtual(index) => virtual_call(alloc, shape(alloc, linked, class, index)?),
        Instr::New(index) => created(alloc, shape(alloc, linked, class, index)?),
        _ => indexless(alloc, gives, instr),
    }
}

/// What an instruction without an index asks and leaves.
fn indexless<'f>(alloc: Global, gives: Option<Said<'f>>, instr: Instr) -> Result<Act<'f>, NoMemory>
    requires { is_indexed instr ≡ false }
    ensures { IfOk result (λ act. (indices : ℕ → Shape) → act_of act
        ≡ shapes.act_of (option_map kind_of gives.entry) indices instr) }
{
    match instr {
        Instr::Ireturn => leave_with(alloc, gives, Asked::Number),
        Instr::Areturn => leave_with(alloc, gives, Asked::AnyObject),
        Instr::Return => Ok(leave(alloc, gives)),
        Instr::Athrow => {
            let takes = one(alloc, Asked::AnyObject)?;
            let leaves = Leaves::Gives(None);
            Ok(right(takes, Also::Throwable, leaves, Flow::Nowhere))
        }
        Instr::Goto(to) => {
            let leaves = Leaves::Gives(None);
            Ok(right(Vec::new(alloc), Also::Nothing, leaves, Flow::Jumps(to)))
        }
        Instr::If(_, to) => Ok(branch(one(alloc, Asked::Number)?, to)),
        Instr::IfIcmp(_, to) => Ok(branch(two(alloc, Asked::Number, Asked::Number)?, to)),
        Instr::IfAcmpeq(to) => Ok(branch(two(alloc, Asked::AnyObject, Asked::AnyObject)?, to)),
        Instr::IfAcmpne(to) => Ok(branch(two(alloc, Asked::AnyObject, Asked::AnyObject)?, to)),
        Instr::Ifnull(to) => Ok(branch(one(alloc, Asked::AnyObject)?, to)),
        Instr::Ifnonnull(to) => Ok(branch(one(alloc, Asked::AnyObject)?, to)),
        _ => work(alloc, instr),
    }
}

/// What an instruction asks and leaves that works on the frame alone and goes on behind.
fn work<'f>(alloc: Global, instr: Instr) -> Result<Act<'f>, NoMemory>
    requires { is_work instr ≡ true }
    ensures { IfOk result (λ made. (gives : Option Kind) → act_of made
        ≡ acted [] gives named.Nothing (operation (λ n. link.Other) instr)) }
{
    match instr {
        Instr::AconstNull => Ok(plain(Vec::new(alloc), Some(PlaceKind::Null))),
        Instr::Iconst(_) => Ok(plain(Vec::new(alloc), Some(PlaceKind::Int))),
        Instr::Bipush(_) => Ok(plain(Vec::new(alloc), Some(PlaceKind::Int))),
        Instr::Sipush(_) => Ok(plain(Vec::new(alloc), Some(PlaceKind::Int))),
        Instr::Iload(local) => Ok(load(alloc, local, Asked::Number)),
        Instr::Aload(local) => Ok(load(alloc, local, Asked::AnyObject)),
        Instr::IloadShort(local) => Ok(load(alloc, local, Asked::Number)),
        Instr::AloadShort(local) => Ok(load(alloc, local, Asked::AnyObject)),
        Instr::Istore(local) => store(alloc, local, Asked::Number),
        Instr::Astore(local) => store(alloc, local, Asked::AnyObject),
        Instr::IstoreShort(local) => store(alloc, local, Asked::Number),
        Instr::AstoreShort(local) => store(alloc, local, Asked::AnyObject),
        Instr::Pop => Ok(plain(one(alloc, Asked::Anything)?, None)),
        Instr::Dup => {
            let takes = one(alloc, Asked::Anything)?;
            Ok(right(takes, Also::Nothing, Leaves::Copies, Flow::Onward))
        }
        Instr::Ineg => Ok(plain(one(alloc, Asked::Number)?, Some(PlaceKind::Int))),
        Instr::Iinc(local, _) => {
            let also = Also::Local(local, Asked::Number);
            let leaves = Leaves::Gives(None);
            Ok(right(Vec::new(alloc), also, leaves, Flow::Onward))
        }
        Instr::Iadd => combined(alloc),
        Instr::Isub => combined(alloc),
        Instr::Imul => combined(alloc),
        Instr::Idiv => combined(alloc),
        Instr::Irem => combined(alloc),
        Instr::Ishl => combined(alloc),
        Instr::Ishr => combined(alloc),
        Instr::Iushr => combined(alloc),
        Instr::Iand => combined(alloc),
        Instr::Ior => combined(alloc),
        Instr::Ixor => combined(alloc),
        _ => unreachable!(),
    }
}

/// What makes one number of two.
fn combined<'f>(alloc: Global) -> Result<Act<'f>, NoMemory>
    ensures { IfOk result (λ made. act_of made ≡ record {
      wrong = false;
      takes = asks.Number ∷ asks.Number ∷ [];
      also = meaning.Nothing;
      leaves = meaning.Gives (kind.Int ∷ []);
      flow = meaning.Onward;
    }) }
{
    let takes = two(alloc, Asked::Number, Asked::Number)?;
    Ok(plain(takes, Some(PlaceKind::Int)))
}

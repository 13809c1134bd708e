//! Instructions that name no class.

ghost use Rattle.std.specs.Prelude.{◌≡◌, ℕ, Option, IfSome};
ghost use Rattle.par_values.specs.declared.kind.Kind.{Kind};
ghost use Rattle.par_kinds.specs.Shapes as shapes;
ghost use Rattle.par_kinds.specs.Shapes.{Shape};
ghost use Rattle.par_frame_steps.specs.declared.act.Flow.TheVariants as flow;
ghost use Rattle.par_frame_moves.specs.declared.brief.Work.TheVariants as work;
ghost use Rattle.par_frame_moves.specs.Briefs.{act_of};

use par_frame_steps::Flow;
use par_instr::Instr;

/// What is asked of an operand or of a local.
#[derive(Clone, Copy)]
pub enum Want {
    Number,
    Reference,
    Anything,
}

/// How many operands are taken, all of which have to be of the same kind.
#[derive(Clone, Copy)]
pub enum Takes {
    Nothing,
    One(Want),
    Two(Want),
}

/// What is done to locals and operands, once those that are taken are gone.
#[derive(Clone, Copy)]
pub enum Work {
    Nothing,
    PushNumber,
    PushNull,
    /// Pushes a local of a kind.
    Load(u8, Want),
    /// Changes a local that is a number.
    Increase(u8),
    /// Pushes twice what was taken.
    Copy,
    /// Sets a local to what was taken.
    Store(u8),
}

/// An instruction.
#[derive(Clone, Copy)]
pub struct Brief {
    pub takes: Takes,
    pub work: Work,
    pub flow: Flow,
}

/// What works on a frame alone and goes on behind.
fn plain(takes: Takes, work: Work) -> Brief
    ensures { act_of result ≡ act_of (record {
      takes = takes;
      work = work;
      flow = flow.Onward;
    }) }
{
    Brief {
        takes,
        work,
        flow: Flow::Onward,
    }
}

/// What takes operands and goes on elsewhere.
fn aside(takes: Takes, flow: Flow) -> Brief
    ensures { act_of result ≡ act_of (record {
      takes = takes;
      work = work.Nothing;
      flow = flow;
    }) }
{
    Brief {
        takes,
        work: Work::Nothing,
        flow,
    }
}

/// What an instruction asks and leaves, where it names no class and is no return.
pub fn in_brief(instr: Instr) -> Option<Brief>
    ensures { IfSome result (λ brief. (gives : Option Kind) (indices : ℕ → Shape) →
        act_of brief ≡ shapes.act_of gives indices instr) }
{
    match instr {
        Instr::AconstNull => Some(plain(Takes::Nothing, Work::PushNull)),
        Instr::Iconst(_) => Some(plain(Takes::Nothing, Work::PushNumber)),
        Instr::Bipush(_) => Some(plain(Takes::Nothing, Work::PushNumber)),
        Instr::Sipush(_) => Some(plain(Takes::Nothing, Work::PushNumber)),
        Instr::Iload(x) => Some(plain(Takes::Nothing, Work::Load(x, Want::Number))),
        Instr::Aload(x) => Some(plain(Takes::Nothing, Work::Load(x, Want::Reference))),
        Instr::IloadShort(x) => Some(plain(Takes::Nothing, Work::Load(x, Want::Number))),
        Instr::AloadShort(x) => Some(plain(Takes::Nothing, Work::Load(x, Want::Reference))),
        Instr::Istore(x) => Some(plain(Takes::One(Want::Number), Work::Store(x))),
        Instr::Astore(x) => Some(plain(Takes::One(Want::Reference), Work::Store(x))),
        Instr::IstoreShort(x) => Some(plain(Takes::One(Want::Number), Work::Store(x))),
        Instr::AstoreShort(x) => Some(plain(Takes::One(Want::Reference), Work::Store(x))),
        Instr::Pop => Some(plain(Takes::One(Want::Anything), Work::Nothing)),
        Instr::Dup => Some(plain(Takes::One(Want::Anything), Work::Copy)),
        Instr::Ineg => Some(plain(Takes::One(Want::Number), Work::PushNumber)),
        Instr::Iinc(x, _) => Some(plain(Takes::Nothing, Work::Increase(x))),
        Instr::Goto(to) => Some(aside(Takes::Nothing, Flow::Jumps(to))),
        Instr::If(_, to) => Some(aside(Takes::One(Want::Number), Flow::Branches(to))),
        Instr::IfIcmp(_, to) => Some(aside(Takes::Two(Want::Number), Flow::Branches(to))),
        Instr::IfAcmpeq(to) => Some(aside(Takes::Two(Want::Reference), Flow::Branches(to))),
        Instr::IfAcmpne(to) => Some(aside(Takes::Two(Want::Reference), Flow::Branches(to))),
        Instr::Ifnull(to) => Some(aside(Takes::One(Want::Reference), Flow::Branches(to))),
        Instr::Ifnonnull(to) => Some(aside(Takes::One(Want::Reference), Flow::Branches(to))),
        _ => combined(instr),
    }
}

/// What makes one number of two.
fn combined(instr: Instr) -> Option<Brief>
    ensures { IfSome result (λ brief. (gives : Option Kind) (indices : ℕ → Shape) →
        act_of brief ≡ shapes.act_of gives indices instr) }
{
    match instr {
        Instr::Iadd => Some(plain(Takes::Two(Want::Number), Work::PushNumber)),
        Instr::Isub => Some(plain(Takes::Two(Want::Number), Work::PushNumber)),
        Instr::Imul => Some(plain(Takes::Two(Want::Number), Work::PushNumber)),
        Instr::Idiv => Some(plain(Takes::Two(Want::Number), Work::PushNumber)),
        Instr::Irem => Some(plain(Takes::Two(Want::Number), Work::PushNumber)),
        Instr::Ishl => Some(plain(Takes::Two(Want::Number), Work::PushNumber)),
        Instr::Ishr => Some(plain(Takes::Two(Want::Number), Work::PushNumber)),
        Instr::Iushr => Some(plain(Takes::Two(Want::Number), Work::PushNumber)),
        Instr::Iand => Some(plain(Takes::Two(Want::Number), Work::PushNumber)),
        Instr::Ior => Some(plain(Takes::Two(Want::Number), Work::PushNumber)),
        Instr::Ixor => Some(plain(Takes::Two(Want::Number), Work::PushNumber)),
        _ => None,
    }
}

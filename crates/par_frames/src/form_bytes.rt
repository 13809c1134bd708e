//! Forms of frames, put behind the bytes that a vector has.

ghost use Rattle.std.specs.Prelude.{◌≡◌, ◌++◌, ◌≤◌, ◌<◌, ◌^◌, length, OnOk};
ghost use Rattle.par_frame_forms.specs.declared.form.FrameForm.TheVariants.{Cut, More, Full};
ghost use Rattle.par_frame_forms.specs.Spelled.{spelled_type, spelled_types, spelled};
ghost use Rattle.par_frames.specs.Forms.{operand};

use par_base::memory::NoMemory;
use par_frame_forms::PlaceType;
use par_frame_forms::par_pool::writer::put_u2;

/// Distances below this one need no bytes of their own.
pub(crate) const NEAR: u16 = 64;

/// The most locals that a form cuts, or lists behind those of the frame before.
pub(crate) const FEW: usize = 3;

/// Puts the type of a local or an operand.
pub(crate) fn put_type(out: &mut Vec<u8>, t: &PlaceType) -> Result<(), NoMemory>
    ensures { OnOk result (out.new.items ≡ out.old.items ++ spelled_type t.now) }
{
    match t {
        PlaceType::Top => out.push(0)?,
        PlaceType::Int => out.push(1)?,
        PlaceType::Null => out.push(5)?,
        PlaceType::Class(index) => {
            out.push(7)?;
            put_u2(out, *index)?;
        }
    }
    Ok(())
}

/// Puts types one behind the other.
pub(crate) fn put_types(out: &mut Vec<u8>, types: &[PlaceType]) -> Result<(), NoMemory>
    ensures { OnOk result (out.new.items ≡ out.old.items ++ spelled_types types.now) }
{
    let mut rest = types;
    while let [t, behind @ ..] = rest {
        put_type(out, t)?;
        rest = behind;
    }
    Ok(())
}

/// Puts a frame of up to three locals more.
pub(crate) fn put_more(out: &mut Vec<u8>, delta: u16, types: &[PlaceType]) -> Result<(), NoMemory>
    requires { length types.now ≤ 3 }
    ensures { OnOk result (out.new.items ≡ out.old.items ++ spelled (More delta types.now)) }
{
    out.push(251 + types.len() as u8)?;
    put_u2(out, delta)?;
    put_types(out, types)
}

/// Puts a frame with all its locals and operands.
pub(crate) fn put_full(
    out: &mut Vec<u8>,
    delta: u16,
    locals: &[PlaceType],
    stack: &[PlaceType],
) -> Result<(), NoMemory>
    requires few { length locals.now < 2 ^ 16 }
    requires low { length stack.now < 2 ^ 16 }
    ensures { OnOk result
        (out.new.items ≡ out.old.items ++ spelled (Full delta locals.now stack.now)) }
{
    out.push(255)?;
    put_u2(out, delta)?;
    put_u2(out, locals.len() as u16)?;
    put_types(out, locals)?;
    put_u2(out, stack.len() as u16)?;
    put_types(out, stack)
}

/// Puts a frame of up to three locals less.
pub(crate) fn put_cut(out: &mut Vec<u8>, many: u8, delta: u16) -> Result<(), NoMemory>
    requires { many ≤ 3 }
    ensures { OnOk result (out.new.items ≡ out.old.items ++ spelled (Cut many delta)) }
{
    out.push(251 - many)?;
    put_u2(out, delta)
}

/// Puts a frame with the listed locals and one operand.
pub(crate) fn put_operand(out: &mut Vec<u8>, delta: u16, t: &PlaceType) -> Result<(), NoMemory>
    ensures { OnOk result (out.new.items ≡ out.old.items ++ spelled (operand delta t.now)) }
{
    if delta < NEAR {
        out.push(64 + delta as u8)?;
    } else {
        out.push(247)?;
        put_u2(out, delta)?;
    }
    put_type(out, t)
}

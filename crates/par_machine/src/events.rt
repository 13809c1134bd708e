//! What is handed out, with names: events, endings and bad code.

ghost use Rattle.std.specs.Prelude.{◌≡◌, ◌<◌, length, IfOk, IsOk, IsTrue, OnErr};
ghost use Rattle.par_values.specs.Areas.{class_named, shown_value};
ghost use Rattle.par_values.specs.declared.link.ClassLink.{ClassLink};
ghost use Rattle.par_values.specs.declared.link.FieldLink.{FieldLink};
ghost use Rattle.par_values.specs.declared.link.MethodLink.{MethodLink};
ghost use Rattle.par_values.specs.declared.link.Link.TheVariants as link;
ghost use Rattle.par_values.specs.declared.run.Event.TheVariants as event;
ghost use Rattle.par_values.specs.declared.run.Ending.TheVariants.{Uncaught};
ghost use Rattle.par_method_area.specs.par_actions.Done.{out_by};
ghost use Rattle.par_method_area.specs.par_step_laws.Classes.{class_names};
ghost use Rattle.par_method_area.specs.par_step_laws.Methods.{method_name};
ghost use Rattle.par_method_area.specs.par_step_laws.State.{State};
ghost use Rattle.par_method_area.specs.par_step_laws.Step.{IsBad, Ends};
ghost use Rattle.par_machine.specs.Instructions.{index_of};
ghost use Rattle.par_machine.specs.Objects.{count_classes};
ghost use Rattle.par_machine.specs.Site.{named_by, IsTellable, IsMade, IsOutput, HasName};
ghost use Rattle.par_machine.specs.Turn.{IsTurn, is_over};

use crate::site::Site;
use crate::turn::{Stuck, Turn};
use par_base::list::List;
use par_base::memory::NoMemory;
use par_base::name::Name;
use par_instr::Instr;
use par_method_area::MethodArea;
use par_stack::Point;
use par_values::run::{Ending, Event, Val};
use par_values::value::MVal;
use std::alloc::Global;

/// The index of the constant that an instruction names, 0 where it names no member and no class.
fn index(instr: Instr) -> u16
    ensures { result ≡ index_of instr }
{
    match instr {
        Instr::Getstatic(index) => index,
        Instr::Putstatic(index) => index,
        Instr::Getfield(index) => index,
        Instr::Putfield(index) => index,
        Instr::Invokevirtual(index) => index,
        Instr::Invokespecial(index) => index,
        Instr::Invokestatic(index) => index,
        Instr::New(index) => index,
        _ => 0,
    }
}

/// A value with the name of its class.
fn shown(alloc: Global, area: &MethodArea, value: MVal) -> Result<Val, NoMemory>
    requires { HasName area.now.files value }
    ensures { IfOk result (λ v. v ≡ shown_value (class_names area.now.files) value) }
{
    match value {
        MVal::Int(number) => Ok(Val::Int(number)),
        MVal::Null => Ok(Val::Null),
        MVal::Ref(class, n) => Ok(Val::Ref(Name::new(alloc, area.class_name(class))?, n)),
    }
}

/// The event of a write to a static field.
pub(crate) fn set_event(
    alloc: Global,
    area: &MethodArea,
    site: Site,
    value: MVal,
) -> Result<Event, NoMemory>
    requires tellable { IsTellable (named_by area.now.files site) }
    requires named { HasName area.now.files value }
    ensures { IfOk result (λ e. (f : FieldLink) → named_by area.now.files site ≡ link.Field f →
        e ≡ event.Set f.class f.name (shown_value (class_names area.now.files) value)) }
{
    let names = area.member(site.point.class, index(site.instr));
    let class = Name::new(alloc, names.class)?;
    let name = Name::new(alloc, names.name)?;
    let shown = shown(alloc, area, value)?;
    Ok(Event::Set(class, name, shown))
}

/// The event of a write to a field of the object of this number.
pub(crate) fn put_event(
    alloc: Global,
    area: &MethodArea,
    site: Site,
    n: u32,
    value: MVal,
) -> Result<Event, NoMemory>
    requires tellable { IsTellable (named_by area.now.files site) }
    requires named { HasName area.now.files value }
    ensures { IfOk result (λ e. (f : FieldLink) → named_by area.now.files site ≡ link.Field f →
        e ≡ event.Put f.class n f.name (shown_value (class_names area.now.files) value)) }
{
    let names = area.member(site.point.class, index(site.instr));
    let class = Name::new(alloc, names.class)?;
    let name = Name::new(alloc, names.name)?;
    let shown = shown(alloc, area, value)?;
    Ok(Event::Put(class, n, name, shown))
}

/// The event of the birth of the object of this number.
pub(crate) fn born_event(
    alloc: Global,
    area: &MethodArea,
    site: Site,
    n: u32,
) -> Result<Event, NoMemory>
    requires { IsMade (named_by area.now.files site) }
    ensures { IfOk result (λ e. (c : ClassLink) → named_by area.now.files site ≡ link.Class c →
        e ≡ event.Born c.name n) }
{
    let Some(class) = area.class(site.point.class, index(site.instr)) else {
        unreachable!();
    };
    Ok(Event::Born(Name::new(alloc, area.class_name(class.number))?, n))
}

/// The event of a number that is put out.
pub(crate) fn out_event(
    alloc: Global,
    area: &MethodArea,
    site: Site,
    number: i32,
) -> Result<Event, NoMemory>
    requires { IsOutput (named_by area.now.files site) }
    ensures { IfOk result (λ e. (m : MethodLink) → named_by area.now.files site ≡ link.Method m →
        e ≡ out_by m.target number) }
{
    let names = area.member(site.point.class, index(site.instr));
    let class = Name::new(alloc, names.class)?;
    let name = Name::new(alloc, names.name)?;
    Ok(Event::Out(class, name, number))
}

/// An exception of a class that no frame takes.
#[inline(always)]
pub(crate) fn uncaught(alloc: Global, area: &MethodArea, class: u16) -> Result<Turn, Stuck>
    requires { class < count_classes area.now.files }
    ensures { (after : State) → IsTurn result
        (Ends (Uncaught (class_named (class_names area.now.files) class))) after }
{
    let name = Name::new(alloc, area.class_name(class))?;
    Ok(Turn::Ended(Ending::Uncaught(name)))
}

/// The name of the method at a point.
fn method_text(alloc: Global, area: &MethodArea, point: Point) -> Result<List<u8>, NoMemory>
    ensures { IfOk result (λ name. name ≡ method_name area.now.files point.class point.method) }
{
    Ok(List::wrap(area.method_name(point.class, point.method).to_vec(alloc)?))
}

/// Bad code at a point.
#[inline(always)]
pub(crate) fn stuck(
    alloc: Global,
    area: &MethodArea,
    point: Point,
    reason: u8,
) -> Result<Turn, Stuck>
    requires { point.class < count_classes area.now.files }
    ensures { (after : State) → IsTurn result
        (IsBad (class_named (class_names area.now.files) point.class)
        (method_name area.now.files point.class point.method) point.at reason) after }
{
    let class = Name::new(alloc, area.class_name(point.class))?;
    let method = method_text(alloc, area, point)?;
    Err(Stuck::BadCode {
        class,
        method,
        offset: point.at,
        reason,
    })
}

//! What the fields of a program hold, and writes to them.

ghost use Rattle.std.specs.Prelude.{◌≡◌, unwrap_or, IfOk};
ghost use Rattle.par_run_laws.specs.Meaning.{writes_static, writes_field};
ghost use Rattle.par_run_laws.specs.Names.{first_field};
ghost use Rattle.par_run_laws.specs.Values.{shown_value, object_number};
ghost use Rattle.par_source_state.specs.Stored.{holds, field_held};
ghost use Rattle.par_meaning.specs.Onward.{Does};
ghost use Rattle.par_meaning.specs.Work.{reads_field, sets_field};

use crate::events::tell;
use crate::machine::Machine;
use crate::operators::{is_there, object_number};
use crate::work::{Exit, FINE, NULL_POINTER, Then};
use par_base::memory::NoMemory;
use par_source_state::{Program, names};
use par_values::run::{Event, Val};
use par_values::value::MVal;

/// What a static field holds.
pub(crate) fn static_field(program: &Program, machine: &Machine, class: u16, field: u16) -> MVal
    ensures { result ≡ unwrap_or ((holds machine.now.store).statics class field)
        (first_field program.now.typed.now.table class field) }
{
    match machine.store.static_field(class, field) {
        Some(value) => value,
        None => names::first_field(&program.typed.table, class, field),
    }
}

/// What a field of an object holds, null where there is no such object.
fn object_field(program: &Program, machine: &Machine, class: u16, number: u32, field: u16) -> MVal
    ensures { result ≡ field_held program.now.typed.now.table (holds machine.now.store)
        class number field }
{
    if number >= machine.store.births(class) {
        return MVal::Null;
    }
    match machine.store.field(class, number, field) {
        Some(value) => value,
        None => names::first_field(&program.typed.table, class, field),
    }
}

/// Reads a field of an object, where it is there.
pub(crate) fn read_field<'a>(
    program: &Program<'a>,
    machine: &mut Machine<'a>,
    sure: bool,
    class: u16,
    field: u16,
    of: MVal,
) -> Then<'a>
    ensures { Does program.now (λ p. reads_field sure class field of)
        machine.old machine.new result }
{
    if is_there(sure, of) {
        let number = object_number(of);
        Then::gives(object_field(program, machine, class, number, field))
    } else {
        Then::leaves(Exit::Thrown(NULL_POINTER))
    }
}

/// A value as an event shows it.
fn shown(program: &Program, value: MVal) -> Result<Val, NoMemory>
    ensures { IfOk result (λ v. v ≡ shown_value program.now.typed.now.table value) }
{
    match value {
        MVal::Int(number) => Ok(Val::Int(number)),
        MVal::Null => Ok(Val::Null),
        MVal::Ref(class, number) => match names::class(&program.typed.table, class) {
            Some(name) => {
                let name = name.copy(program.alloc)?;
                Ok(Val::Ref(name, number))
            }
            None => Ok(Val::Null),
        },
    }
}

/// Writes a static field.
pub(crate) fn write_static<'a>(
    program: &Program<'a>,
    machine: &mut Machine<'a>,
    class: u16,
    field: u16,
    value: MVal,
) -> Result<Then<'a>, NoMemory>
    ensures { IfOk result (λ on. Does program.now
        (λ p. writes_static p.table class field value) machine.old machine.new on) }
{
    let Some(member) = names::field(&program.typed.table, class, field) else {
        return Ok(Then::Ends(FINE));
    };
    let class_name = member.class.copy(program.alloc)?;
    let name = member.name.copy(program.alloc)?;
    let shows = shown(program, value)?;
    tell(machine, Event::Set(class_name, name, shows))?;
    machine.store.write_static(class, field, value)?;
    Ok(Then::Ends(FINE))
}

/// Writes a field of an object, where it is there.
pub(crate) fn write_field<'a>(
    program: &Program<'a>,
    machine: &mut Machine<'a>,
    sure: bool,
    class: u16,
    field: u16,
    of: MVal,
    value: MVal,
) -> Result<Then<'a>, NoMemory>
    ensures { IfOk result (λ on. Does program.now
        (λ p. sets_field p.table sure class field of value) machine.old machine.new on) }
{
    if is_there(sure, of) {
        write_object(program, machine, class, field, of, value)
    } else {
        Ok(Then::leaves(Exit::Thrown(NULL_POINTER)))
    }
}

/// Writes a field of an object.
fn write_object<'a>(
    program: &Program<'a>,
    machine: &mut Machine<'a>,
    class: u16,
    field: u16,
    of: MVal,
    value: MVal,
) -> Result<Then<'a>, NoMemory>
    ensures { IfOk result (λ on. Does program.now
        (λ p. writes_field p.table class field of value) machine.old machine.new on) }
{
    let Some(member) = names::field(&program.typed.table, class, field) else {
        return Ok(Then::Ends(FINE));
    };
    let class_name = member.class.copy(program.alloc)?;
    let name = member.name.copy(program.alloc)?;
    let shows = shown(program, value)?;
    let number = object_number(of);
    tell(machine, Event::Put(class_name, number, name, shows))?;
    machine.store.write_field(class, number, field, value)?;
    Ok(Then::Ends(FINE))
}

//! What channels give and take, and what happens.

ghost use Rattle.std.specs.Prelude.{◌≡◌, unwrap_or, IfOk, OnOk};
ghost use Rattle.par_values.specs.declared.run.Event.{Event as Happened};
ghost use Rattle.par_run_laws.specs.Meaning.{outputs, inputs, born};
ghost use Rattle.par_run_laws.specs.Names.{made_named, channel_named};
ghost use Rattle.par_run_laws.specs.Source.{given_to};
ghost use Rattle.par_run_laws.specs.Tasks.{named};
ghost use Rattle.par_source_state.specs.Stored.{holds};
ghost use Rattle.par_meaning.specs.Onward.{Does, told};

use crate::machine::Machine;
use crate::operators::{constant, number};
use crate::run::SourceEvent;
use crate::work::{FINE, Then};
use par_base::memory::NoMemory;
use par_source_state::{Program, names};
use par_values::run::Event;
use par_values::value::MVal;

/// What an input channel has left.
fn numbers<'a>(program: &Program<'a>, machine: &Machine<'a>, class: u16, channel: u16) -> &'a [i32]
    ensures { result.now ≡ unwrap_or ((holds machine.now.store).inputs class channel)
        (given_to program.now.inputs.now.channels
        (channel_named program.now.typed.now.table class channel)) }
{
    match machine.store.input(class, channel) {
        Some(numbers) => numbers,
        None => program.line(class, channel),
    }
}

/// Takes the next number of an input channel.
pub(crate) fn input<'a>(
    program: &Program<'a>,
    machine: &mut Machine<'a>,
    class: u16,
    channel: u16,
) -> Result<Then<'a>, NoMemory>
    ensures { IfOk result (λ on.
        Does program.now (λ p. inputs class channel) machine.old machine.new on) }
{
    let numbers = numbers(program, machine, class, channel);
    match numbers.split_first() {
        Some((first, others)) => {
            machine.store.keep_input(class, channel, others)?;
            Ok(Then::gives(constant(first)))
        }
        None => {
            machine.store.keep_input(class, channel, numbers)?;
            Ok(Then::gives(MVal::Int(0)))
        }
    }
}

/// Puts an event behind the others, with the locks that are open now.
pub(crate) fn tell(machine: &mut Machine, event: Event) -> Result<(), NoMemory>
    ensures { OnOk result (machine.new ≡ told event machine.old) }
{
    let locks = machine.store.locks().clone()?;
    machine.events.push(SourceEvent { event, locks })?;
    Ok(())
}

/// Makes an object of a class, where objects of it are made.
pub(crate) fn born<'a>(
    program: &Program<'a>,
    machine: &mut Machine<'a>,
    class: u16,
) -> Result<Then<'a>, NoMemory>
    ensures { IfOk result (λ on.
        Does program.now (λ p. named (made_named p.table class) (born p.table class))
        machine.old machine.new on) }
{
    match names::made(&program.typed.table, class) {
        Some(name) => {
            let name = name.copy(program.alloc)?;
            let number = machine.store.births(class);
            tell(machine, Event::Born(name, number))?;
            let number = machine.store.bear(class)?;
            Ok(Then::gives(MVal::Ref(class, number)))
        }
        None => Ok(Then::Ends(FINE)),
    }
}

/// Puts a number out on a channel.
pub(crate) fn output<'a>(
    program: &Program<'a>,
    machine: &mut Machine<'a>,
    class: u16,
    channel: u16,
    value: MVal,
) -> Result<Then<'a>, NoMemory>
    ensures { IfOk result (λ on.
        Does program.now (λ p. outputs p.table class channel value) machine.old machine.new on) }
{
    if let Some(member) = names::channel(&program.typed.table, class, channel) {
        let class = member.class.copy(program.alloc)?;
        let name = member.name.copy(program.alloc)?;
        tell(machine, Event::Out(class, name, number(value)))?;
    }
    Ok(Then::Ends(FINE))
}

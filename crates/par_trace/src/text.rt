//! The text of a line, from an event and the locks that are open.

ghost use Rattle.std.specs.Prelude.{◌≡◌, ◌++◌, map, IfOk, OnOk};
ghost use Rattle.std.specs.List.{join_with_byte};
ghost use Rattle.par_meaning.specs.Onward.{witnessed};
ghost use Rattle.par_event_lines.specs.Texts.{line};
ghost use Rattle.par_trace.specs.Texts as spec;

use par_base::memory::NoMemory;
use par_event_lines::add_event;
use par_meaning::SourceEvent;
use par_typed::table::Table;
use std::alloc::Global;

/// The name of an actor.
pub fn actor_name(table: &Table, actor: u8) -> &[u8]
    ensures { result.now ≡ spec.actor_text table.now actor }
{
    match table.actors.get(usize::from(actor)) {
        Some(name) => name.bytes(),
        None => b"",
    }
}

/// Adds actors, with a comma between each two.
fn add_actors(text: &mut Vec<u8>, table: &Table, actors: &[u8]) -> Result<(), NoMemory>
    ensures { OnOk result (text.new.items ≡ text.old.items
        ++ join_with_byte 44 (map (spec.actor_text table.now) actors.now)) }
{
    let Some((first, rest)) = actors.split_first() else {
        return Ok(());
    };
    text.extend_from_slice(actor_name(table, *first))?;
    for actor in rest {
        text.extend_from_slice(b",")?;
        text.extend_from_slice(actor_name(table, *actor))?;
    }
    Ok(())
}

/// Adds the actors that choose a lock of a family.
fn add_choice(text: &mut Vec<u8>, table: &Table, actors: &[u8]) -> Result<(), NoMemory>
    ensures { OnOk result (text.new.items
        ≡ text.old.items ++ spec.choice_text table.now actors.now) }
{
    if actors.is_empty() {
        return Ok(());
    }
    text.extend_from_slice(b"(")?;
    add_actors(text, table, actors)?;
    text.extend_from_slice(b")")?;
    Ok(())
}

/// Adds a lock.
pub fn add_lock(text: &mut Vec<u8>, table: &Table, lock: u16) -> Result<(), NoMemory>
    ensures { OnOk result (text.new.items ≡ text.old.items ++ spec.lock_text table.now lock) }
{
    let Some(ground) = table.locks.get(usize::from(lock)) else {
        return Ok(());
    };
    text.extend_from_slice(ground.name.bytes())?;
    add_choice(text, table, ground.actors.as_slice())
}

/// Adds locks, with a space between each two.
fn add_locks(text: &mut Vec<u8>, table: &Table, locks: &[u16]) -> Result<(), NoMemory>
    ensures { OnOk result (text.new.items ≡ text.old.items
        ++ join_with_byte 32 (map (spec.lock_text table.now) locks.now)) }
{
    let Some((first, rest)) = locks.split_first() else {
        return Ok(());
    };
    add_lock(text, table, *first)?;
    for lock in rest {
        text.extend_from_slice(b" ")?;
        add_lock(text, table, *lock)?;
    }
    Ok(())
}

/// The line of an event, with its end.
pub(crate) fn event_line(
    alloc: Global,
    table: &Table,
    event: &SourceEvent,
) -> Result<Vec<u8>, NoMemory>
    ensures { IfOk result (λ text.
        text.items ≡ line (spec.witnessed_text table.now (witnessed event.now))) }
{
    let mut text = Vec::new(alloc);
    add_event(alloc, &mut text, &event.event)?;
    text.extend_from_slice(b" [")?;
    add_locks(&mut text, table, event.locks.as_slice())?;
    text.extend_from_slice(b"]\n")?;
    Ok(text)
}

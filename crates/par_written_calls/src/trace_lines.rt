//! Lines of source runs, put with ample memory.

use par_io::MemSink;
use par_lexer::list::List;
use par_lexer::name::Name;
use par_meaning::{SourceEvent, SourceRun};
use par_policy::Lockset;
use par_trace::{inputs_fit, tell_source};
use par_typed::table::Table;
use par_typed_sources::typed;
use par_values::inputs::{ChannelInput, Inputs};
use par_values::run::{Ending, Event, Val};
use par_worked::expect;
use std::alloc::Global;
use std::rt::HostRuntime;
use std::test::Fail;

// Its ground locks are Owns(alice), Owns(bob), Both of each two, and Paid.
const SHOP: &[u8] = b"actor alice, bob;
lock Owns(actor);
lock Both(actor, actor);
lock Paid;
class Shop { input int key(); output void show(int v); static int last; static void main() { } }
";

const LINES: &[u8] = b"out Shop.show 42 [Owns(alice) Both(alice,bob) Paid]
set Shop.last 7 []
budget
";

fn shop(alloc: Global) -> Result<Name, Fail> {
    Ok(Name::new(alloc, b"Shop")?)
}

fn lock_set(alloc: Global, open: &[u16]) -> Result<Lockset, Fail> {
    let mut locks = Lockset::new(alloc);
    for lock in open {
        locks.insert(*lock)?;
    }
    Ok(locks)
}

fn output(alloc: Global) -> Result<Event, Fail> {
    Ok(Event::Out(shop(alloc)?, Name::new(alloc, b"show")?, 42))
}

fn shown(alloc: Global) -> Result<SourceEvent, Fail> {
    let locks = lock_set(alloc, &[6, 3, 0])?;
    let event = output(alloc)?;
    Ok(SourceEvent { event, locks })
}

fn write(alloc: Global) -> Result<Event, Fail> {
    Ok(Event::Set(shop(alloc)?, Name::new(alloc, b"last")?, Val::Int(7)))
}

fn set(alloc: Global) -> Result<SourceEvent, Fail> {
    let event = write(alloc)?;
    Ok(SourceEvent {
        event,
        locks: Lockset::new(alloc),
    })
}

fn put_events(alloc: Global, events: &mut List<SourceEvent>) -> Result<(), Fail> {
    events.push(shown(alloc)?)?;
    events.push(set(alloc)?)?;
    Ok(())
}

fn run(alloc: Global) -> Result<SourceRun, Fail> {
    let mut events = List::new(alloc);
    put_events(alloc, &mut events)?;
    Ok(SourceRun {
        events,
        ending: Ending::Stopped,
    })
}

// Whether no step is left, and the lines are those of the run.
fn is_told(alloc: Global, table: &Table, run: &SourceRun) -> Result<bool, Fail> {
    let mut sink = MemSink::new(alloc, 200)?;
    let status = tell_source(alloc, table, run, &mut sink);
    let are_these = sink.bytes() == LINES;
    drop(sink);
    Ok(status == 11 && are_these)
}

fn check_told(alloc: Global, table: &Table) -> Result<(), Fail> {
    let run = run(alloc)?;
    let is_told = is_told(alloc, table, &run);
    drop(run);
    expect(is_told?, "the lines of the run")
}

#[test]
fn each_event_has_its_locks(rt: HostRuntime) -> Result<(), Fail> {
    let typed = typed(rt.alloc(), SHOP)?;
    let checked = check_told(rt.alloc(), &typed.table);
    drop(typed);
    checked
}

fn name_of(alloc: Global, channel: &[u8]) -> Result<Name, Fail> {
    if !Name::is_name(channel) {
        return Err(Fail::new("a channel has a name"));
    }
    Ok(Name::new(alloc, channel)?)
}

fn line(alloc: Global, channel: &[u8]) -> Result<ChannelInput, Fail> {
    let channel = name_of(alloc, channel)?;
    Ok(ChannelInput {
        class: shop(alloc)?,
        channel,
        numbers: List::new(alloc),
    })
}

fn inputs(alloc: Global, channel: &[u8]) -> Result<Inputs, Fail> {
    let line = line(alloc, channel)?;
    let mut channels = List::new(alloc);
    channels.push(line)?;
    Ok(Inputs { channels })
}

const CHANNELS: &[(&str, &[u8], Option<usize>)] = &[
    ("an input channel", b"key", None),
    ("an output channel", b"show", Some(0)),
    ("a field", b"last", Some(0)),
];

fn fits(alloc: Global, table: &Table, channel: &[u8], place: Option<usize>) -> Result<bool, Fail> {
    let inputs = inputs(alloc, channel)?;
    let unfit = inputs_fit(alloc, table, &inputs);
    drop(inputs);
    Ok(unfit? == place)
}

fn check_channels(alloc: Global, table: &Table) -> Result<(), Fail> {
    for (name, channel, place) in CHANNELS {
        expect(fits(alloc, table, channel, *place)?, name)?;
    }
    Ok(())
}

#[test]
fn lines_name_input_channels(rt: HostRuntime) -> Result<(), Fail> {
    let typed = typed(rt.alloc(), SHOP)?;
    let checked = check_channels(rt.alloc(), &typed.table);
    drop(typed);
    checked
}

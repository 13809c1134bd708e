ghost use Rattle.std.specs.Prelude.{◌≡◌, ◌↔◌, IsTrue};
ghost use Rattle.std.specs.List.{list_all};
ghost use Rattle.par_run_laws.specs.par_secrecy.Subject.{is_of, given};
ghost use Rattle.par_run_laws.specs.par_secrecy.Shown.{Alike, sees};
ghost use Rattle.par_alike.specs.Subject.{policy_at, subject};
ghost use Rattle.par_alike.specs.Tests.{observer, class_tests, channel_test};

use par_base::name::Name;
use par_policy::{Lockset, sees};
use par_typed::program::Typed;
use par_typed::table::{ChannelInfo, ClassInfo, Table};
use par_values::inputs::{ChannelInput, Inputs};

/// Whether the line is that of this channel.
fn is_of(class: &Name, channel: &Name, line: &ChannelInput) -> bool
    ensures { result ≡ is_of class.now channel.now line.now }
{
    line.class.bytes() == class.bytes() && line.channel.bytes() == channel.bytes()
}

/// The numbers of the first line for this channel, and none without a line.
fn given<'a>(inputs: &'a Inputs, class: &Name, channel: &Name) -> &'a [i32]
    ensures { result.now ≡ given inputs.now.channels class.now channel.now }
{
    for line in inputs.channels.as_slice() {
        if is_of(class, channel, line) {
            return line.numbers.as_slice();
        }
    }
    &[]
}

/// Whether an observer, this actor with these locks, sees the policy of this number.
fn sees_at(table: &Table, policy: u16, actor: u8, locks: &Lockset) -> bool
    ensures { result ≡ sees (observer actor locks.now) (policy_at table.now policy) }
{
    match table.policies.get(usize::from(policy)) {
        Some(policy) => sees(policy, actor, locks),
        None => false,
    }
}

/// Whether both inputs give a channel of a class the same, or the observer does not see it.
fn channel_alike(
    a: &Inputs,
    b: &Inputs,
    table: &Table,
    class: &Name,
    channel: &ChannelInfo,
    actor: u8,
    locks: &Lockset,
) -> bool
    ensures { result ≡ channel_test a.now b.now table.now (observer actor locks.now) class.now
        channel.now }
{
    if channel.is_input && sees_at(table, channel.policy, actor, locks) {
        given(a, class, &channel.name) == given(b, class, &channel.name)
    } else {
        true
    }
}

/// The same of all channels of a class.
fn class_alike(
    a: &Inputs,
    b: &Inputs,
    table: &Table,
    class: &ClassInfo,
    actor: u8,
    locks: &Lockset,
) -> bool
    ensures { result ≡ class_tests a.now b.now table.now (observer actor locks.now) class.now }
{
    class.channels.as_slice().iter().all(|channel| channel_alike(
        a,
        b,
        table,
        &class.name,
        channel,
        actor,
        locks,
    ))
}

/// The same of all classes.
fn give_alike(a: &Inputs, b: &Inputs, table: &Table, actor: u8, locks: &Lockset) -> bool
    ensures { result ≡ list_all
        (class_tests a.now b.now table.now (observer actor locks.now)) table.now.classes }
{
    table
        .classes
        .as_slice()
        .iter()
        .all(|class| class_alike(a, b, table, class, actor, locks))
}

/// Whether both inputs give the same list on each input channel that the observer sees, this actor
/// with these locks; a channel without a line has the empty list. It takes no memory.
pub fn alike(a: &Inputs, b: &Inputs, typed: &Typed, actor: u8, locks: &Lockset) -> bool
    ensures { IsTrue result ↔ Alike (subject typed.now) (observer actor locks.now) a.now b.now }
{
    give_alike(a, b, &typed.table, actor, locks)
}

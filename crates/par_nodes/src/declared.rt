//! What a table declares of flow, by numbers.

ghost use Rattle.std.specs.Prelude.{◌≡◌};
ghost use Rattle.std.specs.Option.{option_copied};
ghost use Rattle.par_program_laws.specs.Declares.{declares, method_of};

use par_typed::table::{MethodInfo, Table};

/// The policy of a field.
#[tactic(auto, unfolding(par_program_laws::specs::Declares::declares))]
pub fn field(table: &Table, class: u16, field: u16) -> u16
    ensures { result ≡ (declares table.now).field class field }
{
    match table.classes.get(usize::from(class)) {
        None => 0,
        Some(class) => match class.fields.get(usize::from(field)) {
            None => 0,
            Some(field) => field.policy,
        },
    }
}

/// The policy of a channel.
#[tactic(auto, unfolding(par_program_laws::specs::Declares::declares))]
pub fn channel(table: &Table, class: u16, channel: u16) -> u16
    ensures { result ≡ (declares table.now).channel class channel }
{
    match table.classes.get(usize::from(class)) {
        None => 0,
        Some(class) => match class.channels.get(usize::from(channel)) {
            None => 0,
            Some(channel) => channel.policy,
        },
    }
}

/// The policy of the births of a class.
#[tactic(auto, unfolding(par_program_laws::specs::Declares::declares))]
pub fn birth(table: &Table, class: u16) -> u16
    ensures { result ≡ (declares table.now).birth class }
{
    match table.classes.get(usize::from(class)) {
        None => 0,
        Some(class) => class.birth,
    }
}

/// The policy of a lock that a `when` asks for.
#[tactic(auto, unfolding(par_program_laws::specs::Declares::declares))]
pub fn lock(table: &Table, lock: u16) -> u16
    ensures { result ≡ (declares table.now).lock lock }
{
    match table.locks.get(usize::from(lock)) {
        None => 0,
        Some(lock) => match lock.policy {
            None => 0,
            Some(policy) => policy,
        },
    }
}

/// A method.
#[tactic(auto, unfolding(par_program_laws::specs::Declares::declares))]
pub fn method(table: &Table, class: u16, method: u16) -> Option<&MethodInfo>
    ensures { method_of (option_copied result) ≡ (declares table.now).method class method }
{
    match table.classes.get(usize::from(class)) {
        None => None,
        Some(class) => class.methods.get(usize::from(method)),
    }
}

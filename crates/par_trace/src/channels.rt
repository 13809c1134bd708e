//! The input channels of a program, found by their names.

ghost use Rattle.std.specs.Prelude.{◌≡◌, ◌++◌, map, not, IfOk, OnOk};
ghost use Rattle.std.specs.List.{position};
ghost use Rattle.par_index.specs.Firsts.{AreFirst};
ghost use Rattle.par_trace.specs.Channels.{inputs_in, input_channels, is_among, first_misfit};
ghost use Rattle.par_trace.specs.Keys.{named, same_key};

use par_base::memory::NoMemory;
use par_index::Firsts;
use par_typed::table::{ClassInfo, Table};
use par_values::inputs::{ChannelInput, Inputs};
use std::alloc::Global;

/// What a channel is found by.
#[derive(Clone, Copy, PartialEq, Eq, Hash)]
struct Key<'t> {
    class: &'t [u8],
    name: &'t [u8],
}

/// Adds the input channels of a class.
fn add_inputs<'t>(keys: &mut Vec<Key<'t>>, class: &'t ClassInfo) -> Result<(), NoMemory>
    ensures { OnOk result
        (map named keys.new.items ≡ map named keys.old.items ++ inputs_in class.now) }
{
    for channel in class.channels.as_slice() {
        if channel.is_input {
            keys.push(Key {
                class: class.name.bytes(),
                name: channel.name.bytes(),
            })?;
        }
    }
    Ok(())
}

/// The input channels of a program.
fn input_keys(alloc: Global, table: &Table) -> Result<Vec<Key>, NoMemory>
    ensures { IfOk result (λ keys. map named keys.items ≡ input_channels table.entry.now) }
{
    let mut keys = Vec::new(alloc);
    for class in table.classes.as_slice() {
        add_inputs(&mut keys, class)?;
    }
    Ok(keys)
}

/// The input channels of a program, with their first places among these.
#[derive(Drop)]
struct InputChannels<'t> {
    keys: Vec<Key<'t>>,
    firsts: Firsts<Key<'t>>,
    ghost placed: { AreFirst same_key keys.items firsts },
}

impl<'t> InputChannels<'t> {
    fn of(alloc: Global, table: &'t Table) -> Result<InputChannels<'t>, NoMemory>
        ensures { IfOk result (λ channels.
            map named channels.keys.items ≡ input_channels table.entry.now) }
    {
        let keys = input_keys(alloc, table)?;
        let firsts = Firsts::of(alloc, keys.as_slice())?;
        Ok(InputChannels { keys, firsts })
    }

    /// Whether a line is that of one of them.
    fn has(&self, line: &ChannelInput) -> bool
        ensures { result ≡ is_among (map named self.now.keys.items) line.now }
    {
        let key = Key {
            class: line.class.bytes(),
            name: line.channel.bytes(),
        };
        self.firsts.place(&key).is_some()
    }

    /// The place of the first line that is that of none of them.
    fn first_unfit(&self, lines: &[ChannelInput]) -> Option<usize>
        ensures { result
            ≡ position (λ line. not (is_among (map named self.now.keys.items) line)) lines.now }
    {
        lines.iter().position(|line| !self.has(line))
    }
}

/// The place of the first line of the inputs that is that of no input channel of the program, and
/// none where each is that of one. The time grows with the channels and with the lines.
pub fn inputs_fit(alloc: Global, table: &Table, inputs: &Inputs) -> Result<Option<usize>, NoMemory>
    ensures { IfOk result (λ place. place ≡ first_misfit table.now inputs.now.channels) }
{
    let channels = InputChannels::of(alloc, table)?;
    Ok(channels.first_unfit(inputs.channels.as_slice()))
}

//! The places of channels.

ghost use Rattle.std.specs.Prelude.{◌≡◌};
ghost use Rattle.par_erase.specs.Erased.{channels_in, input_place, output_place};

use par_typed::table::{ChannelInfo, Table};

// The channels of the class of this number.
fn channels_in(table: &Table, class: u16) -> &[ChannelInfo]
    ensures { result.now ≡ channels_in table.now class }
{
    match table.classes.get(usize::from(class)) {
        None => &[],
        Some(class) => class.channels.as_slice(),
    }
}

/// The place of an input among those of its class.
pub fn input_place(table: &Table, class: u16, channel: u16) -> u16
    ensures { result ≡ input_place table.now class channel }
{
    let before = channels_in(table, class).iter().take(usize::from(channel));
    before.filter(|channel| channel.is_input).count() as u16
}

/// The place of an output among those of its class.
pub fn output_place(table: &Table, class: u16, channel: u16) -> u16
    ensures { result ≡ output_place table.now class channel }
{
    let before = channels_in(table, class).iter().take(usize::from(channel));
    before.filter(|channel| !channel.is_input).count() as u16
}

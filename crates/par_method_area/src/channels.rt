//! The lines of input channels, as they are looked up by the names of their classes and their own.

ghost use Rattle.std.specs.Prelude.{◌≡◌, map, IfOk};
ghost use Rattle.std.specs.List.{All};
ghost use Rattle.par_actions.specs.par_lines.Lines.{channels_of, line_of};
ghost use Rattle.par_method_area.specs.Channels.{named, IsShort};

use par_base::memory::NoMemory;
use par_base::name::LONGEST;
use par_index::Firsts;
use par_values::inputs::ChannelInput;
use std::alloc::Global;
use std::marker::Model;

/// What tells a channel from others.
#[derive(Clone, Copy, PartialEq, Eq, Hash)]
pub(crate) struct Channel<'i> {
    class: &'i [u8],
    name: &'i [u8],
}

/// The channels of some lines, each with the place of its first line. Contracts see the list of the
/// channels.
#[derive(Drop)]
pub(crate) struct ChannelLines<'i> {
    channels: Vec<Channel<'i>>,
    firsts: Firsts<Channel<'i>>,
}

impl<'i> Model for ChannelLines<'i> {
    ghost use Rattle.std.specs.Prelude.{List, ℕ};

    ghost Value = { List (List ℕ × List ℕ) };

    ghost use Rattle.std.specs.Prelude.{map};
    ghost use Rattle.par_method_area.specs.Channels.{named, AreLined};

    ghost view = { λ lines. map named lines.channels.items };

    ghost invariant = { λ lines. AreLined lines.channels.items lines.firsts };
}

/// The channels of some lines.
fn channels(alloc: Global, lines: &[ChannelInput]) -> Result<Vec<Channel>, NoMemory>
    ensures named { IfOk result (λ channels. map named channels.items ≡ channels_of lines.now) }
    ensures short { IfOk result (λ channels. All IsShort channels.items) }
{
    let mut channels = Vec::new(alloc);
    for line in lines {
        channels.push(Channel {
            class: line.class.bytes(),
            name: line.channel.bytes(),
        })?;
    }
    Ok(channels)
}

impl<'i> ChannelLines<'i> {
    /// The places of some lines.
    pub(crate) fn of(alloc: Global, lines: &'i [ChannelInput]) -> Result<ChannelLines<'i>, NoMemory>
        ensures { IfOk result (λ places. places ≡ channels_of lines.entry.now) }
    {
        let channels = channels(alloc, lines)?;
        let firsts = Firsts::of(alloc, channels.as_slice())?;
        Ok(ChannelLines { channels, firsts })
    }

    /// The place of the line of a channel, none where it has no line.
    pub(crate) fn line(&self, class: &[u8], name: &[u8]) -> Option<usize>
        ensures { result ≡ line_of self.now class.now name.now }
    {
        let firsts = &self.firsts;
        // A longer text is no name, and is not read for each method that has it.
        if name.len() > LONGEST {
            return None;
        }
        firsts.place(&Channel { class, name })
    }
}

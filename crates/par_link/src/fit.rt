//! Which channels inputs may name.

ghost use Rattle.std.specs.Prelude.{◌≡◌, not};
ghost use Rattle.std.specs.Option.{option_map};
ghost use Rattle.par_link.specs.Inputs.{has_input, first_misfit, told_place};

use crate::linked::Linked;
use par_inputs::par_values::inputs::{ChannelInput, Inputs};

/// The greatest place that is told.
const LAST_PLACE: usize = 4_294_967_295;

/// Whether a line is for no input channel of the files.
fn is_unfit(linked: &Linked, line: &ChannelInput) -> bool
    ensures { result ≡ not (has_input linked.now line.now.class line.now.channel) }
{
    !linked.has_input(line.class.bytes(), line.channel.bytes())
}

/// The place of the first line that is for no input channel of the files.
fn first_unfit(linked: &Linked, lines: &[ChannelInput]) -> Option<usize>
    ensures { result ≡ first_misfit linked.now lines.now }
{
    lines.iter().position(|line| is_unfit(linked, line))
}

/// The place of the first channel of the inputs that is no input channel of a linked class, none
/// where all are. A place beyond 4294967295 is told as that number.
pub fn inputs_fit(linked: &Linked, inputs: &Inputs) -> Option<u32>
    ensures { result ≡ option_map told_place (first_misfit linked.now inputs.now.channels) }
{
    first_unfit(linked, inputs.channels.as_slice()).map(|place| place.min(LAST_PLACE) as u32)
}

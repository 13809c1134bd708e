ghost use Rattle.std.specs.Prelude.{◌≡◌, ◌<◌, slice_get, IfOk, OnSome};
ghost use Rattle.par_values.specs.Areas.{next};
ghost use Rattle.par_secrecy.specs.Subject.{numbers_at};
ghost use Rattle.par_lines.specs.Lines.{taken_at};

use par_base::list::List;
use par_base::memory::NoMemory;
use par_values::inputs::{ChannelInput, Inputs};
use std::alloc::Global;
use std::marker::Model;

/// The input lines of a run. Contracts see them as lines with the numbers that are left.
#[derive(Drop)]
pub struct Lines {
    channels: List<ChannelInput>,
    // How many numbers of each line are taken.
    taken: Vec<usize>,
}

impl Model for Lines {
    ghost use Rattle.std.specs.Prelude.{◌≡◌, List as Items, length};
    ghost use Rattle.par_values.specs.declared.inputs.ChannelInput.{ChannelInput as Line};
    ghost use Rattle.par_lines.specs.Lines.{left_of};

    ghost Value = { Items Line };

    ghost view = { λ lines. left_of lines.channels lines.taken.items };

    ghost invariant = { λ lines. length lines.taken.items ≡ length lines.channels };
}

impl Lines {
    /// The lines before a number is taken.
    pub fn of(alloc: Global, inputs: Inputs) -> Result<Lines, NoMemory>
        ensures { IfOk result (λ lines. lines ≡ inputs.channels) }
    {
        let mut taken = Vec::new(alloc);
        taken.resize(inputs.channels.len(), 0)?;
        Ok(Lines {
            channels: inputs.channels,
            taken,
        })
    }

    /// Takes the next number of the line at a place: 0 where it is spent or there is no line.
    pub fn next(&mut self, line: Option<usize>) -> i32
        ensures number { result ≡ next (numbers_at line self.old) }
        ensures left { self.new ≡ taken_at line self.old }
    {
        let Some(place) = line else {
            return 0;
        };
        let Some(channel) = self.channels.get(place) else {
            return 0;
        };
        let taken = self.taken[place];
        let Some(number) = number_at(&channel.numbers, taken) else {
            return 0;
        };
        self.taken[place] = taken + 1;
        number
    }
}

/// The number of a line at a place.
fn number_at(numbers: &List<i32>, place: usize) -> Option<i32>
    ensures item { result ≡ slice_get numbers.now place }
    ensures within { OnSome result (place < usize.MAX) }
{
    if place >= numbers.len() {
        return None;
    }
    numbers.get(place).copied()
}

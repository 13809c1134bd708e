//! What the input channels are given.

ghost use Rattle.std.specs.Prelude.{◌≡◌, slice_get, IfOk};
ghost use Rattle.par_secrecy.specs.Subject.{given, numbers_of};
ghost use Rattle.par_values.specs.Areas.{list_or_none};
ghost use Rattle.par_source_state.specs.Lined.{AreLines, row_of, row_shown, rows_of, rows_shown};

use par_base::list::List;
use par_base::memory::NoMemory;
use par_base::name::Name;
use par_index::Firsts;
use par_typed::table::{ChannelInfo, ClassInfo};
use par_values::inputs::ChannelInput;
use std::alloc::Global;

/// The lines of an input, each found by the names of its channel. They are looked up once for each
/// channel, before a run begins.
#[derive(Drop)]
struct Lines<'a> {
    all: &'a [ChannelInput],
    places: Firsts<(&'a [u8], &'a [u8])>,
    ghost placed: { AreLines all.now places },
}

impl<'a> Lines<'a> {
    fn of(alloc: Global, all: &'a [ChannelInput]) -> Result<Lines<'a>, NoMemory>
        ensures { IfOk result (λ lines. lines.all.now ≡ all.now) }
    {
        let mut names = Vec::new(alloc);
        for line in all {
            names.push((line.class.bytes(), line.channel.bytes()))?;
        }
        let places = Firsts::of(alloc, names.as_slice())?;
        Ok(Lines { all, places })
    }

    /// What a channel is given.
    fn given(&self, class: &'a Name, channel: &'a Name) -> &'a [i32]
        ensures { result.now ≡ given self.now.all.now class.now channel.now }
    {
        match self.places.place(&(class.bytes(), channel.bytes())) {
            Some(place) => numbers(self.all, place),
            None => &[],
        }
    }

    /// What the channels of a class are given.
    fn row(
        &self,
        alloc: Global,
        class: &'a Name,
        channels: &'a [ChannelInfo],
    ) -> Result<List<&'a [i32]>, NoMemory>
        ensures { IfOk result (λ row. row_shown row
            ≡ row_of self.now.all.now class.now channels.now) }
    {
        let mut row = List::new(alloc);
        for channel in channels {
            row.push(self.given(class, &channel.name))?;
        }
        Ok(row)
    }
}

/// The numbers of the line at this place.
fn numbers(all: &[ChannelInput], place: usize) -> &[i32]
    ensures { result.now ≡ numbers_of (slice_get all.now place) }
{
    match all.get(place) {
        Some(line) => line.numbers.as_slice(),
        None => &[],
    }
}

/// What the channels of each class are given by these lines.
fn each_row<'a>(
    alloc: Global,
    lines: &Lines<'a>,
    classes: &'a [ClassInfo],
) -> Result<List<List<&'a [i32]>>, NoMemory>
    ensures { IfOk result (λ rows. rows_shown rows ≡ rows_of lines.now.all.now classes.now) }
{
    let mut rows = List::new(alloc);
    for class in classes {
        let row = lines.row(alloc, &class.name, class.channels.as_slice())?;
        rows.push(row)?;
    }
    Ok(rows)
}

/// What the channels are given, by the numbers of the class and of the channel there.
pub(crate) fn rows<'a>(
    alloc: Global,
    classes: &'a [ClassInfo],
    all: &'a [ChannelInput],
) -> Result<List<List<&'a [i32]>>, NoMemory>
    ensures { IfOk result (λ rows. rows_shown rows ≡ rows_of all.now classes.now) }
{
    let lines = Lines::of(alloc, all)?;
    let rows = each_row(alloc, &lines, classes);
    drop(lines);
    rows
}

/// What a channel is given by a row; nothing where there is no such channel.
pub(crate) fn at<'a>(row: &[&'a [i32]], channel: u16) -> &'a [i32]
    ensures { result.now ≡ list_or_none (slice_get (row_shown row.now) channel) }
{
    match row.get(usize::from(channel)) {
        Some(numbers) => numbers,
        None => &[],
    }
}

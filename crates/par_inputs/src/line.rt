ghost use Rattle.std.specs.Prelude.{◌≡◌, ◌&&◌, IfOk};
ghost use Rattle.par_base.specs.Names.{is_name};
ghost use Rattle.par_inputs.specs.Entries.{line_of};
ghost use Rattle.par_inputs.specs.Numbers.{numbers_of};

use crate::cuts::{cut_at, first_word};
use crate::number::number_of;
use par_base::list::List;
use par_base::memory::NoMemory;
use par_base::name::Name;
use par_values::inputs::ChannelInput;
use std::alloc::Global;

// Whether both texts are names.
fn are_names(class: &[u8], channel: &[u8]) -> bool
    ensures { result ≡ (is_name class.now && is_name channel.now) }
{
    Name::is_name(class) && Name::is_name(channel)
}

// The numbers behind a colon, or none where something else stands there.
fn numbers_of(alloc: Global, text: &[u8]) -> Result<Option<List<i32>>, NoMemory>
    ensures { IfOk result (λ numbers. numbers ≡ numbers_of text.now) }
{
    let mut numbers = List::new(alloc);
    let mut rest = text;
    'words: while let Some((first, behind)) = rest.split_first() {
        if *first != b' ' {
            return Ok(None);
        }
        let (word, more) = first_word(behind);
        let Some(number) = number_of(word) else {
            return Ok(None);
        };
        numbers.push(number)?;
        rest = more;
    }
    Ok(Some(numbers))
}

// The channel that a line names and its numbers, or none where it is not so built.
#[tactic(auto, unfolding(crate::specs::Entries::line_of))]
pub fn line_of(alloc: Global, line: &[u8]) -> Result<Option<ChannelInput>, NoMemory>
    ensures { IfOk result (λ entry. entry ≡ line_of line.now) }
{
    let Some((names, text)) = cut_at(line, b':') else {
        return Ok(None);
    };
    let Some((class, channel)) = cut_at(names, b'.') else {
        return Ok(None);
    };
    if !are_names(class, channel) {
        return Ok(None);
    }
    let Some(numbers) = numbers_of(alloc, text)? else {
        return Ok(None);
    };
    Ok(Some(ChannelInput {
        class: Name::new(alloc, class)?,
        channel: Name::new(alloc, channel)?,
        numbers,
    }))
}

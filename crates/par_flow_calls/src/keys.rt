//! Inputs with a line for the channel `key` of the class `Shop`, and what any line is made of.

use par_lexer::list::List;
use par_lexer::name::Name;
use par_values::inputs::{ChannelInput, Inputs};
use std::alloc::Global;
use std::test::Fail;

pub(crate) fn numbers(alloc: Global, given: &[i32]) -> Result<List<i32>, Fail> {
    let mut numbers = List::new(alloc);
    for number in given {
        numbers.push(*number)?;
    }
    Ok(numbers)
}

fn line(alloc: Global, given: &[i32]) -> Result<ChannelInput, Fail> {
    let numbers = numbers(alloc, given)?;
    let class = Name::new(alloc, b"Shop")?;
    let channel = Name::new(alloc, b"key")?;
    Ok(ChannelInput {
        class,
        channel,
        numbers,
    })
}

/// Inputs whose one line gives these numbers to the channel.
pub(crate) fn keys(alloc: Global, given: &[i32]) -> Result<Inputs, Fail> {
    let line = line(alloc, given)?;
    let mut channels = List::new(alloc);
    channels.push(line)?;
    Ok(Inputs { channels })
}

ghost use Rattle.std.specs.Prelude.{◌≡◌, ◌≤◌, length, IfOk, IfErr, OnOk};
ghost use Rattle.std.specs.List.{All};
ghost use Rattle.par_inputs.specs.Lines.{lines_of};
ghost use Rattle.par_inputs.specs.Rules.{entries, IsRight, IsRefusal, IsEntry, IsOnce};

use crate::cuts::{first_line, length_before};
use crate::error::BadInput;
use crate::line::line_of;
use crate::seen::take_in;
use par_base::list::List;
use par_values::inputs::Inputs;
use std::alloc::Global;
use std::collections::BTreeSet;

/// The most bytes that an input file may have.
pub const LONGEST_INPUTS: usize = 1_048_576;

/// Reads an input file. A line ends at a byte 10, which the last one may lack, and an empty line is
/// passed over. Each other line is a name, `.`, a name, `:` and then any number of times one space
/// and a number of 32 bits: an optional `-` before `0` or before digits without a leading 0. No
/// channel stands on two lines. The inputs have an entry for each line that is not empty, in the
/// order of the lines.
///
/// The first line that breaks this is refused by its number, where empty lines count too. The time
/// grows with the bytes, and for each line with the logarithm of the number of lines before it.
pub fn read_inputs(alloc: Global, bytes: &[u8]) -> Result<Inputs, BadInput>
    requires { length bytes.now ≤ LONGEST_INPUTS }
    ensures right { OnOk result (IsRight bytes.now) }
    ensures entries { IfOk result (λ inputs. inputs.channels ≡ entries (lines_of bytes.now)) }
    ensures refused { IfErr result (IsRefusal bytes.now) }

    // What holds of all inputs that are read.
    ensures each { IfOk result (λ inputs. All IsEntry inputs.channels) }
    ensures once { IfOk result (λ inputs. IsOnce inputs.channels) }
{
    let mut channels = List::new(alloc);
    let mut seen = BTreeSet::new(alloc);
    let mut number = 0;
    let mut rest = bytes;
    'lines: while !rest.is_empty() {
        let (line, behind) = first_line(rest);
        rest = behind;
        number += 1;
        if line.is_empty() {
            continue;
        }
        let Some(entry) = line_of(alloc, line)? else {
            return Err(BadInput::Line(number));
        };
        let (names, _) = line.split_at(length_before(line, b':'));
        if !take_in(&mut seen, names)? {
            return Err(BadInput::Line(number));
        }
        channels.push(entry)?;
    }
    Ok(Inputs { channels })
}

ghost use Rattle.std.specs.Prelude.{◌≡◌, ◌≤◌, length};
ghost use Rattle.par_inputs.specs.Places.{line_of_entry};

use crate::cuts::first_line;
use crate::read::LONGEST_INPUTS;

/// The number of the line on which an entry of the file stands. Lines count from 1, empty ones too,
/// and entries from 0. Where the file has no such entry this is the number of its lines. It takes
/// no memory, and time that grows with the bytes.
pub fn line_of_entry(bytes: &[u8], entry: usize) -> u32
    requires { length bytes.now ≤ LONGEST_INPUTS }
    ensures { result ≡ line_of_entry bytes.now entry }
{
    let mut number = 0;
    let mut left = entry;
    let mut rest = bytes;
    'lines: while !rest.is_empty() {
        let (line, behind) = first_line(rest);
        rest = behind;
        number += 1;
        if !line.is_empty() {
            if left == 0 {
                return number;
            }
            left -= 1;
        }
    }
    number
}

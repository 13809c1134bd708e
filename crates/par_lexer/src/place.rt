ghost use Rattle.std.specs.Prelude.{◌≡◌, ◌≤◌, length};
ghost use Rattle.par_lexer.specs.Places.{line_at, column_at};

use crate::cut::LONGEST_SOURCE;

/// The line and the column of a place in a source, both counted from 1. A line ends behind a byte
/// 10, and a column counts bytes.
pub fn place_of(source: &[u8], at: u32) -> (u32, u32)
    requires inside { at ≤ length source.now }
    requires short { length source.now ≤ LONGEST_SOURCE }
    ensures line { result.0 ≡ line_at source.now at }
    ensures column { result.1 ≡ column_at source.now at }
{
    let (before, _) = source.split_at(at as usize);
    let mut line = 1;
    let mut column = 1;
    for byte in before {
        if *byte == b'\n' {
            line += 1;
            column = 1;
        } else {
            column += 1;
        }
    }
    (line, column)
}

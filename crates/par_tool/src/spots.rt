//! Places in a source, with the line and the column of each.

ghost use Rattle.std.specs.Prelude.{◌≡◌, ◌≤◌, length};

use par_lexer::LONGEST_SOURCE;

/// A place in a source with its line and its column, both counted from 1.
#[derive(Clone, Copy)]
pub struct Spot {
    pub at: u32,
    pub line: u32,
    pub column: u32,
}

/// Where a source begins.
pub const START: Spot = Spot {
    at: 0,
    line: 1,
    column: 1,
};

impl Spot {
    ghost use Rattle.par_tool.specs.Spots.{IsSpot};

    /// The spot of another place. Where it comes behind this one, only the bytes between them are
    /// looked at.
    pub fn moved(self, source: &[u8], at: u32) -> Spot
        requires is { IsSpot source.now self }
        requires inside { at ≤ length source.now }
        requires short { length source.now ≤ LONGEST_SOURCE }
        ensures there { result.at ≡ at }
        ensures is { IsSpot source.now result }
    {
        let mut spot = if at < self.at { START } else { self };
        for place in spot.at as usize..at as usize {
            if source[place] == b'\n' {
                spot.line += 1;
                spot.column = 1;
            } else {
                spot.column += 1;
            }
        }
        spot.at = at;
        spot
    }
}

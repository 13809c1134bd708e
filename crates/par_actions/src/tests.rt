ghost use Rattle.std.specs.Prelude.{◌≡◌};
ghost use Rattle.par_values.specs.Arithmetic.{compares};

/// Whether a comparison holds, by its number from 0: equal, not equal, less, at least, greater, at
/// most.
pub fn compares(test: u8, a: i32, b: i32) -> bool
    ensures { result ≡ compares test a b }
{
    match test {
        0 => a == b,
        1 => a != b,
        2 => a < b,
        3 => a >= b,
        4 => a > b,
        5 => a <= b,
        _ => false,
    }
}

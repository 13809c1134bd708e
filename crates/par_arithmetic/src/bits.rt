ghost use Rattle.std.specs.Prelude.{◌≡◌, ◌<◌};
ghost use Rattle.par_values.specs.Arithmetic.{combined, shift_count, ShiftLeft, ShiftRight};
ghost use Rattle.par_values.specs.Arithmetic.{ShiftRightUnsigned, And, Or, Xor};

/// The bits of a count that a shift looks at.
const COUNT_BITS: u32 = 32;

/// How far a shift goes.
fn count(b: i32) -> u32
    ensures is { result ≡ shift_count b }
    ensures few { result < 32 }
{
    b.cast_unsigned() % COUNT_BITS
}

/// The first number with its bits moved up.
pub fn shift_left(a: i32, b: i32) -> i32
    ensures { result ≡ combined ShiftLeft a b }
{
    a << count(b)
}

/// The first number with its bits moved down, and its sign kept.
pub fn shift_right(a: i32, b: i32) -> i32
    ensures { result ≡ combined ShiftRight a b }
{
    a >> count(b)
}

/// The first number with its bits moved down, and zeros above.
pub fn shift_right_unsigned(a: i32, b: i32) -> i32
    ensures { result ≡ combined ShiftRightUnsigned a b }
{
    (a.cast_unsigned() >> count(b)).cast_signed()
}

/// The bits that both have.
pub fn and(a: i32, b: i32) -> i32
    ensures { result ≡ combined And a b }
{
    a & b
}

/// The bits that one of them has.
pub fn or(a: i32, b: i32) -> i32
    ensures { result ≡ combined Or a b }
{
    a | b
}

/// The bits that just one of them has.
pub fn xor(a: i32, b: i32) -> i32
    ensures { result ≡ combined Xor a b }
{
    a ^ b
}

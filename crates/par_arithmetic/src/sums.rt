ghost use Rattle.std.specs.Prelude.{◌≡◌, ◌↔◌, pos, IsNone, IfSome, IsTrue};
ghost use Rattle.par_values.specs.Arithmetic.{combined, divides_by_zero, negated, Plus, Minus};
ghost use Rattle.par_values.specs.Arithmetic.{Times, Quotient, Remainder};

/// The sum, which wraps.
pub fn plus(a: i32, b: i32) -> i32
    ensures { result ≡ combined Plus a b }
{
    a.wrapping_add(b)
}

/// The difference, which wraps.
pub fn minus(a: i32, b: i32) -> i32
    ensures { result ≡ combined Minus a b }
{
    a.wrapping_sub(b)
}

/// The product, which wraps.
pub fn times(a: i32, b: i32) -> i32
    ensures { result ≡ combined Times a b }
{
    a.wrapping_mul(b)
}

/// The quotient, which wraps, or none by zero.
pub fn quotient(a: i32, b: i32) -> Option<i32>
    ensures none { IsNone result ↔ IsTrue (divides_by_zero Quotient b) }
    ensures some { IfSome result (λ n. n ≡ combined Quotient a b) }
{
    if b == 0 {
        return None;
    }
    Some(a.wrapping_div(b))
}

/// The remainder, or none by zero.
pub fn remainder(a: i32, b: i32) -> Option<i32>
    ensures none { IsNone result ↔ IsTrue (divides_by_zero Remainder b) }
    ensures some { IfSome result (λ n. n ≡ combined Remainder a b) }
{
    if b == 0 {
        return None;
    }
    Some(a.wrapping_rem(b))
}

/// The negative, which wraps.
pub fn negated(a: i32) -> i32
    ensures { result ≡ negated a }
{
    a.wrapping_neg()
}

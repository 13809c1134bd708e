ghost use Rattle.std.specs.Prelude.{◌≡◌, ◌≤◌, pos, neg_ℤ};
ghost use Rattle.par_base.specs.Numbers.{magnitude_of};
ghost use Rattle.par_inputs.specs.Numbers.{number_of};

use par_base::numbers::magnitude_of;

// The greatest number behind a minus sign, and that of the numbers without one.
const GREATEST_BELOW_ZERO: u32 = 2_147_483_648;

const GREATEST: u32 = 2_147_483_647;

// The number below zero that is so far from it.
fn negated(distance: u32) -> i32
    requires { distance ≤ 2147483648 }
    ensures { result ≡ neg_ℤ (pos distance) }
{
    (-i64::from(distance)) as i32
}

// The number of 32 bits that a text writes.
#[tactic(auto, unfolding(crate::specs::Numbers::number_of))]
pub fn number_of(text: &[u8]) -> Option<i32>
    ensures { result ≡ number_of text.now }
{
    match text {
        [b'-', digits @ ..] => magnitude_of(digits, GREATEST_BELOW_ZERO).map(negated),
        _ => magnitude_of(text, GREATEST).map(|number| number as i32),
    }
}

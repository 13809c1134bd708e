ghost use Rattle.std.specs.Prelude.{◌≡◌};
ghost use Rattle.par_actions.specs.Fits.{accepts};

use par_values::value::MVal;

/// Which values a place takes, by numbers.
#[derive(Clone, Copy, PartialEq, Eq)]
pub enum Fit {
    Number,
    /// Null, or an object of the class of this number.
    OfClass(u16),
    /// Null alone: there is no such class.
    Nothing,
    /// Null, or an object of any class.
    AnyObject,
    Anything,
}

/// Whether a value is one that a place takes.
pub fn accepts(fit: Fit, value: MVal) -> bool
    ensures { result ≡ accepts fit value }
{
    match fit {
        Fit::Anything => true,
        Fit::Number => matches!(value, MVal::Int(_)),
        Fit::AnyObject => !matches!(value, MVal::Int(_)),
        Fit::Nothing => matches!(value, MVal::Null),
        Fit::OfClass(class) => match value {
            MVal::Int(_) => false,
            MVal::Null => true,
            MVal::Ref(other, _) => other == class,
        },
    }
}

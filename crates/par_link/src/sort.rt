ghost use Rattle.std.specs.Prelude.{◌≡◌};
ghost use Rattle.par_link.specs.Rules.{is_of};

use par_single::par_pool::constant::Constant;

/// What a constant is to name.
#[derive(Clone, Copy)]
pub(crate) enum Sort {
    Class,
    Field,
    Method,
}

impl Sort {
    /// Whether a constant is to name such a thing.
    #[tactic(auto, unfolding(crate::specs::Rules::is_of))]
    pub(crate) fn is_of(self, constant: &Constant) -> bool
        ensures { result ≡ is_of self constant.now }
    {
        match self {
            Sort::Class => matches!(constant, Constant::Class(_)),
            Sort::Field => matches!(constant, Constant::Field(_, _)),
            Sort::Method => matches!(constant, Constant::Method(_, _)),
        }
    }
}

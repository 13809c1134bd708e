//! Kinds of values, each class by its name where that stands.

ghost use Rattle.std.specs.Prelude.{◌≡◌, [], IsTrue};
ghost use Rattle.par_kinds.specs.Kinds.{is_in, into, throwable, exceptional, accepts};
ghost use Rattle.par_kinds.specs.declared.frame.VKind.TheVariants as kind;
ghost use Rattle.par_values.specs.declared.kind.Kind.TheVariants as asked;
ghost use Rattle.par_kinds.specs.Passes.{merge};
ghost use Rattle.par_place_kinds.specs.Marks.{names, kind_of};

/// What kind of value a local or an operand holds.
#[derive(Clone, Copy)]
pub enum PlaceKind<'f> {
    /// Any value, or none.
    Top,
    Int,
    /// Null alone.
    Null,
    /// Null, or an object of the class of this name.
    Object(&'f [u8]),
    /// Null, or an object of any exception class (true) or of any class (false).
    Base(bool),
}

/// Whether a class is one of exceptions, which have these names.
pub fn is_in(exceptions: &[&[u8]], name: &[u8]) -> bool
    ensures { result ≡ is_in (names exceptions.now) name.now }
{
    for exception in exceptions {
        if name == *exception {
            return true;
        }
    }
    false
}

impl<'f> PlaceKind<'f> {
    /// Whether it fits into that of ints, which takes nothing else.
    #[tactic(auto, unfolding(par_kinds::specs::Kinds::accepts))]
    pub fn is_int(self) -> bool
        ensures { result ≡ accepts asked.Number (kind_of self.entry) }
    {
        match self {
            PlaceKind::Int => true,
            _ => false,
        }
    }

    /// Whether it is null or an object of some class.
    #[tactic(auto, unfolding(par_kinds::specs::Kinds::accepts))]
    pub fn is_reference(self) -> bool
        ensures { result ≡ accepts asked.AnyObject (kind_of self.entry) }
    {
        match self {
            PlaceKind::Null => true,
            PlaceKind::Object(_) => true,
            PlaceKind::Base(_) => true,
            _ => false,
        }
    }

    /// Whether it is null or an object of the class of this name.
    #[tactic(auto, unfolding(par_kinds::specs::Kinds::accepts))]
    pub fn is_of(self, name: &[u8]) -> bool
        ensures { result ≡ accepts (asked.Object name.now) (kind_of self.entry) }
    {
        match self {
            PlaceKind::Null => true,
            PlaceKind::Object(own) => own == name,
            _ => false,
        }
    }

    /// Whether it can be thrown, where the exceptions have these names.
    #[tactic(auto, unfolding(par_kinds::specs::Kinds::throwable))]
    pub fn is_throwable(self, exceptions: &[&[u8]]) -> bool
        ensures { result ≡ throwable (names exceptions.now) (kind_of self.entry) }
    {
        match self {
            PlaceKind::Null => true,
            PlaceKind::Object(name) => is_in(exceptions, name),
            PlaceKind::Base(is_exception) => is_exception,
            _ => false,
        }
    }

    /// Whether it is null or an object of an exception class.
    #[tactic(auto, unfolding(par_kinds::specs::Kinds::exceptional))]
    pub fn is_exceptional(self, exceptions: &[&[u8]]) -> bool
        ensures { result ≡ exceptional (names exceptions.now) (kind_of self.entry) }
    {
        match self {
            PlaceKind::Null => true,
            PlaceKind::Object(name) => is_in(exceptions, name),
            _ => false,
        }
    }

    /// Whether it fits into another.
    #[tactic(auto, using(crate::proofs::Into::into_is))]
    pub fn fits_into(self, exceptions: &[&[u8]], other: PlaceKind) -> bool
        ensures { result ≡ into (names exceptions.now) (kind_of self.entry) (kind_of other.entry) }
    {
        match other {
            PlaceKind::Top => true,
            PlaceKind::Int => self.is_int(),
            PlaceKind::Null => self.is_null(),
            PlaceKind::Object(name) => self.is_of(name),
            PlaceKind::Base(is_exception) => self.is_below(exceptions, is_exception),
        }
    }

    /// Whether it is another one: that of the same class, or both fit into one another of whichever
    /// exceptions.
    #[tactic(auto, using(crate::proofs::Into::into_both))]
    pub(crate) fn is_same(self, other: PlaceKind) -> bool
        ensures { IsTrue result → kind_of self.entry ≡ kind_of other.entry }
    {
        match other {
            PlaceKind::Object(name) => self.is_object(name),
            _ => self.fits_into(&[], other) && other.fits_into(&[], self),
        }
    }

    /// Whether it is that of the objects of the class of this name, and not of null alone.
    fn is_object(self, name: &[u8]) -> bool
        ensures { IsTrue result → kind_of self.entry ≡ kind.Object name.now }
    {
        match self {
            PlaceKind::Object(own) => own == name,
            _ => false,
        }
    }

    /// Whether it is null alone.
    #[tactic(auto, unfolding(par_kinds::specs::Kinds::into))]
    fn is_null(self) -> bool
        ensures { result ≡ into [] (kind_of self.entry) kind.Null }
    {
        match self {
            PlaceKind::Null => true,
            _ => false,
        }
    }

    /// Whether it fits into that of the objects of all exceptions, or of all classes.
    fn is_below(self, exceptions: &[&[u8]], is_exception: bool) -> bool
        ensures { result
            ≡ into (names exceptions.now) (kind_of self.entry) (kind.Base is_exception) }
    {
        if is_exception {
            self.is_throwable(exceptions)
        } else {
            self.is_reference()
        }
    }

    /// The least kind into which both fit.
    pub fn merged(self, exceptions: &[&[u8]], other: PlaceKind<'f>) -> PlaceKind<'f>
        ensures { kind_of result
            ≡ merge (names exceptions.now) (kind_of self.entry) (kind_of other.entry) }
    {
        if self.fits_into(exceptions, other) {
            return other;
        }
        if other.fits_into(exceptions, self) {
            return self;
        }
        if self.is_throwable(exceptions) && other.is_throwable(exceptions) {
            return PlaceKind::Base(true);
        }
        if self.is_reference() && other.is_reference() {
            return PlaceKind::Base(false);
        }
        PlaceKind::Top
    }
}

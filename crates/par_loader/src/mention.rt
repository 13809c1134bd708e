ghost use Rattle.std.specs.Prelude.{◌≡◌};
ghost use Rattle.par_loader.specs.Mentions.{naming};
ghost use Rattle.par_loader.specs.Loaded.{main_naming};

/// A constant that names a class: the place of its file among those that were read, the class of
/// that file, its index there, and the name.
#[derive(Clone, Copy)]
pub(crate) struct Mention<'f> {
    pub(crate) place: usize,
    pub(crate) class: &'f [u8],
    pub(crate) index: u16,
    pub(crate) name: &'f [u8],
}

impl<'f> Mention<'f> {
    /// What stands for a constant where a class is asked for first.
    pub(crate) fn first(class: &'f [u8]) -> Mention<'f>
        ensures { naming result ≡ main_naming class.now }
    {
        Mention {
            place: 0,
            class,
            index: 0,
            name: class,
        }
    }
}

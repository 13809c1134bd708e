ghost use Rattle.std.specs.Prelude.{◌≡◌, is_some};
ghost use Rattle.par_link.specs.Builtins.{builtin};

/// Whether every program has a class of this name, so that none is read for it.
pub(crate) fn is_built_in(name: &[u8]) -> bool
    ensures { result ≡ is_some (builtin name.now) }
{
    name == b"java/lang/Object".as_slice()
        || name == b"java/lang/Exception".as_slice()
        || name == b"java/lang/ArithmeticException".as_slice()
        || name == b"java/lang/NullPointerException".as_slice()
        || name == b"paragon/Locks".as_slice()
}

ghost use Rattle.std.specs.Prelude.{◌≡◌};
ghost use Rattle.std.specs.List.{position};
ghost use Rattle.std.specs.Str.{bytes_eq};

use par_base::name::Name;

/// So many names are looked at in less time than it takes to hash one.
pub(crate) const FEW: usize = 8;

/// The first place of the name, for which each name before it is looked at.
pub(crate) fn search(names: &[&[u8]], name: &Name) -> Option<usize>
    ensures { result ≡ position (λ other. bytes_eq name.now other.now) names.now }
{
    let text = name.bytes();
    names.iter().position(|other| text == *other)
}

use par_grammar::par_base::name::Name;

/// A name that a program writes, with its place.
#[derive(Drop)]
pub struct Ident {
    pub name: Name,
    /// The offset of its token in the source.
    pub at: u32,
}

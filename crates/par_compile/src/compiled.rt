use par_base::list::List;
use par_base::name::Name;

/// The file of a class.
#[derive(Drop)]
pub struct CompiledClass {
    pub name: Name,
    pub bytes: List<u8>,
}

// How a part is left.
use crate::way::Way;
use par_program_laws::par_base::list::List;

/// The way of each possible completion of an expression or a statement. A class stands once at most
/// among those that it throws.
#[derive(Drop)]
pub struct Ways {
    pub normal: Option<Way>,
    pub ret: Option<Way>,
    pub brk: Option<Way>,
    pub cont: Option<Way>,
    pub throws: List<(u16, Way)>,
}

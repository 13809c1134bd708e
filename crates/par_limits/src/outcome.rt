// What is found by a pass that looks at policies.
ghost use Rattle.std.specs.Prelude.{◌≡◌, Some, None};

use par_refusals::refusal::Refusal;
use par_resolved::known::Known;

/// The first fault that is found, if there is one, and what is known of the program, if that was
/// worked out. Who goes on with the program takes it from here.
#[derive(Drop)]
pub struct Outcome<'a> {
    pub first: Option<Refusal>,
    pub known: Option<Known<'a>>,
}

impl<'a> Outcome<'a> {
    /// A fault that is found before anything is known.
    pub fn fault(first: Refusal) -> Outcome<'a>
        ensures first { result.first ≡ Some first }
        ensures known { result.known ≡ None }
    {
        Outcome {
            first: Some(first),
            known: None,
        }
    }
}

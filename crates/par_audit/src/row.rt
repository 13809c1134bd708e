//! What is known of releases to one policy.

ghost use Rattle.std.specs.Prelude.{◌≡◌, ◌<◌, ◌≤◌, [], length, slice_index_or};
ghost use Rattle.par_bits.specs.Sets.{has, none};
ghost use Rattle.par_audit.specs.Rows.{is_one_released, IsRow};
ghost use Rattle.par_audit.specs.Released.{is_released};

use par_atoms::Atoms;
use par_policy::{Policy, sees};

/// Which policies of a table are known to be released to one policy, and which are known not to be.
#[derive(Clone, Copy)]
pub(crate) struct Row {
    released: Atoms,
    pub(crate) kept: Atoms,
}

// Whether the actor does not see the policy with the locks of some clause that it has in `q`.
fn is_one_released(policy: &Policy, q: &Policy, actor: u8) -> bool
    ensures { result ≡ is_one_released policy.now q.now actor }
{
    q.clauses().iter().any(|clause| clause.actor == actor && !sees(policy, actor, &clause.locks))
}

impl Row {
    /// Nothing is known.
    pub(crate) fn unknown() -> Row
        ensures released { has result.released ≡ none }
        ensures kept { has result.kept ≡ none }
    {
        Row {
            released: Atoms::empty(),
            kept: Atoms::empty(),
        }
    }

    // Whether the policy of the number is released to `q`, from now on known.
    fn ask(&mut self, policies: &[Policy], number: u16, q: &Policy, actor: u8) -> bool
        requires number { number < 256 }
        requires policy { number < length policies.now }
        requires right { IsRow policies.now actor q.now self.old }
        ensures right { IsRow policies.now actor q.now self.new }
        ensures released { result
            ≡ is_one_released (slice_index_or policies.now number []) q.now actor }
    {
        if self.released.has(number) {
            return true;
        }
        if self.kept.has(number) {
            return false;
        }
        let is_released = is_one_released(&policies[usize::from(number)], q, actor);
        if is_released {
            self.released = self.released.with(number);
        } else {
            self.kept = self.kept.with(number);
        }
        is_released
    }

    /// Whether the join of these policies is released to `q`. What had to be worked out is known
    /// from now on.
    pub(crate) fn ask_all(
        &mut self,
        policies: &[Policy],
        set: &Atoms,
        q: &Policy,
        actor: u8,
    ) -> bool
        requires many { length policies.now ≤ 256 }
        requires right { IsRow policies.now actor q.now self.old }
        ensures right { IsRow policies.now actor q.now self.new }
        ensures released { result ≡ is_released policies.now (has set.now) q.now actor }
    {
        for number in 0..policies.len() {
            let policy = number as u16;
            if set.has(policy) && self.ask(policies, policy, q, actor) {
                return true;
            }
        }
        false
    }
}

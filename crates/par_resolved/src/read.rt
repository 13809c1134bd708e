// Declared policies that were read.
ghost use Rattle.std.specs.Prelude.{◌≡◌, OnErr, OnOk};
ghost use Rattle.par_resolved.specs.Read.{StillRead};

use par_base::memory::NoMemory;
use par_tree::policy::PolicyExpr;
use par_typed::par_policy::Policy;
use std::alloc::Global;

/// An expression, and the policy that it comes to.
#[derive(Drop)]
pub(crate) struct Read<'a> {
    pub(crate) expr: &'a PolicyExpr,
    pub(crate) policy: Policy,
}

/// Notes what the expression of the next declared policy comes to, if it is within its limits.
pub(crate) fn push_read<'a>(
    read: &mut Vec<Read<'a>>,
    expr: &'a PolicyExpr,
    value: &Option<Policy>,
) -> Result<(), NoMemory>
    ensures still { OnOk result (StillRead read.old.items read.new.items expr.now value.now) }
    ensures kept { OnErr result (read.new.items ≡ read.old.items) }
{
    match value {
        None => Ok(()),
        Some(policy) => {
            let policy = policy.clone()?;
            read.push(Read { expr, policy })?;
            Ok(())
        }
    }
}

/// The joins among these, in the order of their places.
pub(crate) fn joins_by_place<'a>(
    alloc: Global,
    exprs: &[&'a PolicyExpr],
) -> Result<Vec<&'a PolicyExpr>, NoMemory> {
    let mut joins = Vec::new(alloc);
    for expr in exprs {
        if expr.terms.len() > 1 {
            joins.push(*expr)?;
        }
    }
    joins.sort_by_key(|expr| expr.at)?;
    Ok(joins)
}

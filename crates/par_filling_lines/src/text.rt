//! The text of policies.

ghost use Rattle.std.specs.Prelude.{◌≡◌, ◌++◌, OnOk};
ghost use Rattle.par_filling_lines.specs.Texts as spec;

use par_base::memory::NoMemory;
use par_policy::{Clause, Policy};
use par_trace::{actor_name, add_lock};
use par_typed::table::Table;

/// Adds the locks of a clause, with a comma and a space between each two, behind a space.
fn add_locks(text: &mut Vec<u8>, table: &Table, locks: &[u16]) -> Result<(), NoMemory>
    ensures { OnOk result (text.new.items
        ≡ text.old.items ++ spec.locks_text table.now locks.now) }
{
    let Some((first, rest)) = locks.split_first() else {
        return Ok(());
    };
    text.extend_from_slice(b" ")?;
    add_lock(text, table, *first)?;
    for lock in rest {
        text.extend_from_slice(b", ")?;
        add_lock(text, table, *lock)?;
    }
    Ok(())
}

/// Adds a clause.
fn add_clause(text: &mut Vec<u8>, table: &Table, clause: &Clause) -> Result<(), NoMemory>
    ensures { OnOk result (text.new.items
        ≡ text.old.items ++ spec.clause_text table.now clause.now) }
{
    text.extend_from_slice(actor_name(table, clause.actor))?;
    text.extend_from_slice(b":")?;
    add_locks(text, table, clause.locks.as_slice())
}

/// Adds clauses, with a semicolon and a space between each two.
fn add_clauses(text: &mut Vec<u8>, table: &Table, clauses: &[Clause]) -> Result<(), NoMemory>
    ensures { OnOk result (text.new.items
        ≡ text.old.items ++ spec.clauses_text table.now clauses.now) }
{
    let Some((first, rest)) = clauses.split_first() else {
        return Ok(());
    };
    add_clause(text, table, first)?;
    for clause in rest {
        text.extend_from_slice(b"; ")?;
        add_clause(text, table, clause)?;
    }
    Ok(())
}

/// Adds a policy in its normal form.
fn add_literal(text: &mut Vec<u8>, table: &Table, policy: &Policy) -> Result<(), NoMemory>
    ensures { OnOk result (text.new.items
        ≡ text.old.items ++ spec.literal_text table.now policy.now) }
{
    text.extend_from_slice(b"{")?;
    add_clauses(text, table, policy.clauses())?;
    text.extend_from_slice(b"}")?;
    Ok(())
}

/// Adds the policy of a number.
fn add_policy(text: &mut Vec<u8>, table: &Table, number: u16) -> Result<(), NoMemory>
    ensures { OnOk result (text.new.items
        ≡ text.old.items ++ spec.policy_text table.now number) }
{
    match table.policies.get(usize::from(number)) {
        Some(policy) => add_literal(text, table, policy),
        None => Ok(()),
    }
}

/// Adds the join of the policies of these numbers.
pub(crate) fn add_join(text: &mut Vec<u8>, table: &Table, numbers: &[u16]) -> Result<(), NoMemory>
    ensures { OnOk result (text.new.items
        ≡ text.old.items ++ spec.join_text table.now numbers.now) }
{
    let Some((first, rest)) = numbers.split_first() else {
        text.extend_from_slice(b"bottom")?;
        return Ok(());
    };
    add_policy(text, table, *first)?;
    for number in rest {
        text.extend_from_slice(b" * ")?;
        add_policy(text, table, *number)?;
    }
    Ok(())
}

// The policies of a program in the order of its table.
ghost use Rattle.std.specs.Prelude.{◌≡◌, ◌++◌, map, IfOk, OnOk};
ghost use Rattle.par_tree.specs.Shown.{source};
ghost use Rattle.par_resolved.specs.Seen.{known_seen};
ghost use Rattle.par_parts.specs.Gathered.{all_of, classes_of};
ghost use Rattle.par_parts.specs.Written as said;
ghost use Rattle.par_resolved.specs.Numbered.{query_entries, birth_entry, entries};
ghost use Rattle.par_resolved.specs.par_names.Declarations.{declared_classes};
ghost use Rattle.par_limits.specs.Listed.{by_place_entries};

use crate::asked::push_asked;
use par_parts::queried::queried;
use par_resolved::NoMemory;
use par_resolved::births::birth_policy;
use par_resolved::entries::{Entry, push_written, sort_entries};
use par_resolved::known::{Known, bottom};
use par_resolved::par_names::{Locks, locks};
use par_tree::decl::{ClassDecl, Program};
use par_tree::policy::PolicyExpr;
use std::alloc::Global;

// `top`, where a `when` asks for a lock without a written policy.
fn push_queries(alloc: Global, found: &mut Vec<Entry>, program: &Program) -> Result<(), NoMemory>
    ensures { OnOk result (found.new.items
        ≡ found.old.items ++ query_entries (source program.now)) }
{
    let queries = queried(alloc, program)?;
    let decls = locks(alloc, program)?;
    let locks = Locks::of(alloc, decls)?;
    let pushed = push_asked(alloc, found, &locks, queries.as_slice());
    drop(locks);
    pushed
}

// `bottom`, and what is written by place.
fn entries_by_place(
    alloc: Global,
    known: &Known<'_>,
    program: &Program,
    exprs: &[&PolicyExpr],
) -> Result<Vec<Entry>, NoMemory>
    requires { all_of exprs.now ≡ said.written (source program.now) }
    ensures { IfOk result (λ found.
        found.items ≡ by_place_entries (known_seen known.now) (source program.now)) }
{
    let mut found = Vec::new(alloc);
    let policy = bottom(alloc, &known.numbers)?;
    found.push(Entry { at: 0, policy })?;
    push_written(alloc, &mut found, known, exprs)?;
    push_queries(alloc, &mut found, program)?;
    sort_entries(&mut found)?;
    Ok(found)
}

fn push_births(
    alloc: Global,
    found: &mut Vec<Entry>,
    known: &Known<'_>,
    classes: &[&ClassDecl],
) -> Result<(), NoMemory>
    ensures { OnOk result (found.new.items
        ≡ found.old.items ++ map (birth_entry (known_seen known.now)) (classes_of classes.now)) }
{
    for class in classes {
        let policy = birth_policy(alloc, known, &class.birth, class.fields.as_slice())?;
        found.push(Entry {
            at: class.id.at,
            policy,
        })?;
    }
    Ok(())
}

/// The entries of all policies that are not inferred, in the order of the table.
pub fn entries(
    alloc: Global,
    known: &Known<'_>,
    program: &Program,
    exprs: &[&PolicyExpr],
    classes: &[&ClassDecl],
) -> Result<Vec<Entry>, NoMemory>
    requires written { all_of exprs.now ≡ said.written (source program.now) }
    requires declared { classes_of classes.now ≡ declared_classes (source program.now) }
    ensures { IfOk result (λ found.
        found.items ≡ entries (known_seen known.now) (source program.now)) }
{
    let mut found = entries_by_place(alloc, known, program, exprs)?;
    push_births(alloc, &mut found, known, classes)?;
    Ok(found)
}

//! The parts of a table put together.

ghost use Rattle.std.specs.Prelude.{◌≡◌, map, IfOk};
ghost use Rattle.par_tree.specs.Shown.{source};
ghost use Rattle.par_names.specs.Declarations as names;
ghost use Rattle.par_parts.specs.Gathered.{all_of, classes_of};
ghost use Rattle.par_resolved.specs.Policies as policies;
ghost use Rattle.par_resolved.specs.Policies.{known};
ghost use Rattle.par_resolved.specs.Seen.{known_seen};
ghost use Rattle.par_resolved.specs.Numbered.{numbered};
ghost use Rattle.par_resolved.specs.Resolved as made;
ghost use Rattle.par_resolved.specs.Resolved.{table_of};
ghost use Rattle.par_table.specs.Room.{FitsTable};
ghost use Rattle.par_table.specs.Seen.{resolved_seen};

use crate::classes::{class_infos, main_number};
use crate::locks::ground_locks;
use crate::policies::{copies, push_inferred};
use crate::resolved::Resolved;
use par_lexer::list::List;
use par_lexer::name::Name;
use par_names::{actors, builtin_classes, classes};
use par_policy::Policy;
use par_resolved::NoMemory;
use par_resolved::known::Known;
use par_tree::decl::{ClassDecl, Program};
use par_tree::ident::Ident;
use par_typed::table::Table;
use std::alloc::Global;

#[tactic(auto, using(par_parts::proofs::Pushes::pushes))]
fn names_of(alloc: Global, ids: &[&Ident]) -> Result<List<Name>, NoMemory>
    ensures { IfOk result (λ found. found ≡ map (λ a. a.name) (all_of ids.now)) }
{
    let mut found = List::new(alloc);
    for id in ids {
        found.push(id.name.copy(alloc)?)?;
    }
    Ok(found)
}

fn actor_names(alloc: Global, program: &Program) -> Result<List<Name>, NoMemory>
    ensures { IfOk result (λ found.
        found ≡ map (λ a. a.name) (names.actors (source program.now))) }
{
    let ids = actors(alloc, program)?;
    names_of(alloc, ids.as_slice())
}

// The policies of the table, the inferred ones behind the others.
fn all_policies(
    alloc: Global,
    resolved: &Resolved<'_>,
    program: &Program,
    classes: &[&ClassDecl],
) -> Result<List<Policy>, NoMemory>
    requires made { resolved_seen resolved.now ≡ made.resolved (source program.now) }
    requires classes { classes_of classes.now ≡ names.classes (source program.now) }
    ensures { IfOk result (λ found. found
        ≡ map (λ e. e.policy) (numbered (known (source program.now)) (source program.now))) }
{
    let mut found = copies(alloc, resolved.policies())?;
    push_inferred(alloc, &mut found, resolved.known, classes)?;
    Ok(List::wrap(found))
}

// The table of a program of which all this is known.
fn table_by(
    alloc: Global,
    resolved: &Resolved<'_>,
    program: &Program,
    classes: &[&ClassDecl],
) -> Result<Table, NoMemory>
    requires room { FitsTable (source program.now) }
    requires made { resolved_seen resolved.now ≡ made.resolved (source program.now) }
    requires classes { classes_of classes.now ≡ names.classes (source program.now) }
    ensures { IfOk result (λ table. table ≡ table_of (source program.now)) }
{
    let first = resolved.policy_count();
    Ok(Table {
        actors: actor_names(alloc, program)?,
        locks: ground_locks(alloc, resolved, program)?,
        policies: all_policies(alloc, resolved, program, classes)?,
        classes: class_infos(alloc, resolved, first, classes)?,
        main: main_number(classes),
    })
}

// These are the classes of the program.
fn table_of(
    alloc: Global,
    known: &Known<'_>,
    program: &Program,
    classes: &[&ClassDecl],
) -> Result<Table, NoMemory>
    requires room { FitsTable (source program.now) }
    requires known { known_seen known.now ≡ policies.known (source program.now) }
    requires classes { classes_of classes.now ≡ names.classes (source program.now) }
    ensures { IfOk result (λ table. table ≡ table_of (source program.now)) }
{
    let resolved = Resolved::of(alloc, known, program, classes)?;
    table_by(alloc, &resolved, program, classes)
}

/// The table of a program whose parts have numbers, by what is known of it.
pub fn make(alloc: Global, known: &Known<'_>, program: &Program) -> Result<Table, NoMemory>
    requires room { FitsTable (source program.now) }
    requires known { known_seen known.now ≡ policies.known (source program.now) }
    ensures { IfOk result (λ table. table ≡ table_of (source program.now)) }
{
    let builtins = builtin_classes(alloc)?;
    let classes = classes(alloc, builtins.as_slice(), program)?;
    table_of(alloc, known, program, classes.as_slice())
}

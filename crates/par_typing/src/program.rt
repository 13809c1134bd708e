//! The typed program of a program that breaks no rule on types.

ghost use Rattle.std.specs.Prelude.{◌≡◌, ◌≤◌, [], IfOk, IfErr};
ghost use Rattle.par_lexer.specs.declared.cut.TheConstants.{LONGEST_SOURCE};
ghost use Rattle.par_tree.specs.Shown.{source};
ghost use Rattle.par_typed.specs.Shown.{bodies};
ghost use Rattle.par_type_rules.specs.Program.{type_faults};
ghost use Rattle.par_annotation.specs.par_type_rules.TypedBodies.{typed_program};
ghost use Rattle.par_refusals.specs.First.{IsAnswer};
ghost use Rattle.par_resolved.specs.Policies as policies;
ghost use Rattle.par_resolved.specs.Resolved.{table_of};
ghost use Rattle.par_resolved.specs.Seen.{known_seen};
ghost use Rattle.par_typed_laws.specs.par_faults.Faults.{all_faults};
ghost use Rattle.par_source_laws.specs.Numbers.{SourceHasNumbers};
ghost use Rattle.par_source_laws.specs.Order.{IsInOrder};
ghost use Rattle.par_source_laws.specs.Sizes.{source_texts};
ghost use Rattle.par_typed_laws.specs.WellTyped.{IsWellTyped};
ghost use Rattle.par_program_laws.specs.WellDeclared.{IsWellDeclared};
ghost use Rattle.par_typing.specs.Typed.{IsTyped, IsRefused, written};

use crate::error::TypeError;
use par_annotation::{Numbering, type_bodies};
use par_lexer::list::List;
use par_lexer::memory::NoMemory;
use par_refusals::refusal::Refusal;
use par_resolved::known::Known;
use par_resolved::scope;
use par_tree::decl::Program;
use par_type_rules::check_bodies;
use par_typed::program::{TBody, Typed};
use par_typed::table::Table;
use std::alloc::Global;

// What is known of a program that breaks no limit.
fn known_of(alloc: Global, program: &Program) -> Result<Known<'_>, NoMemory>
    requires { all_faults (source program.now) ≡ [] }
    ensures { IfOk result (λ k. known_seen k ≡ policies.known (source program.now)) }
{
    match scope::known(alloc, program) {
        Ok(known) => Ok(known),
        Err(_) => Err(NoMemory),
    }
}

// The typed bodies of a program that breaks no rule.
fn bodies_of<'a>(
    alloc: Global,
    table: &'a Table,
    known: Known<'a>,
    program: &'a Program,
) -> Result<List<TBody>, NoMemory>
    requires known { known_seen known ≡ policies.known (source program.now) }
    requires named { all_faults (source program.now) ≡ [] }
    requires tabled { table.now ≡ table_of (source program.now) }
    requires numbers { SourceHasNumbers (source program.now) }
    requires typed { type_faults table.now (source program.now) ≡ [] }
    ensures { IfOk result (λ found. bodies found
        ≡ typed_program (written (source program.now)) table.now (source program.now)) }
{
    let numbering = Numbering::of(known, table.policies.as_slice());
    type_bodies(alloc, table, program, &numbering)
}

// The first broken rule on types, if one is broken.
fn first_broken(
    alloc: Global,
    table: &Table,
    program: &Program,
) -> Result<Option<Refusal>, NoMemory>
    requires named { all_faults (source program.now) ≡ [] }
    requires tabled { table.now ≡ table_of (source program.now) }
    ensures { IfOk result (IsAnswer (type_faults table.now (source program.now))) }
{
    check_bodies(alloc, table, program)
}

// The typed bodies of a program, exactly where no rule on types is broken.
fn typed_bodies<'a>(
    alloc: Global,
    table: &'a Table,
    known: Known<'a>,
    program: &'a Program,
) -> Result<List<TBody>, TypeError>
    requires known { known_seen known ≡ policies.known (source program.now) }
    requires named { all_faults (source program.now) ≡ [] }
    requires tabled { table.now ≡ table_of (source program.now) }
    requires numbers { SourceHasNumbers (source program.now) }
    ensures right { IfOk result (λ _. type_faults table.now (source program.now) ≡ []) }
    ensures bodies { IfOk result (λ found. bodies found
        ≡ typed_program (written (source program.now)) table.now (source program.now)) }
    ensures refused { IfErr result (IsRefused (type_faults table.now (source program.now))) }
{
    match first_broken(alloc, table, program)? {
        Some(refusal) => Err(TypeError::Broken(refusal)),
        None => {
            let bodies = bodies_of(alloc, table, known, program)?;
            Ok(bodies)
        }
    }
}

/// The typed program over this table, exactly where no rule on types is broken, by what is known of
/// the program. It is well typed, and its table is well declared. A refusal drops the table.
pub fn type_known(
    alloc: Global,
    table: Table,
    known: Known<'_>,
    program: &Program,
) -> Result<Typed, TypeError>
    requires known { known_seen known ≡ policies.known (source program.now) }
    requires named { all_faults (source program.now) ≡ [] }
    requires tabled { table ≡ table_of (source program.now) }
    requires numbers { SourceHasNumbers (source program.now) }
    requires ordered { IsInOrder (source program.now) }
    requires texts { source_texts (source program.now) ≤ LONGEST_SOURCE }
    ensures typed { IfOk result (IsTyped table (source program.now)) }
    ensures well_typed { IfOk result (λ typed. IsWellTyped typed.table (bodies typed.bodies)) }
    ensures well_declared { IfOk result (λ typed. IsWellDeclared typed.table) }
    ensures refused { IfErr result (IsRefused (type_faults table (source program.now))) }
{
    let bodies = typed_bodies(alloc, &table, known, program)?;
    Ok(Typed { table, bodies })
}

/// The same, where nothing is known of the program yet.
pub fn type_program(alloc: Global, table: Table, program: &Program) -> Result<Typed, TypeError>
    requires named { all_faults (source program.now) ≡ [] }
    requires tabled { table ≡ table_of (source program.now) }
    requires numbers { SourceHasNumbers (source program.now) }
    requires ordered { IsInOrder (source program.now) }
    requires texts { source_texts (source program.now) ≤ LONGEST_SOURCE }
    ensures typed { IfOk result (IsTyped table (source program.now)) }
    ensures well_typed { IfOk result (λ typed. IsWellTyped typed.table (bodies typed.bodies)) }
    ensures well_declared { IfOk result (λ typed. IsWellDeclared typed.table) }
    ensures refused { IfErr result (IsRefused (type_faults table (source program.now))) }
{
    let known = known_of(alloc, program)?;
    type_known(alloc, table, known, program)
}

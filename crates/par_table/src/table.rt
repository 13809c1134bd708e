//! The table of a program.

ghost use Rattle.std.specs.Prelude.{◌≡◌, ◌≤◌, [], IfOk, IfSome, OnOk, Err};
ghost use Rattle.par_lexer.specs.declared.cut.TheConstants.{LONGEST_SOURCE};
ghost use Rattle.par_tree.specs.Shown.{source};
ghost use Rattle.par_faults.specs.par_parser.Bodies.{source_size};
ghost use Rattle.par_refusals.specs.First.{IsFirst};
ghost use Rattle.par_refusals.specs.declared.refusal.Refusal.{Refusal};
ghost use Rattle.par_resolved.specs.Few.{HasFew};
ghost use Rattle.par_resolved.specs.Policies as policies;
ghost use Rattle.par_resolved.specs.Resolved.{table_of};
ghost use Rattle.par_resolved.specs.Seen.{known_seen};
ghost use Rattle.par_faults.specs.Faults.{all_faults};
ghost use Rattle.par_table.specs.Room.{FitsTable};
ghost use Rattle.par_table.specs.declared.error.NameError.TheVariants.{Broken};

use crate::error::NameError;
use crate::made::make;
use par_faults::look;
use par_limits::Outcome;
use par_resolved::known::Known;
use par_resolved::{NoMemory, scope};
use par_tree::decl::Program;
use par_typed::table::Table;
use std::alloc::Global;

/// The table of a program, and what is known of the program. Who goes on with the program reads its
/// policies by this, so that no declared one is worked out again.
#[derive(Drop)]
pub struct Built<'a> {
    pub table: Table,
    pub known: Known<'a>,
}

// What is known of a program, worked out where it is not handed on.
fn known_of<'a>(
    alloc: Global,
    program: &'a Program,
    known: Option<Known<'a>>,
) -> Result<Known<'a>, NoMemory>
    requires few { HasFew (source program.now) }
    requires known { IfSome known (λ k. known_seen k ≡ policies.known (source program.now)) }
    ensures { IfOk result (λ k. known_seen k ≡ policies.known (source program.now)) }
{
    match known {
        None => scope::known(alloc, program),
        Some(known) => Ok(known),
    }
}

fn build_by<'a>(
    alloc: Global,
    program: &'a Program,
    known: Option<Known<'a>>,
) -> Result<Built<'a>, NoMemory>
    requires room { FitsTable (source program.now) }
    requires known { IfSome known (λ k. known_seen k ≡ policies.known (source program.now)) }
    ensures table { IfOk result (λ built. built.table ≡ table_of (source program.now)) }
    ensures known { IfOk result (λ built.
        known_seen built.known ≡ policies.known (source program.now)) }
{
    let known = known_of(alloc, program, known)?;
    match make(alloc, &known, program) {
        Err(error) => {
            drop(known);
            Err(error)
        }
        Ok(table) => Ok(Built { table, known }),
    }
}

/// The table of a program that keeps the rules on names and the limits, with what is known of the
/// program, or the first of them that is broken.
pub fn build_known(alloc: Global, program: &Program) -> Result<Built<'_>, NameError>
    requires { source_size (source program.now) ≤ LONGEST_SOURCE }
    ensures kept { OnOk result (all_faults (source program.now) ≡ []) }
    ensures table { IfOk result (λ built. built.table ≡ table_of (source program.now)) }
    ensures known { IfOk result (λ built.
        known_seen built.known ≡ policies.known (source program.now)) }
    ensures refused { (f : Refusal) → result ≡ Err (Broken f)
        → IsFirst (all_faults (source program.now)) f }
{
    let Outcome { first, known } = look(alloc, program)?;
    match first {
        None => {
            let built = build_by(alloc, program, known)?;
            Ok(built)
        }
        Some(first) => {
            drop(known);
            Err(NameError::Broken(first))
        }
    }
}

/// The table of a program that keeps the rules on names and the limits, or the first of them that
/// is broken.
pub fn build(alloc: Global, program: &Program) -> Result<Table, NameError>
    requires { source_size (source program.now) ≤ LONGEST_SOURCE }
    ensures kept { OnOk result (all_faults (source program.now) ≡ []) }
    ensures table { IfOk result (λ table. table ≡ table_of (source program.now)) }
    ensures refused { (f : Refusal) → result ≡ Err (Broken f)
        → IsFirst (all_faults (source program.now)) f }
{
    let Built { table, known } = build_known(alloc, program)?;
    drop(known);
    Ok(table)
}

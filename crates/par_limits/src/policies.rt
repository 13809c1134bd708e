// The first limit of policies that a program exceeds.
ghost use Rattle.std.specs.Prelude.{◌≡◌, None, flat_map, slice_get, IfOk, IfSome, OnOk};
ghost use Rattle.par_tree.specs.Shown.{source};
ghost use Rattle.par_refusals.specs.First.{first_of, in_passes};
ghost use Rattle.par_resolved.specs.Few.{HasFew};
ghost use Rattle.par_resolved.specs.Policies as policies;
ghost use Rattle.par_resolved.specs.Policies.{known};
ghost use Rattle.par_resolved.specs.Sizes.{all_join_faults};
ghost use Rattle.par_resolved.specs.Seen.{known_seen};
ghost use Rattle.par_parts.specs.Gathered.{all_of, classes_of};
ghost use Rattle.par_parts.specs.Written as said;
ghost use Rattle.par_resolved.specs.Numbered.{numbered};
ghost use Rattle.par_resolved.specs.par_names.Declarations.{declared_classes};
ghost use Rattle.par_resolved.specs.Births.{birth_faults};
ghost use Rattle.par_resolved.specs.Limits.{one_too_many, table_faults, policy_faults};

use crate::distinct::distinct_entries;
use crate::listed::entries;
use crate::many::check_many;
use crate::outcome::Outcome;
use par_parts::written::written;
use par_refusals::refusal::{Findings, Refusal};
use par_resolved::NoMemory;
use par_resolved::births::check_birth;
use par_resolved::known::Known;
use par_resolved::limits::MOST_POLICIES;
use par_resolved::literals::first_literal;
use par_resolved::par_names::declared_classes;
use par_resolved::scope::{first_join, known};
use par_tree::decl::{ClassDecl, Program};
use par_tree::policy::PolicyExpr;
use std::alloc::Global;

fn check_policies(
    alloc: Global,
    known: &Known<'_>,
    program: &Program,
    exprs: &[&PolicyExpr],
    classes: &[&ClassDecl],
    findings: &mut Findings,
) -> Result<(), NoMemory>
    requires written { all_of exprs.now ≡ said.written (source program.now) }
    requires declared { classes_of classes.now ≡ declared_classes (source program.now) }
    ensures { OnOk result (findings.new
        ≡ first_of findings.old
        (one_too_many (slice_get (numbered (known_seen known.now) (source program.now))
        MOST_POLICIES))) }
{
    let entries = entries(alloc, known, program, exprs, classes)?;
    let distinct = distinct_entries(alloc, entries.as_slice())?;
    check_many(alloc, distinct.as_slice(), classes, findings)
}

fn check_births(
    alloc: Global,
    known: &Known<'_>,
    classes: &[&ClassDecl],
    findings: &mut Findings,
) -> Result<(), NoMemory>
    ensures { OnOk result (findings.new
        ≡ first_of findings.old
        (flat_map (λ c. birth_faults (known_seen known.now) c c.birth)
        (classes_of classes.now))) }
{
    for class in classes {
        check_birth(alloc, known, class, findings)?;
    }
    Ok(())
}

// The first fault of the table, where every policy expression is within its limits.
#[tactic(auto, using(par_refusals::proofs::First::firsts))]
fn first_of_table(
    alloc: Global,
    known: &Known<'_>,
    program: &Program,
    exprs: &[&PolicyExpr],
) -> Result<Option<Refusal>, NoMemory>
    requires { all_of exprs.now ≡ said.written (source program.now) }
    ensures { IfOk result (λ first.
        first ≡ first_of None (table_faults (known_seen known.now) (source program.now))) }
{
    let mut findings = Findings::new();
    let classes = declared_classes(alloc, program)?;
    check_policies(
        alloc,
        known,
        program,
        exprs,
        classes.as_slice(),
        &mut findings,
    )?;
    check_births(alloc, known, classes.as_slice(), &mut findings)?;
    Ok(findings.first())
}

// The first fault where every literal is within its limits, by what is known of the program.
fn first_by(
    alloc: Global,
    known: &Known<'_>,
    program: &Program,
    exprs: &[&PolicyExpr],
) -> Result<Option<Refusal>, NoMemory>
    requires seen { known_seen known.now ≡ policies.known (source program.now) }
    requires written { all_of exprs.now ≡ said.written (source program.now) }
    ensures { IfOk result (λ first.
        first ≡ first_of None
        (in_passes
        (all_join_faults (policies.known (source program.now)) (source program.now))
        (table_faults (policies.known (source program.now)) (source program.now)))) }
{
    match first_join(alloc, known, exprs)? {
        None => first_of_table(alloc, known, program, exprs),
        Some(first) => Ok(Some(first)),
    }
}

// The first fault where every literal is within its limits, and what is known of the program.
fn look_by_names<'a>(
    alloc: Global,
    program: &'a Program,
    exprs: &[&'a PolicyExpr],
) -> Result<Outcome<'a>, NoMemory>
    requires few { HasFew (source program.now) }
    requires written { all_of exprs.now ≡ said.written (source program.now) }
    ensures first { IfOk result (λ found.
        found.first ≡ first_of None
        (in_passes (all_join_faults (known (source program.now)) (source program.now))
        (table_faults (known (source program.now)) (source program.now)))) }
    ensures known { IfOk result (λ found.
        IfSome found.known (λ k. known_seen k ≡ policies.known (source program.now))) }
{
    let known = known(alloc, program)?.with_joins(alloc, exprs)?;
    match first_by(alloc, &known, program, exprs) {
        Err(error) => {
            drop(known);
            Err(error)
        }
        Ok(first) => Ok(Outcome {
            first,
            known: Some(known),
        }),
    }
}

/// Looks at the limits of policies, and at birth policies where they are written: the first limit
/// that is exceeded or birth policy that is not below the policies of fields. What is known of the
/// program is worked out where no limit is exceeded by a policy that is written out.
pub fn look(alloc: Global, program: &Program) -> Result<Outcome<'_>, NoMemory>
    requires { HasFew (source program.now) }
    ensures first { IfOk result (λ found.
        found.first ≡ first_of None (policy_faults (source program.now))) }
    ensures known { IfOk result (λ found.
        IfSome found.known (λ k. known_seen k ≡ policies.known (source program.now))) }
{
    let exprs = written(alloc, program)?;
    match first_literal(exprs.as_slice()) {
        None => look_by_names(alloc, program, exprs.as_slice()),
        Some(first) => Ok(Outcome::fault(first)),
    }
}

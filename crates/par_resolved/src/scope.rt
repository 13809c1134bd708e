// What is known of a whole program.
ghost use Rattle.std.specs.Prelude.{◌≡◌, None, flat_map, map, IfOk, OnOk};
ghost use Rattle.par_tree.specs.Shown.{source};
ghost use Rattle.par_names.specs.par_index.Texts.{texts};
ghost use Rattle.par_names.specs.Declarations as names;
ghost use Rattle.par_refusals.specs.First.{first_of};
ghost use Rattle.par_resolved.specs.Few.{HasFew};
ghost use Rattle.par_resolved.specs.Policies.{known, known_behind, with_value, value_of};
ghost use Rattle.par_resolved.specs.Sizes.{expression_faults};
ghost use Rattle.par_resolved.specs.Seen.{known_seen};
ghost use Rattle.par_parts.specs.Gathered.{all_of};

use crate::known::Known;
use crate::numbers::Numbers;
use par_base::memory::NoMemory;
use par_names::par_index::NameIndex;
use par_names::{index_named, policies};
use par_refusals::refusal::{Findings, Refusal};
use par_tree::decl::{PolicyDecl, Program};
use par_tree::policy::PolicyExpr;
use std::alloc::Global;

/// What is known of a program, all declared policies read.
pub fn known(alloc: Global, program: &Program) -> Result<Known<'_>, NoMemory>
    requires { HasFew (source program.now) }
    ensures { IfOk result (λ k. known_seen k ≡ known (source program.now)) }
{
    let decls = policies(alloc, program)?;
    let known = known_of(alloc, program, decls.as_slice());
    drop(decls);
    known
}

// The same, where these are its declared policies.
fn known_of<'a>(
    alloc: Global,
    program: &'a Program,
    decls: &[&'a PolicyDecl],
) -> Result<Known<'a>, NoMemory>
    requires few { HasFew (source program.now) }
    requires declared { all_of decls.now ≡ names.policies (source program.now) }
    ensures { IfOk result (λ k. known_seen k ≡ known (source program.now)) }
{
    let names = policy_index(alloc, decls)?;
    let numbers = Numbers::of(alloc, program)?;
    let known = Known::nothing(alloc, numbers, names);
    read_declared(alloc, known, decls)
}

// The names of these declarations.
#[tactic(auto, using(par_names::proofs::Lookups::mapped))]
fn policy_index<'a>(alloc: Global, decls: &[&'a PolicyDecl]) -> Result<NameIndex<'a>, NoMemory>
    ensures { IfOk result (λ index.
        texts index.names.items ≡ map (λ d. d.id.name) (all_of decls.now)) }
{
    index_named(alloc, decls)
}

// Reads these declarations, each by what is known behind those before it.
#[tactic(auto, using(crate::proofs::Behind::behinds))]
fn read_declared<'a>(
    alloc: Global,
    known: Known<'a>,
    decls: &[&'a PolicyDecl],
) -> Result<Known<'a>, NoMemory>
    ensures { IfOk result (λ k.
        known_seen k ≡ known_behind (known_seen known.entry) (all_of decls.now)) }
{
    let mut read = known;
    for decl in decls {
        read_next(alloc, &mut read, decl)?;
    }
    Ok(read)
}

fn read_next<'a>(alloc: Global, known: &mut Known<'a>, decl: &'a PolicyDecl) -> Result<(), NoMemory>
    ensures { OnOk result (known_seen known.new
        ≡ with_value (known_seen known.old) (value_of (known_seen known.old) decl.now.policy)) }
{
    let value = known.value_of(alloc, &decl.policy)?;
    known.add_value(&decl.policy, value)
}

// Notes the limits that the joins of an expression exceed. What a join has that exceeds one is
// counted only where no limit is exceeded before it.
fn note_first(
    alloc: Global,
    known: &Known<'_>,
    e: &PolicyExpr,
    findings: &mut Findings,
) -> Result<(), NoMemory>
    ensures { OnOk result (findings.new
        ≡ first_of findings.old (expression_faults (known_seen known.now) e.now)) }
{
    if let Some(first) = findings.first() {
        if first.at < e.at {
            return Ok(());
        }
    }
    if let Some(_) = known.value_of(alloc, e)? {
        return Ok(());
    }
    known.note_faults(alloc, e, findings)
}

/// The first limit that a join of these exceeds.
pub fn first_join(
    alloc: Global,
    known: &Known<'_>,
    exprs: &[&PolicyExpr],
) -> Result<Option<Refusal>, NoMemory>
    ensures { IfOk result (λ first.
        first ≡ first_of None
        (flat_map (expression_faults (known_seen known.now)) (all_of exprs.now))) }
{
    let mut findings = Findings::new();
    for e in exprs {
        note_first(alloc, known, e, &mut findings)?;
    }
    Ok(findings.first())
}

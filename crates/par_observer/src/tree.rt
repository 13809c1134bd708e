//! The passes over the tree of a source: names, limits, types, fields without a policy, flows.

ghost use Rattle.std.specs.Prelude.{◌≡◌, ◌≤◌, [], None, IfOk, IfErr, OnOk, length, map};
ghost use Rattle.std.specs.List.{AllByRecursion};
ghost use Rattle.par_tree.specs.Shown.{source as tree_of_program};
ghost use Rattle.par_parser.specs.Bodies.{source_size};
ghost use Rattle.par_resolved.specs.Policies.{known};
ghost use Rattle.par_resolved.specs.Resolved.{table_of};
ghost use Rattle.par_resolved.specs.Seen.{known_seen};
ghost use Rattle.par_table.specs.par_faults.Faults.{all_faults};
ghost use Rattle.par_source_laws.specs.Numbers.{SourceHasNumbers};
ghost use Rattle.par_source_laws.specs.Order.{IsInOrder};
ghost use Rattle.par_source_laws.specs.Sizes.{source_texts};
ghost use Rattle.par_observer.specs.Judgements.{IsAcceptedAs, IsReadAs, IsTypedAs};
ghost use Rattle.par_observer.specs.Judgements.{IsStoppedAs};
ghost use Rattle.par_typed.specs.Shown.{bodies};
ghost use Rattle.par_secure_laws.specs.par_typed_laws.WellTyped.{IsWellTyped};
ghost use Rattle.par_program_laws.specs.WellDeclared.{IsWellDeclared};
ghost use Rattle.par_program_laws.specs.Orderly.{IsOrderlyBody};
ghost use Rattle.par_check_laws.specs.Accepted.{IsAcceptedBy, MOST_BODIES};
ghost use Rattle.par_check.specs.Judged.{IsVerdict};
ghost use Rattle.par_observer.specs.Trees.{IsAcceptedTreeAs, IsTreeRefused, IsTypedTree};
ghost use Rattle.par_observer.specs.Trees.{IsTreeUntyped, BreaksRule, BreaksTyping};
ghost use Rattle.par_observer.specs.Trees.{IsFlowRefused, IsWellFormed, IsReady, ChecksLie};
ghost use Rattle.par_observer.specs.Trees.{IsCompleteTree, IsKeptBySome};
ghost use Rattle.par_check.specs.par_flow.Table.{facts_in};

use crate::error::JudgeError;
use par_check::{Accepted, CheckError, check, verdict};
use par_lexer::LONGEST_SOURCE;
use par_table::{Built, NameError, build_known};
use par_tree::decl::Program as Tree;
use par_type_rules::first_inferred;
use par_typed::program::Typed;
use par_typing::{TypeError, type_known};
use std::alloc::Global;

/// What is said of a source with this tree.
pub(crate) fn judge_tree(alloc: Global, source: &[u8], tree: Tree) -> Result<Accepted, JudgeError>
    requires short { length source.now ≤ LONGEST_SOURCE }
    requires read { IsReadAs source.now (tree_of_program tree) }
    ensures accepted { IfOk result (λ accepted. IsAcceptedAs source.now accepted.typed) }
    ensures well_formed { IfOk result (λ accepted. IsWellFormed accepted.typed) }
    ensures kept { IfOk result (λ accepted.
        IsAcceptedBy accepted.typed (map facts_in accepted.facts)) }
    ensures refused { IfErr result (IsStoppedAs BreaksRule source.now) }
{
    passes(alloc, tree)
}

/// The program of a source with this tree, if it is accepted.
pub(crate) fn program_tree(alloc: Global, source: &[u8], tree: Tree) -> Result<Typed, JudgeError>
    requires short { length source.now ≤ LONGEST_SOURCE }
    requires read { IsReadAs source.now (tree_of_program tree) }
    ensures accepted { IfOk result (IsAcceptedAs source.now) }
    ensures well_formed { IfOk result IsWellFormed }
    ensures kept { IfOk result IsKeptBySome }
    ensures refused { IfErr result (IsStoppedAs BreaksRule source.now) }
{
    program_passes(alloc, tree)
}

/// The typed program of a source with this tree.
pub(crate) fn type_tree(alloc: Global, source: &[u8], tree: Tree) -> Result<Typed, JudgeError>
    requires short { length source.now ≤ LONGEST_SOURCE }
    requires read { IsReadAs source.now (tree_of_program tree) }
    ensures typed { IfOk result (IsTypedAs source.now) }
    ensures ready { IfOk result IsReady }
    ensures placed { IfOk result (ChecksLie (length source.now)) }
    ensures refused { IfErr result (IsStoppedAs BreaksTyping source.now) }
{
    typed_tree(alloc, &tree)
}

/// What the passes say of a tree: it is accepted, or the first broken rule of the earliest pass in
/// which one is broken.
fn passes(alloc: Global, tree: Tree) -> Result<Accepted, JudgeError>
    requires size { source_size (tree_of_program tree) ≤ LONGEST_SOURCE }
    requires numbers { SourceHasNumbers (tree_of_program tree) }
    requires order { IsInOrder (tree_of_program tree) }
    requires texts { source_texts (tree_of_program tree) ≤ LONGEST_SOURCE }
    ensures accepted { IfOk result (λ accepted.
        IsAcceptedTreeAs (tree_of_program tree) accepted.typed) }
    ensures well_formed { IfOk result (λ accepted. IsWellFormed accepted.typed) }
    ensures kept { IfOk result (λ accepted.
        IsAcceptedBy accepted.typed (map facts_in accepted.facts)) }
    ensures refused { IfErr result (IsTreeRefused (tree_of_program tree)) }
{
    let typed = complete_tree(alloc, tree)?;
    flows(alloc, typed)
}

/// The program of a tree that is accepted, or the first broken rule of the earliest pass in which
/// one is broken.
fn program_passes(alloc: Global, tree: Tree) -> Result<Typed, JudgeError>
    requires size { source_size (tree_of_program tree) ≤ LONGEST_SOURCE }
    requires numbers { SourceHasNumbers (tree_of_program tree) }
    requires order { IsInOrder (tree_of_program tree) }
    requires texts { source_texts (tree_of_program tree) ≤ LONGEST_SOURCE }
    ensures accepted { IfOk result (IsAcceptedTreeAs (tree_of_program tree)) }
    ensures well_formed { IfOk result IsWellFormed }
    ensures kept { IfOk result IsKeptBySome }
    ensures refused { IfErr result (IsTreeRefused (tree_of_program tree)) }
{
    let typed = complete_tree(alloc, tree)?;
    keep_flows(alloc, &typed)?;
    Ok(typed)
}

/// The program with its facts, or the first rule on flows that is broken.
fn flows(alloc: Global, typed: Typed) -> Result<Accepted, JudgeError>
    requires policies { length typed.table.policies ≤ 256 }
    requires classes { length typed.table.classes ≤ 65536 }
    requires few { length typed.bodies ≤ MOST_BODIES }
    requires orderly { AllByRecursion (IsOrderlyBody typed.table) (bodies typed.bodies) }
    ensures program { IfOk result (λ accepted. accepted.typed ≡ typed) }
    ensures kept { IfOk result (λ accepted.
        IsAcceptedBy accepted.typed (map facts_in accepted.facts)) }
    ensures accepted { IfOk result (λ _. IsVerdict typed.table (bodies typed.bodies) None) }
    ensures refused { IfErr result (IsFlowRefused typed) }
{
    match check(alloc, typed) {
        Ok(accepted) => Ok(accepted),
        Err(error) => match error {
            CheckError::Broken(refusal) => Err(JudgeError::Refused(refusal)),
            CheckError::Memory => Err(JudgeError::Memory),
        },
    }
}

/// Looks whether a rule on flows is broken. The facts of bodies are not kept.
fn keep_flows(alloc: Global, typed: &Typed) -> Result<(), JudgeError>
    requires policies { length typed.now.table.policies ≤ 256 }
    requires classes { length typed.now.table.classes ≤ 65536 }
    requires few { length typed.now.bodies ≤ MOST_BODIES }
    requires orderly { AllByRecursion (IsOrderlyBody typed.now.table) (bodies typed.now.bodies) }
    ensures kept { OnOk result (IsKeptBySome typed.now) }
    ensures accepted { OnOk result (IsVerdict typed.now.table (bodies typed.now.bodies) None) }
    ensures refused { IfErr result (IsFlowRefused typed.now) }
{
    match verdict(alloc, typed)? {
        None => Ok(()),
        Some(refusal) => Err(JudgeError::Refused(refusal)),
    }
}

/// The typed program of a tree each field of which has a policy. The tree is dropped.
fn complete_tree(alloc: Global, tree: Tree) -> Result<Typed, JudgeError>
    requires size { source_size (tree_of_program tree) ≤ LONGEST_SOURCE }
    requires numbers { SourceHasNumbers (tree_of_program tree) }
    requires order { IsInOrder (tree_of_program tree) }
    requires texts { source_texts (tree_of_program tree) ≤ LONGEST_SOURCE }
    ensures complete { IfOk result (IsCompleteTree (tree_of_program tree)) }
    ensures refused { IfErr result (IsTreeRefused (tree_of_program tree)) }
{
    let typed = typed_tree(alloc, &tree)?;
    match first_inferred(&tree) {
        None => Ok(typed),
        Some(refusal) => Err(JudgeError::Refused(refusal)),
    }
}

/// The typed program of a tree.
fn typed_tree(alloc: Global, tree: &Tree) -> Result<Typed, JudgeError>
    requires size { source_size (tree_of_program tree.now) ≤ LONGEST_SOURCE }
    requires numbers { SourceHasNumbers (tree_of_program tree.now) }
    requires order { IsInOrder (tree_of_program tree.now) }
    requires texts { source_texts (tree_of_program tree.now) ≤ LONGEST_SOURCE }
    ensures typed { IfOk result (IsTypedTree (tree_of_program tree.now)) }
    ensures well_typed { IfOk result (λ typed. IsWellTyped typed.table (bodies typed.bodies)) }
    ensures well_declared { IfOk result (λ typed. IsWellDeclared typed.table) }
    ensures refused { IfErr result (IsTreeUntyped (tree_of_program tree.now)) }
{
    let Built { table, known } = built_of(alloc, tree)?;
    match type_known(alloc, table, known, tree) {
        Ok(typed) => Ok(typed),
        Err(error) => match error {
            TypeError::Broken(refusal) => Err(JudgeError::Refused(refusal)),
            TypeError::Memory => Err(JudgeError::Memory),
        },
    }
}

/// The table of a tree that breaks no rule on names and exceeds no limit, and what is known of it.
fn built_of(alloc: Global, tree: &Tree) -> Result<Built<'_>, JudgeError>
    requires { source_size (tree_of_program tree.now) ≤ LONGEST_SOURCE }
    ensures right { OnOk result (all_faults (tree_of_program tree.now) ≡ []) }
    ensures table { IfOk result (λ built. built.table ≡ table_of (tree_of_program tree.now)) }
    ensures known { IfOk result (λ built.
        known_seen built.known ≡ known (tree_of_program tree.now)) }
    ensures refused { IfErr result (IsTreeUntyped (tree_of_program tree.now)) }
{
    match build_known(alloc, tree) {
        Ok(built) => Ok(built),
        Err(error) => match error {
            NameError::Broken(refusal) => Err(JudgeError::Refused(refusal)),
            NameError::Memory => Err(JudgeError::Memory),
        },
    }
}

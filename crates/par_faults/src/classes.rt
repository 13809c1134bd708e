//! The rules on names in classes.

ghost use Rattle.std.specs.Prelude.{◌≡◌, OnOk};
ghost use Rattle.par_tree.specs.Shown.{class_of};
ghost use Rattle.par_refusals.specs.First.{first_of};
ghost use Rattle.par_names.specs.Declarations.{doubles};
ghost use Rattle.par_names.specs.Members.{callee_ids};
ghost use Rattle.par_names.specs.Methods.{class_faults};
ghost use Rattle.par_names.specs.Seen.{seen, class_seen};

use crate::members::{check_channels, check_fields, check_items};
use crate::methods::check_methods;
use par_lexer::memory::NoMemory;
use par_names::{ClassNames, View, check_doubles, check_may_policy, push_ids};
use par_refusals::refusal::Findings;
use par_tree::decl::ClassDecl;
use std::alloc::Global;

// Channels and methods have one set of names.
#[tactic(auto, using(crate::proofs::Listed::ids))]
fn check_callees(alloc: Global, class: &ClassDecl, findings: &mut Findings) -> Result<(), NoMemory>
    ensures { OnOk result (findings.new
        ≡ first_of findings.old (doubles (callee_ids (class_of class.now)))) }
{
    let mut ids = Vec::new(alloc);
    push_ids(&mut ids, class.channels.as_slice())?;
    push_ids(&mut ids, class.methods.as_slice())?;
    check_doubles(alloc, ids.as_slice(), findings)
}

#[tactic(auto, using(par_names::proofs::Noted::note))]
fn check_members(
    alloc: Global,
    view: &View<'_>,
    own: &ClassNames<'_>,
    class: &ClassDecl,
    findings: &mut Findings,
) -> Result<(), NoMemory>
    requires { class_seen own.now ≡ class_of class.now }
    ensures { OnOk result (findings.new
        ≡ first_of findings.old (class_faults (seen view.now) (class_of class.now))) }
{
    let fields = class.fields.as_slice();
    check_may_policy(view, &class.birth, findings);
    check_items(alloc, fields, findings)?;
    check_fields(view, &class.birth, fields, findings);
    check_callees(alloc, class, findings)?;
    check_channels(view, class.channels.as_slice(), findings);
    check_methods(alloc, view, own, class.methods.as_slice(), findings)
}

/// Notes the broken rules of a class.
pub fn check_class(
    alloc: Global,
    view: &View<'_>,
    class: &ClassDecl,
    findings: &mut Findings,
) -> Result<(), NoMemory>
    ensures { OnOk result (findings.new
        ≡ first_of findings.old (class_faults (seen view.now) (class_of class.now))) }
{
    let own = ClassNames::of(alloc, class)?;
    let checked = check_members(alloc, view, &own, class, findings);
    drop(own);
    checked
}

//! The rules on names in fields, channels, parameters and throws.

ghost use Rattle.std.specs.Prelude.{◌≡◌, map, flat_map, drop, OnOk};
ghost use Rattle.par_refusals.specs.First.{first_of};
ghost use Rattle.par_names.specs.Declarations.{doubles};
ghost use Rattle.par_names.specs.Policies.{policy_faults};
ghost use Rattle.par_names.specs.Methods.{inferred_fault, field_faults, channel_faults};
ghost use Rattle.par_names.specs.Methods.{param_faults};
ghost use Rattle.par_names.specs.Methods.{effect_faults, throw_faults};
ghost use Rattle.par_names.specs.Seen.{seen};
ghost use Rattle.par_faults.specs.Heads.{second_effect};

use crate::rule::{SECOND_EFFECT, UNKNOWN_BIRTH};
use par_lexer::memory::NoMemory;
use par_names::{
    Named, View, check_class, check_doubles, check_may_policy, check_policy, check_type, push_ids,
};
use par_refusals::refusal::Findings;
use par_tree::decl::{ChannelDecl, FieldDecl, ParamDecl, ThrowDecl};
use par_tree::policy::PolicyExpr;
use std::alloc::Global;

/// Notes each of these before which another one has its name.
#[tactic(auto, using(par_names::proofs::Noted::note))]
pub fn check_items<T: Named>(
    alloc: Global,
    items: &[T],
    findings: &mut Findings,
) -> Result<(), NoMemory>
    ensures { OnOk result (findings.new
        ≡ first_of findings.old (doubles (map T.named items.now))) }
{
    let mut ids = Vec::new(alloc);
    push_ids(&mut ids, items)?;
    check_doubles(alloc, ids.as_slice(), findings)
}

// An inferred field needs a birth policy that is known before it.
fn check_inferred(birth: &Option<PolicyExpr>, field: &FieldDecl, findings: &mut Findings)
    ensures { findings.new ≡ first_of findings.old (inferred_fault birth.now field.now) }
{
    let is_known = !field.inferred || field.is_static || birth.is_some();
    findings.expect(is_known, UNKNOWN_BIRTH, field.id.at);
}

#[tactic(auto, using(par_names::proofs::Noted::note))]
fn check_field(
    view: &View<'_>,
    birth: &Option<PolicyExpr>,
    field: &FieldDecl,
    findings: &mut Findings,
)
    ensures { findings.new
        ≡ first_of findings.old (field_faults (seen view.now) birth.now field.now) }
{
    check_may_policy(view, &field.policy, findings);
    check_type(view, &field.ty, findings);
    check_inferred(birth, field, findings);
}

/// Notes the broken rules of fields in a class with this birth policy.
#[tactic(auto, using(par_names::proofs::Noted::note))]
pub fn check_fields(
    view: &View<'_>,
    birth: &Option<PolicyExpr>,
    fields: &[FieldDecl],
    findings: &mut Findings,
)
    ensures { findings.new ≡ first_of findings.old
        (flat_map (field_faults (seen view.now) birth.now) fields.now) }
{
    for field in fields {
        check_field(view, birth, field, findings);
    }
}

/// Notes the broken rules of channels.
#[tactic(auto, using(par_names::proofs::Noted::note))]
pub fn check_channels(view: &View<'_>, channels: &[ChannelDecl], findings: &mut Findings)
    ensures { findings.new
        ≡ first_of findings.old (flat_map (channel_faults (seen view.now)) channels.now) }
{
    for channel in channels {
        check_may_policy(view, &channel.policy, findings);
    }
}

#[tactic(auto, using(par_names::proofs::Noted::note))]
fn check_param(view: &View<'_>, param: &ParamDecl, findings: &mut Findings)
    ensures { findings.new ≡ first_of findings.old (param_faults (seen view.now) param.now) }
{
    check_may_policy(view, &param.policy, findings);
    check_type(view, &param.ty, findings);
}

/// Notes the broken rules of parameters.
#[tactic(auto, using(par_names::proofs::Noted::note))]
pub fn check_params(view: &View<'_>, params: &[ParamDecl], findings: &mut Findings)
    ensures { findings.new
        ≡ first_of findings.old (flat_map (param_faults (seen view.now)) params.now) }
{
    for param in params {
        check_param(view, param, findings);
    }
}

#[tactic(auto, using(par_names::proofs::Noted::note))]
fn refuse_effects(effects: &[PolicyExpr], findings: &mut Findings)
    ensures { findings.new ≡ first_of findings.old (flat_map second_effect effects.now) }
{
    for effect in effects {
        findings.expect(false, SECOND_EFFECT, effect.at);
    }
}

/// Notes each `!` of a method behind the first.
#[tactic(auto, using(par_names::proofs::Noted::note))]
pub fn check_effects(effects: &[PolicyExpr], findings: &mut Findings)
    ensures { findings.new ≡ first_of findings.old (effect_faults effects.now) }
{
    match effects {
        [] => {}
        [_, further @ ..] => refuse_effects(further, findings),
    }
}

/// Notes the broken rules of policies.
#[tactic(auto, using(par_names::proofs::Noted::note))]
pub fn check_policies(view: &View<'_>, policies: &[PolicyExpr], findings: &mut Findings)
    ensures { findings.new
        ≡ first_of findings.old (flat_map (policy_faults (seen view.now)) policies.now) }
{
    for policy in policies {
        check_policy(view, policy, findings);
    }
}

#[tactic(auto, using(par_names::proofs::Noted::note))]
fn check_throw(view: &View<'_>, throw: &ThrowDecl, findings: &mut Findings)
    ensures { findings.new ≡ first_of findings.old (throw_faults (seen view.now) throw.now) }
{
    check_class(view, &throw.class, findings);
    check_policy(view, &throw.policy, findings);
}

/// Notes the broken rules of what a method throws.
#[tactic(auto, using(par_names::proofs::Noted::note))]
pub fn check_throws(view: &View<'_>, throws: &[ThrowDecl], findings: &mut Findings)
    ensures { findings.new
        ≡ first_of findings.old (flat_map (throw_faults (seen view.now)) throws.now) }
{
    for throw in throws {
        check_throw(view, throw, findings);
    }
}

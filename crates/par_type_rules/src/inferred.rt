//! Fields whose policy is left to be inferred.

ghost use Rattle.std.specs.Prelude.{◌≡◌, None};
ghost use Rattle.par_tree.specs.Shown.{declared, all_declared, source};
ghost use Rattle.par_refusals.specs.First.{first_of};
ghost use Rattle.par_type_rules.specs.Inferred.{fields_inferred, declaration_inferred};
ghost use Rattle.par_type_rules.specs.Inferred.{all_inferred};

use par_refusals::refusal::{Findings, Refusal};
use par_tree::decl::{Decl, FieldDecl, Program};

#[tactic(auto, using(crate::proofs::InferredForms::finds))]
fn note_fields(fields: &[FieldDecl], findings: &mut Findings)
    ensures { findings.new ≡ first_of findings.old (fields_inferred fields.now) }
{
    for field in fields {
        findings.expect(!field.inferred, 109, field.id.at);
    }
}

#[tactic(auto, using(crate::proofs::InferredForms::finds))]
fn note_decl(decl: &Decl, findings: &mut Findings)
    ensures { findings.new ≡ first_of findings.old (declaration_inferred (declared decl.now)) }
{
    match decl {
        Decl::Actors(_) | Decl::Lock(_) | Decl::Policy(_) => {}
        Decl::Class(class) => note_fields(class.fields.as_slice(), findings),
    }
}

#[tactic(auto, using(crate::proofs::InferredForms::finds))]
fn note_decls(decls: &[Decl], findings: &mut Findings)
    ensures { findings.new ≡ first_of findings.old (all_inferred (all_declared decls.now)) }
{
    for decl in decls {
        note_decl(decl, findings);
    }
}

/// The first field of a program whose policy is left to be inferred, if there is one.
#[tactic(auto, using(par_refusals::proofs::First::firsts))]
pub fn first_inferred(program: &Program) -> Option<Refusal>
    ensures { result ≡ first_of None (all_inferred (source program.now)) }
{
    let mut findings = Findings::new();
    note_decls(program.decls.as_slice(), &mut findings);
    findings.first()
}

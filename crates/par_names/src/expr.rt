//! The rules on names in expressions.

ghost use Rattle.std.specs.Prelude.{◌≡◌};
ghost use Rattle.std.specs.Option.{option_copied};
ghost use Rattle.par_tree.specs.Shown.{shown, may_shown, receiver, all_shown};
ghost use Rattle.par_refusals.specs.First.{first_of};
ghost use Rattle.par_names.specs.Declarations.{class_named};
ghost use Rattle.par_names.specs.Members as members;
ghost use Rattle.par_names.specs.Exprs.{own_fault, name_fault, class_before, static_fault};
ghost use Rattle.par_names.specs.Exprs.{expr_faults, callee_faults, args_faults, value_faults};
ghost use Rattle.par_names.specs.Seen.{seen, home_seen};

use crate::policy::check_class;
use crate::rule::UNKNOWN_NAME;
use crate::view::{Home, View};
use par_index::NameStack;
use par_index::par_base::name::Name;
use par_refusals::refusal::Findings;
use par_tree::expr::{Expr, ExprKind};
use par_tree::ident::Ident;

// A member of the own class, which a static method has only where it is static.
#[tactic(auto, using(crate::proofs::Noted::note), unfolding(crate::specs::Exprs::own_fault))]
fn check_own(in_static: bool, member: Option<bool>, at: u32, findings: &mut Findings)
    ensures { findings.new ≡ first_of findings.old (own_fault in_static member at) }
{
    match member {
        None => findings.expect(false, UNKNOWN_NAME, at),
        Some(is_static) => {
            let is_of_object = in_static && !is_static;
            findings.expect(!is_of_object, UNKNOWN_NAME, at);
        }
    }
}

#[tactic(auto, using(crate::proofs::Noted::note))]
fn check_name(home: &Home<'_>, scope: &NameStack<'_>, name: &Name, at: u32, findings: &mut Findings)
    ensures { findings.new ≡ first_of findings.old
        (name_fault (home_seen home.now) scope.now name.now at) }
{
    if !scope.has(name) {
        let field = home.own.selected_named(name);
        check_own(home.is_static, field, at, findings);
    }
}

// Before a member a simple name that is no local and no field is a class.
#[tactic(auto, using(crate::proofs::ExprForms::form), unfolding(crate::specs::Exprs::class_before))]
fn class_before<'e>(home: &Home<'_>, scope: &NameStack<'_>, e: &'e Expr) -> Option<&'e Name>
    ensures { option_copied result ≡ class_before (home_seen home.now) scope.now (shown e.now) }
{
    match &e.kind {
        ExprKind::Name(name) => {
            if scope.has(name) || home.own.selected_named(name).is_some() {
                None
            } else {
                Some(name)
            }
        }
        ExprKind::Int(_)
        | ExprKind::True
        | ExprKind::False
        | ExprKind::Null
        | ExprKind::This
        | ExprKind::New(_)
        | ExprKind::Field(_, _)
        | ExprKind::Call(_, _, _)
        | ExprKind::Neg(_)
        | ExprKind::Not(_)
        | ExprKind::Binary(_, _, _) => None,
    }
}

#[tactic(auto, unfolding(crate::specs::Members::is_static))]
fn is_static(member: Option<bool>) -> bool
    ensures { result ≡ members.is_static member }
{
    match member {
        None => false,
        Some(is_static) => is_static,
    }
}

#[tactic(auto, unfolding(crate::specs::Exprs::static_fault))]
fn check_static_field(
    view: &View<'_>,
    class: &Name,
    at: u32,
    field: &Ident,
    findings: &mut Findings,
)
    ensures { findings.new ≡ first_of findings.old (static_fault members.selected_named
        (class_named (seen view.now).classes class.now) at field.now) }
{
    match view.declared.classes.named(class) {
        None => findings.expect(false, UNKNOWN_NAME, at),
        Some(class) => {
            let member = class.selected_named(&field.name);
            findings.expect(is_static(member), UNKNOWN_NAME, field.at);
        }
    }
}

#[tactic(auto, unfolding(crate::specs::Exprs::static_fault))]
fn check_static_callee(
    view: &View<'_>,
    class: &Name,
    at: u32,
    method: &Ident,
    findings: &mut Findings,
)
    ensures { findings.new ≡ first_of findings.old (static_fault members.callee_named
        (class_named (seen view.now).classes class.now) at method.now) }
{
    match view.declared.classes.named(class) {
        None => findings.expect(false, UNKNOWN_NAME, at),
        Some(class) => {
            let member = class.callee_named(&method.name);
            findings.expect(is_static(member), UNKNOWN_NAME, method.at);
        }
    }
}

/// Notes the broken rules of an expression.
#[cycle(expr)]
#[tactic(auto, using(crate::proofs::ExprForms::form))]
pub fn check_expr(
    view: &View<'_>,
    home: &Home<'_>,
    scope: &NameStack<'_>,
    e: &Expr,
    findings: &mut Findings,
)
    ensures { findings.new ≡ first_of findings.old
        (expr_faults (seen view.now) (home_seen home.now) scope.now (shown e.now)) }
{
    match &e.kind {
        ExprKind::Int(_) | ExprKind::True | ExprKind::False | ExprKind::Null => {}
        ExprKind::This => findings.expect(!home.is_static, UNKNOWN_NAME, e.at),
        ExprKind::New(class) => check_class(view, class, findings),
        ExprKind::Name(name) => check_name(home, scope, name, e.at, findings),
        ExprKind::Field(of, field) => match class_before(home, scope, of) {
            None => check_expr(view, home, scope, of, findings),
            Some(class) => check_static_field(view, class, of.at, field, findings),
        },
        ExprKind::Call(of, method, args) => {
            check_callee(view, home, scope, of, method, findings);
            check_args(view, home, scope, args.as_slice(), findings);
        }
        ExprKind::Neg(part) | ExprKind::Not(part) => {
            check_expr(view, home, scope, part, findings);
        }
        ExprKind::Binary(_, left, right) => {
            check_expr(view, home, scope, left, findings);
            check_expr(view, home, scope, right, findings);
        }
    }
}

#[cycle(expr)]
#[tactic(auto, using(crate::proofs::ExprForms::form))]
fn check_callee(
    view: &View<'_>,
    home: &Home<'_>,
    scope: &NameStack<'_>,
    of: &Option<Box<Expr>>,
    method: &Ident,
    findings: &mut Findings,
)
    ensures { findings.new ≡ first_of findings.old (callee_faults (seen view.now)
        (home_seen home.now) scope.now (receiver of.now) method.now) }
{
    match of {
        None => {
            let member = home.own.callee_named(&method.name);
            check_own(home.is_static, member, method.at, findings);
        }
        Some(of) => match class_before(home, scope, of) {
            None => check_expr(view, home, scope, of, findings),
            Some(class) => check_static_callee(view, class, of.at, method, findings),
        },
    }
}

#[cycle(expr)]
#[tactic(auto, using(crate::proofs::ExprForms::arg_forms))]
fn check_args(
    view: &View<'_>,
    home: &Home<'_>,
    scope: &NameStack<'_>,
    args: &[Expr],
    findings: &mut Findings,
)
    ensures { findings.new ≡ first_of findings.old
        (args_faults (seen view.now) (home_seen home.now) scope.now (all_shown args.now)) }
{
    for arg in args {
        check_expr(view, home, scope, arg, findings);
    }
}

/// Notes the broken rules of a value, where there is one.
#[tactic(auto, using(crate::proofs::ExprForms::value_forms))]
pub fn check_value(
    view: &View<'_>,
    home: &Home<'_>,
    scope: &NameStack<'_>,
    value: &Option<Expr>,
    findings: &mut Findings,
)
    ensures { findings.new ≡ first_of findings.old
        (value_faults (seen view.now) (home_seen home.now) scope.now (may_shown value.now)) }
{
    match value {
        None => {}
        Some(value) => check_expr(view, home, scope, value, findings),
    }
}

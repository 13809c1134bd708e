//! What is asked of expressions.

ghost use Rattle.std.specs.Prelude.{◌≡◌, [], ◌∷◌, ◌++◌, OnOk};
ghost use Rattle.std.specs.Option.{option_copied};
ghost use Rattle.par_typed.specs.Plain.{mark};
ghost use Rattle.par_typed.specs.Shown.{all_shown, receiver, shown};
ghost use Rattle.par_nodes.specs.par_program_laws.Declares.{declares, method_of, params_of};
ghost use Rattle.par_check_laws.specs.Asked as asked;
ghost use Rattle.par_check_laws.specs.Checks.{args_checks, arguments, ask, called, entry_of};
ghost use Rattle.par_check_laws.specs.Checks.{exp_checks, may_checks};
ghost use Rattle.par_asked.specs.Calls.{calls, of_point};
ghost use Rattle.par_asked.specs.Seen.{own, seen_checks, seen_spot, table};
ghost use Rattle.par_asked.specs.Writes.{output};

use crate::ask::{Home, Spot, closes, effect, expects};
use crate::check::{Check, Condition, Way};
use par_base::list::List;
use par_base::memory::NoMemory;
use par_nodes::declared;
use par_typed::expr::{TExpr, TExprKind};
use par_typed::table::{MethodInfo, ParamInfo};

fn spot<'a>(e: &TExpr, way: Way<'a>) -> Spot<'a>
    ensures { result ≡ record { at = e.now.at; point = e.now.point; way = way.entry } }
{
    Spot {
        at: e.at,
        point: e.point,
        way,
    }
}

/// What is asked of the arguments of a call, and of their parameters.
#[cycle(exp)]
fn args<'a>(
    home: &Home<'a>,
    args: &'a [TExpr],
    checks: &mut List<Check<'a>>,
) -> Result<(), NoMemory>
    ensures { OnOk result (seen_checks checks.new ≡ seen_checks checks.old
        ++ args_checks (table home.now) (own home.now) (all_shown args.now)) }
{
    for argument in args {
        exp(home, argument, checks)?;
    }
    Ok(())
}

// An argument against its parameter.
#[tactic(auto, using(crate::proofs::Forms::marks))]
fn ask_argument<'a>(
    argument: &TExpr,
    param: &ParamInfo,
    checks: &mut List<Check<'a>>,
) -> Result<(), NoMemory>
    ensures { OnOk result (seen_checks checks.new ≡ seen_checks checks.old
        ++ ask 405 (mark (shown argument.now)).at (entry_of (mark (shown argument.now)).point)
        (asked.Worth (mark (shown argument.now)).point param.now.policy) ∷ []) }
{
    let condition = Condition::Worth(argument.point, param.policy);
    spot(argument, Way::Entry).ask(405, condition, checks)
}

// Each argument against its parameter.
fn ask_arguments<'a>(
    home: &Home<'a>,
    params: &[ParamInfo],
    args: &[TExpr],
    checks: &mut List<Check<'a>>,
) -> Result<(), NoMemory>
    ensures { OnOk result (seen_checks checks.new ≡ seen_checks checks.old
        ++ arguments (table home.now) (own home.now) (params_of params.now)
        (all_shown args.now)) }
{
    for (place, argument) in args.iter().enumerate() {
        if let Some(param) = params.get(place) {
            ask_argument(argument, param, checks)?;
        }
    }
    Ok(())
}

fn params(method: Option<&MethodInfo>) -> &[ParamInfo]
    ensures { params_of result.now ≡ (method_of (option_copied method.entry)).params }
{
    match method {
        None => &[],
        Some(method) => method.params.as_slice(),
    }
}

// What is asked of a call where it stands.
#[tactic(auto, using(crate::proofs::Asks::asks))]
fn ask_called<'a>(
    home: &Home<'a>,
    spot: Spot<'a>,
    method: Option<&'a MethodInfo>,
    checks: &mut List<Check<'a>>,
) -> Result<(), NoMemory>
    ensures { OnOk result (seen_checks checks.new ≡ seen_checks checks.old
        ++ called (table home.now) (own home.now) spot.entry.at
        (seen_spot spot.entry.point spot.entry.way) (method_of (option_copied method.entry))) }
{
    spot.ask(301, Condition::Open(expects(method)), checks)?;
    spot.ask(
        302,
        Condition::Among(closes(method), closes(home.own)),
        checks,
    )?;
    spot.ask_learns(home, 407, effect(method), checks)
}

#[tactic(auto, using(crate::proofs::Forms::marks))]
fn of_point(of: &Option<Box<TExpr>>) -> Option<u32>
    ensures { result ≡ of_point (receiver of.now) }
{
    match of {
        None => None,
        Some(of) => Some(of.point),
    }
}

// What is asked of a call behind its arguments.
#[tactic(auto, using(crate::proofs::Asks::asks))]
fn ask_call<'a>(
    home: &Home<'a>,
    e: &TExpr,
    of: &Option<Box<TExpr>>,
    args: &'a [TExpr],
    method: Option<&'a MethodInfo>,
    checks: &mut List<Check<'a>>,
) -> Result<(), NoMemory>
    ensures { OnOk result (seen_checks checks.new ≡ seen_checks checks.old
        ++ calls (table home.now) (own home.now) e.now.at e.now.point (receiver of.now)
        (all_shown args.now) (method_of (option_copied method.entry))) }
{
    ask_arguments(home, params(method), args, checks)?;
    let spot = spot(e, Way::Called(of_point(of), args));
    ask_called(home, spot, method, checks)
}

// What is asked where a value goes out on a channel.
#[tactic(auto, using(crate::proofs::Forms::marks, crate::proofs::Asks::asks))]
fn ask_output<'a>(
    home: &Home<'a>,
    e: &TExpr,
    class: u16,
    channel: u16,
    value: &TExpr,
    checks: &mut List<Check<'a>>,
) -> Result<(), NoMemory>
    ensures { OnOk result (seen_checks checks.new ≡ seen_checks checks.old
        ++ output (table home.now) (own home.now)
        ((declares (table home.now)).channel class channel) (shown value.now)
        e.now.at e.now.point) }
{
    let policy = declared::channel(home.table, class, channel);
    let spot = spot(e, Way::Behind(value.point));
    spot.ask(403, Condition::Released(value.point, policy), checks)?;
    spot.ask_learns(home, 404, policy, checks)
}

#[cycle(exp)]
fn may_exp<'a>(
    home: &Home<'a>,
    of: &'a Option<Box<TExpr>>,
    checks: &mut List<Check<'a>>,
) -> Result<(), NoMemory>
    ensures { OnOk result (seen_checks checks.new ≡ seen_checks checks.old
        ++ may_checks (table home.now) (own home.now) (receiver of.now)) }
{
    match of {
        None => Ok(()),
        Some(of) => exp(home, of, checks),
    }
}

/// What is asked of an expression.
#[cycle(exp)]
#[tactic(auto, using(crate::proofs::Forms::exps))]
pub fn exp<'a>(home: &Home<'a>, e: &'a TExpr, checks: &mut List<Check<'a>>) -> Result<(), NoMemory>
    ensures { OnOk result (seen_checks checks.new ≡ seen_checks checks.old
        ++ exp_checks (table home.now) (own home.now) (shown e.now)) }
{
    match &e.kind {
        TExprKind::Int(_)
        | TExprKind::Bool(_)
        | TExprKind::Null
        | TExprKind::This
        | TExprKind::Local(_)
        | TExprKind::Static(_, _) => Ok(()),
        TExprKind::New(class) => {
            let policy = declared::birth(home.table, *class);
            spot(e, Way::Entry).ask_learns(home, 409, policy, checks)
        }
        TExprKind::Input(class, channel) => {
            let policy = declared::channel(home.table, *class, *channel);
            spot(e, Way::Entry).ask_learns(home, 404, policy, checks)
        }
        TExprKind::Output(class, channel, value) => {
            exp(home, value, checks)?;
            ask_output(home, e, *class, *channel, value, checks)
        }
        TExprKind::Call(class, method, of, arguments) => {
            let arguments = arguments.as_slice();
            let method = declared::method(home.table, *class, *method);
            may_exp(home, of, checks)?;
            args(home, arguments, checks)?;
            ask_call(home, e, of, arguments, method, checks)
        }
        TExprKind::Field(of, _, _) => exp(home, of, checks),
        TExprKind::Neg(of) | TExprKind::Not(of) => exp(home, of, checks),
        TExprKind::Binary(_, left, right) => {
            exp(home, left, checks)?;
            exp(home, right, checks)
        }
    }
}

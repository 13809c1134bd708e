//! Rules that several forms ask.

ghost use Rattle.std.specs.Prelude.{◌≡◌, [], ◌∷◌, ◌++◌, OnOk};
ghost use Rattle.std.specs.Option.{option_copied};
ghost use Rattle.par_nodes.specs.par_program_laws.Declares.{method_of};
ghost use Rattle.par_check_laws.specs.Asked as asked;
ghost use Rattle.par_check_laws.specs.Checks.{ask};
ghost use Rattle.par_asked.specs.Seen.{own, seen_check, seen_checks, seen_condition, seen_locks};
ghost use Rattle.par_asked.specs.Seen.{seen_spot};

use crate::check::{Check, Condition, Locks, Way};
use par_base::list::List;
use par_base::memory::NoMemory;
use par_typed::table::{MethodInfo, Table};

/// The table, and the method around.
#[derive(Clone, Copy)]
pub struct Home<'a> {
    pub table: &'a Table,
    pub own: Option<&'a MethodInfo>,
}

impl<'a> Home<'a> {
    /// The write effect of the method around.
    pub fn effect(&self) -> u16
        ensures { result ≡ (own self.now).effect }
    {
        effect(self.own)
    }

    /// The policy of results of the method around.
    pub fn result(&self) -> u16
        ensures { result ≡ (own self.now).result }
    {
        result(self.own)
    }
}

/// The policy of a method's result.
fn result(method: Option<&MethodInfo>) -> u16
    ensures { result ≡ (method_of (option_copied method.entry)).result }
{
    match method {
        None => 0,
        Some(method) => method.policy,
    }
}

/// The write effect of a method.
pub fn effect(method: Option<&MethodInfo>) -> u16
    ensures { result ≡ (method_of (option_copied method.entry)).effect }
{
    match method {
        None => 0,
        Some(method) => method.effect,
    }
}

/// The locks that a method expects.
pub fn expects(method: Option<&MethodInfo>) -> Locks<'_>
    ensures { seen_locks result ≡ (method_of (option_copied method.entry)).expects }
{
    match method {
        None => Locks::Nothing,
        Some(method) => Locks::All(&method.expects),
    }
}

/// The locks that a method closes.
pub fn closes(method: Option<&MethodInfo>) -> Locks<'_>
    ensures { seen_locks result ≡ (method_of (option_copied method.entry)).closes }
{
    match method {
        None => Locks::Nothing,
        Some(method) => Locks::All(&method.closes),
    }
}

/// Where a rule is told, and where it is asked.
#[derive(Clone, Copy)]
pub struct Spot<'a> {
    pub at: u32,
    pub point: u32,
    pub way: Way<'a>,
}

impl<'a> Spot<'a> {
    /// One rule more.
    #[tactic(auto, using(crate::proofs::Asks::seen_pushed))]
    pub fn ask(
        self,
        rule: u16,
        condition: Condition<'a>,
        checks: &mut List<Check<'a>>,
    ) -> Result<(), NoMemory>
        ensures { OnOk result (seen_checks checks.new ≡ seen_checks checks.old
            ++ ask rule self.entry.at (seen_spot self.entry.point self.entry.way)
            (seen_condition condition.entry) ∷ []) }
    {
        checks.push(Check {
            rule,
            at: self.at,
            point: self.point,
            way: self.way,
            condition,
        })
    }

    /// Who learns of what is done here: the context and the write effect of the method around are
    /// below the policy.
    #[tactic(auto, using(crate::proofs::Asks::asks))]
    pub fn ask_learns(
        self,
        home: &Home<'a>,
        rule: u16,
        policy: u16,
        checks: &mut List<Check<'a>>,
    ) -> Result<(), NoMemory>
        ensures { OnOk result (seen_checks checks.new ≡ seen_checks checks.old
            ++ ask rule self.entry.at (seen_spot self.entry.point self.entry.way)
            (asked.Context policy)
            ∷ ask rule self.entry.at (seen_spot self.entry.point self.entry.way)
            (asked.Effect (own home.now).effect policy) ∷ []) }
    {
        self.ask(rule, Condition::Context(policy), checks)?;
        self.ask(rule, Condition::Effect(home.effect(), policy), checks)
    }
}

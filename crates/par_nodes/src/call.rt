//! What a called method does.

ghost use Rattle.std.specs.Prelude.{◌≡◌, IfOk, None, Some};
ghost use Rattle.par_program_laws.specs.par_policy.Numbers.{has};
ghost use Rattle.par_program_laws.specs.Declares.{declares, method_of, throws_of};
ghost use Rattle.par_program_laws.specs.Kinds as kinds;
ghost use Rattle.par_program_laws.specs.Rules as plain;
ghost use Rattle.par_program_laws.specs.Body.{called, thrown};
ghost use Rattle.par_nodes.specs.Seen.{seen_origin, seen_rules, seen_start, tested};

use crate::draft::Draft;
use crate::rule::{Kind, Locks, Origin, Start, Worth};
use crate::{declared, make};
use par_base::memory::NoMemory;
use par_program_laws::par_policy::Lockset;
use par_typed::table::{MethodInfo, Table, ThrowInfo};
use std::alloc::Global;

// The way at which a called method stands, with the value of the receiver in its context.
#[derive(Clone, Copy)]
pub struct Stand {
    pub start: Start,
    pub receiver: Option<usize>,
}

impl Stand {
    fn origin<'a>(self, raised: Option<u16>, shut: Locks<'a>, opened: Locks<'a>) -> Origin<'a>
        ensures { result ≡ record {
          start = self.start;
          assigned = None;
          tested = self.receiver;
          raised = raised;
          shut = shut.entry;
          opened = opened.entry;
        } }
    {
        Origin {
            start: self.start,
            assigned: None,
            tested: self.receiver,
            raised,
            shut,
            opened,
        }
    }

    /// The way itself.
    pub fn way(self) -> Origin<'static>
        ensures { seen_origin result ≡ tested self.receiver (seen_start self.start) }
    {
        self.origin(None, Locks::Kept, Locks::Kept)
    }
}

// A throw of a method that closes these locks.
fn thrown_by<'a>(
    alloc: Global,
    stand: Stand,
    closes: &'a Lockset,
    throw: &ThrowInfo,
    more: Draft<'a>,
) -> Result<Draft<'a>, NoMemory>
    ensures { IfOk result (λ r. seen_rules r.rules ≡ plain.Leaves
        (plain.Shut (has closes.now) (plain.Raised throw.now.policy
        (tested stand.receiver (seen_start stand.start))))
        (kinds.Throw throw.now.class) (seen_rules more.entry.rules)) }
{
    let from = stand.origin(Some(throw.policy), Locks::All(closes), Locks::Kept);
    make::leaves(alloc, from, Kind::Throw(throw.class), more)
}

// The throws of a method.
fn thrown<'a>(
    alloc: Global,
    table: &Table,
    stand: Stand,
    method: &'a MethodInfo,
    more: Draft<'a>,
) -> Result<Draft<'a>, NoMemory>
    ensures { IfOk result (λ r. seen_rules r.rules
        ≡ thrown (declares table.now) (method_of (Some method.now))
        (tested stand.receiver (seen_start stand.start))
        (throws_of method.now.throws) (seen_rules more.entry.rules)) }
{
    let throws = method.throws.as_slice();
    let mut rules = more;
    for place in (0..throws.len()).rev() {
        rules = thrown_by(alloc, stand, &method.closes, &throws[place], rules)?;
    }
    Ok(rules)
}

// What a method does that is there.
fn does<'a>(
    alloc: Global,
    table: &Table,
    stand: Stand,
    method: &'a MethodInfo,
) -> Result<Draft<'a>, NoMemory>
    ensures { IfOk result (λ r. seen_rules r.rules
        ≡ called (declares table.now) (method_of (Some method.now))
        (tested stand.receiver (seen_start stand.start))) }
{
    let from = stand.origin(None, Locks::All(&method.closes), Locks::All(&method.opens));
    let goes = make::gives(alloc, from, Worth::Given(method.policy));
    thrown(alloc, table, stand, method, goes)
}

/// A called method throws, or goes on with its locks closed and opened.
pub fn called<'a>(
    alloc: Global,
    table: &'a Table,
    stand: Stand,
    class: u16,
    method: u16,
) -> Result<Draft<'a>, NoMemory>
    ensures { IfOk result (λ r. seen_rules r.rules
        ≡ called (declares table.now) ((declares table.now).method class method)
        (tested stand.receiver (seen_start stand.start))) }
{
    match declared::method(table, class, method) {
        None => {
            let from = stand.origin(None, Locks::Nothing, Locks::Nothing);
            Ok(make::gives(alloc, from, Worth::Given(0)))
        }
        Some(method) => does(alloc, table, stand, method),
    }
}

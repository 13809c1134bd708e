// The facts of a body.
ghost use Rattle.std.specs.Prelude.{◌≡◌, ◌<◌, Some, IfOk, length, slice_get};
ghost use Rattle.std.specs.Option.{option_copied};
ghost use Rattle.par_typed.specs.Shown as shown;
ghost use Rattle.par_program_laws.specs.Declares.{declares, method_of};
ghost use Rattle.par_program_laws.specs.Ranges.{IsOrderly};
ghost use Rattle.par_pass_laws.specs.Written.{table as by_point};
ghost use Rattle.par_ways.specs.Seen.{seen_facts, AreRowsWide};
ghost use Rattle.par_rounds.specs.Bodies.{AreLeastClosed};
ghost use Rattle.par_program_laws.specs.Orderly.{locals_in, IsOrderlyBody};
ghost use Rattle.par_typed.specs.Members.{methods_in};

use crate::next::points_of;
use crate::rounds::settle;
use par_base::memory::NoMemory;
use par_typed::program::{TBody, Typed};
use par_typed::table::{MethodInfo, Table};
use par_ways::fact::Fact;
use par_ways::first::first_way;
use par_ways::way::SharedWay;
use std::alloc::Global;

fn method_at(table: &Table, class: u16, method: u16) -> Option<&MethodInfo>
    ensures { option_copied result
        ≡ slice_get (methods_in (slice_get table.now.classes class)) method }
{
    match table.classes.get(usize::from(class)) {
        None => None,
        Some(class) => class.methods.get(usize::from(method)),
    }
}

// The method of a body that is one of the table's.
fn method_of<'a>(table: &'a Table, body: &TBody) -> &'a MethodInfo
    requires { IsOrderlyBody table.now (shown.body body.now) }
    ensures method { method_of (Some result.now)
        ≡ (declares table.now).method body.now.class body.now.method }
    ensures orderly { IsOrderly (declares table.now) (length result.now.locals)
        (shown.body body.now) }
    ensures locals { length result.now.locals ≡ locals_in table.now (shown.body body.now) }
{
    match method_at(table, body.class, body.method) {
        Some(method) => method,
        None => unreachable!(),
    }
}

/// The body of a number.
pub fn body_at(typed: &Typed, body: u16) -> &TBody
    requires { body < length typed.now.bodies }
    ensures { slice_get (shown.bodies typed.now.bodies) body ≡ Some (shown.body result.now) }
{
    let bodies = typed.bodies.as_slice();
    let place = usize::from(body);
    &bodies[place]
}

/// The least facts of a body of the table, by points.
pub fn rows_of(alloc: Global, table: &Table, body: &TBody) -> Result<Vec<Fact>, NoMemory>
    requires { IsOrderlyBody table.now (shown.body body.now) }
    ensures facts { IfOk result (λ rows. AreLeastClosed table.now (shown.body body.now)
        (by_point (seen_facts rows.items))) }
    ensures locals { IfOk result
        (λ rows. AreRowsWide (locals_in table.now (shown.body body.now)) rows.items) }
{
    let method = method_of(table, body);
    let first = first_way(alloc, method)?;
    let way = SharedWay::new(alloc, first)?;
    let points = points_of(alloc, table, &body.body)?;
    let rows = settle(alloc, table, &body.body, &way, points)?;
    Ok(rows)
}

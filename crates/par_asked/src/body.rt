//! What is asked of the facts of a body.

ghost use Rattle.std.specs.Prelude.{◌≡◌, ◌≤◌, length, slice_get, IfOk};
ghost use Rattle.par_typed.specs.Shown.{body};
ghost use Rattle.par_check_laws.specs.Checks.{checks, name_at};
ghost use Rattle.par_asked.specs.Seen.{seen_checks};

use crate::ask::Home;
use crate::check::Check;
use crate::method::ask_method;
use crate::stmt::stmt;
use par_base::list::List;
use par_base::memory::NoMemory;
use par_nodes::declared;
use par_typed::program::TBody;
use par_typed::table::Table;
use std::alloc::Global;

// The place of a method's name.
fn name_at(table: &Table, class: u16, method: u16) -> u32
    ensures { result ≡ name_at (slice_get table.now.classes class) method }
{
    match table.classes.get(usize::from(class)) {
        None => 0,
        Some(class) => match class.methods.get(usize::from(method)) {
            None => 0,
            Some(method) => method.at,
        },
    }
}

/// All that is asked of the facts of a body.
#[tactic(auto, using(crate::proofs::Asks::starts, par_typed::proofs::Shown::does_point))]
pub fn checks_of<'a>(
    alloc: Global,
    table: &'a Table,
    of: &'a TBody,
) -> Result<List<Check<'a>>, NoMemory>
    requires { length table.now.classes ≤ 65536 }
    ensures { IfOk result (λ cs. seen_checks cs ≡ checks table.now (body of.now)) }
{
    let home = Home {
        table,
        own: declared::method(table, of.class, of.method),
    };
    let at = name_at(table, of.class, of.method);
    let mut checks = List::new(alloc);
    stmt(&home, &of.body, &mut checks)?;
    ask_method(&home, at, of.body.point, &mut checks)?;
    Ok(checks)
}

// How many points a body has.
ghost use Rattle.std.specs.Prelude.{◌≡◌, IfOk};
ghost use Rattle.par_typed.specs.Shown.{does};
ghost use Rattle.par_program_laws.specs.Body.{sta};
ghost use Rattle.par_program_laws.specs.Declares.{declares};
ghost use Rattle.par_program_laws.specs.Numbered.{next, next_by};
ghost use Rattle.par_nodes.specs.Seen.{seen_node, seen_rules};

use par_base::memory::NoMemory;
use par_nodes::rule::{Node, Rules};
use par_nodes::stmt::sta;
use par_typed::stmt::{TStmt, TStmtKind};
use par_typed::table::Table;
use std::alloc::Global;

// The first number behind the points of the node.
#[cycle(next)]
fn next(node: &Node) -> usize
    ensures { result ≡ next (seen_node node.now) }
{
    next_by(&node.rules, node.point as usize + 1)
}

#[cycle(next)]
fn next_by(rules: &Rules, from: usize) -> usize
    ensures { result ≡ next_by from (seen_rules rules.now) }
{
    match rules {
        Rules::Done => from,
        Rules::Part(_, _, part, more) => next_by(more, next(part)),
        Rules::Test(part, more) => next_by(more, next(part)),
        Rules::Heads(_, more) => next_by(more, from),
        Rules::Leaves(_, _, more) => next_by(more, from),
        Rules::Worths(_, more) => next_by(more, from),
        Rules::Ends(_, _) => from,
        Rules::Gives(_, _) => from,
        Rules::Joins(_, _, _) => from,
    }
}

/// The first number behind the points of the statement. Points go up along the parts, so of a block
/// the last statement is looked at alone.
pub fn points_of(alloc: Global, table: &Table, stmt: &TStmt) -> Result<usize, NoMemory>
    ensures { IfOk result (λ n. n ≡ next (sta (declares table.now) (does stmt.now))) }
{
    if let TStmtKind::Block(stmts) = &stmt.kind {
        if let Some(last) = stmts.as_slice().last() {
            return points_of(alloc, table, last);
        }
    }
    let known = sta(alloc, table, stmt)?;
    Ok(next(&known.node))
}

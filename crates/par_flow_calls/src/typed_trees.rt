//! The typed tree of a worked program, made with ample memory.

use par_lexer::list::List;
use par_typed::program::TBody;
use par_typed_sources::auction_tree::{is_larger, is_main};
use par_typed_sources::typed;
use par_worked::{AUCTION, expect};
use std::rt::HostRuntime;
use std::test::Fail;

fn check_bodies(bodies: &List<TBody>) -> Result<(), Fail> {
    expect(bodies.len() == 2, "each method has a body")?;
    expect(bodies.get(0).is_some_and(is_main), "main is typed")?;
    expect(bodies.get(1).is_some_and(is_larger), "larger is typed")
}

#[test]
fn the_auction_is_typed(rt: HostRuntime) -> Result<(), Fail> {
    let program = typed(rt.alloc(), AUCTION)?;
    let checked = check_bodies(&program.bodies);
    drop(program);
    checked
}

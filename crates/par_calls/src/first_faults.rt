//! The first fault of sources, in names and limits, found with ample memory.

use crate::sentences::program;
use par_faults::first_fault;
use par_refusals::refusal::Refusal;
use par_worked::expect;
use std::alloc::Global;
use std::rt::HostRuntime;
use std::test::Fail;

const KEPT: &[u8] = b"actor a;
class Shop { static void main() !bottom { } }";

const NO_MAIN: &[u8] = b"actor a;";

// One actor too many, and before it a policy with one clause too many, which is looked at too.
const ACTORS: &[u8] =
    b"class Shop { static void main() !bottom { } ?{a:;a:;a:;a:;a:;a:;a:;a:;a:;a:;a:;a:;a:;a:;
a:;a:;a:;a:;a:;a:;a:;a:;a:;a:;a:;a:;a:;a:;a:;a:;a:;a:;a:} int many; }
actor a, b, c, d, e, f, g, h, i, j, k, l, m, n, o, p, q;";

// A name is wrong behind one actor too many.
const NAME: &[u8] = b"actor a, b, c, d, e, f, g, h, i, j, k, l, m, n, o, p, q;
class Shop { static void main() !bottom { int x = y; } }";

const CLAUSES: &[u8] = b"actor a;
class Shop { static void main() !bottom { } ?{a:;a:;a:;a:;a:;a:;a:;a:;a:;a:;a:;a:;a:;a:;
a:;a:;a:;a:;a:;a:;a:;a:;a:;a:;a:;a:;a:;a:;a:;a:;a:;a:;a:} int many; }";

// A birth policy that is not below the policy of a field.
const BIRTH: &[u8] = b"actor a;
class Box ?top { ?{a:} int v; }
class Shop { static void main() !bottom { } }";

fn fault_of(alloc: Global, source: &[u8]) -> Result<Option<Refusal>, Fail> {
    let program = program(alloc, source)?;
    let fault = first_fault(alloc, &program);
    drop(program);
    Ok(fault?)
}

fn is_refused(alloc: Global, source: &[u8], refusal: Refusal) -> Result<bool, Fail> {
    Ok(fault_of(alloc, source)? == Some(refusal))
}

// A row's name, and a source with its first fault: the rule, the place, the limit and the count.
type Refused = (&'static str, &'static [u8], (u16, u32, u8, u32));

const REFUSED: &[Refused] = &[
    ("a main is wanted", NO_MAIN, (105, 0, 0, 0)),
    (
        "one actor is too many, behind one clause",
        ACTORS,
        (106, 45, 4, 33),
    ),
    ("names come before limits", NAME, (101, 107, 0, 0)),
    ("one clause is too many", CLAUSES, (106, 54, 4, 33)),
    ("a birth policy is above a field", BIRTH, (107, 15, 0, 0)),
];

#[test]
fn no_fault_is_found(rt: HostRuntime) -> Result<(), Fail> {
    let none = fault_of(rt.alloc(), KEPT)?.is_none();
    expect(none, "the source keeps all rules")
}

fn check_refused(alloc: Global, rows: &[Refused]) -> Result<(), Fail> {
    for (row, source, (rule, at, limit, count)) in rows {
        let refusal = Refusal {
            rule: *rule,
            at: *at,
            limit: *limit,
            count: *count,
        };
        expect(is_refused(alloc, source, refusal)?, row)?;
    }
    Ok(())
}

#[test]
fn the_first_fault_is_found(rt: HostRuntime) -> Result<(), Fail> {
    check_refused(rt.alloc(), REFUSED)
}

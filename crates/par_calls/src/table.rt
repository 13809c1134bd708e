//! Tables of worked programs, made with ample memory.

use crate::sentences::program;
use par_lexer::name::Name;
use par_policy::{Clause, Policy};
use par_refusals::refusal::Refusal;
use par_table::{NameError, build};
use par_typed::table::{
    ChannelInfo, ClassInfo, FieldInfo, GroundLock, MethodInfo, ParamInfo, Table, ThrowInfo, birth,
};
use par_typed::ty::Ty;
use par_worked::{AUCTION, expect};
use std::alloc::Global;
use std::rt::HostRuntime;
use std::test::Fail;

// Families of locks, locks that are asked for, inferred fields, a method with all its marks, and a
// birth policy that is met of fields.
const BOX: &[u8] = b"actor a, b;
lock Key(actor, actor);
lock Shut(actor);
lock Sold ?{a:};
lock Seen;
class Lost extends Exception { }
class Box ?{a:} {
  ?_ int x;
  ?{a:} Box z;
  ?_ static int y;
  int take(boolean all, ?{a:} notnull Box other) !top ~Sold +Key(b, a) -Seen throws Lost top {
    when (Seen) { int n = 1; }
    return 1;
  }
  static void main() { when (Key(a, b)) { } }
}
class Pair { ?{a: Seen} int one; ?{b: Seen} int two; }
";

const NO_MAIN: &[u8] = b"actor a;";

const ACTORS: &[u8] = b"actor a, b, c, d, e, f, g, h, i, j, k, l, m, n, o, p, q;
class Shop { static void main() { } }";

fn made(alloc: Global, source: &[u8]) -> Result<Result<Table, NameError>, Fail> {
    let program = program(alloc, source)?;
    let made = build(alloc, &program);
    drop(program);
    Ok(made)
}

fn table(alloc: Global, source: &[u8]) -> Result<Table, Fail> {
    match made(alloc, source)? {
        Ok(table) => Ok(table),
        Err(_) => Err(Fail::new("a table is made")),
    }
}

// ---- what is wanted of a table, row by row

// The name, whether it is static, the type, the policy, and whether that is inferred.
type Field = (&'static str, bool, Ty, u16, bool);

// The name, whether it is an input, and the policy.
type Channel = (&'static str, bool, u16);

// An actor, and the locks that it needs.
type Part = (u8, &'static [u16]);

// The type, the policy, and whether it is never null.
type Param = (Ty, u16, bool);

struct Method {
    name: &'static str,
    nodes: u32,
    is_static: bool,
    result: Ty,
    policies: (u16, u16),
    params: &'static [Param],
    locals: &'static [Ty],
    locks: [&'static [u16]; 3],
    throws: &'static [(u16, u16)],
}

struct Class {
    name: &'static str,
    exception: bool,
    birth: u16,
    fields: &'static [Field],
    channels: &'static [Channel],
    methods: &'static [Method],
}

// The name, the actors and the policy.
type Ground = (&'static str, &'static [u8], Option<u16>);

struct Wanted {
    actors: &'static [&'static str],
    locks: &'static [Ground],
    policies: &'static [&'static [Part]],
    classes: &'static [Class],
    main: u16,
}

// ---- whether a part of a table is the wanted one

trait Shows<W> {
    fn shows(&self, want: &W) -> bool;
}

fn all_show<W, T: Shows<W>>(parts: &[T], want: &[W]) -> bool {
    for (part, row) in parts.iter().zip(want) {
        if !part.shows(row) {
            return false;
        }
    }
    parts.len() == want.len()
}

impl Shows<&'static str> for Name {
    fn shows(&self, want: &&'static str) -> bool {
        self.bytes() == want.as_bytes()
    }
}

impl Shows<Ty> for Ty {
    fn shows(&self, want: &Ty) -> bool {
        *self == *want
    }
}

impl Shows<Part> for Clause {
    fn shows(&self, want: &Part) -> bool {
        self.actor == want.0 && self.locks.as_slice() == want.1
    }
}

impl Shows<&'static [Part]> for Policy {
    fn shows(&self, want: &&'static [Part]) -> bool {
        all_show(self.clauses(), want)
    }
}

impl Shows<Ground> for GroundLock {
    fn shows(&self, want: &Ground) -> bool {
        self.name.shows(&want.0) && self.actors.as_slice() == want.1 && self.policy == want.2
    }
}

impl Shows<Field> for FieldInfo {
    fn shows(&self, want: &Field) -> bool {
        let (name, is_static, ty, policy, inferred) = want;
        let kind = self.is_static == *is_static && self.ty == *ty;
        self.name.shows(name) && kind && self.policy == *policy && self.inferred == *inferred
    }
}

impl Shows<Channel> for ChannelInfo {
    fn shows(&self, want: &Channel) -> bool {
        let (name, is_input, policy) = want;
        self.name.shows(name) && self.is_input == *is_input && self.policy == *policy
    }
}

impl Shows<Param> for ParamInfo {
    fn shows(&self, want: &Param) -> bool {
        let (ty, policy, notnull) = want;
        self.ty == *ty && self.policy == *policy && self.notnull == *notnull
    }
}

impl Shows<(u16, u16)> for ThrowInfo {
    fn shows(&self, want: &(u16, u16)) -> bool {
        self.class == want.0 && self.policy == want.1
    }
}

fn has_locks(info: &MethodInfo, want: &Method) -> bool {
    let [expects, opens, closes] = want.locks;
    info.expects.as_slice() == expects
        && info.opens.as_slice() == opens
        && info.closes.as_slice() == closes
}

fn has_locals(info: &MethodInfo, want: &Method) -> bool {
    all_show(info.params.as_slice(), want.params) && all_show(info.locals.as_slice(), want.locals)
}

impl Shows<Method> for MethodInfo {
    fn shows(&self, want: &Method) -> bool {
        let kind = self.is_static == want.is_static && self.result == want.result;
        let policies = self.policy == want.policies.0 && self.effect == want.policies.1;
        let body = self.nodes == want.nodes && has_locals(self, want);
        let marks = has_locks(self, want) && all_show(self.throws.as_slice(), want.throws);
        self.name.shows(&want.name) && kind && policies && body && marks
    }
}

impl Shows<Class> for ClassInfo {
    fn shows(&self, want: &Class) -> bool {
        let head = self.name.shows(&want.name) && self.exception == want.exception;
        let fields = all_show(self.fields.as_slice(), want.fields);
        let channels = all_show(self.channels.as_slice(), want.channels);
        let methods = all_show(self.methods.as_slice(), want.methods);
        head && self.birth == want.birth && fields && channels && methods
    }
}

fn is_table(table: &Table, want: &Wanted) -> bool {
    let actors = all_show(table.actors.as_slice(), want.actors);
    let locks = all_show(table.locks.as_slice(), want.locks);
    let policies = all_show(table.policies.as_slice(), want.policies);
    let classes = all_show(table.classes.as_slice(), want.classes);
    actors && locks && policies && classes && table.main == want.main
}

// ---- the auction

const ARITHMETIC: Class = Class {
    name: "ArithmeticException",
    exception: true,
    birth: 0,
    fields: &[],
    channels: &[],
    methods: &[],
};

const NULL_POINTER: Class = Class {
    name: "NullPointerException",
    exception: true,
    birth: 0,
    fields: &[],
    channels: &[],
    methods: &[],
};

const MAIN: Method = Method {
    name: "main",
    nodes: 14,
    is_static: true,
    result: Ty::Void,
    policies: (0, 0),
    params: &[],
    locals: &[Ty::Int, Ty::Int],
    locks: [&[], &[], &[]],
    throws: &[],
};

const LARGER: Method = Method {
    name: "larger",
    nodes: 10,
    is_static: true,
    result: Ty::Int,
    policies: (3, 4),
    params: &[(Ty::Int, 1, false), (Ty::Int, 2, false)],
    locals: &[Ty::Int, Ty::Int],
    locks: [&[], &[], &[]],
    throws: &[],
};

const AUCTION_CLASS: Class = Class {
    name: "Auction",
    exception: false,
    birth: 0,
    fields: &[("best", true, Ty::Int, 0, false)],
    channels: &[
        ("aliceBids", true, 1),
        ("bobBids", true, 2),
        ("announce", false, 0),
    ],
    methods: &[MAIN, LARGER],
};

const AUCTION_TABLE: Wanted = Wanted {
    actors: &["alice", "bob"],
    locks: &[("Done", &[], None)],
    policies: &[
        &[(0, &[]), (1, &[])],
        &[(0, &[]), (1, &[0])],
        &[(0, &[0]), (1, &[])],
        &[(0, &[0]), (1, &[0])],
        &[],
    ],
    classes: &[ARITHMETIC, NULL_POINTER, AUCTION_CLASS],
    main: 2,
};

// ---- the box

const LOST: Class = Class {
    name: "Lost",
    exception: true,
    birth: 0,
    fields: &[],
    channels: &[],
    methods: &[],
};

const TAKE: Method = Method {
    name: "take",
    nodes: 7,
    is_static: false,
    result: Ty::Int,
    policies: (0, 2),
    params: &[(Ty::Boolean, 0, false), (Ty::Class(3), 1, true)],
    locals: &[Ty::Class(3), Ty::Boolean, Ty::Class(3), Ty::Int],
    locks: [&[6], &[2], &[7]],
    throws: &[(2, 2)],
};

const BOX_MAIN: Method = Method {
    name: "main",
    nodes: 3,
    is_static: true,
    result: Ty::Void,
    policies: (0, 0),
    params: &[],
    locals: &[],
    locks: [&[], &[], &[]],
    throws: &[],
};

const BOX_CLASS: Class = Class {
    name: "Box",
    exception: false,
    birth: 1,
    fields: &[
        ("x", false, Ty::Int, 6, true),
        ("z", false, Ty::Class(3), 1, false),
        ("y", true, Ty::Int, 7, true),
    ],
    channels: &[],
    methods: &[TAKE, BOX_MAIN],
};

const PAIR_CLASS: Class = Class {
    name: "Pair",
    exception: false,
    birth: 5,
    fields: &[
        ("one", false, Ty::Int, 3, false),
        ("two", false, Ty::Int, 4, false),
    ],
    channels: &[],
    methods: &[],
};

// The lock of a family that is asked for has `top`, and so has a lock alone.
const BOX_TABLE: Wanted = Wanted {
    actors: &["a", "b"],
    locks: &[
        ("Key", &[0, 0], None),
        ("Key", &[0, 1], Some(2)),
        ("Key", &[1, 0], None),
        ("Key", &[1, 1], None),
        ("Shut", &[0], None),
        ("Shut", &[1], None),
        ("Sold", &[], Some(1)),
        ("Seen", &[], Some(2)),
    ],
    policies: &[
        &[(0, &[]), (1, &[])],
        &[(0, &[])],
        &[],
        &[(0, &[7])],
        &[(1, &[7])],
        &[(0, &[7]), (1, &[7])],
        &[(0, &[]), (1, &[])],
        &[(0, &[]), (1, &[])],
    ],
    classes: &[ARITHMETIC, NULL_POINTER, LOST, BOX_CLASS, PAIR_CLASS],
    main: 3,
};

fn has_table(alloc: Global, source: &[u8], want: &Wanted) -> Result<bool, Fail> {
    let table = table(alloc, source)?;
    let is_table = is_table(&table, want);
    drop(table);
    Ok(is_table)
}

fn auction_has_table(alloc: Global) -> Result<bool, Fail> {
    has_table(alloc, AUCTION, &AUCTION_TABLE)
}

fn box_has_table(alloc: Global) -> Result<bool, Fail> {
    has_table(alloc, BOX, &BOX_TABLE)
}

// A function of its own for each, since a proof pays for what a function names by the square of it.
#[test]
fn tables_of_programs(rt: HostRuntime) -> Result<(), Fail> {
    expect(auction_has_table(rt.alloc())?, "the table of the auction")?;
    expect(box_has_table(rt.alloc())?, "the table of the box")
}

// Whether these may learn that an object of the class is made.
fn is_born_for(table: &Table, class: u16, want: &'static [Part]) -> bool {
    let Some(info) = table.classes.get(usize::from(class)) else {
        return false;
    };
    if usize::from(info.birth) >= table.policies.len() {
        return false;
    }
    birth(table, class).shows(&want)
}

// A row's name, a class, and who may learn of its objects.
type Birth = (&'static str, u16, &'static [Part]);

// The classes of the box program: a policy that is written, one met of fields, and none.
const BIRTHS: &[Birth] = &[
    ("the birth of a box", 3, &[(0, &[])]),
    ("the birth of a pair", 4, &[(0, &[7]), (1, &[7])]),
    ("the birth of what is lost", 2, &[(0, &[]), (1, &[])]),
];

fn check_births(table: &Table, rows: &[Birth]) -> Result<(), Fail> {
    for (row, class, want) in rows {
        expect(is_born_for(table, *class, want), row)?;
    }
    Ok(())
}

#[test]
fn births_of_classes(rt: HostRuntime) -> Result<(), Fail> {
    let table = table(rt.alloc(), BOX)?;
    let checked = check_births(&table, BIRTHS);
    drop(table);
    checked
}

// A row's name, and a source with its first broken rule, the place, the limit and the count.
type Refused = (&'static str, &'static [u8], (u16, u32, u8, u32));

const REFUSED: &[Refused] = &[
    ("a main is wanted", NO_MAIN, (105, 0, 0, 0)),
    ("one actor is too many", ACTORS, (106, 54, 1, 17)),
];

fn has_error(made: &Result<Table, NameError>, refusal: Refusal) -> bool {
    match made {
        Ok(_) => false,
        Err(error) => *error == NameError::Broken(refusal),
    }
}

fn is_refused(alloc: Global, source: &[u8], refusal: Refusal) -> Result<bool, Fail> {
    let made = made(alloc, source)?;
    let has_error = has_error(&made, refusal);
    drop(made);
    Ok(has_error)
}

fn check_refused(alloc: Global, rows: &[Refused]) -> Result<(), Fail> {
    for (row, source, (rule, at, limit, count)) in rows {
        let refusal = Refusal {
            rule: *rule,
            at: *at,
            limit: *limit,
            count: *count,
        };
        expect(is_refused(alloc, source, refusal)?, row)?;
    }
    Ok(())
}

#[test]
fn programs_without_tables(rt: HostRuntime) -> Result<(), Fail> {
    check_refused(rt.alloc(), REFUSED)
}

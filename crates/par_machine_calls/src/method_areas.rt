use crate::linked::{SHOP, asked, linked};
use par_actions::{Callee, Class, Field, Fit, Gives, Target};
use par_method_area::MethodArea;
use par_values::inputs::Inputs;
use par_values::value::MVal;
use par_worked::expect;
use std::alloc::Global;
use std::test::Fail;

fn area_for(alloc: Global, inputs: &Inputs) -> Result<MethodArea, Fail> {
    let linked = linked(alloc, SHOP)?;
    Ok(MethodArea::of(alloc, linked, inputs)?)
}

fn area(alloc: Global) -> Result<MethodArea, Fail> {
    let inputs = asked(alloc)?;
    let area = area_for(alloc, &inputs);
    drop(inputs);
    area
}

// The length of the code of a method, its room, its locals, and what it gives.
type Told = (usize, u16, u16, Gives);

const CODES: &[(&str, u16, u16, Option<Told>)] = &[
    ("main", 0, 0, Some((15, 2, 1, Gives::Nothing))),
    ("next", 0, 1, Some((4, 2, 2, Gives::Number))),
    ("show has no code", 0, 4, None),
    ("there is no such method", 0, 6, None),
    ("there is no such class", 1, 0, None),
];

fn code_told(area: &MethodArea, class: u16, method: u16) -> Option<Told> {
    let code = area.code(class, method)?;
    Some((code.bytes.len(), code.room, code.locals, code.gives))
}

fn check_codes(area: &MethodArea) -> Result<(), Fail> {
    for (name, class, method, told) in CODES {
        expect(code_told(area, *class, *method) == *told, name)?;
    }
    Ok(())
}

#[test]
fn codes_are_told(rt: HostRuntime) -> Result<(), Fail> {
    let area = area(rt.alloc())?;
    let checked = check_codes(&area);
    drop(area);
    checked
}

// Where instructions of `main` start, and where none does.
const STARTS: &[(u32, bool)] = &[(0, true), (1, false), (3, true), (4, true), (15, false)];

fn starts_at(area: &MethodArea, at: u32) -> bool {
    match area.code(0, 0) {
        Some(code) => code.starts.has(at),
        None => false,
    }
}

fn check_starts(area: &MethodArea) -> Result<(), Fail> {
    for (at, starts) in STARTS {
        expect(starts_at(area, *at) == *starts, "a start of `main`")?;
    }
    Ok(())
}

#[test]
fn starts_are_told(rt: HostRuntime) -> Result<(), Fail> {
    let area = area(rt.alloc())?;
    let checked = check_starts(&area);
    drop(area);
    checked
}

fn check_numbers(area: &MethodArea) -> Result<(), Fail> {
    let number = area.number(0, 34) == Some(70000);
    expect(number && area.number(0, 2).is_none(), "a number alone")
}

#[test]
fn numbers_are_told(rt: HostRuntime) -> Result<(), Fail> {
    let area = area(rt.alloc())?;
    let checked = check_numbers(&area);
    drop(area);
    checked
}

// The owner of a field, the field, and whether it is that of a lock.
type ToldField = (Fit, Field, bool);

const FIELDS: &[(&str, u16, Option<ToldField>)] = &[
    (
        "a static field",
        19,
        Some((
            Fit::OfClass(0),
            Field {
                is_static: true,
                fit: Fit::Number,
                place: 0,
            },
            false,
        )),
    ),
    (
        "a field of objects",
        23,
        Some((
            Fit::OfClass(0),
            Field {
                is_static: false,
                fit: Fit::OfClass(0),
                place: 0,
            },
            false,
        )),
    ),
    (
        "that of lock 2, behind the one static field",
        43,
        Some((
            Fit::Nothing,
            Field {
                is_static: true,
                fit: Fit::Number,
                place: 3,
            },
            true,
        )),
    ),
    ("a method", 8, None),
];

fn field_told(area: &MethodArea, index: u16) -> Option<ToldField> {
    let named = area.field(0, index)?;
    Some((named.owner, named.field, named.is_lock))
}

fn check_fields(area: &MethodArea) -> Result<(), Fail> {
    for (name, index, field) in FIELDS {
        expect(field_told(area, *index) == *field, name)?;
    }
    Ok(())
}

#[test]
fn fields_are_told(rt: HostRuntime) -> Result<(), Fail> {
    let area = area(rt.alloc())?;
    let checked = check_fields(&area);
    drop(area);
    checked
}

// The number of a class, how many fields an object has, whether it is an exception, and whether one
// is made.
type ToldClass = (u16, usize, bool, bool);

const CLASSES: &[(&str, u16, Option<ToldClass>)] = &[
    ("a file", 2, Some((0, 1, false, true))),
    ("null that is met", 33, Some((2, 0, true, true))),
    ("all objects", 4, Some((0, 0, false, false))),
    ("a field", 19, None),
];

fn class_told(area: &MethodArea, index: u16) -> Option<ToldClass> {
    let class: Class = area.class(0, index)?;
    Some((
        class.number,
        class.first.len(),
        class.is_exception,
        class.is_made,
    ))
}

fn check_classes(area: &MethodArea) -> Result<(), Fail> {
    for (name, index, class) in CLASSES {
        expect(class_told(area, *index) == *class, name)?;
    }
    expect(
        area.exceptions() == [false, true, true].as_slice(),
        "the file, and two classes of exceptions",
    )
}

#[test]
fn classes_are_told(rt: HostRuntime) -> Result<(), Fail> {
    let area = area(rt.alloc())?;
    let checked = check_classes(&area);
    drop(area);
    checked
}

// Whether a method is static, how many arguments it takes, whether it gives a result, and what it
// does.
type ToldCallee = (bool, usize, bool, Target);

const CALLEES: &[(&str, u16, Option<ToldCallee>)] = &[
    (
        "next",
        8,
        Some((
            true,
            1,
            true,
            Target::Code {
                class: 0,
                method: 1,
                locals: 2,
                room: 2,
            },
        )),
    ),
    ("show", 27, Some((true, 1, false, Target::Output))),
    ("ask", 31, Some((true, 0, true, Target::Input(Some(0))))),
    (
        "the initializer of all objects",
        37,
        Some((false, 0, false, Target::Nothing)),
    ),
    ("a class", 2, None),
];

fn callee_told(area: &MethodArea, index: u16) -> Option<ToldCallee> {
    let callee: Callee = area.callee(0, index)?;
    Some((
        callee.is_static,
        callee.takes.len(),
        callee.gives,
        callee.target,
    ))
}

fn check_callees(area: &MethodArea) -> Result<(), Fail> {
    for (name, index, callee) in CALLEES {
        expect(callee_told(area, *index) == *callee, name)?;
    }
    Ok(())
}

#[test]
fn methods_are_told(rt: HostRuntime) -> Result<(), Fail> {
    let area = area(rt.alloc())?;
    let checked = check_callees(&area);
    drop(area);
    checked
}

fn check_names(area: &MethodArea) -> Result<(), Fail> {
    expect(area.class_name(0) == b"Shop".as_slice(), "the file")?;
    expect(
        area.class_name(2) == b"NullPointerException".as_slice(),
        "null that is met",
    )?;
    expect(area.method_name(0, 1) == b"next".as_slice(), "a method")?;
    let names = area.member(0, 27);
    expect(
        names.class == b"Shop".as_slice() && names.name == b"show".as_slice(),
        "a channel",
    )
}

#[test]
fn names_are_handed_out(rt: HostRuntime) -> Result<(), Fail> {
    let area = area(rt.alloc())?;
    let checked = check_names(&area);
    drop(area);
    checked
}

fn check_first(area: &MethodArea) -> Result<(), Fail> {
    let first = area.first_statics();
    expect(first.len() == 257, "one static field and 256 locks")?;
    expect(first[0] == MVal::Int(0), "0")?;
    expect(area.linked().files().len() == 1, "the file")
}

#[test]
fn first_values_are_told(rt: HostRuntime) -> Result<(), Fail> {
    let area = area(rt.alloc())?;
    let checked = check_first(&area);
    drop(area);
    checked
}

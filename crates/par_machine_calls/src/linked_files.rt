use crate::linked::linked;
use par_inputs::read_inputs;
use par_link::{Builtin, Declared, Linked, Named, inputs_fit};
use par_worked::expect;
use std::alloc::Global;
use std::test::Fail;

// A class `Shop` with a static `main` and an input channel `key`. Constant 2 names the class
// itself, 4 that of all objects, 11 the channel, and 13 the class of locks.
const SHOP: &[u8] = b"\
    \xca\xfe\xba\xbe\0\0\01\0\x0e\x01\0\x04Shop\x07\0\x01\x01\0\x10java/lang/Object\x07\0\x03\
    \x01\0\x04main\x01\0\x03()V\x01\0\x04Code\
    \x01\0\x03key\x01\0\x03()I\x0c\0\x08\0\x09\x0a\0\x02\0\x0a\
    \x01\0\x0dparagon/Locks\x07\0\x0c\
    \01\0\x02\0\x04\0\0\0\0\0\x02\
    \0\x09\0\x05\0\x06\0\x01\0\x07\0\0\0\x0d\0\x02\0\0\0\0\0\x01\xb1\0\0\0\0\
    \x01\x09\0\x08\0\x09\0\0\0\0";

// Whether the file at a place has so many methods, where there is one.
fn has_methods(linked: &Linked, place: u16, many: Option<usize>) -> bool {
    match linked.file(place) {
        Some(file) => many == Some(file.methods.len()),
        None => many.is_none(),
    }
}

fn check_files(linked: &Linked) -> Result<(), Fail> {
    expect(linked.files().len() == 1, "one file")?;
    expect(has_methods(linked, 0, Some(2)), "its methods")?;
    expect(has_methods(linked, 1, None), "no second file")
}

#[test]
fn files_are_kept_by_their_places(rt: HostRuntime) -> Result<(), Fail> {
    let linked = linked(rt.alloc(), SHOP)?;
    let checked = check_files(&linked);
    drop(linked);
    checked
}

const NAMES: &[(&str, u16, Named)] = &[
    ("index 0", 0, Named::Nothing),
    ("a text", 1, Named::Nothing),
    ("the class itself", 2, Named::Class(0)),
    ("all objects", 4, Named::Builtin(Builtin::Object)),
    (
        "the channel",
        11,
        Named::Method(Declared { class: 0, place: 1 }),
    ),
    ("locks", 13, Named::Builtin(Builtin::Locks)),
    ("an index behind the pool", 14, Named::Nothing),
];

fn check_names(linked: &Linked) -> Result<(), Fail> {
    for (name, index, named) in NAMES {
        expect(linked.named(0, *index) == *named, name)?;
    }
    Ok(())
}

#[test]
fn indices_name_places(rt: HostRuntime) -> Result<(), Fail> {
    let linked = linked(rt.alloc(), SHOP)?;
    let checked = check_names(&linked);
    drop(linked);
    checked
}

const LINES: &[(&[u8], Option<u32>)] = &[
    (b"", None),
    (b"Shop.key: 1\n", None),
    (b"Shop.main: 1\n", Some(0)),
    (b"Shop.key: 1\nBank.key: 2\n", Some(1)),
];

/// Whether this is the first line of an input file that does not fit, where none is wrong.
pub fn fits(alloc: Global, linked: &Linked, lines: &[u8], place: Option<u32>) -> bool {
    if lines.len() > 100 {
        return false;
    }
    match read_inputs(alloc, lines) {
        Ok(inputs) => {
            let fits = inputs_fit(linked, &inputs) == place;
            drop(inputs);
            fits
        }
        Err(_) => false,
    }
}

fn check_lines(alloc: Global, linked: &Linked) -> Result<(), Fail> {
    for (lines, place) in LINES {
        expect(fits(alloc, linked, lines, *place), "its first line")?;
    }
    Ok(())
}

#[test]
fn lines_of_no_input_channel_do_not_fit(rt: HostRuntime) -> Result<(), Fail> {
    let linked = linked(rt.alloc(), SHOP)?;
    let checked = check_lines(rt.alloc(), &linked);
    drop(linked);
    checked
}

//! The rules of one file.

ghost use Rattle.std.specs.Prelude.{◌≡◌};
ghost use Rattle.par_references.specs.Named.{names_of};
ghost use Rattle.par_link.specs.Rules.{absent, wrong_field, wrong_method, is_nothing};
ghost use Rattle.par_link.specs.Order.{at, member_fault, description_fault, constant_fault};
ghost use Rattle.par_link.specs.Order.{code_fault, file_fault};

use crate::rules::{CUT, ILL_DESCRIBED, NO_CLASS, NO_FIELD, NO_METHOD, TWICE, UNLISTED};
use crate::sort::Sort;
use crate::walk::{first_cut, first_unlisted};
use par_references::{Members, Named, Tables};
use par_single::described::is_field_right;
use par_single::par_class::file::ClassFile;

/// A rule that a file breaks: its number, and the index of what breaks it.
#[derive(Clone, Copy)]
pub(crate) struct Fault {
    pub(crate) number: u16,
    pub(crate) index: usize,
}

/// The rule of this number is broken at an index.
fn at(number: u16, index: Option<usize>) -> Option<Fault>
    ensures { result ≡ at number index }
{
    index.map(|index| Fault { number, index })
}

/// A field or a method that is there twice.
#[tactic(auto, unfolding(crate::specs::Order::member_fault))]
fn member_fault(members: &Members) -> Option<Fault>
    ensures { result ≡ member_fault members.now.file.now }
{
    at(TWICE, members.repeated_field()).or(at(TWICE, members.repeated_method()))
}

/// The place of the first field without the name or the descriptor that it needs.
fn wrong_field(file: &ClassFile) -> Option<usize>
    ensures { result ≡ wrong_field file.now }
{
    let entries = file.pool.entries.as_slice();
    file.fields
        .as_slice()
        .iter()
        .position(|field| !is_field_right(entries, field))
}

/// The place of the first method without the name or the descriptor that it needs.
fn wrong_method(members: &Members) -> Option<usize>
    ensures { result ≡ wrong_method members.now.file.now }
{
    members
        .file
        .methods
        .as_slice()
        .iter()
        .position(|method| !members.is_method_right(method))
}

/// A field or a method without the name or the descriptor that it needs.
#[tactic(auto, unfolding(crate::specs::Order::description_fault))]
fn description_fault(members: &Members) -> Option<Fault>
    ensures { result ≡ description_fault members.now.file.now }
{
    at(ILL_DESCRIBED, wrong_field(members.file)).or(at(ILL_DESCRIBED, wrong_method(members)))
}

/// Whether no class, field or method is named.
fn is_nothing(named: &Named) -> bool
    ensures { result ≡ is_nothing named.now }
{
    matches!(named, Named::Nothing)
}

/// The index of the first constant of a sort that names nothing.
fn absent(sort: Sort, tables: &Tables, file: &ClassFile, names: &[Named]) -> Option<usize>
    requires { names.now ≡ names_of tables.now.files.now file.now }
    ensures { result ≡ absent sort tables.now.files.now file.now }
{
    for (place, constant) in file.pool.entries.as_slice().iter().enumerate() {
        if sort.is_of(constant) && is_nothing(&names[place]) {
            return Some(place + 1);
        }
    }
    None
}

/// A class, a field or a method that is named and is not there.
#[tactic(auto, unfolding(crate::specs::Order::constant_fault))]
fn constant_fault(tables: &Tables, file: &ClassFile, names: &[Named]) -> Option<Fault>
    requires { names.now ≡ names_of tables.now.files.now file.now }
    ensures { result ≡ constant_fault tables.now.files.now file.now }
{
    at(NO_CLASS, absent(Sort::Class, tables, file, names))
        .or(at(NO_FIELD, absent(Sort::Field, tables, file, names)))
        .or(at(NO_METHOD, absent(Sort::Method, tables, file, names)))
}

/// Code whose walk stops before its end.
#[tactic(auto, unfolding(crate::specs::Order::code_fault))]
fn code_fault(file: &ClassFile) -> Option<Fault>
    ensures { result ≡ code_fault file.now }
{
    let methods = file.methods.as_slice();
    at(UNLISTED, first_unlisted(methods)).or(at(CUT, first_cut(methods)))
}

/// The first rule that a file breaks.
pub(crate) fn file_fault(tables: &Tables, members: &Members, names: &[Named]) -> Option<Fault>
    requires { names.now ≡ names_of tables.now.files.now members.now.file.now }
    ensures { result ≡ file_fault tables.now.files.now members.now.file.now }
{
    let file = members.file;
    member_fault(members)
        .or(description_fault(members))
        .or(constant_fault(tables, file, names))
        .or(code_fault(file))
}

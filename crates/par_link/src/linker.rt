//! Linking: each file is looked at by the rules, and what its constants name is kept.

ghost use Rattle.std.specs.Prelude.{◌≡◌, ◌<◌, ◌^◌, ℕ, List as Items, length, map, None, IfOk, OnOk};
ghost use Rattle.std.specs.Prelude.{IfErr, ◌≤◌};
ghost use Rattle.std.specs.List.{All};
ghost use Rattle.par_index.specs.par_base.Names.{IsName};
ghost use Rattle.par_single.specs.par_class.Spelling.{Spells};
ghost use Rattle.par_single.specs.Members.{own_name};
ghost use Rattle.par_references.specs.Conditions.{IsSmall};
ghost use Rattle.par_references.specs.Named.{names_of};
ghost use Rattle.par_link.specs.Order.{in_class, file_fault, first_in, first_broken};
ghost use Rattle.par_link.specs.Told.{Tells};

use crate::channels::Channels;
use crate::error::LinkError;
use crate::fault::file_fault;
use crate::linked::Linked;
use crate::rules::{TOO_MANY, TWICE};
use par_index::par_base::list::List;
use par_index::par_base::memory::NoMemory;
use par_references::{Members, Named, Tables};
use par_single::par_class::file::ClassFile;
use std::alloc::Global;

/// The most files that are linked.
const MOST_FILES: usize = 128;

/// What each constant of a file names.
fn names_of(alloc: Global, tables: &Tables, members: &Members) -> Result<List<Named>, NoMemory>
    requires { members.now.texts.files.now ≡ tables.now.files.now }
    ensures { IfOk result (λ names. names ≡ names_of tables.now.files.now members.now.file.now) }
{
    let mut names = List::new(alloc);
    for constant in members.file.pool.entries.as_slice() {
        names.push(tables.named_by(members, constant))?;
    }
    Ok(names)
}

/// What each constant of a file names, where the file breaks no rule.
fn linked_file(
    alloc: Global,
    tables: &Tables,
    class: usize,
    members: &Members,
) -> Result<List<Named>, LinkError>
    requires place { class < 2 ^ 16 }
    requires among { members.now.texts.files.now ≡ tables.now.files.now }
    ensures names { IfOk result
        (λ names. names ≡ names_of tables.now.files.now members.now.file.now) }
    ensures unbroken { OnOk result (file_fault tables.now.files.now members.now.file.now ≡ None) }
    ensures broken { IfErr result
        (Tells (in_class class (file_fault tables.now.files.now members.now.file.now))) }
{
    let names = names_of(alloc, tables, members)?;
    match file_fault(tables, members, names.as_slice()) {
        None => Ok(names),
        Some(fault) => Err(LinkError::Broken {
            number: fault.number,
            class: class as u16,
            index: fault.index as u32,
        }),
    }
}

/// What each constant of each file names, where none breaks a rule.
fn linked_files(alloc: Global, tables: &Tables) -> Result<List<List<Named>>, LinkError>
    ensures names { IfOk result
        (λ names. names ≡ map (names_of tables.now.files.now) tables.now.files.now) }
    ensures unbroken { OnOk result (first_in tables.now.files.now 0 tables.now.files.now ≡ None) }
    ensures broken { IfErr result
        (Tells (first_in tables.now.files.now 0 tables.now.files.now)) }
{
    let mut all = List::new(alloc);
    for (class, members) in tables.members.iter().enumerate() {
        all.push(linked_file(alloc, tables, class, members)?)?;
    }
    Ok(all)
}

/// What each constant of each file names, where no two files have one class and no file breaks a
/// rule.
fn linked_by(alloc: Global, tables: &Tables) -> Result<List<List<Named>>, LinkError>
    requires { length tables.now.files.now ≤ MOST_FILES }
    ensures names { IfOk result
        (λ names. names ≡ map (names_of tables.now.files.now) tables.now.files.now) }
    ensures unbroken { OnOk result (first_broken tables.now.files.now ≡ None) }
    ensures broken { IfErr result (Tells (first_broken tables.now.files.now)) }
{
    match tables.repeated_class() {
        None => linked_files(alloc, tables),
        Some(class) => Err(LinkError::Broken {
            number: TWICE,
            class,
            index: 0,
        }),
    }
}

/// What each constant of each file names, where neither the list nor a file breaks a rule.
fn linked_list(alloc: Global, files: &[ClassFile]) -> Result<List<List<Named>>, LinkError>
    requires few { length files.now < 2 ^ 16 }
    requires small { All IsSmall files.now }
    ensures names { IfOk result (λ names. names ≡ map (names_of files.now) files.now) }
    ensures unbroken { OnOk result (first_broken files.now ≡ None) }
    ensures broken { IfErr result (Tells (first_broken files.now)) }
{
    if files.len() > MOST_FILES {
        return Err(LinkError::Broken {
            number: TOO_MANY,
            class: (files.len() - 1) as u16,
            index: files.len() as u32,
        });
    }
    let tables = Tables::of(alloc, files)?;
    let names = linked_by(alloc, &tables);
    drop(tables);
    names
}

/// Links class files, in their order.
pub fn link(alloc: Global, files: List<ClassFile>) -> Result<Linked, LinkError>
    requires few { length files < 65536 }
    requires spelled { All (λ file. (bytes : Items ℕ) × Spells bytes file) files }
    requires named { All (λ file. IsName (own_name file)) files }
    ensures linked { IfOk result (λ linked. linked ≡ files) }
    // Files are linked exactly where they break no rule, unless memory runs out.
    ensures unbroken { OnOk result (first_broken files ≡ None) }
    // What is told is the first rule that they break.
    ensures broken { IfErr result (Tells (first_broken files)) }
{
    let names = linked_list(alloc, files.as_slice())?;
    let channels = Channels::of(alloc, files.as_slice())?;
    Ok(Linked {
        files,
        names,
        channels,
    })
}

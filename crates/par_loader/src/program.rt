//! All class files of a program.

ghost use Rattle.std.specs.Prelude.{◌≡◌, ◌≤◌, ◌<◌, Option, Some, None, IfOk, OnOk, IsTrue, length};
ghost use Rattle.std.specs.Prelude.{slice_get, map};
ghost use Rattle.std.specs.List.{All};
ghost use Rattle.par_io.specs.Causes.{NoneFalls};
ghost use Rattle.par_base.specs.Names.{IsName};
ghost use Rattle.par_single.specs.Members as members;
ghost use Rattle.par_single.specs.Members.{own_names};
ghost use Rattle.par_loader.specs.Reads.{Text, WasFound, IsSpelled};
ghost use Rattle.par_loader.specs.Mentions.{naming};
ghost use Rattle.par_loader.specs.Loaded.{step};
ghost use Rattle.par_link.specs.Order.{first_broken};
ghost use Rattle.par_loader.specs.Begun.{AreCoded, BeginsMain};
ghost use Rattle.par_loader.specs.Judged.{is_main, has_main, begins};
ghost use Rattle.par_loader.specs.Ends.{IsBadAs, AnswersFor, AnswersFirst, Steps, StepsFirst};
ghost use Rattle.par_loader.specs.Ends.{IsRead, Loads, Links, Judges, FaultsStand};

use crate::error::Unloaded;
use crate::file_names::class_file_name;
use crate::found::{Unfound, class_file};
use crate::mention::Mention;
use crate::read_files::{Loading, name_at};
use indexmap::IndexSet;
use par_base::list::List;
use par_base::name::{Name, text_of};
use par_class::{ClassFile, MethodFile};
use par_io::Folder;
use par_link::{LinkError, Linked, link};
use par_pool::constant::Constant;
use par_single::member::{is_method_of, is_static, own_name};
use std::alloc::Global;

/// The number of a class that is named and is not there.
const ABSENT_CLASS: u16 = 40;

/// The number of a method that is named and is not there, as of the one that a run begins with.
const ABSENT_METHOD: u16 = 42;

/// The most files that are read: one more than can be linked.
const MOST_READ: usize = 129;

/// What is told of a class file that is refused.
fn bad_class(alloc: Global, class: &[u8], number: u16, value: u32) -> Unloaded
    requires { IsName class.now }
    ensures { IsBadAs class.now number value result }
{
    match Name::new(alloc, class) {
        Ok(class) => Unloaded::BadClass {
            class,
            number,
            value,
        },
        Err(_) => Unloaded::Memory,
    }
}

/// What is told of a class that is named and has no file that is taken.
fn unloaded(alloc: Global, mention: Mention, unfound: Unfound) -> Unloaded
    requires class { IsName mention.class.now }
    requires name { IsName mention.name.now }
    ensures { AnswersFor (naming mention.entry) unfound result }
{
    let index = mention.index as u32;
    match unfound {
        Unfound::Absent => bad_class(alloc, mention.class, ABSENT_CLASS, index),
        Unfound::TooLong => Unloaded::TooLong,
        Unfound::Failed => Unloaded::Failed,
        Unfound::Another => bad_class(alloc, mention.class, ABSENT_CLASS, index),
        Unfound::Broken { number, value } => bad_class(alloc, mention.name, number, value),
        Unfound::Memory => Unloaded::Memory,
    }
}

/// The same of the class that is asked for, which no constant names.
fn first_unloaded(alloc: Global, main: &[u8], unfound: Unfound) -> Unloaded
    requires { IsName main.now }
    ensures { AnswersFirst main.now unfound result }
{
    match unfound {
        Unfound::Absent => Unloaded::Absent,
        _ => unloaded(alloc, Mention::first(main), unfound),
    }
}

/// The file of a class that is named.
fn named_file<F: Folder>(
    alloc: Global,
    folder: &mut F,
    mention: Mention,
) -> Result<ClassFile, Unloaded>
    requires { IsName mention.class.now }
    ensures kept { F.files folder.new ≡ F.files folder.old }
    ensures none_falls { NoneFalls (F.counts folder.old) (F.counts folder.new) }
    ensures faults_are_told { IsTrue F.counts_faults_alone →
        FaultsStand result (F.counts folder.old).faults (F.counts folder.new).faults }
    ensures step { (found : Option Text)
        × WasFound (F.files folder.old) mention.entry.name.now found
        × Steps (step (naming mention.entry) found)
        (F.counts folder.old) (F.counts folder.new) result }
    ensures read { IfOk result (IsRead (F.files folder.old)) }
    ensures own { IfOk result (λ file. members.own_name file ≡ mention.entry.name.now) }
    ensures named { IfOk result (λ file. IsName mention.entry.name.now) }
{
    if !Name::is_name(mention.name) {
        let index = mention.index as u32;
        return Err(bad_class(alloc, mention.class, ABSENT_CLASS, index));
    }
    let name = class_file_name(alloc, text_of(mention.name))?;
    match class_file(alloc, folder, mention.name, name.as_str()) {
        Ok(file) => Ok(file),
        Err(unfound) => Err(unloaded(alloc, mention, unfound)),
    }
}

/// The file of the class that is asked for.
pub fn main_file<F: Folder>(
    alloc: Global,
    folder: &mut F,
    main: &str,
) -> Result<ClassFile, Unloaded>
    requires { IsName main.now }
    ensures kept { F.files folder.new ≡ F.files folder.old }
    ensures none_falls { NoneFalls (F.counts folder.old) (F.counts folder.new) }
    ensures faults_are_told { IsTrue F.counts_faults_alone →
        FaultsStand result (F.counts folder.old).faults (F.counts folder.new).faults }
    ensures read { IfOk result (IsRead (F.files folder.old)) }
    ensures own { IfOk result (λ file. members.own_name file ≡ main.now) }
    ensures step { (found : Option Text) × WasFound (F.files folder.old) main.now found
        × StepsFirst main.now found (F.counts folder.old) (F.counts folder.new) result }
{
    let name = class_file_name(alloc, main)?;
    match class_file(alloc, folder, main.as_bytes(), name.as_str()) {
        Ok(file) => Ok(file),
        Err(unfound) => Err(first_unloaded(alloc, main.as_bytes(), unfound)),
    }
}

/// The file of the class that is asked for, with all that are loaded for it.
fn loading_of<F: Folder>(
    alloc: Global,
    folder: &mut F,
    file: ClassFile,
) -> Result<Loading, Unloaded>
    requires read { IsRead (F.files folder.now) file }
    requires named { IsName (members.own_name file) }
    ensures kept { F.files folder.new ≡ F.files folder.old }
    ensures none_falls { NoneFalls (F.counts folder.old) (F.counts folder.new) }
    ensures faults_are_told { IsTrue F.counts_faults_alone →
        FaultsStand result (F.counts folder.old).faults (F.counts folder.new).faults }
    ensures first { IfOk result (λ loading. slice_get loading.files 0 ≡ Some file) }
    ensures some { IfOk result (λ loading. 0 < length loading.files) }
    ensures few { IfOk result (λ loading. length loading.files ≤ MOST_READ) }
    ensures read { IfOk result (λ loading. All (IsRead (F.files folder.old)) loading.files) }
    ensures loads { Loads (F.files folder.old) (members.own_name file)
        (F.counts folder.old) (F.counts folder.new) result }
{
    let mut loading = Loading::of(alloc, file)?;
    for _ in 1..MOST_READ {
        let Some(mention) = loading.next() else {
            return Ok(loading);
        };
        let file = named_file(alloc, folder, mention)?;
        let done = mention.place;
        let read = usize::from(mention.index) - 1;
        loading = loading.with(alloc, file, done, read)?;
    }
    Ok(loading)
}

/// Whether a method is a static `main` of no arguments and no result.
fn is_main(entries: &[Constant], method: &MethodFile) -> bool
    ensures { result ≡ is_main entries.now method.now }
{
    is_static(method.access) && is_method_of(entries, b"main", b"()V", method)
}

/// Whether a file has a method that a run begins with.
fn has_main(file: &ClassFile) -> bool
    ensures { result ≡ has_main (Some file.now) }
{
    let entries = file.pool.entries.as_slice();
    file.methods
        .as_slice()
        .iter()
        .any(|method| is_main(entries, method))
}

/// Whether the first file has one.
fn begins(files: &[ClassFile]) -> bool
    ensures { result ≡ begins files.now }
{
    match files.get(0) {
        Some(file) => has_main(file),
        None => false,
    }
}

/// Links files whose classes have these names.
fn linked_files(
    alloc: Global,
    files: List<ClassFile>,
    names: &IndexSet<Vec<u8>>,
) -> Result<Linked, Unloaded>
    requires some { 0 < length files }
    requires few { length files ≤ MOST_READ }
    requires spelled { All IsSpelled files }
    requires names { map (λ name. name.items) names.now.keys ≡ own_names files }
    requires named { All (λ file. IsName (members.own_name file)) files }
    ensures links { Links files result }
    ensures files { IfOk result (λ linked. linked ≡ files) }
    ensures begun { IfOk result (λ linked. IsTrue (begins linked)) }
    ensures unbroken { OnOk result (first_broken files ≡ None) }
{
    match link(alloc, files) {
        Ok(linked) => {
            if begins(linked.files()) {
                return Ok(linked);
            }
            drop(linked);
            Err(bad_class(alloc, name_at(names, 0), ABSENT_METHOD, 0))
        }
        Err(
            LinkError::Broken {
                number,
                class,
                index,
            },
        ) => Err(bad_class(alloc, name_at(names, class), number, index)),
        Err(LinkError::Memory) => Err(Unloaded::Memory),
    }
}

/// Links files that were loaded.
fn linked(alloc: Global, loading: Loading) -> Result<Linked, Unloaded>
    requires some { 0 < length loading.files }
    requires few { length loading.files ≤ MOST_READ }
    requires spelled { All IsSpelled loading.files }
    ensures links { Links loading.files result }
    ensures files { IfOk result (λ linked. linked ≡ loading.files) }
    ensures begun { IfOk result (λ linked. IsTrue (begins linked)) }
    ensures unbroken { OnOk result (first_broken loading.files ≡ None) }
{
    let Loading { files, names, .. } = loading;
    let linked = linked_files(alloc, files, &names);
    drop(names);
    linked
}

/// The files of a program, which link and of which the first has a method that a run begins with:
/// that of the class that is asked for, and all that are loaded for it. Each is spelled by the
/// bytes that were read for its class.
pub fn linked_program<F: Folder>(
    alloc: Global,
    folder: &mut F,
    file: ClassFile,
) -> Result<Linked, Unloaded>
    requires read { IsRead (F.files folder.now) file }
    requires named { IsName (members.own_name file) }
    ensures kept { F.files folder.new ≡ F.files folder.old }
    ensures none_falls { NoneFalls (F.counts folder.old) (F.counts folder.new) }
    ensures faults_are_told { IsTrue F.counts_faults_alone →
        FaultsStand result (F.counts folder.old).faults (F.counts folder.new).faults }
    ensures judges { Judges (F.files folder.old) (members.own_name file)
        (F.counts folder.old) (F.counts folder.new) result }
    ensures first { IfOk result (λ linked. slice_get linked 0 ≡ Some file) }
    ensures begun { IfOk result (λ linked. IsTrue (begins linked)) }
    ensures read { IfOk result (λ linked. All (IsRead (F.files folder.old)) linked) }
    ensures coded { IfOk result (λ linked. AreCoded linked) }
    ensures main { IfOk result (λ linked. BeginsMain (members.own_name file) linked) }
{
    let loading = loading_of(alloc, folder, file)?;
    linked(alloc, loading)
}

//! The texts of the constant pools of some files. Each is looked up once, however many constants
//! and members share it.

ghost use Rattle.std.specs.Prelude.{◌≡◌, ◌<◌, ◌^◌, [], ◌++◌, map, length, Some, IfOk, OnOk};
ghost use Rattle.std.specs.Prelude.{is_some};
ghost use Rattle.std.specs.List.{All, flat_map};
ghost use Rattle.par_index.specs.Texts.{texts};
ghost use Rattle.par_single.specs.Descriptors.{method_signature};
ghost use Rattle.par_single.specs.Members.{text_of, text_at};
ghost use Rattle.par_references.specs.Conditions.{IsSmall};
ghost use Rattle.par_references.specs.Named.{class_named};
ghost use Rattle.par_references.specs.Placed.{ArePlaced, pool_texts, text_in, texts_in, all_texts};
ghost use Rattle.par_references.specs.Placed.{number_of, facts_of, key_of};

use crate::builtin::builtin;
use crate::classes::Classes;
use crate::entry::Named;
use crate::keys::Key;
use par_index::Firsts;
use par_index::par_base::list::List;
use par_index::par_base::memory::NoMemory;
use par_single::descriptor::method_gives;
use par_single::member::text_at;
use par_single::par_class::file::ClassFile;
use par_single::par_pool::constant::Constant;
use std::alloc::Global;

/// The texts of the constant pools of some files, each by the first place that has it, and the
/// classes of the files.
#[derive(Drop)]
pub(crate) struct TextIndex<'c, 'f> {
    pub(crate) classes: &'c Classes<'f>,
    count: usize,
    firsts: Firsts<&'f [u8]>,
    ghost many: { count ≡ length (all_texts classes.now.files.now) },
    ghost few: { count < 2 ^ 32 },
    ghost placed: { ArePlaced (all_texts classes.now.files.now) firsts },
}

/// What is known of a text.
#[derive(Clone, Copy)]
struct TextFacts {
    /// Equal texts have equal numbers.
    number: u32,
    /// The place of the file whose class has this name.
    class: Option<u16>,
    /// It is the descriptor of a method.
    is_method: bool,
}

/// What is known of the texts of the constant pool of one of some files, by their indices.
#[derive(Drop)]
pub struct Texts<'f> {
    pub files: &'f [ClassFile],
    entries: &'f [Constant],
    facts: List<TextFacts>,
    // What is known of the text without bytes.
    none: TextFacts,
    ghost known: { facts ≡ map (facts_of files.now) (pool_texts entries.now) },
    ghost empty: { none ≡ facts_of files.now [] },
}

/// The text of a constant, no bytes where it is none.
fn text_of(constant: &Constant) -> &[u8]
    ensures { result.now ≡ text_of (Some constant.now) }
{
    match constant {
        Constant::Utf8(text) => text.as_slice(),
        _ => &[],
    }
}

/// Puts the text that a constant is behind others, where it is one.
fn put_text<'f>(all: &mut Vec<&'f [u8]>, constant: &'f Constant) -> Result<(), NoMemory>
    ensures { OnOk result (texts all.new.items ≡ texts all.old.items ++ text_in constant.now) }
{
    match constant {
        Constant::Utf8(text) => Ok(all.push(text.as_slice())?),
        _ => Ok(()),
    }
}

/// Puts the texts of a constant pool behind others.
fn put_texts<'f>(all: &mut Vec<&'f [u8]>, entries: &'f [Constant]) -> Result<(), NoMemory>
    ensures { OnOk result (texts all.new.items ≡ texts all.old.items ++ texts_in entries.now) }
{
    for constant in entries {
        put_text(all, constant)?;
    }
    Ok(())
}

/// Puts the texts of the constant pools of some files behind others, one pool behind the other.
fn put_all_texts<'f>(all: &mut Vec<&'f [u8]>, files: &'f [ClassFile]) -> Result<(), NoMemory>
    ensures { OnOk result (texts all.new.items
        ≡ texts all.old.items ++ flat_map (λ file. texts_in file.pool.entries) files.now) }
{
    for file in files {
        put_texts(all, file.pool.entries.as_slice())?;
    }
    Ok(())
}

/// The text without bytes, and those of the constant pools of some files.
fn all_texts(alloc: Global, files: &[ClassFile]) -> Result<Vec<&[u8]>, NoMemory>
    ensures { IfOk result (λ all. texts all.items ≡ all_texts files.now) }
{
    let mut all = Vec::new(alloc);
    all.push([].as_slice())?;
    put_all_texts(&mut all, files)?;
    Ok(all)
}

impl<'c, 'f> TextIndex<'c, 'f> {
    /// The texts of the files that have these classes.
    pub(crate) fn of(alloc: Global, classes: &'c Classes<'f>) -> Result<TextIndex<'c, 'f>, NoMemory>
        requires few { length classes.now.files.now < 2 ^ 16 }
        requires small { All IsSmall classes.now.files.now }
        ensures { IfOk result
            (λ index. index.classes.now.files.now ≡ classes.entry.now.files.now) }
    {
        let texts = all_texts(alloc, classes.files)?;
        let firsts = Firsts::of(alloc, texts.as_slice())?;
        Ok(TextIndex {
            classes,
            count: texts.len(),
            firsts,
        })
    }

    /// The number of a text.
    fn number(&self, text: &[u8]) -> u32
        ensures { result ≡ number_of (all_texts self.now.classes.now.files.now) text.now }
    {
        self.firsts.place(&text).unwrap_or(self.count) as u32
    }

    /// What is known of a text.
    fn facts_of(&self, text: &[u8]) -> TextFacts
        ensures { result ≡ facts_of self.now.classes.now.files.now text.now }
    {
        TextFacts {
            number: self.number(text),
            class: self.classes.place(text),
            is_method: method_gives(text).is_some(),
        }
    }

    /// What is known of the text of each index of a constant pool.
    fn all_facts(&self, alloc: Global, entries: &[Constant]) -> Result<List<TextFacts>, NoMemory>
        ensures { IfOk result
            (λ all. all ≡ map (facts_of self.now.classes.now.files.now) (pool_texts entries.now)) }
    {
        let mut all = List::new(alloc);
        all.push(self.facts_of(&[]))?;
        for constant in entries {
            all.push(self.facts_of(text_of(constant)))?;
        }
        Ok(all)
    }
}

impl<'f> Texts<'f> {
    /// What is known of the texts of a constant pool.
    pub(crate) fn of(
        alloc: Global,
        index: &TextIndex<'_, 'f>,
        entries: &'f [Constant],
    ) -> Result<Texts<'f>, NoMemory>
        ensures files { IfOk result (λ texts. texts.files.now ≡ index.now.classes.now.files.now) }
        ensures entries { IfOk result (λ texts. texts.entries.now ≡ entries.entry.now) }
    {
        let facts = index.all_facts(alloc, entries)?;
        Ok(Texts {
            files: index.classes.files,
            entries,
            facts,
            none: index.facts_of(&[]),
        })
    }

    /// What is known of the text of an index.
    fn facts(&self, index: u16) -> TextFacts
        ensures { result ≡ facts_of self.now.files.now (text_at self.now.entries.now index) }
    {
        match self.facts.get(index as usize) {
            Some(facts) => *facts,
            None => self.none,
        }
    }

    /// Whether the text of an index is the descriptor of a method.
    pub(crate) fn is_method(&self, index: u16) -> bool
        ensures { result ≡ is_some (method_signature (text_at self.now.entries.now index)) }
    {
        self.facts(index).is_method
    }

    /// The class whose name the text of an index is.
    pub(crate) fn class(&self, index: u16) -> Named
        ensures { result ≡ class_named self.now.files.now (text_at self.now.entries.now index) }
    {
        if let Some(class) = builtin(text_at(self.entries, index)) {
            return Named::Builtin(class);
        }
        match self.facts(index).class {
            Some(place) => Named::Class(place),
            None => Named::Nothing,
        }
    }

    /// The key of a member whose name and descriptor have these indices.
    pub(crate) fn key(&self, name: u16, descriptor: u16) -> Key
        ensures { result ≡ key_of self.now.files.now
            (record {
              class = [];
              name = text_at self.now.entries.now name;
              descriptor = text_at self.now.entries.now descriptor;
            }) }
    {
        Key {
            name: self.facts(name).number,
            descriptor: self.facts(descriptor).number,
        }
    }
}

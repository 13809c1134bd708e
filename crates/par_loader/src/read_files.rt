//! The class files that were read so far.

ghost use Rattle.std.specs.Prelude.{◌≡◌, ◌≤◌, ◌<◌, ◌-◌, ◌∷◌, [], ◌++◌, Some, None, false, IfOk};
ghost use Rattle.std.specs.Prelude.{IfSome, OnOk};
ghost use Rattle.std.specs.Prelude.{length, map, position, take, slice_get};
ghost use Rattle.std.specs.List.{All};
ghost use Rattle.std.specs.Option.{option_map, unwrap_or};
ghost use Rattle.std.specs.List.{list_any};
ghost use Rattle.std.specs.Str.{bytes_eq};
ghost use Rattle.par_base.specs.Names.{IsName};
ghost use Rattle.par_single.specs.Members.{own_names};
ghost use Rattle.par_single.specs.Members as members;
ghost use Rattle.par_loader.specs.Reads.{IsSpelled};
ghost use Rattle.par_loader.specs.Mentions.{naming, is_unread, names_unread, first_of, first_among};
ghost use Rattle.par_loader.specs.Mentions.{next_named, AreRead, AreReadAt};

use crate::builtin::is_built_in;
use crate::mention::Mention;
use indexmap::IndexSet;
use par_base::list::List;
use par_base::memory::NoMemory;
use par_class::ClassFile;
use par_pool::constant::Constant;
use par_single::member::{class_name_at, own_name, text_at};
use std::alloc::Global;

/// Class files in the order in which they were read, with the names of their classes.
#[derive(Drop)]
pub(crate) struct Loading {
    pub(crate) files: List<ClassFile>,
    pub(crate) names: IndexSet<Vec<u8>>,
    // So many of the files, from the first on, name no class that is still to be read.
    done: usize,
    // Nor do so many constants of the file behind them.
    read: usize,
    ghost names_are: { map (λ name. name.items) names.keys ≡ own_names files },
    ghost are_done: { first_among files (take done files) ≡ None },
    ghost are_read: { AreReadAt files done read },
    ghost within: { done ≤ length files },
    ghost named: { All (λ file. IsName (members.own_name file)) files },
}

/// Puts a name behind others, where it is none of them.
fn put_name(alloc: Global, names: &mut IndexSet<Vec<u8>>, name: &[u8]) -> Result<(), NoMemory>
    ensures { OnOk result
        (list_any (λ k. bytes_eq name.now k.items) names.old.keys ≡ false
        → map (λ k. k.items) names.new.keys
        ≡ map (λ k. k.items) names.old.keys ++ name.now ∷ []) }
{
    let name = name.to_vec(alloc)?;
    names.insert(name)?;
    Ok(())
}

impl Loading {
    /// One file that was read.
    pub(crate) fn of(alloc: Global, file: ClassFile) -> Result<Loading, NoMemory>
        requires { IsName (members.own_name file) }
        ensures { IfOk result (λ loading. loading.files ≡ file ∷ []) }
    {
        let mut names = IndexSet::new(alloc);
        match put_name(alloc, &mut names, own_name(&file)) {
            Ok(()) => Loading::first(alloc, file, names),
            Err(error) => {
                drop(names);
                drop(file);
                Err(error)
            }
        }
    }

    /// One file that was read, with the name of its class.
    fn first(alloc: Global, file: ClassFile, names: IndexSet<Vec<u8>>) -> Result<Loading, NoMemory>
        requires named { IsName (members.own_name file) }
        requires names { map (λ name. name.items) names.keys ≡ members.own_name file ∷ [] }
        ensures { IfOk result (λ loading. loading.files ≡ file ∷ []) }
    {
        let mut files = List::new(alloc);
        files.push(file)?;
        Ok(Loading {
            files,
            names,
            done: 0,
            read: 0,
        })
    }

    /// Whether a class is still to be read.
    fn is_unread(&self, name: &[u8]) -> bool
        ensures { result ≡ is_unread self.now.files name.now }
    {
        !is_built_in(name) && !self.names.contains(name)
    }

    /// Whether a constant names a class that is still to be read.
    #[tactic(auto, unfolding(crate::specs::Mentions::names_unread))]
    fn names_unread(&self, entries: &[Constant], constant: &Constant) -> bool
        ensures { result ≡ names_unread self.now.files entries.now constant.now }
    {
        match constant {
            Constant::Class(name) => self.is_unread(text_at(entries, *name)),
            _ => false,
        }
    }

    /// So many constants of the file at a place, from the first on, name no class that is still
    /// to be read.
    fn read_at(&self, place: usize) -> usize
        ensures { AreReadAt self.now.files place result }
    {
        if place == self.done { self.read } else { 0 }
    }

    /// The place among some constants of a pool of the first that names a class that is still to
    /// be read.
    fn place_among(&self, entries: &[Constant], some: &[Constant]) -> Option<usize>
        ensures { result ≡ position (names_unread self.now.files entries.now) some.now }
    {
        some.iter()
            .position(|constant| self.names_unread(entries, constant))
    }

    /// The place of the first constant of a pool that names a class that is still to be read,
    /// where so many from the first on name none.
    fn place_in(&self, entries: &[Constant], read: usize) -> Option<usize>
        requires { AreRead self.now.files entries.now read }
        ensures { result ≡ position (names_unread self.now.files entries.now) entries.now }
    {
        match self.place_among(entries, &entries[read..]) {
            Some(behind) => Some(read + behind),
            None => None,
        }
    }

    /// The first constant of the file at a place that names a class that is still to be read.
    fn first_of<'f>(&self, place: usize, file: &'f ClassFile) -> Option<Mention<'f>>
        requires there { slice_get self.now.files place ≡ Some file.now }
        requires spelled { IsSpelled file.now }
        requires named { IsName (members.own_name file.now) }
        ensures first { option_map naming result ≡ first_of self.now.files file.now }
        ensures placed { IfSome result (λ mention. mention.place ≡ place) }
        ensures counted { IfSome result (λ mention. 1 ≤ mention.index) }
        ensures read { IfSome result (λ mention.
            AreRead self.now.files file.now.pool.entries (mention.index - 1)) }
        ensures named { IfSome result (λ mention. IsName mention.class.now) }
    {
        let entries = file.pool.entries.as_slice();
        match self.place_in(entries, self.read_at(place)) {
            Some(first) => {
                let index = (first + 1) as u16;
                Some(Mention {
                    place,
                    class: own_name(file),
                    index,
                    name: class_name_at(entries, index),
                })
            }
            None => None,
        }
    }

    /// The first constant of the files, in their order, that names a class that is still to be
    /// read.
    pub(crate) fn next(&self) -> Option<Mention>
        requires { All IsSpelled self.now.files }
        ensures first { option_map naming result ≡ next_named self.now.files }
        ensures before { IfSome result (λ mention.
            first_among self.now.files (take mention.place self.now.files) ≡ None) }
        ensures counted { IfSome result (λ mention. 1 ≤ mention.index) }
        ensures read { IfSome result (λ mention.
            AreReadAt self.now.files mention.place (mention.index - 1)) }
        ensures within { IfSome result (λ mention. mention.place < length self.now.files) }
        ensures named { IfSome result (λ mention. IsName mention.class.now) }
    {
        let files = self.files.as_slice();
        for place in self.done..files.len() {
            if let Some(mention) = self.first_of(place, &files[place]) {
                return Some(mention);
            }
        }
        None
    }

    /// The files with one more that was read, where so many of those before it name no class that
    /// is still to be read, nor do so many constants of the next one.
    pub(crate) fn with(
        self,
        alloc: Global,
        file: ClassFile,
        done: usize,
        read: usize,
    ) -> Result<Loading, NoMemory>
        requires named { IsName (members.own_name file) }
        requires unread { list_any (bytes_eq (members.own_name file)) (own_names self.files)
            ≡ false }
        requires done { first_among self.files (take done self.files) ≡ None }
        requires read { AreReadAt self.files done read }
        requires within { done < length self.files }
        ensures { IfOk result (λ loading. loading.files ≡ self.files ++ file ∷ []) }
    {
        let Loading {
            files,
            mut names,
            ..
        } = self;
        match put_name(alloc, &mut names, own_name(&file)) {
            Ok(()) => Loading::behind(files, names, file, done, read),
            Err(error) => {
                drop(names);
                drop(files);
                drop(file);
                Err(error)
            }
        }
    }

    /// Files and one more that was read, with the names of their classes.
    fn behind(
        mut files: List<ClassFile>,
        names: IndexSet<Vec<u8>>,
        file: ClassFile,
        done: usize,
        read: usize,
    ) -> Result<Loading, NoMemory>
        requires named { IsName (members.own_name file) }
        requires each_named { All (λ file. IsName (members.own_name file)) files }
        requires names { map (λ name. name.items) names.keys
            ≡ own_names files ++ members.own_name file ∷ [] }
        requires done { first_among files (take done files) ≡ None }
        requires read { AreReadAt files done read }
        requires within { done < length files }
        ensures { IfOk result (λ loading. loading.files ≡ files ++ file ∷ []) }
    {
        files.push(file)?;
        Ok(Loading {
            files,
            names,
            done,
            read,
        })
    }
}

/// The name of the class of the file at a place, no bytes where there is none.
pub(crate) fn name_at(names: &IndexSet<Vec<u8>>, place: u16) -> &[u8]
    ensures { result.now ≡
        unwrap_or (slice_get (map (λ name. name.items) names.now.keys) place) [] }
{
    match names.get_index(place as usize) {
        Some(name) => name.as_slice(),
        None => &[],
    }
}

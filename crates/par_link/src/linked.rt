ghost use Rattle.std.specs.Prelude.{◌≡◌, ◌≤◌, ◌↔◌, List as Items, length, slice_get, IsNone};
ghost use Rattle.std.specs.Option.{option_copied};
ghost use Rattle.par_link.specs.Inputs.{has_input};
ghost use Rattle.par_link.specs.Linked.{AreLinked, name_at, named_at};

use crate::channels::Channels;
use par_index::par_base::list::List;
use par_references::Named;
use par_single::par_class::file::ClassFile;
use std::marker::Model;

/// Class files that break no rule of linking, in their order. Contracts see them as the list of
/// the files.
pub struct Linked {
    pub(crate) files: List<ClassFile>,
    pub(crate) names: List<List<Named>>,
    pub(crate) channels: Channels,
}

impl Drop for Linked {
    // In one place, for all that own one.
    fn drop(self) {
        let Linked {
            files: _,
            names: _,
            channels: _,
        } = self;
    }
}

impl Model for Linked {
    ghost use Rattle.std.specs.Prelude.{List as Items};
    ghost use Rattle.par_single.specs.par_class.declared.file.ClassFile.{ClassFile as File};
    ghost use Rattle.par_link.specs.Linked.{IsLinked};

    ghost Value = { Items File };

    ghost view = { λ linked. linked.files };

    ghost invariant = { λ linked.
        IsLinked linked.files linked.names linked.channels.buckets.items };
}

impl Linked {
    /// The file at this place of the list.
    pub fn file(&self, class: u16) -> Option<&ClassFile>
        ensures item { option_copied result ≡ slice_get self.now class }
        ensures none { IsNone result ↔ (length self.now ≤ class) }
    {
        self.files.get(class as usize)
    }

    /// How many files there are.
    pub fn count(&self) -> u16
        ensures many { result ≡ length self.now }
        ensures linked { AreLinked self.now }
    {
        self.files.len() as u16
    }

    /// All files, in their order.
    pub fn files(&self) -> &[ClassFile]
        ensures { result.now ≡ self.now }
    {
        self.files.as_slice()
    }

    /// What an index of the constant pool of a file names.
    pub fn named(&self, class: u16, index: u16) -> Named
        ensures { result ≡ named_at self.now class index }
    {
        match self.names.get(class as usize) {
            Some(names) => name_at(names, index),
            None => Named::Nothing,
        }
    }

    /// Whether one of the files has an input channel of this class and name.
    pub(crate) fn has_input(&self, class: &[u8], channel: &[u8]) -> bool
        ensures { result ≡ has_input self.now class.now channel.now }
    {
        self.channels.has(self.files.as_slice(), class, channel)
    }
}

/// The name of an index of a constant pool whose constants name these.
fn name_at(names: &List<Named>, index: u16) -> Named
    ensures { result ≡ name_at names.now index }
{
    match index.checked_sub(1) {
        Some(place) => names.get(place as usize).copied().unwrap_or(Named::Nothing),
        None => Named::Nothing,
    }
}

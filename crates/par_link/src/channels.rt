//! The input channels of some files, as they are looked up by the names of their classes and of
//! themselves.

ghost use Rattle.std.specs.Prelude.{◌≡◌, ◌<◌, ◌≤◌, ◌^◌, ◌%◌, ◌++◌, ◌∷◌, ℕ, [], length, slice_get};
ghost use Rattle.std.specs.Prelude.{Some, IfOk, OnOk, IsTrue};
ghost use Rattle.std.specs.List.{All, Contains, list_any};
ghost use Rattle.par_single.specs.par_class.declared.file.MethodFile.{MethodFile};
ghost use Rattle.par_single.specs.Members.{text_at, own_name};
ghost use Rattle.par_link.specs.Channels.{is_channel_in, is_channel, hash_of, bucket_at, bucket_of};
ghost use Rattle.par_link.specs.Channels.{Keeps, AreIn, AreSpread};
ghost use Rattle.par_references.specs.Conditions.{IsSmall};
ghost use Rattle.par_link.specs.Inputs.{is_input, is_input_of, has_input};

use par_index::par_base::list::List;
use par_index::par_base::memory::NoMemory;
use par_references::Declared;
use par_single::member::{is_static, own_name, text_at};
use par_single::par_class::file::{ClassFile, MethodFile};
use par_single::par_class::is_native;
use par_single::par_pool::constant::Constant;
use std::alloc::Global;
use std::hash::{FoldHasher, Hasher};

/// The most buckets that places are spread over.
const MOST_BUCKETS: usize = 65_536;

/// The places of input channels, in buckets by what their names are hashed to. No name is kept.
#[derive(Drop)]
pub(crate) struct Channels {
    buckets: Vec<List<Declared>>,
    ghost some: { 0 < length buckets.items },
}

/// What the names of a class and of a channel are hashed to.
fn hash_of(class: &[u8], channel: &[u8]) -> u64
    ensures { result ≡ hash_of class.now channel.now }
{
    let mut hasher = FoldHasher::default();
    hasher.write(class);
    hasher.write(channel);
    hasher.finish()
}

/// As many buckets as the files have methods, but some and not too many.
fn bucket_count(files: &[ClassFile]) -> usize
    ensures some { 0 < result }
    ensures few { result ≤ 65536 }
{
    let mut count: usize = 1;
    for file in files {
        count = count.saturating_add(file.methods.len()).min(MOST_BUCKETS);
    }
    count
}

/// Whether a method is a static native one that takes nothing and gives an int.
fn is_input(entries: &[Constant], method: &MethodFile) -> bool
    ensures { result ≡ is_input entries.now method.now }
{
    is_native(method.access)
        && is_static(method.access)
        && text_at(entries, method.descriptor) == b"()I".as_slice()
}

/// Whether a method is an input channel of this name.
fn is_input_of(entries: &[Constant], name: &[u8], method: &MethodFile) -> bool
    ensures { result ≡ is_input_of entries.now name.now method.now }
{
    is_input(entries, method) && text_at(entries, method.name) == name
}

/// Whether the method at a place of a file is an input channel of this class and name.
fn is_channel_in(class: &[u8], channel: &[u8], place: u16, file: &ClassFile) -> bool
    ensures { result ≡ is_channel_in class.now channel.now place file.now }
{
    let entries = file.pool.entries.as_slice();
    match file.methods.get(place as usize) {
        Some(method) => own_name(file) == class && is_input_of(entries, channel, method),
        None => false,
    }
}

/// Whether this is the place of an input channel of this class and name.
fn is_channel(files: &[ClassFile], class: &[u8], channel: &[u8], declared: &Declared) -> bool
    ensures { result ≡ is_channel files.now class.now channel.now declared.now }
{
    match files.get(declared.class as usize) {
        Some(file) => is_channel_in(class, channel, declared.place, file),
        None => false,
    }
}

/// Whether one of these is the place of an input channel of this class and name.
fn has_channel(files: &[ClassFile], class: &[u8], channel: &[u8], places: &[Declared]) -> bool
    ensures { result ≡ list_any (is_channel files.now class.now channel.now) places.now }
{
    places
        .iter()
        .any(|declared| is_channel(files, class, channel, declared))
}

impl Channels {
    /// So many buckets without a place.
    fn new(alloc: Global, count: usize) -> Result<Channels, NoMemory>
        requires { 0 < count }
        ensures { IfOk result (λ channels. length channels.buckets.items ≡ count) }
    {
        let mut buckets = Vec::new(alloc);
        for _ in 0..count {
            buckets.push(List::new(alloc))?;
        }
        Ok(Channels { buckets })
    }

    /// The place of the bucket of these names.
    fn bucket_place(&self, class: &[u8], channel: &[u8]) -> usize
        ensures place { result ≡ hash_of class.now channel.now % length self.now.buckets.items }
        ensures within { result < length self.now.buckets.items }
    {
        (hash_of(class, channel) % self.buckets.len() as u64) as usize
    }

    /// The bucket of these names.
    fn bucket(&self, class: &[u8], channel: &[u8]) -> &[Declared]
        ensures { result.now ≡ bucket_of self.now.buckets.items class.now channel.now }
    {
        self.buckets[self.bucket_place(class, channel)].as_slice()
    }

    /// Puts a place into a bucket.
    fn put(&mut self, bucket: usize, declared: Declared) -> Result<(), NoMemory>
        requires { bucket < length self.old.buckets.items }
        ensures keeps { OnOk result (Keeps self.old.buckets.items self.new.buckets.items) }
        ensures added { OnOk result (Contains (bucket_at self.new.buckets.items bucket) declared) }
    {
        self.buckets[bucket].push(declared)
    }

    /// Puts the place of a method into the bucket of its names, where it is an input channel.
    fn add(
        &mut self,
        class: u16,
        place: u16,
        file: &ClassFile,
        method: &MethodFile,
    ) -> Result<(), NoMemory>
        ensures keeps { OnOk result (Keeps self.old.buckets.items self.new.buckets.items) }
        ensures added { OnOk result (IsTrue (is_input file.now.pool.entries method.now) →
            Contains (bucket_of self.new.buckets.items (own_name file.now)
            (text_at file.now.pool.entries method.now.name))
            (record { class = class; place = place })) }
    {
        let entries = file.pool.entries.as_slice();
        if !is_input(entries, method) {
            return Ok(());
        }
        let bucket = self.bucket_place(own_name(file), text_at(entries, method.name));
        self.put(bucket, Declared { class, place })
    }

    /// Puts the places of the input channels of a file into their buckets.
    fn add_all(&mut self, class: u16, file: &ClassFile) -> Result<(), NoMemory>
        requires { IsSmall file.now }
        ensures keeps { OnOk result (Keeps self.old.buckets.items self.new.buckets.items) }
        ensures added { OnOk result
            (AreIn self.new.buckets.items class file.now (length file.now.methods)) }
    {
        for (place, method) in file.methods.as_slice().iter().enumerate() {
            self.add(class, place as u16, file, method)?;
        }
        Ok(())
    }

    /// The input channels of some files.
    pub(crate) fn of(alloc: Global, files: &[ClassFile]) -> Result<Channels, NoMemory>
        requires few { length files.now < 2 ^ 16 }
        requires small { All IsSmall files.now }
        ensures { IfOk result (λ channels. AreSpread files.now channels.buckets.items) }
    {
        let mut channels = Channels::new(alloc, bucket_count(files))?;
        for (class, file) in files.iter().enumerate() {
            channels.add_all(class as u16, file)?;
        }
        Ok(channels)
    }

    /// Whether one of the files has an input channel of this class and name.
    #[tactic(auto, using(crate::proofs::Spread::bucket_has))]
    pub(crate) fn has(&self, files: &[ClassFile], class: &[u8], channel: &[u8]) -> bool
        requires { AreSpread files.now self.now.buckets.items }
        ensures { result ≡ has_input files.now class.now channel.now }
    {
        has_channel(files, class, channel, self.bucket(class, channel))
    }
}

ghost use Rattle.std.specs.Prelude.{◌≡◌, ◌≢◌, ℕ, ◌+◌, ◌<◌, [], length, slice_get, Some, IfOk};
ghost use Rattle.std.specs.Prelude.{IfSome, IfNone, IsTrue};
ghost use Rattle.std.specs.Int.{w32};
ghost use Rattle.par_pool.specs.declared.constant.Constant.TheVariants.{Utf8, Integer, Class};
ghost use Rattle.par_pool.specs.declared.constant.Constant.TheVariants.{Field, Method, NameType};
ghost use Rattle.par_pool.specs.Entries.{IsAt, IsUtf8At, IsClassAt, IsNameTypeAt, IsFieldAt};
ghost use Rattle.par_pool.specs.Entries.{IsMethodAt, IsDistinct};
ghost use Rattle.par_pool.specs.Growth.{Adds, IsClassPart, IsNameTypePart, IsNamingPart};
ghost use Rattle.par_pool.specs.Growth.{IsMemberPart};
ghost use Rattle.par_pool.specs.Spelling.{constant as spelling, IsText, Fits, refers, IsPool};

use crate::constant::{Constant, Pool};
use crate::writer::put_constant;
use par_base::list::List;
use par_base::memory::NoMemory;
use std::alloc::Global;
use std::collections::HashMap;
use std::marker::Model;

/// A constant pool in the making. Contracts see the entries that it has by now, of which no two
/// are the same.
///
/// Each call that adds an entry wants room for six more below the index 65535, which is as many as
/// the entry of a member can need with all its parts. After want of memory the entries that were
/// there keep their indices, and some parts of the wanted one may stand behind them.
#[derive(Drop)]
pub struct PoolBuilder {
    alloc: Global,
    entries: List<Constant>,
    // The place of each entry, by the bytes that spell it.
    places: HashMap<Vec<u8>, usize>,
}

impl Model for PoolBuilder {
    ghost use Rattle.std.specs.Prelude.{List as Items};
    ghost use Rattle.par_pool.specs.declared.constant.Constant.{Constant as Entry};
    ghost use Rattle.par_pool.specs.Placed.{IsIndexed};

    ghost Value = { Items Entry };

    ghost view = { λ builder. builder.entries };

    ghost invariant = { λ builder. IsIndexed builder.entries builder.places };
}

/// The bytes that spell a constant.
fn spelling_of(alloc: Global, constant: &Constant) -> Result<Vec<u8>, NoMemory>
    requires { Fits constant.now }
    ensures { IfOk result (λ bytes. bytes.items ≡ spelling constant.now) }
{
    let mut bytes = Vec::new(alloc);
    put_constant(&mut bytes, constant)?;
    Ok(bytes)
}

impl PoolBuilder {
    /// A pool without entries.
    pub fn new(alloc: Global) -> PoolBuilder
        ensures { result ≡ [] }
    {
        PoolBuilder {
            alloc,
            entries: List::new(alloc),
            places: HashMap::new(alloc),
        }
    }

    /// The index of a constant, which is added where it is not there.
    fn put(&mut self, wanted: Constant) -> Result<u16, NoMemory>
        requires room { length self.old + 1 < 65535 }
        requires fits { Fits wanted }
        requires refer { IsTrue (refers self.old wanted) }
        ensures named { IfOk result (λ index. IsAt self.new index wanted) }
        ensures again { (i : ℕ) → IsAt self.old i wanted →
            IfOk result (λ index. (index ≡ i) × (self.new ≡ self.old)) }
        ensures added { Adds self.old self.new 1 (λ constant. constant ≡ wanted) }
    {
        let bytes = spelling_of(self.alloc, &wanted)?;
        if let Some(place) = self.places.get(&bytes) {
            return Ok(*place as u16 + 1);
        }
        let place = self.entries.len();
        self.places.reserve(1)?;
        self.entries.push(wanted)?;
        let noted: Result<_, _> = self.places.insert(bytes, place);
        noted.unwrap();
        Ok(place as u16 + 1)
    }

    /// The index of a text.
    pub fn utf8(&mut self, bytes: &[u8]) -> Result<u16, NoMemory>
        requires room { length self.old + 1 < 65535 }
        requires text { IsText bytes.now }
        ensures named { IfOk result (λ index. IsUtf8At self.new index bytes.now) }
        ensures again { (i : ℕ) → IsUtf8At self.old i bytes.now →
            IfOk result (λ index. (index ≡ i) × (self.new ≡ self.old)) }
        ensures added { Adds self.old self.new 1 (λ constant. constant ≡ Utf8 bytes.now) }
    {
        let text = Vec::from_slice(self.alloc, bytes)?;
        self.put(Constant::Utf8(List::wrap(text)))
    }

    /// The index of a number.
    pub fn integer(&mut self, number: i32) -> Result<u16, NoMemory>
        requires { length self.old + 1 < 65535 }
        ensures named { IfOk result (λ index. IsAt self.new index (Integer number)) }
        ensures again { (i : ℕ) → IsAt self.old i (Integer number) →
            IfOk result (λ index. (index ≡ i) × (self.new ≡ self.old)) }
        ensures added { Adds self.old self.new 1 (λ constant. constant ≡ Integer number) }
    {
        self.put(Constant::Integer(number))
    }

    /// The index of the class of this name.
    pub fn class(&mut self, name: &[u8]) -> Result<u16, NoMemory>
        requires room { length self.old + 2 < 65535 }
        requires text { IsText name.now }
        ensures named { IfOk result (λ index. IsClassAt self.new index name.now) }
        ensures again { (i : ℕ) → IsClassAt self.old i name.now →
            IfOk result (λ index. (index ≡ i) × (self.new ≡ self.old)) }
        ensures added { Adds self.old self.new 2 (IsClassPart self.new name.now) }
    {
        let text = self.utf8(name)?;
        self.put(Constant::Class(text))
    }

    /// The index of a member's name and descriptor.
    fn name_type(&mut self, name: &[u8], descriptor: &[u8]) -> Result<u16, NoMemory>
        requires room { length self.old + 3 < 65535 }
        requires name { IsText name.now }
        requires descriptor { IsText descriptor.now }
        ensures named { IfOk result (λ index. IsNameTypeAt self.new index name.now descriptor.now) }
        ensures again { (i : ℕ) → IsNameTypeAt self.old i name.now descriptor.now →
            IfOk result (λ index. (index ≡ i) × (self.new ≡ self.old)) }
        ensures added { Adds self.old self.new 3 (IsNameTypePart self.new name.now descriptor.now) }
    {
        let first = self.utf8(name)?;
        let second = self.utf8(descriptor)?;
        self.put(Constant::NameType(first, second))
    }

    /// The indices of a member's class, and of its name and descriptor.
    fn naming(
        &mut self,
        class: &[u8],
        name: &[u8],
        descriptor: &[u8],
    ) -> Result<(u16, u16), NoMemory>
        requires room { length self.old + 5 < 65535 }
        requires class { IsText class.now }
        requires name { IsText name.now }
        requires descriptor { IsText descriptor.now }
        ensures owner { IfOk result (λ pair. IsClassAt self.new pair.0 class.now) }
        ensures member { IfOk result (λ pair.
            IsNameTypeAt self.new pair.1 name.now descriptor.now) }
        ensures again { (i j : ℕ) → IsClassAt self.old i class.now →
            IsNameTypeAt self.old j name.now descriptor.now →
            IfOk result (λ pair. (pair.0 ≡ i) × (pair.1 ≡ j) × (self.new ≡ self.old)) }
        ensures added { Adds self.old self.new 5
            (IsNamingPart self.new class.now name.now descriptor.now) }
    {
        let owner = self.class(class)?;
        let member = self.name_type(name, descriptor)?;
        Ok((owner, member))
    }

    /// The index of a field, by the names of its class and of itself, and its descriptor.
    pub fn field(&mut self, class: &[u8], name: &[u8], descriptor: &[u8]) -> Result<u16, NoMemory>
        requires room { length self.old + 6 < 65535 }
        requires class { IsText class.now }
        requires name { IsText name.now }
        requires descriptor { IsText descriptor.now }
        ensures named { IfOk result (λ index.
            IsFieldAt self.new index class.now name.now descriptor.now) }
        ensures again { (i : ℕ) → IsFieldAt self.old i class.now name.now descriptor.now →
            IfOk result (λ index. (index ≡ i) × (self.new ≡ self.old)) }
        ensures added { Adds self.old self.new 6
            (IsMemberPart Field self.new class.now name.now descriptor.now) }
    {
        let (owner, member) = self.naming(class, name, descriptor)?;
        self.put(Constant::Field(owner, member))
    }

    /// The index of a method, by the names of its class and of itself, and its descriptor.
    pub fn method(&mut self, class: &[u8], name: &[u8], descriptor: &[u8]) -> Result<u16, NoMemory>
        requires room { length self.old + 6 < 65535 }
        requires class { IsText class.now }
        requires name { IsText name.now }
        requires descriptor { IsText descriptor.now }
        ensures named { IfOk result (λ index.
            IsMethodAt self.new index class.now name.now descriptor.now) }
        ensures again { (i : ℕ) → IsMethodAt self.old i class.now name.now descriptor.now →
            IfOk result (λ index. (index ≡ i) × (self.new ≡ self.old)) }
        ensures added { Adds self.old self.new 6
            (IsMemberPart Method self.new class.now name.now descriptor.now) }
    {
        let (owner, member) = self.naming(class, name, descriptor)?;
        self.put(Constant::Method(owner, member))
    }

    /// The pool of all entries, which has a spelling, and in which none stands twice.
    pub fn finish(self) -> Pool
        ensures same { result.entries ≡ self }
        ensures distinct { IsDistinct result.entries }
        ensures spelled { IsPool result.entries }
    {
        Pool {
            entries: self.entries,
        }
    }
}

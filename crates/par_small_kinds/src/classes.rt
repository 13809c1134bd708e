//! The classes that kinds name, each by a number.

use crate::small_kind::SmallKind;
use par_base::memory::NoMemory;
use par_place_kinds::PlaceKind;
use par_place_kinds::kind::is_in;
use std::alloc::Global;
use std::collections::BTreeMap;

/// The classes that were named so far.
pub struct Classes<'m, 'f> {
    /// The names of the classes of exceptions.
    exceptions: &'m [&'f [u8]],
    numbers: BTreeMap<&'f [u8], u16>,
    /// The name of each number.
    names: Vec<&'f [u8]>,
}

// Written out, so that what owns one is proved without its parts.
impl Drop for Classes<'_, '_> {
    fn drop(self) {
        let Classes {
            exceptions: _,
            numbers: _,
            names: _,
        } = self;
    }
}

impl<'m, 'f> Classes<'m, 'f> {
    /// None, where exceptions have these names.
    pub fn new(alloc: Global, exceptions: &'m [&'f [u8]]) -> Classes<'m, 'f> {
        Classes {
            exceptions,
            numbers: BTreeMap::new(alloc),
            names: Vec::new(alloc),
        }
    }

    /// How many bits the greatest number has.
    pub fn bits(&self) -> usize {
        let greatest = self.names.len().saturating_sub(1);
        usize::BITS.saturating_sub(greatest.leading_zeros()) as usize
    }

    /// The number of a class, from now on; none where there are too many.
    fn number(&mut self, name: &'f [u8]) -> Result<Option<u16>, NoMemory> {
        if let Some(number) = self.numbers.get(name) {
            return Ok(Some(*number));
        }
        let Ok(number) = u16::try_from(self.names.len()) else {
            return Ok(None);
        };
        self.names.push(name)?;
        self.numbers.insert(name, number)?;
        Ok(Some(number))
    }

    /// The kind of an object of a class.
    fn object(&mut self, name: &'f [u8]) -> Result<SmallKind, NoMemory> {
        let Some(number) = self.number(name)? else {
            return Ok(SmallKind::Top);
        };
        if is_in(self.exceptions, name) {
            return Ok(SmallKind::Exception(number));
        }
        Ok(SmallKind::Object(number))
    }

    /// A kind in few bytes.
    pub fn small(&mut self, kind: PlaceKind<'f>) -> Result<SmallKind, NoMemory> {
        match kind {
            PlaceKind::Top => Ok(SmallKind::Top),
            PlaceKind::Int => Ok(SmallKind::Int),
            PlaceKind::Null => Ok(SmallKind::Null),
            PlaceKind::Object(name) => self.object(name),
            PlaceKind::Base(true) => Ok(SmallKind::AnyException),
            PlaceKind::Base(false) => Ok(SmallKind::AnyObject),
        }
    }

    /// A kind with the name of its class.
    pub fn kind(&self, small: SmallKind) -> PlaceKind<'f> {
        let number = match small {
            SmallKind::Unset => return PlaceKind::Top,
            SmallKind::Int => return PlaceKind::Int,
            SmallKind::Null => return PlaceKind::Null,
            SmallKind::Exception(number) => number,
            SmallKind::Object(number) => number,
            SmallKind::AnyException => return PlaceKind::Base(true),
            SmallKind::AnyObject => return PlaceKind::Base(false),
            SmallKind::Top => return PlaceKind::Top,
        };
        match self.names.get(usize::from(number)) {
            Some(name) => PlaceKind::Object(name),
            None => PlaceKind::Top,
        }
    }
}

//! The numbers of classes, as they are looked up by name.

ghost use Rattle.std.specs.Prelude.{◌≡◌, ◌≤◌, length, IfOk};
ghost use Rattle.std.specs.List.{position};
ghost use Rattle.std.specs.Option.{option_map};
ghost use Rattle.std.specs.Str.{bytes_eq};
ghost use Rattle.par_single.specs.Descriptors.{kind_of};
ghost use Rattle.par_single.specs.Members.{own_names};
ghost use Rattle.par_step_laws.specs.Classes.{class_names};
ghost use Rattle.par_index.specs.Texts.{texts};
ghost use Rattle.par_method_area.specs.Fits.{fit_at, fit_or_any, gives_of};

use par_actions::{Fit, Gives};
use par_base::memory::NoMemory;
use par_class::file::ClassFile;
use par_index::Firsts;
use par_single::descriptor::Said;
use par_single::member::own_name;
use std::alloc::Global;
use std::marker::Model;

/// The name of the exception of division by zero, as a run shows it.
pub(crate) const ARITHMETIC_EXCEPTION: &[u8] = b"ArithmeticException";

/// The name of the exception of null.
pub(crate) const NULL_POINTER_EXCEPTION: &[u8] = b"NullPointerException";

/// The names of classes, each with its number. Contracts see the list of the names.
#[derive(Drop)]
pub(crate) struct ClassNumbers<'f> {
    names: Vec<&'f [u8]>,
    firsts: Firsts<&'f [u8]>,
}

impl<'f> Model for ClassNumbers<'f> {
    ghost use Rattle.std.specs.Prelude.{List, ℕ};

    ghost Value = { List (List ℕ) };

    ghost use Rattle.par_index.specs.Texts.{texts};
    ghost use Rattle.par_method_area.specs.Names.{AreNumbered};

    ghost view = { λ numbers. texts numbers.names.items };

    ghost invariant = { λ numbers. AreNumbered numbers.names.items numbers.firsts };
}

/// The names of the classes of some files, and behind them those of the two exceptions that every
/// program has.
fn class_names(alloc: Global, files: &[ClassFile]) -> Result<Vec<&[u8]>, NoMemory>
    ensures { IfOk result (λ names. texts names.items ≡ class_names files.now) }
{
    let mut names = own_names(alloc, files)?;
    names.push(ARITHMETIC_EXCEPTION)?;
    names.push(NULL_POINTER_EXCEPTION)?;
    Ok(names)
}

/// The names of the classes of some files.
fn own_names(alloc: Global, files: &[ClassFile]) -> Result<Vec<&[u8]>, NoMemory>
    ensures { IfOk result (λ names. texts names.items ≡ own_names files.now) }
{
    let mut names = Vec::new(alloc);
    for file in files {
        names.push(own_name(file))?;
    }
    Ok(names)
}

/// What a place takes whose kind has this class.
fn fit_at(class: Option<u16>) -> Fit
    ensures { result ≡ fit_at class }
{
    match class {
        None => Fit::Nothing,
        Some(class) => Fit::OfClass(class),
    }
}

impl<'f> ClassNumbers<'f> {
    /// The numbers of the classes of some files.
    pub(crate) fn of(alloc: Global, files: &'f [ClassFile]) -> Result<ClassNumbers<'f>, NoMemory>
        requires { length files.now ≤ 128 }
        ensures { IfOk result (λ numbers. numbers ≡ class_names files.entry.now) }
    {
        let names = class_names(alloc, files)?;
        let firsts = Firsts::of(alloc, names.as_slice())?;
        Ok(ClassNumbers { names, firsts })
    }

    /// The number of the class of this name.
    fn number(&self, name: &[u8]) -> Option<u16>
        ensures { result ≡ position (bytes_eq name.now) self.now }
    {
        match self.firsts.place(&name) {
            None => None,
            Some(place) => Some(place as u16),
        }
    }

    /// What a place takes whose descriptor says this, and anything where it says nothing.
    pub(crate) fn fit(&self, said: Option<Said>) -> Fit
        ensures { result ≡ fit_or_any self.now (option_map kind_of said.entry) }
    {
        match said {
            None => Fit::Anything,
            Some(Said::Number) => Fit::Number,
            Some(Said::Object(name)) => fit_at(self.number(name)),
        }
    }

    /// What a method gives whose descriptor says this.
    pub(crate) fn gives(&self, said: Option<Said>) -> Gives
        ensures { result ≡ gives_of self.now (option_map kind_of said.entry) }
    {
        match said {
            None => Gives::Nothing,
            Some(Said::Number) => Gives::Number,
            Some(Said::Object(name)) => Gives::Object(fit_at(self.number(name))),
        }
    }
}

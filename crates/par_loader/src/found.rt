//! The file of one class.

ghost use Rattle.std.specs.Prelude.{◌≡◌, ◌≤◌, Err, Option, IfOk, IfErr, IsTrue, length};
ghost use Rattle.par_io.specs.Causes.{Makes, NoneFalls};
ghost use Rattle.par_class.specs.Reading.{file_at};
ghost use Rattle.par_class.specs.Spelling.{Spells};
ghost use Rattle.par_single.specs.Members as members;
ghost use Rattle.par_loader.specs.Reads.{Text, class_file, WasFound};
ghost use Rattle.par_loader.specs.Ends.{IsRead};
ghost use Rattle.par_loader.specs.Found as spec;
ghost use Rattle.par_loader.specs.Found.{taken_as, refused_as, found_in, Finds};

use par_class::{ClassFile, LONGEST_CLASS, read_class};
use par_io::{Folder, ReadFail};
use par_pool::error::ClassError;
use par_single::member::own_name;
use std::alloc::Global;

/// Why a class has no file that is taken.
#[derive(Clone, Copy)]
pub(crate) enum Unfound {
    /// There is none.
    Absent,
    /// It is too long.
    TooLong,
    /// The read failed.
    Failed,
    /// It is one of another class.
    Another,
    /// Its bytes are refused: the number of the refusal, and what it carries.
    Broken { number: u16, value: u32 },
    /// Memory is wanting.
    Memory,
}

/// A refusal by its number.
#[tactic(auto, unfolding(crate::specs::Found::refused_as, crate::specs::Found::Finds))]
fn refusal(error: ClassError) -> Unfound
    ensures refused { Finds (Err result) (refused_as error) }
    ensures memory { error ≡ ClassError.Memory → result ≡ Unfound.Memory }
    ensures told { spec.IsOfBytes result }
{
    let (number, value) = match error {
        ClassError::Magic => (30, 0),
        ClassError::Version(major) => (31, major as u32),
        ClassError::Cut(length) => (32, length),
        ClassError::Pool(index) => (33, index as u32),
        ClassError::Index(at) => (34, at),
        ClassError::Extra(at) => (35, at),
        ClassError::Shape(at) => (36, at),
        ClassError::Memory => return Unfound::Memory,
    };
    Unfound::Broken { number, value }
}

/// The class file that bytes spell, where it is one of this class.
fn taken(alloc: Global, class: &[u8], bytes: &[u8]) -> Result<ClassFile, Unfound>
    requires { length bytes.now ≤ LONGEST_CLASS }
    ensures taken { Finds result (taken_as class.now (file_at bytes.now)) }
    ensures spelled { IfOk result (Spells bytes.now) }
    ensures own { IfOk result (λ file. members.own_name file ≡ class.now) }
    ensures told { IfErr result spec.IsOfBytes }
{
    match read_class(alloc, bytes) {
        Ok(file) => {
            if own_name(&file) == class {
                Ok(file)
            } else {
                Err(Unfound::Another)
            }
        }
        Err(error) => Err(refusal(error)),
    }
}

/// The file of a class, which has this name in the folder.
pub(crate) fn class_file<F: Folder>(
    alloc: Global,
    folder: &mut F,
    class: &[u8],
    name: &str,
) -> Result<ClassFile, Unfound>
    requires { name.now ≡ class_file class.now }
    ensures kept { F.files folder.new ≡ F.files folder.old }
    ensures counted { Makes 1 0 (F.counts folder.old) (F.counts folder.new) }
    ensures none_falls { NoneFalls (F.counts folder.old) (F.counts folder.new) }
    ensures faults_are_told { IsTrue F.counts_faults_alone →
        spec.FaultsStand result (F.counts folder.old).faults (F.counts folder.new).faults }
    ensures found { (found : Option Text) × WasFound (F.files folder.old) class.now found
        × Finds result (found_in class.now found) }
    ensures read { IfOk result (IsRead (F.files folder.old)) }
    ensures own { IfOk result (λ file. members.own_name file ≡ class.now) }
    ensures rose { IfErr result (λ fail.
        spec.Rises fail (F.counts folder.old) (F.counts folder.new)) }
{
    match folder.read(alloc, name, LONGEST_CLASS as u64) {
        Ok(bytes) => taken(alloc, class, bytes.as_slice()),
        Err(ReadFail::Absent) => Err(Unfound::Absent),
        Err(ReadFail::TooLong) => Err(Unfound::TooLong),
        Err(ReadFail::Failed) => Err(Unfound::Failed),
        Err(ReadFail::Memory) => Err(Unfound::Memory),
    }
}

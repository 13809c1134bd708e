//! What is done to verify a class: its class files are read and linked, and frames are sought for
//! each of their methods. No input file is read.

ghost use Rattle.std.specs.Prelude.{◌≡◌, ◌<◌, IsTrue, IfOk, IfErr, length};
ghost use Rattle.par_lexer.specs.par_base.Names.{IsName};
ghost use Rattle.par_loader.specs.declared.error.Unloaded.TheVariants as unloaded;
ghost use Rattle.par_tool.specs.Classes.{IsUnlinked};
ghost use Rattle.par_tool.specs.Failures.{IsFailure, FaultsAreTold};
ghost use Rattle.par_tool.specs.Verifications.{IsAnsweredFor, IsUnverifiable, VerifiedSo};
ghost use Rattle.par_tool.specs.Verifications.{IsNameAt, IsUnverifiedBy};

use crate::answer::Answer;
use crate::reads::Failure;
use par_framed_program::framed;
use par_io::Folder;
use par_lexer::memory::NoMemory;
use par_lexer::name::Name;
use par_link::Linked;
use par_loader::{linked_program, main_file};
use par_single::member::own_name;
use par_verify::{VerifyError, verify_linked};
use std::alloc::Global;

/// The number of a class with a method that no frames fit.
pub const UNFIT: u16 = 47;

/// The name of the class at a place of the list.
fn class_name(alloc: Global, linked: &Linked, class: u16) -> Result<Name, NoMemory>
    requires { class < length linked.now }
    ensures { IfOk result (IsNameAt linked.now class) }
{
    let _ = linked.count();
    let Some(file) = linked.file(class) else {
        unreachable!();
    };
    Name::new(alloc, own_name(file))
}

/// What is told of linked files that are not verified: the class of the first method that no frames
/// fit, and the place of the method in its table.
fn unverified(alloc: Global, linked: &Linked, error: VerifyError) -> Result<Answer, NoMemory>
    requires { IsUnverifiedBy linked.now error }
    ensures { IfOk result (IsUnverifiable linked.now) }
{
    let unfit = error.unfit()?;
    let class = class_name(alloc, linked, unfit.class)?;
    Ok(Answer::BadClass {
        class,
        number: UNFIT,
        value: unfit.method,
    })
}

/// Verifies linked class files: how many there are.
fn verified(alloc: Global, linked: &Linked) -> Result<Answer, Failure>
    ensures verified { IfOk result (IsAnsweredFor linked.now) }
    ensures failed { IfErr result (IsFailure (IsUnverifiable linked.now)) }
{
    framed(alloc, linked)?;
    match verify_linked(alloc, linked) {
        Ok(()) => Ok(Answer::Verified(u32::from(linked.count()))),
        Err(error) => Err(Failure::Answered(unverified(alloc, linked, error)?)),
    }
}

/// Verifies the class files of a class.
pub fn verify_class<F: Folder>(alloc: Global, folder: &mut F, main: &str) -> Result<Answer, Failure>
    requires { IsName main.now }
    ensures kept { F.files folder.new ≡ F.files folder.old }
    ensures faults_are_told { IsTrue F.counts_faults_alone →
        FaultsAreTold result (F.counts folder.old).faults (F.counts folder.new).faults }
    ensures verified { IfOk result (VerifiedSo (F.files folder.old)
        (F.counts folder.old) (F.counts folder.new) main.now) }
    ensures failed { IfErr result (IsFailure (VerifiedSo (F.files folder.old)
        (F.counts folder.old) (F.counts folder.new) main.now)) }
    ensures memory { IfErr result (λ e. e ≡ Failure.Memory →
        IsUnlinked (F.files folder.old) (F.counts folder.old) (F.counts folder.new)
        main.now unloaded.Memory) }
{
    let file = main_file(alloc, folder, main)?;
    let linked = linked_program(alloc, folder, file)?;
    // Linked files break no rule of linking.
    let _ = linked.count();
    verified(alloc, &linked)
}

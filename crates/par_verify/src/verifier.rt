//! Whether frames fit the methods of linked files.

ghost use Rattle.std.specs.Prelude.{◌≡◌, ◌<◌, IfOk, Some, length, slice_get, option_map};
ghost use Rattle.par_single.specs.Descriptors.{kind_of};
ghost use Rattle.par_single.specs.Members.{own_name};
ghost use Rattle.par_kinds.specs.Linked.{exception_names, first_frame, result_of};
ghost use Rattle.par_frame_steps.specs.Marks.{names, kinds_of, frame_of};
ghost use Rattle.par_frame_passes.specs.Tables.{table_of};
ghost use Rattle.par_given_frames.specs.par_frames.Given.{start_of};
ghost use Rattle.par_verify_laws.specs.Verified.{AreFramesOf};
ghost use Rattle.par_verify.specs.Answers.{HaveFrames, OfFrames, IsMethod, IsFirstIn, Says, Passes};
ghost use Rattle.par_verify.specs.Answers.{Verified};
ghost use Rattle.par_verify.specs.Calls.{AreCalls};
ghost use Rattle.par_verify.specs.Starts.{IsTold};
ghost use Rattle.par_verify.specs.Told.{IsFirst, IsVerdictOn};

use crate::begun::told_table;
use crate::error::{Unfit, VerifyError};
use crate::first::{Call, call_at, calls, first_frame};
use crate::judgement::{Site, judge};
use crate::names::exception_names;
use par_base::list::List;
use par_base::memory::NoMemory;
use par_class::file::{ClassFile, CodeAttr, MethodFile};
use par_frame_passes::Table;
use par_frame_steps::PlaceFrame;
use par_given_frames::method_forms;
use par_kinds::MethodFrames;
use par_link::Linked;
use par_single::member::{is_static, own_name};
use std::alloc::Global;

/// Linked files and the names of their exception classes.
#[derive(Clone, Copy)]
struct Program<'m, 'f> {
    linked: &'f Linked,
    exceptions: &'m [&'f [u8]],
}

/// The frames that a method tells, by the offsets of its code. They are read where they are asked
/// for, so that those of one method alone are kept, and share their locals.
fn told_frames<'f>(
    alloc: Global,
    file: &'f ClassFile,
    method: &MethodFile,
    code: &CodeAttr,
    first: &PlaceFrame<'f>,
) -> Result<Table<'f>, NoMemory>
    requires { kinds_of first.now.locals ≡ start_of file.now method.now }
    ensures many { IfOk result (λ table. length table.items ≡ length code.now.code) }
    ensures told { IfOk result (λ table.
        IsTold file.entry.now method.now code.now (table_of table.items)) }
{
    let forms = method_forms(alloc, file, method)?;
    let entries = file.pool.entries.as_slice();
    told_table(alloc, entries, code, &first.locals, forms.as_slice())
}

/// Whether a method with code is verified, where this is the frame of a call of it.
fn fits_from<'f>(
    alloc: Global,
    site: Site<'_, 'f>,
    file: &'f ClassFile,
    place: usize,
    method: &MethodFile,
    first: &PlaceFrame<'f>,
) -> Result<bool, NoMemory>
    requires exceptions { names site.exceptions.now ≡ exception_names site.linked.now }
    requires there { IsMethod site.linked.now site.class file.now place method.now }
    requires coded { method.now.code ≡ Some site.code.now }
    requires gives { option_map kind_of site.gives ≡ result_of site.linked.now site.class place }
    requires listed { kinds_of first.now.locals ≡ start_of file.now method.now }
    requires first { frame_of first.now ≡ first_frame site.linked.now site.class place }
    ensures { IfOk result (λ fits. OfFrames site.entry.linked.now
        (λ all. Says site.entry.linked.now all site.entry.class place fits)) }
{
    let mut table = told_frames(alloc, file, method, site.code, first)?;
    // Code of linked files is short.
    let _ = site.linked.count();
    let fits = judge(alloc, site, first, table.as_mut_slice());
    drop(table);
    fits
}

/// Whether a method with code is verified.
fn is_verified<'f>(
    alloc: Global,
    program: Program<'_, 'f>,
    class: u16,
    file: &'f ClassFile,
    calls: &[Call<'f>],
    place: usize,
    method: &'f MethodFile,
    code: &'f CodeAttr,
) -> Result<bool, NoMemory>
    requires exceptions { names program.exceptions.now ≡ exception_names program.linked.now }
    requires there { IsMethod program.linked.now class file.now place method.now }
    requires coded { method.now.code ≡ Some code.now }
    requires calls { AreCalls (own_name file.now) file.now.pool.entries calls.now }
    ensures { IfOk result (λ fits. OfFrames program.entry.linked.now
        (λ all. Says program.entry.linked.now all class place fits)) }
{
    let call = call_at(calls, method.descriptor);
    let site = Site {
        linked: program.linked,
        class,
        code,
        gives: call.gives,
        exceptions: program.exceptions,
    };
    let first = first_frame(alloc, code.max_locals, is_static(method.access), call)?;
    let fits = fits_from(alloc, site, file, place, method, &first);
    drop(first);
    fits
}

/// Whether a method is verified, if it has code.
fn passes<'f>(
    alloc: Global,
    program: Program<'_, 'f>,
    class: u16,
    file: &'f ClassFile,
    calls: &[Call<'f>],
    place: usize,
) -> Result<bool, NoMemory>
    requires exceptions { names program.exceptions.now ≡ exception_names program.linked.now }
    requires listed { slice_get program.linked.now class ≡ Some file.now }
    requires inside { place < length file.now.methods }
    requires calls { AreCalls (own_name file.now) file.now.pool.entries calls.now }
    ensures { IfOk result (λ fits. OfFrames program.entry.linked.now
        (λ all. Passes program.entry.linked.now all class place fits)) }
{
    let method = &file.methods.as_slice()[place];
    match &method.code {
        Some(code) => is_verified(alloc, program, class, file, calls, place, method, code),
        None => Ok(true),
    }
}

/// The first method of a file that is not verified.
fn first_unfit(alloc: Global, program: Program<'_, '_>, class: u16) -> Result<Option<u32>, NoMemory>
    requires exceptions { names program.exceptions.now ≡ exception_names program.linked.now }
    ensures { IfOk result (λ first. OfFrames program.entry.linked.now
        (λ all. IsFirstIn program.entry.linked.now all class first)) }
{
    let Some(file) = program.linked.file(class) else {
        return Ok(None);
    };
    // A file counts its methods by two bytes.
    let _ = program.linked.count();
    let calls = calls(alloc, own_name(file), file.pool.entries.as_slice())?;
    for place in 0..file.methods.len() {
        let fits = passes(alloc, program, class, file, calls.as_slice(), place)?;
        if !fits {
            return Ok(Some(place as u32));
        }
    }
    Ok(None)
}

/// The first method of linked files that is not verified, files in their order and methods in that
/// of their tables.
fn first_misfit(alloc: Global, linked: &Linked) -> Result<Option<Unfit>, NoMemory>
    ensures { IfOk result (λ first. OfFrames linked.now (λ all. IsFirst linked.now all first)) }
{
    let exceptions = exception_names(alloc, linked)?;
    let program = Program {
        linked,
        exceptions: exceptions.as_slice(),
    };
    for class in 0..linked.count() {
        let first = first_unfit(alloc, program, class)?;
        if let Some(method) = first {
            return Ok(Some(Unfit { class, method }));
        }
    }
    Ok(None)
}

/// What is answered where this is the first method that is not verified.
fn verdict(first: Option<Unfit>) -> Result<(), VerifyError>
    ensures { IsVerdictOn first result }
{
    match first {
        Some(Unfit { class, method }) => Err(VerifyError::Broken { class, method }),
        None => Ok(()),
    }
}

/// Whether frames fit the code of each method, and are in a file of version 51 those that it tells
/// at the offsets at which it tells some. If not, the first method that has none, files in their
/// order and methods in that of their tables.
pub fn verify_linked(alloc: Global, linked: &Linked) -> Result<(), VerifyError>
    requires { HaveFrames linked.now }
    ensures { OfFrames linked.now (λ all. Verified linked.now all result) }
{
    let first = first_misfit(alloc, linked)?;
    verdict(first)
}

/// The same of files whose frames are at hand. These are those that the files tell, so that they
/// are asked for no more.
pub fn verify(
    alloc: Global,
    linked: &Linked,
    frames: &List<List<MethodFrames>>,
) -> Result<(), VerifyError>
    requires { AreFramesOf linked.now frames.now }
    ensures { Verified linked.now frames.now result }
{
    let _ = frames;
    verify_linked(alloc, linked)
}

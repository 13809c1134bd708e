//! The frames of a method.

ghost use Rattle.std.specs.Prelude.{◌≡◌, ◌↔◌, ℕ, ◌≤◌, ◌<◌, ◌^◌, false, length, replicate, IsTrue};
ghost use Rattle.std.specs.Prelude.{slice_index_or, IfOk, IfSome};
ghost use Rattle.std.specs.List.{list_any};
ghost use Rattle.par_base.specs.Names.{IsName};
ghost use Rattle.par_single.specs.Members as members;
ghost use Rattle.par_single.specs.Walk.{starts_at};
ghost use Rattle.par_frames.specs.par_link.Conditions.{is_short};
ghost use Rattle.par_frames.specs.Given as given;
ghost use Rattle.par_frames.specs.Given.{frames_given};
ghost use Rattle.par_frames.specs.Broken.{HasFrames};
ghost use Rattle.par_given_frames.specs.Reads.{Gives};
ghost use Rattle.par_given_frames.specs.Named as named;
ghost use Rattle.par_given_frames.specs.Named.{AreNamed, GivesFrames};
ghost use Rattle.par_given_frames.specs.Answers.{AnswersFor, AreRight, AreFormsOf, Tells};
ghost use Rattle.par_given_frames.specs.Takes.{AreCounts};

use crate::error::{Unread, read_or};
use crate::form_reader::forms_in;
use crate::frames::{frames_said, start_of};
use crate::needed::are_met;
use crate::sizes::place_all;
use crate::takes::many_given;
use par_base::list::List;
use par_base::memory::NoMemory;
use par_class::file::{Attribute, ClassFile, CodeAttr, MethodFile};
use par_frame_forms::FrameForm;
use par_kinds::frame::{MethodFrames, PlacedFrame};
use par_pool::constant::Constant;
use par_pool::kind::entry;
use par_starts::Starts;
use std::alloc::Global;

/// The version of class files whose methods have frames.
const FRAMED: u16 = 51;

/// Whether an attribute has the frames of a method.
fn is_table(entries: &[Constant], attribute: &Attribute) -> bool
    ensures { result ≡ given.is_table entries.now attribute.now }
{
    match entry(entries, attribute.name) {
        Some(Constant::Utf8(text)) => text.as_slice() == b"StackMapTable".as_slice(),
        _ => false,
    }
}

/// Whether some attribute has.
fn has_table(entries: &[Constant], attributes: &[Attribute]) -> bool
    ensures { result ≡ list_any (given.is_table entries.now) attributes.now }
{
    attributes.iter().any(|a| is_table(entries, a))
}

/// The forms that the attributes of code spell, of which one may have frames.
fn forms_given(
    alloc: Global,
    entries: &[Constant],
    attributes: &[Attribute],
) -> Result<List<FrameForm>, Unread>
    ensures forms { Gives (λ forms. forms) result (named.forms_given entries.now attributes.now) }
    ensures few { IfOk result (λ forms. length forms < 2 ^ 16) }
{
    let mut rest = attributes;
    while let [a, behind @ ..] = rest {
        if is_table(entries, a) {
            if has_table(entries, behind) {
                return Err(Unread::Refused);
            }
            return forms_in(alloc, a.bytes.as_slice());
        }
        rest = behind;
    }
    Ok(List::new(alloc))
}

/// Whether all forms say frames that stand where they may, and all needed offsets have one.
fn are_right(
    flags: &mut [bool],
    starts: &Starts,
    code: &CodeAttr,
    entries: &[Constant],
    listed: usize,
    forms: &[FrameForm],
) -> bool
    requires blank { flags.old ≡ replicate (length code.now.code) false }
    requires short { length code.now.code ≤ 65535 }
    requires starts { (k : ℕ) → slice_index_or starts.now k false ≡ starts_at code.now.code k }
    requires few { listed < 2 ^ 63 }
    ensures { IsTrue result ↔ AreRight code.now entries.now listed forms.now }
{
    place_all(flags, starts, code, entries, listed, forms) && are_met(flags, starts, code)
}

/// Whether the forms that the attributes of code spell give frames.
fn spells_frames(
    alloc: Global,
    counts: &[usize],
    file: &ClassFile,
    m: &MethodFile,
    code: &CodeAttr,
) -> Result<bool, Unread>
    requires short { length code.now.code ≤ 65535 }
    requires counted { AreCounts file.now.pool.entries counts.now }
    ensures { Tells (GivesFrames file.now m.now code.now) result }
{
    let entries = file.pool.entries.as_slice();
    let forms = forms_given(alloc, entries, code.attributes.as_slice())?;
    let bytes = code.code.as_slice();
    let starts = Starts::of(alloc, bytes)?;
    let mut flags = vec![in alloc; false; bytes.len()]?;
    let listed = many_given(counts, m);
    Ok(are_right(
        flags.as_mut_slice(),
        &starts,
        code,
        entries,
        listed,
        forms.as_slice(),
    ))
}

/// Whether the attributes of code give frames: none where they spell no list of forms.
fn gives_frames(
    alloc: Global,
    counts: &[usize],
    file: &ClassFile,
    m: &MethodFile,
    code: &CodeAttr,
) -> Result<bool, NoMemory>
    requires short { length code.now.code ≤ 65535 }
    requires counted { AreCounts file.now.pool.entries counts.now }
    ensures { IfOk result (λ gives. IsTrue gives ↔ GivesFrames file.now m.now code.now) }
{
    read_or(spells_frames(alloc, counts, file, m, code), false)
}

/// Whether a method has frames, of which none is kept.
pub(crate) fn has_frames(
    alloc: Global,
    counts: &[usize],
    file: &ClassFile,
    m: &MethodFile,
) -> Result<bool, NoMemory>
    requires short { IsTrue (is_short m.now.code) }
    requires counted { AreCounts file.now.pool.entries counts.now }
    ensures { IfOk result (λ has. IsTrue has ↔ HasFrames file.now m.now) }
{
    if file.major != FRAMED {
        return Ok(true);
    }
    match &m.code {
        Some(code) => gives_frames(alloc, counts, file, m, code),
        None => Ok(true),
    }
}

/// The frames that the attributes of code say.
fn given_frames(
    alloc: Global,
    file: &ClassFile,
    m: &MethodFile,
    code: &CodeAttr,
) -> Result<List<PlacedFrame>, Unread>
    requires own { IsName (members.own_name file.now) }
    requires named { AreNamed file.now.pool.entries }
    ensures { Gives (λ frames. frames) result
        (frames_given file.now m.now code.now.attributes) }
{
    let entries = file.pool.entries.as_slice();
    let forms = forms_given(alloc, entries, code.attributes.as_slice())?;
    let start = start_of(alloc, file, m)?;
    frames_said(alloc, entries, start.as_slice(), forms.as_slice())
}

/// The frames of a method.
pub(crate) fn method_frames(
    alloc: Global,
    counts: &[usize],
    file: &ClassFile,
    m: &MethodFile,
) -> Result<MethodFrames, Unread>
    requires short { IsTrue (is_short m.now.code) }
    requires counted { AreCounts file.now.pool.entries counts.now }
    requires own { IsName (members.own_name file.now) }
    requires named { AreNamed file.now.pool.entries }
    ensures { AnswersFor file.now m.now result }
{
    if file.major != FRAMED {
        return Ok(MethodFrames {
            at: List::new(alloc),
        });
    }
    if !has_frames(alloc, counts, file, m)? {
        return Err(Unread::Refused);
    }
    match &m.code {
        Some(code) => {
            let at = given_frames(alloc, file, m, code)?;
            Ok(MethodFrames { at })
        }
        None => Ok(MethodFrames {
            at: List::new(alloc),
        }),
    }
}

/// The forms that attributes of code spell, none where they spell no list of forms.
fn spelled_forms(
    alloc: Global,
    entries: &[Constant],
    attributes: &[Attribute],
) -> Result<List<FrameForm>, NoMemory>
    ensures spelled { IfOk result (λ forms.
        IfSome (named.forms_given entries.now attributes.now) (λ given. forms ≡ given)) }
    ensures few { IfOk result (λ forms. length forms < 2 ^ 16) }
{
    read_or(forms_given(alloc, entries, attributes), List::new(alloc))
}

/// The forms of the frames of a method, which take no more memory than its attributes. Where it
/// has no frames, nothing is said of them.
pub fn method_forms(
    alloc: Global,
    file: &ClassFile,
    m: &MethodFile,
) -> Result<List<FrameForm>, NoMemory>
    ensures say { IfOk result (AreFormsOf file.now m.now) }
    ensures few { IfOk result (λ forms. length forms < 2 ^ 16) }
{
    if file.major != FRAMED {
        return Ok(List::new(alloc));
    }
    match &m.code {
        Some(code) => spelled_forms(
            alloc,
            file.pool.entries.as_slice(),
            code.attributes.as_slice(),
        ),
        None => Ok(List::new(alloc)),
    }
}
